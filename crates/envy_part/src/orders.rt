// Orders to a port, each of which is looked at when the port returns.
ghost use Rattle.std.specs.Prelude.{◌≡◌, ◌≢◌, IsTrue, IsFalse, length};
ghost use Rattle.envy_base.specs.State.{IsPage};
ghost use Rattle.envy_bank.specs.Lanes.{row_from};
ghost use Rattle.envy_part.specs.Orders.{Adds};
ghost use Rattle.envy_part.specs.Orders.Order.{Programs, Erases};
ghost use Rattle.envy_part.specs.Part.{ArePages, AreOnes, HasZeros};

use crate::Port;
use crate::rows::{bytes_of, words};
use envy_base::{PAGE_LENGTH, Page};

const ONES: Page = [u64::MAX; PAGE_LENGTH];

/// Orders that a row become the page, once, and answers whether it is.
pub fn program<P: Port>(port: &mut P, row: &mut [u8; 256], page: &Page) -> bool
    ensures page { IsPage (row_from row.new) }
    ensures held { IsTrue result → row_from row.new ≡ page.now }
    ensures bad { IsFalse result → row_from row.new ≢ page.now }
    ensures ordered { Adds (Programs page.now) (P.orders port.old) (P.orders port.new) }
{
    port.program(row, &bytes_of(page));
    let found = words(row);
    found == *page
}

/// Orders that the rows become all ones, once, and answers whether they are.
pub fn erase<P: Port>(port: &mut P, rows: &mut [[u8; 256]]) -> bool
    ensures long { length rows.new ≡ length rows.old }
    ensures pages { ArePages rows.new }
    ensures held { IsTrue result → AreOnes rows.new }
    ensures bad { IsFalse result → HasZeros rows.new }
    ensures ordered { Adds (Erases (length rows.old)) (P.orders port.old) (P.orders port.new) }
{
    port.erase(rows);
    let mut held = true;
    for q in 0..rows.len() {
        if words(&rows[q]) != ONES {
            held = false;
        }
    }
    held
}
