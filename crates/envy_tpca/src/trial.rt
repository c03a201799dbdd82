//! One try of a transfer.

ghost use Rattle.std.specs.Prelude.{◌≡◌, ℕ, ◌^◌, ◌<◌, ◌≤◌, List, OnOk, length};
ghost use Rattle.envy_array.specs.Array.{page_of, put_back};
ghost use Rattle.envy_memory.specs.Picture.{Picture};
ghost use Rattle.envy_tpca.specs.declared.places.Places.{Places};
ghost use Rattle.envy_tpca.specs.declared.transfer.Transfer.{Transfer as ATransfer};
ghost use Rattle.envy_tpca.specs.Loading.{Accessed};
ghost use Rattle.envy_tpca.specs.Since.{Since};
ghost use Rattle.envy_tpca.specs.Trial.{IsTried, IsRoomy, writes, balances_of, row_of};
ghost use Rattle.envy_tpca.specs.Trying.{Rests, Running, AfterPut, AfterTry};

use crate::calls::{add, close, open, put_word};
use crate::{Fault, Spots, Transfer};
use envy_base::Bench;
use envy_memory::Memory;

/// Adds to the three balances.
pub fn put_balances<B: Bench>(
    memory: &mut Memory<B>,
    slot: u8,
    at: Spots,
    t: Transfer,
) -> Result<(), Fault>
    ensures after { (n : ℕ) (first : Picture) (l : Places) (size : ℕ) (ts : List ATransfer) (before : List ℕ)
        → Running n first before before slot 0 0 memory.old
        → IsTried first.chart.shape.shadows l size ts before (length ts) t at
        → AfterPut n first before (put_back (balances_of at ts t) before) slot 3 (page_of at.branch) result memory.new }
    ensures accessed { OnOk result (Accessed 6 memory.old.parts.cache memory.new.parts.cache) }
{
    add(memory, slot, at.account, t.delta)?;
    add(memory, slot, at.teller, t.delta)?;
    add(memory, slot, at.branch, t.delta)
}

/// Puts the row of history.
pub fn put_row<B: Bench>(
    memory: &mut Memory<B>,
    slot: u8,
    row: u32,
    t: Transfer,
) -> Result<(), Fault>
    requires row { row < 2 ^ 31 }
    ensures after { (n : ℕ) (first : Picture) (before now : List ℕ) (last : ℕ)
        → Running n first before now slot 3 last memory.old → IsRoomy first.chart.shape.shadows now row t
        → AfterPut n first before (put_back (row_of row t) now) slot 4 (page_of row) result memory.new }
    ensures accessed { OnOk result (Accessed 4 memory.old.parts.cache memory.new.parts.cache) }
{
    put_word(memory, slot, row, u64::from(t.account))?;
    put_word(memory, slot, row + 1, u64::from(t.teller))?;
    put_word(memory, slot, row + 2, u64::from(t.branch))?;
    put_word(memory, slot, row + 3, t.delta.cast_unsigned())
}

/// Does transfer `i` as one transaction: the balances of its account, teller and branch, its row of history, and the
/// number of transfers that are done.
pub fn try_transfer<B: Bench>(
    memory: &mut Memory<B>,
    at: Spots,
    i: u32,
    t: Transfer,
) -> Result<(), Fault>
    requires row { at.row < 2 ^ 31 }
    ensures after { (n : ℕ) (first : Picture) (l : Places) (size : ℕ) (ts : List ATransfer) (before : List ℕ)
        → Rests before memory.old → Since n first memory.old → IsTried first.chart.shape.shadows l size ts before i t at
        → AfterTry n first before (put_back (writes l ts t) before) result memory.new }
    ensures accessed { OnOk result (Accessed 11 memory.old.parts.cache memory.new.parts.cache) }
{
    let slot = open(memory)?;
    put_balances(memory, slot, at, t)?;
    put_row(memory, slot, at.row, t)?;
    put_word(memory, slot, 0, u64::from(i) + 1)?;
    close(memory, slot)
}
