ghost use Rattle.std.specs.Prelude.{◌≡◌, ◌*◌, ◌<◌, ◌≤◌, IfOk, length, slice_index};
ghost use Rattle.envy_base.specs.State.{ands};
ghost use Rattle.envy_bank.specs.Rows.{IsBank, ErasesBlock, erased_bank, row_of, with_row};
ghost use Rattle.envy_bench.specs.TornRows.{torn_row, TearsRows};

use crate::Torn;
use crate::torn_rows::next_row;
use envy_bank::{Bank, NoMemory};
use envy_base::{MOST_ROWS, PAGE_WORDS, Page};
use std::alloc::Global;
use std::marker::Model;

/// The flash of a board: a bank whose blocks are the segments.
#[derive(Drop)]
pub struct Flash {
    bank: Bank,
    rows: u32,
}

impl Model for Flash {
    ghost use Rattle.std.specs.Prelude.{◌≡◌};
    ghost use Rattle.envy_bank.specs.Rows.{BankState, IsBank};

    ghost Value = { BankState };

    ghost view = { λ a. a.bank };

    ghost invariant = { λ a. IsBank a.bank × (a.bank.rows ≡ a.rows) };
}

// Fills the rows of a block in order with the words drawn from `g`.
fn tear_block(bank: &mut Bank, block: u32, rows: u32, g: u64)
    requires whole { IsBank bank.old }
    requires rows { bank.old.rows ≡ rows }
    requires block { block < length bank.old.erases }
    ensures flash { TearsRows rows block g bank.old.flash bank.new.flash }
    ensures same { bank.new ≡ record bank.old { flash = bank.new.flash } }
    ensures whole { IsBank bank.new }
{
    let first = block * rows;
    let mut torn = Torn::new(g);
    for row in 0..rows {
        let words = next_row(&mut torn);
        bank.upset_row(first + row, &words);
    }
}

impl Flash {
    /// Erased flash, of which no segment was erased yet.
    pub fn new(alloc: Global, segments: u32, rows: u32) -> Result<Flash, NoMemory>
        requires segments { 1 ≤ segments }
        requires rows { 1 ≤ rows }
        requires size { segments * rows ≤ MOST_ROWS }
        ensures erased { IfOk result (λ flash. flash ≡ erased_bank segments rows) }
        ensures whole { IfOk result IsBank }
    {
        let bank = Bank::new(alloc, segments, rows)?;
        Ok(Flash { bank, rows })
    }

    /// Word `i` of a row.
    pub fn read(&self, row: u32, i: u32) -> u64
        requires row { row < length self.now.flash }
        requires i { i < PAGE_WORDS }
        ensures { result ≡ slice_index (row_of self.now row) i }
    {
        self.bank.read_word(row, i)
    }

    /// Programs a row, which becomes its AND with the page.
    pub fn program(&mut self, row: u32, page: &Page)
        requires { row < length self.old.flash }
        ensures row { self.new ≡ with_row self.old row (ands (row_of self.old row) page.now) }
        ensures whole { IsBank self.new }
    {
        self.bank.program_row(row, page);
    }

    /// Erases a segment: all its bits become ones.
    pub fn erase(&mut self, segment: u32)
        requires { segment < length self.old.erases }
        ensures erased { ErasesBlock segment self.old self.new }
        ensures whole { IsBank self.new }
    {
        self.bank.erase_block(segment);
    }

    /// Fills a row with the first words drawn from `g`, as a disturbed program does.
    pub fn tear_row(&mut self, row: u32, g: u64)
        requires { row < length self.old.flash }
        ensures row { self.new ≡ with_row self.old row (torn_row g 0) }
        ensures whole { IsBank self.new }
    {
        let words = next_row(&mut Torn::new(g));
        self.bank.upset_row(row, &words);
    }

    /// Fills the rows of a segment in order with the words drawn from `g`, as a disturbed erase does.
    pub fn tear_segment(&mut self, segment: u32, g: u64)
        requires { segment < length self.old.erases }
        ensures flash { TearsRows self.old.rows segment g self.old.flash self.new.flash }
        ensures same { self.new ≡ record self.old { flash = self.new.flash } }
        ensures whole { IsBank self.new }
    {
        let rows = self.rows;
        tear_block(&mut self.bank, segment, rows, g);
    }
}
