ghost use Rattle.std.specs.Prelude.{◌≡◌, ◌*◌, ◌<◌, ◌≤◌, ◌↔◌, IsTrue, IfOk, length, slice_index};
ghost use Rattle.envy_base.specs.State.{ands};
ghost use Rattle.envy_bank.specs.Rows.{IsBank, ErasesBlock, erased_bank, row_of, with_row};

use crate::kept::KeptRows;
use envy_base::{MOST_ROWS, PAGE_WORDS, Page, more};
use std::alloc::{AllocError, Global};
use std::marker::Model;

/// Want of memory.
pub type NoMemory = AllocError;

/// A bank of rows of 32 words of 64 bits, erased in blocks of `rows` rows.
#[derive(Drop)]
pub struct Bank {
    flash: KeptRows,
    rows: u32,
    erases: Vec<u64>,
}

impl Model for Bank {
    ghost use Rattle.envy_bank.specs.Rows.{BankState, IsBank};

    ghost Value = { BankState };

    ghost view = { λ a. record { flash = a.flash; rows = a.rows; erases = a.erases.items } };

    ghost invariant = { λ a. IsBank (record { flash = a.flash; rows = a.rows; erases = a.erases.items }) };
}

impl Bank {
    /// An erased bank, of which no block was erased yet.
    pub fn new(alloc: Global, blocks: u32, rows: u32) -> Result<Bank, NoMemory>
        requires blocks { 1 ≤ blocks }
        requires rows { 1 ≤ rows }
        requires size { blocks * rows ≤ MOST_ROWS }
        ensures erased { IfOk result (λ bank. bank ≡ erased_bank blocks rows) }
        ensures whole { IfOk result IsBank }
    {
        Ok(Bank {
            flash: KeptRows::new(alloc, (blocks * rows) as usize)?,
            rows,
            erases: vec![in alloc; 0; blocks as usize]?,
        })
    }

    /// Programs a row, which becomes its AND with the page. Answers whether it is the page then.
    pub fn program_row(&mut self, row: u32, page: &Page) -> bool
        requires { row < length self.old.flash }
        ensures row { self.new ≡ with_row self.old row (ands (row_of self.old row) page.now) }
        ensures held { IsTrue result ↔ (row_of self.new row ≡ page.now) }
        ensures whole { IsBank self.new }
    {
        self.flash.program(row as usize, page)
    }

    /// Erases a block: all its bits become ones.
    pub fn erase_block(&mut self, block: u32)
        requires { block < length self.old.erases }
        ensures erased { ErasesBlock block self.old self.new }
        ensures whole { IsBank self.new }
    {
        let first = block * self.rows;
        self.flash
            .erase(first as usize, (first + self.rows) as usize);
        let count = &mut self.erases[block as usize];
        *count = more(*count);
    }

    /// The word `i` of a row.
    pub fn read_word(&self, row: u32, i: u32) -> u64
        requires row { row < length self.now.flash }
        requires i { i < PAGE_WORDS }
        ensures word { result ≡ slice_index (row_of self.now row) i }
        ensures whole { IsBank self.now }
    {
        self.flash.word(row as usize, i as usize)
    }

    /// How often a block was erased.
    pub fn erases(&self, block: u32) -> u64
        requires { block < length self.now.erases }
        ensures count { result ≡ slice_index self.now.erases block }
        ensures whole { IsBank self.now }
    {
        self.erases[block as usize]
    }

    /// Sets a row to anything, as a disturbed operation may.
    pub fn upset_row(&mut self, row: u32, page: &Page)
        requires { row < length self.old.flash }
        ensures row { self.new ≡ with_row self.old row page.now }
        ensures whole { IsBank self.new }
    {
        self.flash.write(row as usize, page);
    }
}
