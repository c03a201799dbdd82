ghost use Rattle.std.specs.Prelude.{◌≡◌, ◌*◌, ◌<◌, ◌≤◌, ◌↔◌, IsTrue, IfOk, length, slice_index};
ghost use Rattle.envy_bank.specs.Lanes.{lane_of};
ghost use Rattle.envy_base.specs.State.{ands};
ghost use Rattle.envy_bank.specs.Rows.{IsBank, ErasesBlock, erased_bank, row_of, with_row};

use crate::bank::NoMemory;
use crate::lanes::{erase_lanes, new_lanes, program_lanes, read_lanes, upset_lanes};
use crate::{Chip, MOST_BYTES};
use envy_base::{PAGE_WORDS, Page, more};
use std::alloc::Global;
use std::marker::Model;

/// A bank of 256 chips, each driven by the bytes that are written to it. Its calls have the contracts of
/// `Bank`, but for `lane`, which tells what one chip gives.
#[derive(Drop)]
pub struct ChipBank {
    chips: Vec<Chip>,
    rows: u32,
    erases: Vec<u64>,
}

impl Model for ChipBank {
    ghost use Rattle.std.specs.Prelude.{◌*◌, length};
    ghost use Rattle.envy_bank.specs.Rows.{BankState};
    ghost use Rattle.envy_bank.specs.Lanes.{rows_from, AreChips};

    ghost Value = { BankState };

    ghost view = { λ a. record { flash = rows_from a.chips.items (length a.erases.items * a.rows); rows = a.rows; erases = a.erases.items } };

    ghost invariant = { λ a. AreChips (length a.erases.items) a.rows a.chips.items };
}

impl ChipBank {
    /// An erased bank, of which no block was erased yet.
    pub fn new(alloc: Global, blocks: u32, rows: u32) -> Result<ChipBank, NoMemory>
        requires blocks { 1 ≤ blocks }
        requires rows { 1 ≤ rows }
        requires size { blocks * rows ≤ MOST_BYTES }
        ensures erased { IfOk result (λ bank. bank ≡ erased_bank blocks rows) }
        ensures whole { IfOk result IsBank }
    {
        Ok(ChipBank {
            chips: new_lanes(alloc, blocks, rows)?,
            rows,
            erases: vec![in alloc; 0; blocks as usize]?,
        })
    }

    /// Programs a row, which becomes its AND with the page. Answers whether it is the page then.
    pub fn program_row(&mut self, row: u32, page: &Page) -> bool
        requires { row < length self.old.flash }
        ensures row { self.new ≡ with_row self.old row (ands (row_of self.old row) page.now) }
        ensures held { IsTrue result ↔ (row_of self.new row ≡ page.now) }
        ensures whole { IsBank self.new }
    {
        program_lanes(&mut self.chips, row, page)
    }

    /// Erases a block: all its bits become ones.
    pub fn erase_block(&mut self, block: u32)
        requires { block < length self.old.erases }
        ensures erased { ErasesBlock block self.old self.new }
        ensures whole { IsBank self.new }
    {
        erase_lanes(&mut self.chips, block * self.rows);
        let count = &mut self.erases[block as usize];
        *count = more(*count);
    }

    /// The word `i` of a row.
    pub fn read_word(&self, row: u32, i: u32) -> u64
        requires row { row < length self.now.flash }
        requires i { i < PAGE_WORDS }
        ensures word { result ≡ slice_index (row_of self.now row) i }
        ensures whole { IsBank self.now }
    {
        read_lanes(&self.chips, row, i as usize)
    }

    /// The byte of a row that the chip `lane` gives: byte `lane % 8` of word `lane / 8`, the least significant byte first.
    pub fn lane(&self, row: u32, lane: u32) -> u8
        requires row { row < length self.now.flash }
        requires lane { lane < 256 }
        ensures byte { result ≡ lane_of (row_of self.now row) lane }
        ensures whole { IsBank self.now }
    {
        self.chips[lane as usize].read(row)
    }

    /// How often a block was erased.
    pub fn erases(&self, block: u32) -> u64
        requires { block < length self.now.erases }
        ensures count { result ≡ slice_index self.now.erases block }
        ensures whole { IsBank self.now }
    {
        self.erases[block as usize]
    }

    /// Sets a row to anything, as a disturbed operation may.
    pub fn upset_row(&mut self, row: u32, page: &Page)
        requires { row < length self.old.flash }
        ensures row { self.new ≡ with_row self.old row page.now }
        ensures whole { IsBank self.new }
    {
        upset_lanes(&mut self.chips, row, page);
    }
}
