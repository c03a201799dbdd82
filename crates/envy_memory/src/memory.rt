ghost use Rattle.std.specs.Prelude.{◌≡◌, ◌↔◌, ◌*◌, ◌≤◌, ◌<◌, ◌/◌, false, IsTrue, OnOk, MatchResult, slice_index, [], replicate, None};
ghost use Rattle.envy_array.specs.Array.{Array};
ghost use Rattle.envy_base.specs.Shape.{IsShape, version_of};
ghost use Rattle.envy_map.specs.Codes.{the_magic};
ghost use Rattle.envy_map.specs.Fields.{chart};
ghost use Rattle.envy_soundness.specs.Sound.{IsSound};
ghost use Rattle.envy_meaning.specs.Stands.{Stands};
ghost use Rattle.envy_soundness.specs.Words.{durable};
ghost use Rattle.envy_memory.specs.Calls.{Loads, Looks};
ghost use Rattle.envy_memory.specs.Below.{LoadsBelow, IsPast};
ghost use Rattle.envy_memory.specs.Picture.{IsMemory, counts_of, state_in};

use crate::faults::LoadFault;
use crate::kept_place::kept_place;
use envy_array::Counts;
use envy_base::{Board, PAGE_WORDS};
use envy_engine::{Parts, word};
use envy_txn::Owned;
use std::marker::Model;

/// How many slots there are.
pub(crate) const SLOTS: u8 = 64;

/// A memory over a board. Addresses count words of 64 bits; 32 words make a page.
#[derive(Drop)]
pub struct Memory<B: Board> {
    pub(crate) board: B,
    pub(crate) parts: Parts,
    pub(crate) owned: Owned,
    pub(crate) limit: u64,
    pub(crate) mark: u32,
    /// No swap is due before so many erases have begun since the last one.
    pub(crate) quiet: u64,
    /// No slot from this one on is open.
    pub(crate) shut_from: u8,
}

impl<B: Board> Model for Memory<B> {
    ghost use Rattle.envy_map.specs.Fields.{chart};
    ghost use Rattle.std.specs.Prelude.{IsTrue, false};
    ghost use Rattle.envy_wear.specs.Swaps.{IsQuiet};
    ghost use Rattle.envy_memory.specs.Opened.{HasOpenFrom};
    ghost use Rattle.envy_memory.specs.Picture.{Picture, IsMemory};

    ghost Value = { Picture };

    ghost view = { λ a. record { chart = chart (B.state a.board); parts = a.parts; owned = a.owned; limit = a.limit; mark = a.mark; sram = (B.state a.board).sram } };

    ghost invariant = { λ a. IsMemory (chart (B.state a.board)) a.parts a.owned a.limit a.mark × (IsTrue (B.state a.board).on → IsQuiet (B.state a.board).shape (chart (B.state a.board)).fields a.limit a.parts.reloc.since a.quiet) × (IsTrue (B.state a.board).on → HasOpenFrom a.shut_from (chart (B.state a.board)) false) };
}

impl<B: Board> Memory<B> {
    /// The word at an address, also where a transaction that is still open put it.
    ///
    /// # Errors
    ///
    /// `Off`, then `Range`. Nothing changes then.
    #[inline(always)]
    pub fn load(&mut self, a: u32) -> Result<u64, LoadFault>
        ensures step { (m : Array) → Stands self.old.chart m → Loads m a result self.new.chart }
        ensures off { (result ≡ Err LoadFault.Off) ↔ (self.new.chart.on ≡ false) }
        ensures range { (result ≡ Err LoadFault.Range) ↔ IsPast a self.old }
        ensures below { LoadsBelow a result self.old self.new }
    {
        if !self.board.powered() {
            return Err(LoadFault::Off);
        }
        if a / PAGE_WORDS >= self.board.shape().pages {
            return Err(LoadFault::Range);
        }
        let from = self.parts.cache.translate(&self.board, a / PAGE_WORDS)?;
        Ok(word(&self.board, from, a % PAGE_WORDS)?)
    }

    /// The committed word at an address, which a restart would leave. It is no access to the page.
    ///
    /// # Errors
    ///
    /// `Off`, then `Range`.
    pub fn look(&self, a: u32) -> Result<u64, LoadFault>
        ensures word { OnOk result (result ≡ Ok (slice_index (durable self.now.chart) a)) }
        ensures step { (m : Array) → Stands self.now.chart m → Looks m a result self.now.chart }
        ensures off { (result ≡ Err LoadFault.Off) ↔ (self.now.chart.on ≡ false) }
        ensures range { (result ≡ Err LoadFault.Range) ↔ IsPast a self.now }
    {
        if !self.board.powered() {
            return Err(LoadFault::Off);
        }
        if a / PAGE_WORDS >= self.board.shape().pages {
            return Err(LoadFault::Range);
        }
        let from = kept_place(&self.board, a / PAGE_WORDS)?;
        Ok(word(&self.board, from, a % PAGE_WORDS)?)
    }

    /// What has been counted since the memory was made.
    pub fn counts(&self) -> Counts
        ensures { result ≡ counts_of self.now.parts }
    {
        Counts {
            hits: self.parts.cache.hits(),
            misses: self.parts.cache.misses(),
            flushes: self.parts.flushes,
            copies: self.parts.reloc.copied(),
            moves: self.parts.reloc.moved(),
            erases: self.parts.reloc.erased(),
            swaps: self.parts.swaps,
        }
    }

    /// Whether power is on.
    pub fn powered(&self) -> bool
        ensures { result ≡ self.now.chart.on }
    {
        self.board.powered()
    }

    /// The board.
    pub fn board(&self) -> &B
        ensures state { B.state result.now ≡ state_in self.now }
        ensures same { chart (B.state result.now) ≡ self.now.chart }
        ensures sound { IsSound (chart (B.state result.now)) }
        ensures version { (chart (B.state result.now)).fields.version ≡ version_of (B.state result.now).shape }
    {
        &self.board
    }

    /// What holds of each memory between its calls: its board is formatted and sound, and where power is on its parts
    /// agree with it. Where no slot is open, no page has an owner.
    pub fn invariant_holds(&self)
        ensures memory { IsMemory self.now.chart self.now.parts self.now.owned self.now.limit self.now.mark }
        ensures shape { IsShape self.now.chart.shape }
        ensures magic { self.now.chart.fields.magic ≡ the_magic }
        ensures version { self.now.chart.fields.version ≡ version_of self.now.chart.shape }
        ensures sound { IsSound self.now.chart }
        ensures unowned { (m : Array) → Stands self.now.chart m → m.slots ≡ replicate 64 None
            → self.now.owned.pairs ≡ [] }
    {
        let _ = &self.board;
    }

    /// Gives the board back. A memory may be attached to it.
    pub fn into_board(self) -> B
        ensures state { B.state result ≡ state_in self }
        ensures same { chart (B.state result) ≡ self.chart }
        ensures sound { IsSound (chart (B.state result)) }
    {
        let Memory {
            board,
            parts: _parts,
            owned: _owned,
            limit: _limit,
            mark: _mark,
            quiet: _quiet,
            shut_from: _shut_from,
        } = self;
        board
    }
}
