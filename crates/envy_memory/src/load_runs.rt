ghost use Rattle.std.specs.Prelude.{◌≡◌, ◌↔◌, ◌+◌, ◌*◌, ◌/◌, ◌%◌, ◌<◌, ◌≤◌, ℕ, false, IsTrue, Some, OnOk, OnErr, length, slice_index};
ghost use Rattle.envy_array.specs.Array.{Array};
ghost use Rattle.envy_map.specs.Fields.{chart};
ghost use Rattle.envy_meaning.specs.Stands.{Stands};
ghost use Rattle.envy_soundness.specs.Words.{word_at};
ghost use Rattle.envy_engine.specs.Pages.{InRange};
ghost use Rattle.envy_table.specs.Hits.{Accesses};
ghost use Rattle.envy_memory.specs.LoadRuns.{AreLive, Crosses, FillsPage, LoadsRun};
ghost use Rattle.envy_memory.specs.Runs.{RunsPast, pages_met};

use crate::faults::LoadFault;
use crate::memory::Memory;
use envy_base::{Board, Off, PAGE_LENGTH, PAGE_WORDS, Place};
use envy_engine::word;

// The words of a page that is there, from its word `first` on.
#[inline(always)]
fn page_words<B: Board>(board: &B, from: Place, first: u32, into: &mut [u64]) -> Result<(), Off>
    requires range { InRange (B.state board.now) from }
    requires within { first + length into.old ≤ PAGE_WORDS }
    ensures long { length into.new ≡ length into.old }
    ensures words { OnOk result ((i : ℕ) → i < length into.new
        → slice_index into.new i ≡ word_at (chart (B.state board.now)).fields.frames (B.state board.now).flash
        (Some from) (first + i)) }
    ensures off { OnErr result ((B.state board.now).on ≡ false) }
{
    // They are read aside, where no word of the board's can lie: so the compiler sees that they lie side by side.
    let mut words = [0; PAGE_LENGTH];
    for i in 0..into.len() {
        words[i] = word(board, from, first + i as u32)?;
    }
    into.copy_from_slice(&words[..into.len()]);
    Ok(())
}

impl<B: Board> Memory<B> {
    /// The words at an address and behind it, as many as there is room for, also where a transaction that is still
    /// open put them. It is one access to each page, from the first upward, however many words of it are read.
    ///
    /// # Errors
    ///
    /// `Off`, then `Range` where one of the addresses lies past the last page. Nothing changes then, and no word is
    /// written.
    pub fn load_run(&mut self, a: u32, into: &mut [u64]) -> Result<(), LoadFault>
        ensures long { length into.new ≡ length into.old }
        ensures words { OnOk result (AreLive self.old.chart a into.new) }
        ensures step { (m : Array) → Stands self.old.chart m → LoadsRun m a into.new result self.new.chart }
        ensures off { (result ≡ Err LoadFault.Off) ↔ (self.new.chart.on ≡ false) }
        ensures range { (result ≡ Err LoadFault.Range) ↔ RunsPast a (length into.old) self.old }
        ensures visits { OnOk result (Crosses (pages_met a (length into.old)) (a / PAGE_WORDS)
            self.old.parts.cache self.new.parts.cache) }
        ensures kept { self.new ≡ record self.old { parts = record self.old.parts { cache = self.new.parts.cache } } }
        ensures refused { OnErr result ((self.new ≡ self.old) × (into.new ≡ into.old)) }
    {
        if !self.powered() {
            return Err(LoadFault::Off);
        }
        self.invariant_holds();
        let words = PAGE_WORDS * self.board.shape().pages;
        if into.len() > words.saturating_sub(a) as usize {
            return Err(LoadFault::Range);
        }
        if !into.is_empty() {
            self.load_pages(a, into);
        }
        Ok(())
    }

    // The words of a run that lies within the array, of a memory that has power: of one page at once, or page by page.
    fn load_pages(&mut self, a: u32, into: &mut [u64])
        requires on { IsTrue self.old.chart.on }
        requires some { 0 < length into.old }
        requires within { a + length into.old ≤ PAGE_WORDS * self.old.chart.shape.pages }
        ensures long { length into.new ≡ length into.old }
        ensures words { AreLive self.old.chart a into.new }
        ensures visits { Crosses (pages_met a (length into.old)) (a / PAGE_WORDS) self.old.parts.cache
            self.new.parts.cache }
        ensures kept { self.new ≡ record self.old { parts = record self.old.parts { cache = self.new.parts.cache } } }
    {
        self.invariant_holds();
        if a % PAGE_WORDS + into.len() as u32 <= PAGE_WORDS {
            self.load_page(a, into);
            return;
        }
        let last = a + (into.len() - 1) as u32;
        for page in a / PAGE_WORDS..last / PAGE_WORDS + 1 {
            self.load_part(page, a, into);
        }
    }

    // The words of a run that lie on one of the pages that it meets.
    fn load_part(&mut self, page: u32, a: u32, into: &mut [u64])
        requires on { IsTrue self.old.chart.on }
        requires within { a + length into.old ≤ PAGE_WORDS * self.old.chart.shape.pages }
        requires begins { a / PAGE_WORDS ≤ page }
        requires ends { PAGE_WORDS * page < a + length into.old }
        ensures fills { FillsPage page self.old.chart a into.old into.new }
        ensures visits { Accesses page self.old.parts.cache self.new.parts.cache }
        ensures kept { self.new ≡ record self.old { parts = record self.old.parts { cache = self.new.parts.cache } } }
    {
        self.invariant_holds();
        let from = a.max(PAGE_WORDS * page);
        let to = (a + into.len() as u32).min(PAGE_WORDS * page + PAGE_WORDS);
        self.load_page(from, &mut into[(from - a) as usize..(to - a) as usize]);
    }

    // The words of a run that lies within one page, of a memory that has power.
    fn load_page(&mut self, a: u32, into: &mut [u64])
        requires on { IsTrue self.old.chart.on }
        requires page { a / PAGE_WORDS < self.old.chart.shape.pages }
        requires within { a % PAGE_WORDS + length into.old ≤ PAGE_WORDS }
        ensures long { length into.new ≡ length into.old }
        ensures words { AreLive self.old.chart a into.new }
        ensures visits { Accesses (a / PAGE_WORDS) self.old.parts.cache self.new.parts.cache }
        ensures kept { self.new ≡ record self.old { parts = record self.old.parts { cache = self.new.parts.cache } } }
    {
        let Ok(from) = self.parts.cache.translate(&self.board, a / PAGE_WORDS) else {
            unreachable!();
        };
        let Ok(()) = page_words(&self.board, from, a % PAGE_WORDS, into) else {
            unreachable!();
        };
    }
}
