ghost use Rattle.std.specs.Prelude.{◌≡◌, ◌↔◌, ◌+◌, ◌*◌, ◌/◌, ◌%◌, ◌<◌, ◌≤◌, IsTrue, Some, false, IfOk, OnErr, slice_index};
ghost use Rattle.envy_array.specs.Words.{IsPlace, IsPlaceIn};
ghost use Rattle.envy_map.specs.Fields.{chart};
ghost use Rattle.envy_soundness.specs.Words.{live, word_at};
ghost use Rattle.envy_engine.specs.Pages.{InRange};
ghost use Rattle.envy_memory.specs.Runs.{RunsPast};

use crate::faults::LoadFault;
use crate::memory::Memory;
use envy_array::KeyPlace;
use envy_base::{Board, Off, PAGE_WORDS, Place};
use envy_engine::word;

// The place of a key among the `n` words of a page that is there, from its word `first` on, which are halved until it is
// found.
fn search_page<B: Board>(
    board: &B,
    from: Place,
    first: u32,
    n: u32,
    key: u64,
    low: u64,
    top: u64,
) -> Result<KeyPlace, Off>
    requires range { InRange (B.state board.now) from }
    requires within { first + n ≤ PAGE_WORDS }
    requires above { low ≤ key }
    requires below { key ≤ top }
    ensures place { IfOk result (λ x. IsPlaceIn (λ i. word_at (chart (B.state board.now)).fields.frames
        (B.state board.now).flash (Some from) (first + i)) n key low top x.index x.low x.top) }
    ensures off { OnErr result ((B.state board.now).on ≡ false) }
{
    let mut place = KeyPlace { index: 0, low, top };
    let mut end = n;
    while place.index < end {
        let middle = place.index + (end - place.index) / 2;
        let word = word(board, from, first + middle)?;
        if key < word {
            end = middle;
            place.top = word - 1;
        } else {
            place.index = middle + 1;
            place.low = word;
        }
    }
    Ok(place)
}

impl<B: Board> Memory<B> {
    // The place of a key among the `n` words at an address and behind it, within one page. It is one access to the page,
    // if there are any.
    pub(crate) fn search(
        &mut self,
        a: u32,
        n: u32,
        key: u64,
        low: u64,
        top: u64,
    ) -> Result<KeyPlace, LoadFault>
        requires page { a % PAGE_WORDS + n ≤ PAGE_WORDS }
        requires above { low ≤ key }
        requires below { key ≤ top }
        ensures place { IfOk result (λ x. IsPlace (live self.old.chart) a n key low top x.index x.low x.top) }
        ensures off { (result ≡ Err LoadFault.Off) ↔ (self.new.chart.on ≡ false) }
        ensures range { (result ≡ Err LoadFault.Range) ↔ RunsPast a n self.old }
        ensures kept { self.new ≡ record self.old { parts = record self.old.parts { cache = self.new.parts.cache } } }
    {
        if !self.powered() {
            return Err(LoadFault::Off);
        }
        self.invariant_holds();
        let words = PAGE_WORDS * self.board.shape().pages;
        if n > words.saturating_sub(a) {
            return Err(LoadFault::Range);
        }
        if n == 0 {
            return Ok(KeyPlace { index: 0, low, top });
        }
        Ok(self.search_words(a, n, key, low, top))
    }

    // The same of words that are there, of a memory that has power.
    fn search_words(&mut self, a: u32, n: u32, key: u64, low: u64, top: u64) -> KeyPlace
        requires on { IsTrue self.old.chart.on }
        requires page { a / PAGE_WORDS < self.old.chart.shape.pages }
        requires within { a % PAGE_WORDS + n ≤ PAGE_WORDS }
        requires above { low ≤ key }
        requires below { key ≤ top }
        ensures place { IsPlace (live self.old.chart) a n key low top result.index result.low result.top }
        ensures kept { self.new ≡ record self.old { parts = record self.old.parts { cache = self.new.parts.cache } } }
    {
        let Ok(from) = self.parts.cache.translate(&self.board, a / PAGE_WORDS) else {
            unreachable!();
        };
        let found = search_page(&self.board, from, a % PAGE_WORDS, n, key, low, top);
        let Ok(place) = found else {
            unreachable!();
        };
        place
    }
}
