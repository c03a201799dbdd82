ghost use Rattle.std.specs.Prelude.{◌≡◌, ◌≢◌, ◌↔◌, ◌+◌, ◌/◌, ◌^◌, ◌<◌, ℕ, false, IsTrue, length, Some, Err, OnOk};
ghost use Rattle.envy_map.specs.Fields.{place as place_of};
ghost use Rattle.envy_memory.specs.Picture.{Picture};
ghost use Rattle.envy_memory.specs.PutRuns.{EndsRun, PutsBy, PutsMore, PutsRun};
ghost use Rattle.envy_memory.specs.Rooms.{LacksRoom};
ghost use Rattle.envy_memory.specs.Runs.{StandsFor, is_more};

use crate::faults::PutFault;
use crate::memory::Memory;
use envy_base::{Board, PAGE_WORDS, Place};
use envy_map::place;
use envy_soundness::change_frame_word;

// Whether word `i` of a run is one more of a page that an earlier one was put to.
#[inline(always)]
pub(crate) fn is_one_more(a: u32, i: usize) -> bool
    requires { a + i < 2 ^ 32 }
    ensures { result ≡ is_more a i }
{
    i > 0 && (a + i as u32) % PAGE_WORDS > 0
}

impl<B: Board> Memory<B> {
    /// Makes the words at an address and behind it these within the transaction of slot `t`, one after another, and
    /// answers how many were put, and what ended it. The first word of a page is put as by `put`. The others go
    /// straight into the page's frame: they are no access to the page.
    ///
    /// # Errors
    ///
    /// `Full` comes before the first word: the pages that it meets and that no slot owns are more than may yet be
    /// owned. Nothing changes then. The others are those of `put`, and the words before are put. Where power fails in
    /// the call, a restart takes all of them back.
    pub fn put_run(&mut self, t: u8, a: u32, words: &[u64]) -> (usize, Result<(), PutFault>)
        ensures puts { (between : Picture) × PutsRun result.0 words.now t a self.old between
            × (result.1 ≢ Err PutFault.Full → EndsRun between self.new t a words.now result.0 result.1) }
        ensures full { (result.1 ≡ Err PutFault.Full) ↔ LacksRoom t a (length words.now) self.old }
        ensures refused { (result.1 ≡ Err PutFault.Full) → (result.0 ≡ 0) × (self.new ≡ self.old) }
    {
        if self.lacks_room(t, a, words.len()) {
            return (0, Err(PutFault::Full));
        }
        self.put_words(t, a, words)
    }

    // The words of a run, one after another, as far as they go.
    fn put_words(&mut self, t: u8, a: u32, words: &[u64]) -> (usize, Result<(), PutFault>)
        ensures { (between : Picture) × PutsRun result.0 words.now t a self.old between
            × EndsRun between self.new t a words.now result.0 result.1 }
    {
        let mut frame = 0;
        for i in 0..words.len() {
            if let Err(fault) = self.put_next(t, a, i, words[i], &mut frame) {
                return (i, Err(fault));
            }
        }
        (words.len(), Ok(()))
    }

    // Word `i` of a run. The frame is that of the page that the word before it was put to.
    #[inline(always)]
    fn put_next(
        &mut self,
        t: u8,
        a: u32,
        i: usize,
        value: u64,
        frame: &mut u32,
    ) -> Result<(), PutFault>
        requires fits { a + i < 2 ^ 32 }
        requires more { IsTrue (is_more a i) → StandsFor (Some t) ((a + i) / PAGE_WORDS) frame.old self.old }
        ensures puts { PutsBy (is_more a i) t (a + i) value result self.old self.new }
        ensures stands { OnOk result (StandsFor (Some t) ((a + i) / PAGE_WORDS) frame.new self.new) }
        ensures next { OnOk result (a + i + 1 < 2 ^ 32) }
    {
        self.invariant_holds();
        let at = a + i as u32;
        if is_one_more(a, i) {
            return self.put_more(at, *frame, value);
        }
        self.put(t, at, value)?;
        *frame = self.frame_of(at / PAGE_WORDS);
        Ok(())
    }

    // One more word of a page that an open slot owns, straight into the frame that the page stands in.
    #[inline(always)]
    fn put_more(&mut self, a: u32, frame: u32, value: u64) -> Result<(), PutFault>
        requires stands { (t : ℕ) × StandsFor (Some t) (a / PAGE_WORDS) frame self.old }
        ensures puts { (t : ℕ) → StandsFor (Some t) (a / PAGE_WORDS) frame self.old
            → PutsMore t a value result self.old self.new }
        ensures stands { OnOk result ((t : ℕ) → StandsFor (Some t) (a / PAGE_WORDS) frame self.old
            → StandsFor (Some t) (a / PAGE_WORDS) frame self.new) }
    {
        change_frame_word(
            &mut self.board,
            a / PAGE_WORDS,
            frame,
            a % PAGE_WORDS,
            value,
        )?;
        Ok(())
    }

    // The frame that a page stands in.
    pub(crate) fn frame_of(&self, page: u32) -> u32
        requires on { IsTrue self.now.chart.on }
        requires page { page < self.now.chart.shape.pages }
        requires framed { (k : ℕ) × (place_of self.now.chart.fields page ≡ Some (Place.Frame k)) }
        ensures { place_of self.now.chart.fields page ≡ Some (Place.Frame result) }
    {
        match place(&self.board, page) {
            Ok(Place::Frame(frame)) => frame,
            _ => unreachable!(),
        }
    }
}
