ghost use Rattle.std.specs.Prelude.{◌≡◌, ◌+◌, ◌/◌, ◌^◌, ◌<◌, false, IsTrue, None, OnOk};
ghost use Rattle.envy_memory.specs.Picture.{Picture};
ghost use Rattle.envy_memory.specs.Runs.{StandsFor, is_more};
ghost use Rattle.envy_memory.specs.StoreRuns.{EndsStores, StoresMore, StoresOne, StoresRun};

use crate::faults::StoreFault;
use crate::memory::Memory;
use crate::put_runs::is_one_more;
use envy_base::{Board, PAGE_WORDS};
use envy_soundness::change_frame_word;

impl<B: Board> Memory<B> {
    /// Makes the words at an address and behind it these, outside any transaction, one after another, and answers how
    /// many were stored, and what ended it. The first word of a page is stored as by `store`. The others go straight
    /// into the page's frame: they are no access to the page.
    ///
    /// # Errors
    ///
    /// Those of `store`. The words before are stored. Where power fails in the call, a restart finds the words before
    /// stored, the next one stored or not, and none behind it.
    pub fn store_run(&mut self, a: u32, words: &[u64]) -> (usize, Result<(), StoreFault>)
        ensures { (between : Picture) × StoresRun result.0 words.now a self.old between
            × EndsStores between self.new a words.now result.0 result.1 }
    {
        let mut frame = 0;
        for i in 0..words.len() {
            if let Err(fault) = self.store_next(a, i, words[i], &mut frame) {
                return (i, Err(fault));
            }
        }
        (words.len(), Ok(()))
    }

    // Word `i` of a run. The frame is that of the page that the word before it was stored to.
    #[inline(always)]
    fn store_next(
        &mut self,
        a: u32,
        i: usize,
        value: u64,
        frame: &mut u32,
    ) -> Result<(), StoreFault>
        requires fits { a + i < 2 ^ 32 }
        requires more { IsTrue (is_more a i) → StandsFor None ((a + i) / PAGE_WORDS) frame.old self.old }
        ensures stores { StoresOne (is_more a i) (a + i) value result self.old self.new }
        ensures stands { OnOk result (StandsFor None ((a + i) / PAGE_WORDS) frame.new self.new) }
        ensures next { OnOk result (a + i + 1 < 2 ^ 32) }
    {
        self.invariant_holds();
        let at = a + i as u32;
        if is_one_more(a, i) {
            return self.store_more(at, *frame, value);
        }
        self.store(at, value)?;
        *frame = self.frame_of(at / PAGE_WORDS);
        Ok(())
    }

    // One more word of a page that no slot owns, straight into the frame that the page stands in.
    #[inline(always)]
    fn store_more(&mut self, a: u32, frame: u32, value: u64) -> Result<(), StoreFault>
        requires stands { StandsFor None (a / PAGE_WORDS) frame self.old }
        ensures stores { StoresMore a value result self.old self.new }
        ensures stands { OnOk result (StandsFor None (a / PAGE_WORDS) frame self.new) }
    {
        change_frame_word(
            &mut self.board,
            a / PAGE_WORDS,
            frame,
            a % PAGE_WORDS,
            value,
        )?;
        Ok(())
    }
}
