ghost use Rattle.std.specs.Prelude.{◌≡◌, ◌≢◌, ◌↔◌, ℕ, false, IsErrOf, Ok, Err};
ghost use Rattle.envy_array.specs.Array.{Array};
ghost use Rattle.envy_meaning.specs.Stands.{Stands};
ghost use Rattle.envy_memory.specs.Below.{StoresBelow, IsPast, IsOwned};
ghost use Rattle.envy_memory.specs.Calls.{Stores, IsCut, HasFailed, Undisturbed};

use crate::faults::StoreFault;
use crate::memory::Memory;
use envy_base::{Board, PAGE_WORDS};
use envy_engine::store_word;

impl<B: Board> Memory<B> {
    /// Makes the word at an address this. It is never refused for want of room.
    ///
    /// # Errors
    ///
    /// `Off`, `Range`, `Held`: nothing changes. `Bad`: the array is as before. Where power fails in the call, a
    /// restart finds the word stored or not.
    pub fn store(&mut self, a: u32, value: u64) -> Result<(), StoreFault>
        ensures step { (m : Array) → Stands self.old.chart m → Stores m a value result self.new.chart }
        ensures off { (result ≡ Err StoreFault.Off) ↔ (self.new.chart.on ≡ false) }
        ensures cut { IsCut self.old.chart self.new.chart }
        ensures range { (result ≡ Err StoreFault.Range) ↔ IsPast a self.old }
        ensures held { (u : ℕ) → (result ≡ Err (StoreFault.Held u)) ↔ IsOwned u a self.old }
        ensures bad { IsErrOf result StoreFault.Bad → HasFailed self.old.chart self.new.chart }
        ensures complete { Undisturbed self.old.chart self.new.chart → (result ≢ Err StoreFault.Off)
            × (result ≢ Err StoreFault.Bad) }
        ensures below { StoresBelow a result self.old self.new }
    {
        if !self.board.powered() {
            return Err(StoreFault::Off);
        }
        let page = a / PAGE_WORDS;
        if page >= self.board.shape().pages {
            return Err(StoreFault::Range);
        }
        if let Some(slot) = self.owned.owner(page) {
            return Err(StoreFault::Held(slot));
        }
        store_word(
            &mut self.board,
            &mut self.parts,
            page,
            a % PAGE_WORDS,
            value,
        )?;
        Ok(())
    }
}
