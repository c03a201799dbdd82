ghost use Rattle.std.specs.Prelude.{◌≡◌, ◌≢◌, ◌↔◌, ℕ, false, IsErrOf, Ok, Err};
ghost use Rattle.envy_array.specs.Array.{Array};
ghost use Rattle.envy_meaning.specs.Stands.{Stands};
ghost use Rattle.envy_memory.specs.Below.{PutsBelow, IsPast, IsShutTo, IsKeptFrom, IsFull};
ghost use Rattle.envy_memory.specs.Calls.{Puts, IsCut, HasFailed, Undisturbed};

use crate::faults::PutFault;
use crate::memory::Memory;
use envy_base::{Board, PAGE_WORDS};
use envy_engine::{is_open, put_first, store_word};

impl<B: Board> Memory<B> {
    /// Makes the word at an address this within the transaction of slot `t`, which owns the page from then on.
    ///
    /// # Errors
    ///
    /// `Off`, `Range`, `Closed`, `Held`, `Full`, in this order: nothing changes. `Bad`: the array and the page's
    /// owner are as before. Where power fails in the call, a restart takes the word back.
    pub fn put(&mut self, t: u8, a: u32, value: u64) -> Result<(), PutFault>
        ensures step { (m : Array) → Stands self.old.chart m → Puts m t a value result self.new.chart }
        ensures off { (result ≡ Err PutFault.Off) ↔ (self.new.chart.on ≡ false) }
        ensures cut { IsCut self.old.chart self.new.chart }
        ensures range { (result ≡ Err PutFault.Range) ↔ IsPast a self.old }
        ensures closed { (result ≡ Err PutFault.Closed) ↔ IsShutTo t a self.old }
        ensures held { (u : ℕ) → (result ≡ Err (PutFault.Held u)) ↔ IsKeptFrom u t a self.old }
        ensures full { (result ≡ Err PutFault.Full) ↔ IsFull t a self.old }
        ensures bad { IsErrOf result PutFault.Bad → HasFailed self.old.chart self.new.chart }
        ensures complete { Undisturbed self.old.chart self.new.chart → (result ≢ Err PutFault.Off)
            × (result ≢ Err PutFault.Bad) }
        ensures below { PutsBelow t a result self.old self.new }
    {
        if !self.board.powered() {
            return Err(PutFault::Off);
        }
        let page = a / PAGE_WORDS;
        if page >= self.board.shape().pages {
            return Err(PutFault::Range);
        }
        if t >= 64 {
            return Err(PutFault::Closed);
        }
        if !is_open(&self.board, t)? {
            return Err(PutFault::Closed);
        }
        if let Some(slot) = self.owned.owner(page) {
            if slot != t {
                return Err(PutFault::Held(slot));
            }
            return Ok(store_word(
                &mut self.board,
                &mut self.parts,
                page,
                a % PAGE_WORDS,
                value,
            )?);
        }
        if !self.owned.room() {
            return Err(PutFault::Full);
        }
        Ok(put_first(
            &mut self.board,
            &mut self.parts,
            &mut self.owned,
            page,
            t,
            a % PAGE_WORDS,
            value,
        )?)
    }
}
