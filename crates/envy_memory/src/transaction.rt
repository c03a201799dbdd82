ghost use Rattle.std.specs.Prelude.{◌≡◌, ◌≢◌, ◌↔◌, false, MatchResult, Ok, Err};
ghost use Rattle.envy_array.specs.Array.{Array};
ghost use Rattle.envy_meaning.specs.Stands.{Stands};
ghost use Rattle.envy_memory.specs.Below.{BeginsBelow, CommitsBelow, AbortsBelow, IsBusy, IsShut};
ghost use Rattle.envy_memory.specs.Calls.{Begins, Commits, Aborts, IsCut, Undisturbed};
ghost use Rattle.envy_memory.specs.Opened.{HasOpenFrom, IsFirstOpen};

use crate::faults::{BeginFault, EndFault};
use crate::kept_place::{has_open_among, lowest_open};
use crate::memory::{Memory, SLOTS};
use envy_base::{Board, Off};
use envy_engine::{abort_pages, commit_pages, first_vacant, is_open, open_slot};

impl<B: Board> Memory<B> {
    /// The lowest slot that is open, if one is. No slot above it is read, so it is found at once if it is the first.
    pub fn first_open(&self) -> Result<Option<u8>, Off>
        ensures { MatchResult result (IsFirstOpen self.now.chart) (λ _. self.now.chart.on ≡ false) }
    {
        lowest_open(&self.board)
    }

    /// Whether a slot is open, of those from one on. Those that were found closed aren't read again before one of them is
    /// opened.
    pub fn has_open_slot(&mut self, first: u8) -> Result<bool, Off>
        ensures open { MatchResult result (HasOpenFrom first self.old.chart) (λ _. self.old.chart.on ≡ false) }
        ensures same { self.new ≡ self.old }
    {
        if !self.board.powered() {
            return Err(Off);
        }
        let end = self.shut_from.min(SLOTS);
        if has_open_among(&self.board, first, end)? {
            return Ok(true);
        }
        self.shut_from = self.shut_from.min(first);
        Ok(false)
    }

    /// Opens the lowest slot that isn't open.
    ///
    /// # Errors
    ///
    /// `Off`, then `Busy`. Where power fails in the call, a restart finds all slots closed.
    pub fn begin(&mut self) -> Result<u8, BeginFault>
        ensures step { (m : Array) → Stands self.old.chart m → Begins m result self.new.chart }
        ensures off { (result ≡ Err BeginFault.Off) ↔ (self.new.chart.on ≡ false) }
        ensures cut { IsCut self.old.chart self.new.chart }
        ensures busy { (result ≡ Err BeginFault.Busy) ↔ IsBusy self.old }
        ensures complete { Undisturbed self.old.chart self.new.chart → result ≢ Err BeginFault.Off }
        ensures below { BeginsBelow result self.old self.new }
    {
        if !self.board.powered() {
            return Err(BeginFault::Off);
        }
        let Some(t) = first_vacant(&self.board)? else {
            return Err(BeginFault::Busy);
        };
        open_slot(&mut self.board, &self.parts, &self.owned, t)?;
        self.shut_from = self.shut_from.max(t + 1);
        Ok(t)
    }

    /// Closes a slot, and keeps its words.
    ///
    /// # Errors
    ///
    /// `Off`, then `Closed`. Where power fails in the call, a restart finds the commit done or not.
    pub fn commit(&mut self, t: u8) -> Result<(), EndFault>
        ensures step { (m : Array) → Stands self.old.chart m → Commits m t result self.new.chart }
        ensures off { (result ≡ Err EndFault.Off) ↔ (self.new.chart.on ≡ false) }
        ensures cut { IsCut self.old.chart self.new.chart }
        ensures closed { (result ≡ Err EndFault.Closed) ↔ IsShut t self.old }
        ensures complete { Undisturbed self.old.chart self.new.chart → result ≢ Err EndFault.Off }
        ensures below { CommitsBelow t result self.old self.new }
    {
        if !self.board.powered() {
            return Err(EndFault::Off);
        }
        if t >= 64 {
            return Err(EndFault::Closed);
        }
        if !is_open(&self.board, t)? {
            return Err(EndFault::Closed);
        }
        commit_pages(&mut self.board, &mut self.parts, &mut self.owned, t)?;
        Ok(())
    }

    /// Closes a slot, and puts back the words of its pages. Frames that this frees leave, and the others keep their
    /// order.
    ///
    /// # Errors
    ///
    /// `Off`, then `Closed`. Where power fails in the call, a restart finds the words put back.
    pub fn abort(&mut self, t: u8) -> Result<(), EndFault>
        ensures step { (m : Array) → Stands self.old.chart m → Aborts m t result self.new.chart }
        ensures off { (result ≡ Err EndFault.Off) ↔ (self.new.chart.on ≡ false) }
        ensures cut { IsCut self.old.chart self.new.chart }
        ensures closed { (result ≡ Err EndFault.Closed) ↔ IsShut t self.old }
        ensures complete { Undisturbed self.old.chart self.new.chart → result ≢ Err EndFault.Off }
        ensures below { AbortsBelow t result self.old self.new }
    {
        if !self.board.powered() {
            return Err(EndFault::Off);
        }
        if t >= 64 {
            return Err(EndFault::Closed);
        }
        if !is_open(&self.board, t)? {
            return Err(EndFault::Closed);
        }
        abort_pages(&mut self.board, &mut self.parts, &mut self.owned, t)?;
        Ok(())
    }
}
