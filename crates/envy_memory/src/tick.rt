ghost use Rattle.std.specs.Prelude.{◌≡◌, ◌≢◌, ◌↔◌, false, IsErrOf, Ok, Err};
ghost use Rattle.envy_array.specs.Array.{Array};
ghost use Rattle.envy_meaning.specs.Stands.{Stands};
ghost use Rattle.envy_memory.specs.Below.{TicksBelow};
ghost use Rattle.envy_memory.specs.Calls.{Ticks, IsCut, HasFailed, Undisturbed};

use crate::memory::Memory;
use envy_base::{Board, Trouble};
use envy_engine::{Did, tick_ruled};

impl<B: Board> Memory<B> {
    /// One background step: that of the first rule that applies. The array doesn't change.
    ///
    /// # Errors
    ///
    /// `Off` where power is off at the end. `Bad` where a flash operation failed.
    pub fn tick(&mut self) -> Result<Did, Trouble>
        ensures step { (m : Array) → Stands self.old.chart m → Ticks m result self.new.chart }
        ensures off { (result ≡ Err Trouble.Off) ↔ (self.new.chart.on ≡ false) }
        ensures cut { IsCut self.old.chart self.new.chart }
        ensures bad { IsErrOf result Trouble.Bad → HasFailed self.old.chart self.new.chart }
        ensures complete { Undisturbed self.old.chart self.new.chart → (result ≢ Err Trouble.Off)
            × (result ≢ Err Trouble.Bad) }
        ensures below { TicksBelow result self.old self.new }
    {
        if !self.board.powered() {
            return Err(Trouble::Off);
        }
        tick_ruled(
            &mut self.board,
            &mut self.parts,
            self.limit,
            self.mark,
            &mut self.quiet,
        )
    }
}
