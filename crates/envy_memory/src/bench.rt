ghost use Rattle.std.specs.Prelude.{◌≡◌, ◌↔◌, ◌-◌, ◌^◌, ◌<◌, ◌≤◌, ◌⊎◌, true, false, IsTrue, OnOk, length, MatchResult, Ok, Err};
ghost use Rattle.envy_array.specs.Array.{Array, undone};
ghost use Rattle.envy_soundness.specs.Same.{Kept};
ghost use Rattle.envy_soundness.specs.Sound.{IsSound};
ghost use Rattle.envy_meaning.specs.Stands.{Stands};
ghost use Rattle.envy_soundness.specs.Words.{durable};
ghost use Rattle.envy_memory.specs.Calls.{fresh, lit, planned, pulled};
ghost use Rattle.envy_memory.specs.Picture.{counts_of};
ghost use Rattle.envy_memory.specs.Restarts.{Restarts};

use crate::faults::ReviveFault;
use crate::memory::{Memory, SLOTS};
use envy_base::{Bench, PlannedFault};
use envy_engine::restart;

impl<B: Bench> Memory<B> {
    /// Plans a cut of power at the `k`-th device operation from now.
    pub fn arm_cut(&mut self, k: u32, g: u64)
        requires { 1 ≤ k }
        ensures { self.new ≡ record self.old { chart = planned (PlannedFault.Cut k g) self.old.chart } }
    {
        self.board.arm_cut(k, g);
    }

    /// Plans a bad operation at the `k`-th flash operation from now.
    pub fn arm_bad(&mut self, k: u32, g: u64)
        requires { 1 ≤ k }
        ensures { self.new ≡ record self.old { chart = planned (PlannedFault.Bad k g) self.old.chart } }
    {
        self.board.arm_bad(k, g);
    }

    /// Cuts power between two operations.
    pub fn cut_now(&mut self)
        requires { IsTrue self.old.chart.on }
        ensures state { self.new ≡ record self.old { chart = pulled self.old.chart } }
        ensures step { (m : Array) → Stands self.old.chart m → IsSound self.new.chart
            × (durable self.new.chart ≡ undone m) }
    {
        self.board.cut_now();
    }

    /// How often power can still return.
    pub fn lives(&self) -> u32
        ensures { result ≡ self.now.chart.lives }
    {
        self.board.lives()
    }

    /// Asks for power, puts back what open transactions stored, settles the job, and reads all parts anew. All
    /// slots are closed then. It takes no memory and begins no flash operation.
    ///
    /// # Errors
    ///
    /// `Dead`: power doesn't return, and nothing changed. `Off`: power was cut again; the committed words are as
    /// before, and the call may be made again.
    pub fn revive(&mut self) -> Result<(), ReviveFault>
        requires { self.old.chart.on ≡ false }
        ensures ok { OnOk result (Stands self.new.chart (fresh self.old.chart.shape.shadows (durable self.old.chart))) }
        ensures restarts { OnOk result (Restarts self.old self.new) }
        ensures counts { counts_of self.new.parts ≡ counts_of self.old.parts }
        ensures dead { (result ≡ Err ReviveFault.Dead) ↔ (self.old.chart.lives ≡ 0) }
        ensures refused { (result ≡ Err ReviveFault.Dead) → self.new ≡ self.old }
        ensures off { (result ≡ Err ReviveFault.Off) ↔ ((0 < self.old.chart.lives) × (self.new.chart.on ≡ false)) }
        ensures cut { (result ≡ Err ReviveFault.Off) → self.old.chart.cuts < 2 ^ 64 - 1
            → self.old.chart.cuts < self.new.chart.cuts }
        ensures kept { MatchResult result (λ _. Kept (lit self.old.chart) self.new.chart)
            (λ e. ((e ≡ ReviveFault.Dead) × (self.new ≡ self.old))
            ⊎ (Kept (lit self.old.chart) self.new.chart × (self.new.chart.on ≡ false))) }
        ensures setup { (self.new.limit ≡ self.old.limit) × (self.new.mark ≡ self.old.mark) }
        ensures version { self.new.chart.fields.version ≡ self.old.chart.fields.version }
        ensures size { length self.new.parts.cache.entries ≡ length self.old.parts.cache.entries }
    {
        if !self.board.power_on() {
            return Err(ReviveFault::Dead);
        }
        self.quiet = 0;
        self.shut_from = SLOTS;
        restart(&mut self.board, &mut self.parts)?;
        self.owned.forget();
        Ok(())
    }
}
