ghost use Rattle.std.specs.Prelude.{◌≡◌, ◌↔◌, ◌<◌, ◌/◌, false, OnOk, slice_index};
ghost use Rattle.envy_array.specs.Array.{Array};
ghost use Rattle.envy_array.specs.Step.{Load, Look};
ghost use Rattle.envy_meaning.specs.Stands.{Stands};
ghost use Rattle.envy_soundness.specs.Words.{durable};
ghost use Rattle.envy_memory.specs.Below.{IsPast};
ghost use Rattle.envy_memory.specs.Calls.{Looks};
ghost use Rattle.envy_mirror.specs.Pair.{is_good, side_at};
ghost use Rattle.envy_mirror.specs.Reading.{AsksLowest, Finds, SeesLowest};
ghost use Rattle.envy_mirror.specs.Reviving.{which};

use crate::mirror::Mirror;
use envy_base::{Bench, PAGE_WORDS};
use envy_memory::LoadFault;

impl<A: Bench, B: Bench> Mirror<A, B> {
    /// The word at an address, also where a transaction that is still open put it. The Good side with the lower
    /// number is asked.
    ///
    /// # Errors
    ///
    /// `Off` where no side is Good, then `Range`.
    pub fn load(&mut self, a: u32) -> Result<u64, LoadFault>
        ensures finds { Finds (Load a) result self.old self.new }
        ensures lowest { AsksLowest (is_good self.old.first) (is_good self.old.second)
            (a / PAGE_WORDS) result self.old self.new }
    {
        if self.first.is_good() {
            return self.first.memory.load(a);
        }
        if self.second.is_good() {
            return self.second.memory.load(a);
        }
        Err(LoadFault::Off)
    }

    /// The committed word at an address, which a restart would leave. It is no access to the page. The Good side
    /// with the lower number is asked.
    ///
    /// # Errors
    ///
    /// `Off` where no side is Good, then `Range`.
    pub fn look(&self, a: u32) -> Result<u64, LoadFault>
        ensures finds { Finds (Look a) result self.now self.now }
        ensures lowest { SeesLowest (is_good self.now.first) (is_good self.now.second) a result self.now }
    {
        if self.first.is_good() {
            return self.first.memory.look(a);
        }
        if self.second.is_good() {
            return self.second.memory.look(a);
        }
        Err(LoadFault::Off)
    }
    /// The committed word at an address of one side, which a restart of it would leave, also where it isn't Good: one that is
    /// Behind may have an older word. It is no access to the page.
    ///
    /// # Errors
    ///
    /// `Off` where the side has no power, then `Range`.
    pub fn look_at(&self, side: u8, a: u32) -> Result<u64, LoadFault>
        requires { side < 2 }
        ensures word { OnOk result
            (result ≡ Ok (slice_index (durable (side_at (which side) self.now).memory.chart) a)) }
        ensures step { (m : Array) → Stands (side_at (which side) self.now).memory.chart m
            → Looks m a result (side_at (which side) self.now).memory.chart }
        ensures off { (result ≡ Err LoadFault.Off)
            ↔ ((side_at (which side) self.now).memory.chart.on ≡ false) }
        ensures range { (result ≡ Err LoadFault.Range) ↔ IsPast a (side_at (which side) self.now).memory }
    {
        match side {
            0 => self.first.memory.look(a),
            _ => self.second.memory.look(a),
        }
    }
}
