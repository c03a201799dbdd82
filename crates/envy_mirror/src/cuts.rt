ghost use Rattle.std.specs.Prelude.{◌≡◌, ◌<◌, ◌≤◌, ℕ};
ghost use Rattle.envy_array.specs.Array.{Array};
ghost use Rattle.envy_mirror.specs.Mirroring.{Mirrors};
ghost use Rattle.envy_mirror.specs.Reviving.{LeavesCut, cut_pair, plan_side, which};

use crate::mirror::Mirror;
use crate::standing::Which;
use envy_base::{Bench, PlannedFault};

impl<A: Bench, B: Bench> Mirror<A, B> {
    /// Plans a cut of a side's power at its `k`-th device operation from now.
    pub fn arm_cut(&mut self, side: u8, k: u32, g: u64)
        requires side { side < 2 }
        requires k { 1 ≤ k }
        ensures { self.new ≡ plan_side (which side) (PlannedFault.Cut k g) self.old }
    {
        match side {
            0 => self.first.memory.arm_cut(k, g),
            _ => self.second.memory.arm_cut(k, g),
        }
    }

    /// Plans a bad operation of a side at its `k`-th flash operation from now.
    pub fn arm_bad(&mut self, side: u8, k: u32, g: u64)
        requires side { side < 2 }
        requires k { 1 ≤ k }
        ensures { self.new ≡ plan_side (which side) (PlannedFault.Bad k g) self.old }
    {
        match side {
            0 => self.first.memory.arm_bad(k, g),
            _ => self.second.memory.arm_bad(k, g),
        }
    }

    /// Cuts a side's power between two operations: the side is Gone. A Gone side stays as it is.
    pub fn cut_now(&mut self, side: u8)
        requires { side < 2 }
        ensures cuts { self.new ≡ cut_pair (which side) self.old }
        ensures step { (m : Array) → Mirrors self.old m → LeavesCut m self.new }
    {
        if self.first.is_good() && self.second.is_good() {
            self.last = match side {
                0 => Which::Second,
                _ => Which::First,
            };
        }
        match side {
            0 => self.first.cut(),
            _ => self.second.cut(),
        }
    }
}
