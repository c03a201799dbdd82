ghost use Rattle.std.specs.Prelude.{◌≡◌, ◌<◌, ◌≤◌, ◌↔◌, ℕ, false, IsTrue, IfOk, if◌then◌else◌};
ghost use Rattle.envy_base.specs.State.{State, pull, lit, planned, IsMade};
ghost use Rattle.envy_base.specs.Shape.{IsShape};

use crate::{Board, PlannedFault, Shape};
use std::alloc::{AllocError, Global};

/// Memory ran out.
pub type NoMemory = AllocError;

/// A board whose power and operations a test may make fail.
pub trait Bench: Board {
    /// Plans a cut of power at the `k`-th device operation from now (`put`, `program` and `erase`
    /// count), in place of an earlier such plan. What the cut leaves is drawn from `g`.
    fn arm_cut(&mut self, k: u32, g: u64)
        requires { 1 ≤ k }
        ensures { Self.state self.new ≡ planned (PlannedFault.Cut k g) (Self.state self.old) };

    /// Plans a bad operation at the `k`-th flash operation from now (`program` and `erase` count),
    /// in place of an earlier such plan. What it leaves is drawn from `g`.
    fn arm_bad(&mut self, k: u32, g: u64)
        requires { 1 ≤ k }
        ensures { Self.state self.new ≡ planned (PlannedFault.Bad k g) (Self.state self.old) };

    /// Cuts power between two operations.
    fn cut_now(&mut self)
        requires { IsTrue (Self.state self.old).on }
        ensures { Self.state self.new ≡ pull (Self.state self.old) };

    /// Asks for power. Each return of power uses one life; without one it stays off.
    fn power_on(&mut self) -> bool
        requires { (Self.state self.old).on ≡ false }
        ensures answer { IsTrue result ↔ (0 < (Self.state self.old).lives) }
        ensures state { Self.state self.new ≡ (if result then lit (Self.state self.old) else Self.state self.old) };

    /// How often power can still return.
    fn lives(&self) -> u32
        ensures { result ≡ (Self.state self.now).lives };
}

/// Makes boards.
pub trait Maker {
    type Made: Bench;

    /// A board of the shape with so many lives, power on. Its flash and SRAM may hold anything.
    fn make(&mut self, alloc: Global, shape: &Shape, lives: u32) -> Result<Self::Made, NoMemory>
        requires { IsShape shape.now }
        ensures { IfOk result (λ board. IsMade shape.now lives (Self.Made.Board.state board)) };
}
