ghost use Rattle.std.specs.Prelude.{◌≡◌, ◌<◌, ◌≤◌, ◌↔◌, ℕ, false, IsTrue, IfOk, length, slice_index, if◌then◌else◌};
ghost use Rattle.envy_base.specs.Shape.{IsShape};
ghost use Rattle.envy_base.specs.State.{State, IsBoard, Reads, row_of, pull, lit, planned};
ghost use Rattle.envy_counted.specs.LooseBoard.{AnyPuts, AnyPrograms, AnyErases, IsAnyMade};

use envy_base::{NoMemory, Off, PAGE_WORDS, Page, PlannedFault, Shape, Trouble};
use std::alloc::Global;

/// A board that keeps the least that is asked of one: flash in rows of one page, battery-backed SRAM
/// in words of 64 bits, and power that may fail inside `program`, `erase` and `put`. Where an operation
/// fails its count of such failures rises, by whatever number; where one succeeds they may rise too.
pub trait LooseBoard {
    ghost state: { Self → State };

    /// The sizes, which never change.
    fn shape(&self) -> Shape
        ensures { result ≡ (state self.now).shape };

    /// Whether power is on.
    fn powered(&self) -> bool
        ensures { result ≡ (state self.now).on };

    /// Word `i`, of 32, of a row.
    fn read(&self, row: u32, i: u32) -> Result<u64, Off>
        requires row { row < length (state self.now).flash }
        requires place { i < PAGE_WORDS }
        ensures { Reads (state self.now) (slice_index (row_of (state self.now) row) i) result };

    /// A word of SRAM.
    fn get(&self, w: u32) -> Result<u64, Off>
        requires { w < length (state self.now).sram }
        ensures { Reads (state self.now) (slice_index (state self.now).sram w) result };

    /// Makes a row the bitwise AND of itself and a page.
    fn program(&mut self, row: u32, page: &Page) -> Result<(), Trouble>
        requires { row < length (state self.old).flash }
        ensures { AnyPrograms (state self.old) row page.now result (state self.new) };

    /// Makes every row of a segment all ones.
    fn erase(&mut self, segment: u32) -> Result<(), Trouble>
        requires { segment < (state self.old).shape.segments }
        ensures { AnyErases (state self.old) segment result (state self.new) };

    /// Writes a word of SRAM.
    fn put(&mut self, w: u32, v: u64) -> Result<(), Off>
        requires { w < length (state self.old).sram }
        ensures { AnyPuts (state self.old) w v result (state self.new) };

    ghost lawful: { (board : Self) → IsBoard (state board) };
}

/// Such a board whose power and operations a test may make fail.
pub trait LooseBench: LooseBoard {
    /// Plans a cut of power at the `k`-th device operation from now, in place of an earlier such plan.
    fn arm_cut(&mut self, k: u32, g: u64)
        requires { 1 ≤ k }
        ensures { Self.state self.new ≡ planned (PlannedFault.Cut k g) (Self.state self.old) };

    /// Plans a bad operation at the `k`-th flash operation from now, in place of an earlier such plan.
    fn arm_bad(&mut self, k: u32, g: u64)
        requires { 1 ≤ k }
        ensures { Self.state self.new ≡ planned (PlannedFault.Bad k g) (Self.state self.old) };

    /// Cuts power between two operations.
    fn cut_now(&mut self)
        requires { IsTrue (Self.state self.old).on }
        ensures { Self.state self.new ≡ pull (Self.state self.old) };

    /// Asks for power. Each return of power uses one life; without one it stays off.
    fn power_on(&mut self) -> bool
        requires { (Self.state self.old).on ≡ false }
        ensures answer { IsTrue result ↔ (0 < (Self.state self.old).lives) }
        ensures state { Self.state self.new ≡ (if result then lit (Self.state self.old) else Self.state self.old) };

    /// How often power can still return.
    fn lives(&self) -> u32
        ensures { result ≡ (Self.state self.now).lives };
}

/// Makes such boards.
pub trait LooseMaker {
    type Made: LooseBench;

    /// A board of the shape with so many lives, power on. Its flash and SRAM may hold anything.
    fn make(&mut self, alloc: Global, shape: &Shape, lives: u32) -> Result<Self::Made, NoMemory>
        requires { IsShape shape.now }
        ensures { IfOk result (λ board. IsAnyMade shape.now lives (Self.Made.LooseBoard.state board)) };
}
