ghost use Rattle.std.specs.Prelude.{◌≡◌, ◌<◌, ◌≤◌, ◌^◌, false, IsTrue, length, MatchOption};
ghost use Rattle.envy_array.specs.Array.{Array};
ghost use Rattle.envy_mirror.specs.Catching.{CatchesUp, Helps, IsLowestOpen, NoneOpen, IsLowestStale, NoneStale};
ghost use Rattle.envy_mirror.specs.Mirroring.{Mirrors};
ghost use Rattle.envy_mirror.specs.Pair.{Side, IsSide, IsClosed, is_good};

use crate::half::Half;
use crate::mirror::Mirror;
use crate::page_copy::copy_page;
use crate::standing::Standing;
use envy_base::{Bench, MOST_ROWS, Slot, Trouble};
use envy_map::slot;
use envy_memory::{Memory, ReviveFault};

/// What a step did by which one side follows the other.
#[derive(Clone, Copy, Debug, PartialEq, Eq)]
pub enum Caught {
    /// Nothing: both sides are Good.
    Whole,
    /// Nothing: this slot, the lowest open one, is to be closed first.
    Waiting(u8),
    /// Power came to the Gone side. It is Behind, and all its pages are stale.
    Woken,
    /// This page, the lowest stale one, was copied.
    Copied(u32),
    /// No page was stale, and both sides are Good.
    Joined,
}

/// Why such a step wasn't done.
#[derive(Clone, Copy, Debug, PartialEq, Eq)]
pub enum CatchFault {
    /// No side is Good.
    Off,
    /// Power doesn't come to the Gone side: it has no lives left.
    Dead,
    /// Power of the other side failed in the step. It is Gone.
    Slipped,
    /// A flash operation of the other side failed. The page is stale still.
    Bad,
}

/// The lowest open slot.
fn lowest_open<B: Bench>(memory: &Memory<B>) -> Option<u8>
    requires { IsTrue memory.now.chart.on }
    ensures { MatchOption result (NoneOpen memory.now.chart) (λ t. IsLowestOpen memory.now.chart t) }
{
    let board = memory.board();
    for t in 0..64 {
        if let Ok(Slot::Active) = slot(board, t) {
            return Some(t);
        }
    }
    None
}

/// The lowest stale page.
fn lowest_stale(stale: &[bool]) -> Option<u32>
    requires { length stale.now < 2 ^ 32 }
    ensures { MatchOption result (NoneStale stale.now) (λ p. IsLowestStale stale.now p) }
{
    for (page, mark) in stale.iter().enumerate() {
        if *mark {
            return Some(page as u32);
        }
    }
    None
}

/// Asks for power of a Gone side: all its pages are stale.
fn wake<B: Bench>(side: &mut Half<B>, stale: &mut Vec<bool>) -> Result<Caught, CatchFault>
    requires off { side.old.memory.chart.on ≡ false }
    requires gone { side.old.standing ≡ Standing.Gone }
    ensures helps { (from : Side) → Helps result from side.old stale.old.items side.new stale.new.items }
    ensures side { IsSide side.new }
    ensures shape { side.new.memory.chart.shape ≡ side.old.memory.chart.shape }
{
    match side.memory.revive() {
        Ok(()) => {
            side.standing = Standing::Behind;
            stale.fill(true);
            Ok(Caught::Woken)
        }
        Err(ReviveFault::Dead) => Err(CatchFault::Dead),
        Err(ReviveFault::Off) => Err(CatchFault::Slipped),
    }
}

/// Copies a stale page to a side that is Behind.
fn copy_stale<A: Bench, B: Bench>(
    from: &Memory<A>,
    side: &mut Half<B>,
    stale: &mut Vec<bool>,
    page: u32,
) -> Result<Caught, CatchFault>
    requires on { IsTrue from.now.chart.on }
    requires behind { side.old.standing ≡ Standing.Behind }
    requires closed { IsClosed side.old.memory.chart }
    requires shape { side.old.memory.chart.shape ≡ from.now.chart.shape }
    requires few { from.now.chart.shape.pages ≤ MOST_ROWS }
    requires marks { length stale.old.items ≡ from.now.chart.shape.pages }
    requires none { NoneOpen from.now.chart }
    requires lowest { IsLowestStale stale.old.items page }
    ensures helps { (good : Side) → good.memory ≡ from.now
        → Helps result good side.old stale.old.items side.new stale.new.items }
    ensures side { IsSide side.new }
    ensures shape { side.new.memory.chart.shape ≡ side.old.memory.chart.shape }
{
    match copy_page(from, &mut side.memory, page) {
        Ok(()) => {
            stale[page as usize] = false;
            Ok(Caught::Copied(page))
        }
        Err(Trouble::Off) => {
            side.standing = Standing::Gone;
            Err(CatchFault::Slipped)
        }
        Err(Trouble::Bad) => Err(CatchFault::Bad),
    }
}

/// One step by which a side follows the other, which is Good.
fn help<A: Bench, B: Bench>(
    from: &Half<A>,
    side: &mut Half<B>,
    stale: &mut Vec<bool>,
) -> Result<Caught, CatchFault>
    requires good { IsTrue (is_good from.now) }
    requires on { IsSide from.now }
    requires other { is_good side.old ≡ false }
    requires side { IsSide side.old }
    requires shape { side.old.memory.chart.shape ≡ from.now.memory.chart.shape }
    requires few { from.now.memory.chart.shape.pages ≤ MOST_ROWS }
    requires marks { length stale.old.items ≡ from.now.memory.chart.shape.pages }
    ensures helps { Helps result from.now side.old stale.old.items side.new stale.new.items }
    ensures side { IsSide side.new }
    ensures shape { side.new.memory.chart.shape ≡ side.old.memory.chart.shape }
{
    if side.standing == Standing::Gone {
        return wake(side, stale);
    }
    if let Some(t) = lowest_open(&from.memory) {
        return Ok(Caught::Waiting(t));
    }
    let Some(page) = lowest_stale(stale) else {
        side.standing = Standing::Good;
        return Ok(Caught::Joined);
    };
    copy_stale(&from.memory, side, stale, page)
}

impl<A: Bench, B: Bench> Mirror<A, B> {
    /// One step by which the side that isn't Good follows the one that is: power is asked for, a stale page is
    /// copied where no slot is open, or the side is Good again. The words that the pair stands for stay.
    ///
    /// # Errors
    ///
    /// See `CatchFault`.
    pub fn catch_up(&mut self) -> Result<Caught, CatchFault>
        ensures catches { CatchesUp result self.old self.new }
        ensures mirrors { (m : Array) → Mirrors self.old m → Mirrors self.new m }
    {
        match (self.first.is_good(), self.second.is_good()) {
            (true, true) => Ok(Caught::Whole),
            (true, false) => help(&self.first, &mut self.second, &mut self.stale),
            (false, true) => help(&self.second, &mut self.first, &mut self.stale),
            (false, false) => Err(CatchFault::Off),
        }
    }
}
