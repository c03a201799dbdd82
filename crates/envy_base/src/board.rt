ghost use Rattle.std.specs.Prelude.{◌≡◌, ◌<◌, length, slice_index};
ghost use Rattle.envy_base.specs.State.{State, Puts, Programs, Erases, Reads, IsBoard, row_of};

use crate::{PAGE_WORDS, Page, Shape};

/// Power failed in the call, or was off at entry.
#[derive(Clone, Copy, Debug, PartialEq, Eq)]
pub struct Off;

/// Why a flash operation didn't succeed.
#[derive(Clone, Copy, Debug, PartialEq, Eq)]
pub enum Trouble {
    /// Power failed in the call, or was off at entry.
    Off,
    /// The operation failed, and its row or segment may hold anything.
    Bad,
}

/// A board: flash in rows of one page, which programs can only clear and erases set by whole
/// segments, and battery-backed SRAM in words of 64 bits. Power may fail inside `program`, `erase`
/// and `put`; a board that is off answers `Off` and changes nothing.
pub trait Board {
    ghost state: { Self → State };

    /// The sizes, which never change.
    fn shape(&self) -> Shape
        ensures { result ≡ (state self.now).shape };

    /// Whether power is on.
    fn powered(&self) -> bool
        ensures { result ≡ (state self.now).on };

    /// Word `i`, of 32, of a row.
    fn read(&self, row: u32, i: u32) -> Result<u64, Off>
        requires row { row < length (state self.now).flash }
        requires place { i < PAGE_WORDS }
        ensures { Reads (state self.now) (slice_index (row_of (state self.now) row) i) result };

    /// A word of SRAM.
    fn get(&self, w: u32) -> Result<u64, Off>
        requires { w < length (state self.now).sram }
        ensures { Reads (state self.now) (slice_index (state self.now).sram w) result };

    /// Makes a row the bitwise AND of itself and a page.
    fn program(&mut self, row: u32, page: &Page) -> Result<(), Trouble>
        requires { row < length (state self.old).flash }
        ensures { Programs (state self.old) row page.now result (state self.new) };

    /// Makes every row of a segment all ones.
    fn erase(&mut self, segment: u32) -> Result<(), Trouble>
        requires { segment < (state self.old).shape.segments }
        ensures { Erases (state self.old) segment result (state self.new) };

    /// Writes a word of SRAM.
    fn put(&mut self, w: u32, v: u64) -> Result<(), Off>
        requires { w < length (state self.old).sram }
        ensures { Puts (state self.old) w v result (state self.new) };

    ghost lawful: { (board : Self) → IsBoard (state board) };
}

impl From<Off> for Trouble {
    ghost use Rattle.envy_base.specs.declared.board.Trouble.TheVariants.{Off as TroubleOff};

    ghost from_gives = { λ _ e. e ≡ TroubleOff };

    fn from(_: Off) -> Self {
        Trouble::Off
    }
}
