ghost use Rattle.std.specs.Prelude.{◌≡◌, ◌<◌, ◌≤◌, false, Some, MatchResult, OnErr, IfOk};
ghost use Rattle.envy_base.specs.Shape.{version_of};
ghost use Rattle.envy_map.specs.Fields.{chart};
ghost use Rattle.envy_soundness.specs.Sound.{IsSound};
ghost use Rattle.envy_soundness.specs.Words.{kept};
ghost use Rattle.envy_engine.specs.Pages.{InRange};
ghost use Rattle.envy_memory.specs.Opened.{HasOpenAmong, IsFirstOpen};

use envy_base::{Board, Off, Place, Slot, Undo};
use envy_map::{place, slot, undo};

/// Where a restart would read a page: what its undo names while the undo's slot is open, else its place.
pub fn kept_place<B: Board>(board: &B, page: u32) -> Result<Place, Off>
    requires sound { IsSound (chart (B.state board.now)) }
    requires page { page < (B.state board.now).shape.pages }
    ensures value { IfOk result (λ x. kept (chart (B.state board.now)).fields page ≡ Some x) }
    ensures range { IfOk result (λ x. InRange (B.state board.now) x) }
    ensures off { OnErr result ((B.state board.now).on ≡ false) }
{
    match undo(board, page)? {
        Undo::Clear => place(board, page),
        Undo::Blank { slot: t } => match slot(board, t)? {
            Slot::Active => Ok(Place::Absent),
            _ => place(board, page),
        },
        Undo::Shadow { slot: t, row } => match slot(board, t)? {
            Slot::Active => Ok(Place::Row(row)),
            _ => place(board, page),
        },
    }
}

/// The lowest slot that is open, if one is. No slot above it is read.
pub fn lowest_open<B: Board>(board: &B) -> Result<Option<u8>, Off>
    requires sound { IsSound (chart (B.state board.now)) }
    requires version { (chart (B.state board.now)).fields.version ≡ version_of (B.state board.now).shape }
    ensures { MatchResult result (IsFirstOpen (chart (B.state board.now))) (λ _. (B.state board.now).on ≡ false) }
{
    for t in 0..64 {
        if slot(board, t)? == Slot::Active {
            return Ok(Some(t));
        }
    }
    Ok(None)
}

/// Whether a slot is open, of those from one on up to another.
pub fn has_open_among<B: Board>(board: &B, first: u8, end: u8) -> Result<bool, Off>
    requires sound { IsSound (chart (B.state board.now)) }
    requires version { (chart (B.state board.now)).fields.version ≡ version_of (B.state board.now).shape }
    requires few { end ≤ 64 }
    ensures { MatchResult result (HasOpenAmong first end (chart (B.state board.now))) (λ _. (B.state board.now).on ≡ false) }
{
    for t in first..end {
        if slot(board, t)? == Slot::Active {
            return Ok(true);
        }
    }
    Ok(false)
}
