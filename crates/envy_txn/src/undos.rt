ghost use Rattle.std.specs.Prelude.{◌≡◌, ◌<◌, true, IsTrue, Some, IfSome, OnOk};
ghost use Rattle.envy_map.specs.Codes.{IsPlace, IsUndo};
ghost use Rattle.envy_map.specs.Fields.{chart, with_fields, undo as undo_of};
ghost use Rattle.envy_map.specs.Writes.{with_place, with_undo};
ghost use Rattle.envy_soundness.specs.May.{named_by};
ghost use Rattle.envy_soundness.specs.Power.{power_of};
ghost use Rattle.envy_soundness.specs.Same.{SameDurable};
ghost use Rattle.envy_soundness.specs.Sound.{IsSound, owned_by, slot_named};
ghost use Rattle.envy_soundness.specs.Words.{kept};

use envy_base::{Board, Off, Place, Undo};
use envy_soundness::{clear_settled_undo, restore_place};

/// The slot that an undo names.
pub fn slot_in(undo: Undo) -> Option<u8>
    ensures { result ≡ slot_named (Some undo) }
{
    match undo {
        Undo::Clear => None,
        Undo::Blank { slot } | Undo::Shadow { slot, .. } => Some(slot),
    }
}

/// The place that an undo names.
pub fn place_in(undo: Undo) -> Option<Place>
    ensures place { result ≡ named_by undo }
    ensures fits { IsUndo undo → IfSome result IsPlace }
{
    match undo {
        Undo::Clear => None,
        Undo::Blank { .. } => Some(Place::Absent),
        Undo::Shadow { row, .. } => Some(Place::Row(row)),
    }
}

/// Lets a page of an open transaction be again where its undo says, and then clears the undo.
pub fn put_back<B: Board>(board: &mut B, page: u32, back: Place) -> Result<(), Off>
    requires sound { IsSound (chart (B.state board.old)) }
    requires on { IsTrue (B.state board.old).on }
    requires page { page < (B.state board.old).shape.pages }
    requires place { IsPlace back }
    requires owned { let f = (chart (B.state board.old)).fields in owned_by f.slots (undo_of f page) ≡ true }
    requires names { kept (chart (B.state board.old)).fields page ≡ Some back }

    ensures durable { SameDurable 0 0 (chart (B.state board.old)) (chart (B.state board.new)) }
    ensures fields { OnOk result (chart (B.state board.new) ≡ with_fields (chart (B.state board.old))
        (with_undo page (Some Undo.Clear) (with_place page (Some back) (chart (B.state board.old)).fields))) }
    ensures power { (B.state board.new).on ≡ power_of result }
{
    restore_place(board, page, back)?;
    clear_settled_undo(board, page)?;
    Ok(())
}
