ghost use Rattle.std.specs.Prelude.{◌≡◌, ◌*◌, ◌+◌, ◌<◌, ℕ, Some, OnOk, IsErrOf, slice_index};
ghost use Rattle.envy_base.specs.Counting.{up};
ghost use Rattle.envy_base.specs.State.{row_of};
ghost use Rattle.envy_map.specs.Fields.{chart, place as place_of};
ghost use Rattle.envy_soundness.specs.Same.{SameWords};
ghost use Rattle.envy_engine.specs.Agreement.{Ready};
ghost use Rattle.envy_engine.specs.Flushing.{Granted, IsFresh};
ghost use Rattle.envy_engine.specs.Putting.{MayGive, given, PutFirst, Shadows, KeepsOwners, ShadesPage, MarksPage, StopsMark, ShadesHere, StopsHere};
ghost use Rattle.envy_engine.specs.Leaving.{LeavesParts};
ghost use Rattle.envy_soundness.specs.Power.{power_of, power_after};

use crate::parts::Parts;
use crate::row_copy::copy_row;
use crate::rows::get_row;
use envy_base::{Board, Off, PAGE_WORDS, Place, Trouble, Undo};
use envy_soundness::change_frame_word;
use envy_txn::Owned;

/// Gives a page in a frame, which nobody owns, to a slot, whose shadow of it stands in a row that holds its words.
fn shade<B: Board>(
    board: &mut B,
    parts: &mut Parts,
    owned: &mut Owned,
    page: u32,
    frame: u32,
    slot: u8,
    row: u32,
) -> Result<(), Off>
    requires ready { Ready (chart (B.state board.old)) parts.old }
    requires may { MayGive slot page (chart (B.state board.old)) owned.old }
    requires here { place_of (chart (B.state board.old)).fields page ≡ Some (Place.Frame frame) }
    requires granted { Granted (B.state board.old).shape (chart (B.state board.old)).fields page row }
    requires copy { (j : ℕ) → j < PAGE_WORDS
        → slice_index (row_of (B.state board.old) row) j ≡ slice_index (chart (B.state board.old)).fields.frames
        (PAGE_WORDS * frame + j) }

    ensures same { SameWords 0 0 (chart (B.state board.old)) (chart (B.state board.new)) }
    ensures leaves { LeavesParts (chart (B.state board.old)) parts.old (chart (B.state board.new)) parts.new }
    ensures shades { OnOk result
        (ShadesPage slot page row (chart (B.state board.old)) owned.old (chart (B.state board.new)) owned.new) }
    ensures owners { KeepsOwners (chart (B.state board.new)) owned.old owned.new }
    ensures parts { parts.new ≡ record parts.old { space = parts.new.space } }
    ensures power { (B.state board.new).on ≡ power_of result }
{
    owned.own(board, page, Undo::Shadow { slot, row })?;
    parts.space.note_kept(row);
    Ok(())
}

/// Programs a shadow of a page in a frame into a row, and gives the page to a slot.
fn shadow<B: Board>(
    board: &mut B,
    parts: &mut Parts,
    owned: &mut Owned,
    page: u32,
    frame: u32,
    slot: u8,
    row: u32,
) -> Result<(), Trouble>
    requires ready { Ready (chart (B.state board.old)) parts.old }
    requires may { MayGive slot page (chart (B.state board.old)) owned.old }
    requires here { place_of (chart (B.state board.old)).fields page ≡ Some (Place.Frame frame) }
    requires frame { frame < (B.state board.old).shape.frames }
    requires fresh { IsFresh (chart (B.state board.old)) page row }

    ensures shadows { Shadows 1 0 slot page (chart (B.state board.old)) result (chart (B.state board.new)) }
    ensures leaves { LeavesParts (chart (B.state board.old)) parts.old (chart (B.state board.new)) parts.new }
    ensures marks { OnOk result
        (MarksPage slot page row (chart (B.state board.old)) owned.old (chart (B.state board.new)) owned.new) }
    ensures stops { IsErrOf result Trouble.Bad
        → StopsMark (chart (B.state board.old)) (chart (B.state board.new)) × (owned.new ≡ owned.old) }
    ensures owners { KeepsOwners (chart (B.state board.new)) owned.old owned.new }
    ensures parts { parts.new
        ≡ record parts.old { space = parts.new.space; flushes = up parts.old.flushes } }
    ensures power { (B.state board.new).on ≡ power_after result }
{
    copy_row(board, parts, page, frame, row)?;
    Ok(shade(board, parts, owned, page, frame, slot, row)?)
}

/// The first put of a slot to a page that stands in a frame and that nobody owns.
pub fn put_framed<B: Board>(
    board: &mut B,
    parts: &mut Parts,
    owned: &mut Owned,
    page: u32,
    frame: u32,
    slot: u8,
    i: u32,
    w: u64,
) -> Result<(), Trouble>
    requires ready { Ready (chart (B.state board.old)) parts.old }
    requires may { MayGive slot page (chart (B.state board.old)) owned.old }
    requires word { i < PAGE_WORDS }
    requires here { place_of (chart (B.state board.old)).fields page ≡ Some (Place.Frame frame) }

    ensures put { PutFirst (4 * (B.state board.old).shape.rows + 13) 6 slot page (chart (B.state board.old))
        (PAGE_WORDS * page + i) w result (chart (B.state board.new)) }
    ensures leaves { LeavesParts (chart (B.state board.old)) parts.old (chart (B.state board.new)) parts.new }
    ensures puts { OnOk result
        (ShadesHere slot page frame (chart (B.state board.old)) parts.old (chart (B.state board.new)) parts.new) }
    ensures frames { parts.new.frames ≡ parts.old.frames }
    ensures gives { OnOk result (owned.new ≡ given slot page owned.old) }
    ensures owners { KeepsOwners (chart (B.state board.new)) owned.old owned.new }
    ensures stops { IsErrOf result Trouble.Bad → StopsHere page frame
        (chart (B.state board.old)) parts.old (chart (B.state board.new)) parts.new × (owned.new ≡ owned.old) }
    ensures power { (B.state board.new).on ≡ power_after result }
{
    let home = parts.frames.home(frame);
    let row = get_row(board, parts, home, page)?;
    shadow(board, parts, owned, page, frame, slot, row)?;
    Ok(change_frame_word(board, page, frame, i, w)?)
}
