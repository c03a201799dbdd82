ghost use Rattle.std.specs.Prelude.{◌≡◌, ◌≢◌, ◌*◌, ◌+◌, ◌<◌, ℕ, [], Some, OnOk, IsErrOf, slice_index};
ghost use Rattle.std.specs.List.{filter};
ghost use Rattle.envy_base.specs.Counting.{up};
ghost use Rattle.envy_base.specs.State.{row_of};
ghost use Rattle.envy_map.specs.Fields.{chart, with_fields, place};
ghost use Rattle.envy_map.specs.Writes.{with_place};
ghost use Rattle.envy_frames.specs.Order.{is_other};
ghost use Rattle.envy_soundness.specs.Same.{Same};
ghost use Rattle.envy_engine.specs.Agreement.{Ready};
ghost use Rattle.envy_engine.specs.Flushing.{FlushesOldest, Granted, IsFresh, MovesOut, StopsMove, StopsOldest};
ghost use Rattle.envy_engine.specs.Leaving.{LeavesParts};
ghost use Rattle.envy_soundness.specs.Power.{power_of, power_after};

use crate::parts::Parts;
use crate::row_copy::copy_row;
use crate::rows::get_row;
use envy_base::{Board, Off, PAGE_WORDS, Place, Trouble};
use envy_soundness::move_place;

/// Lets a page that stands in a frame stand in a row that holds its words, and gives the frame back.
#[inline(always)]
fn move_out<B: Board>(
    board: &mut B,
    parts: &mut Parts,
    page: u32,
    frame: u32,
    row: u32,
) -> Result<(), Off>
    requires ready { Ready (chart (B.state board.old)) parts.old }
    requires page { page < (B.state board.old).shape.pages }
    requires here { place (chart (B.state board.old)).fields page ≡ Some (Place.Frame frame) }
    requires granted { Granted (B.state board.old).shape (chart (B.state board.old)).fields page row }
    requires copy { (j : ℕ) → j < PAGE_WORDS
        → slice_index (row_of (B.state board.old) row) j ≡ slice_index (chart (B.state board.old)).fields.frames
        (PAGE_WORDS * frame + j) }

    ensures same { Same 0 0 (chart (B.state board.old)) (chart (B.state board.new)) }
    ensures leaves { LeavesParts (chart (B.state board.old)) parts.old (chart (B.state board.new)) parts.new }
    ensures fields { OnOk result (chart (B.state board.new) ≡ with_fields (chart (B.state board.old))
        (with_place page (Some (Place.Row row)) (chart (B.state board.old)).fields)) }
    ensures frames { OnOk result (parts.new.frames.held ≡ filter (is_other frame) parts.old.frames.held) }
    ensures parts { parts.new
        ≡ record parts.old { frames = parts.new.frames; space = parts.new.space; cache = parts.new.cache } }
    ensures power { (B.state board.new).on ≡ power_of result }
{
    move_place(board, page, Place::Row(row))?;
    parts.space.note_kept(row);
    parts.cache.retarget(page, Place::Row(row));
    parts.frames.give_back(frame);
    Ok(())
}

/// Programs a row that was claimed for a held page with its words, lets it stand there, and gives its frame back.
#[inline(always)]
pub fn flush_into<B: Board>(
    board: &mut B,
    parts: &mut Parts,
    page: u32,
    frame: u32,
    row: u32,
) -> Result<(), Trouble>
    requires ready { Ready (chart (B.state board.old)) parts.old }
    requires page { page < (B.state board.old).shape.pages }
    requires here { place (chart (B.state board.old)).fields page ≡ Some (Place.Frame frame) }
    requires fresh { IsFresh (chart (B.state board.old)) page row }

    ensures same { Same 1 0 (chart (B.state board.old)) (chart (B.state board.new)) }
    ensures leaves { LeavesParts (chart (B.state board.old)) parts.old (chart (B.state board.new)) parts.new }
    ensures moves { OnOk result
        (MovesOut page frame row (chart (B.state board.old)) parts.old (chart (B.state board.new)) parts.new) }
    ensures stops { IsErrOf result Trouble.Bad
        → StopsMove (chart (B.state board.old)) parts.old (chart (B.state board.new)) parts.new }
    ensures parts { parts.new
        ≡ record parts.old {
          frames = parts.new.frames;
          space = parts.new.space;
          cache = parts.new.cache;
          flushes =
              up parts.old.flushes;
        } }
    ensures power { (B.state board.new).on ≡ power_after result }
{
    copy_row(board, parts, page, frame, row)?;
    move_out(board, parts, page, frame, row)?;
    Ok(())
}

/// Programs the oldest held page into flash, and gives its frame back.
pub fn flush_oldest<B: Board>(board: &mut B, parts: &mut Parts) -> Result<(), Trouble>
    requires ready { Ready (chart (B.state board.old)) parts.old }
    requires some { parts.old.frames.held ≢ [] }

    ensures same { Same (4 * (B.state board.old).shape.rows + 13) 6 (chart (B.state board.old))
        (chart (B.state board.new)) }
    ensures leaves { LeavesParts (chart (B.state board.old)) parts.old (chart (B.state board.new)) parts.new }
    ensures flushes { OnOk result
        (FlushesOldest (chart (B.state board.old)) parts.old (chart (B.state board.new)) parts.new) }
    ensures stops { IsErrOf result Trouble.Bad
        → StopsOldest (chart (B.state board.old)) parts.old (chart (B.state board.new)) parts.new }
    ensures power { (B.state board.new).on ≡ power_after result }
{
    let Some(held) = parts.frames.oldest() else {
        unreachable!();
    };
    let row = get_row(board, parts, held.home, held.page)?;
    flush_into(board, parts, held.page, held.frame, row)
}
