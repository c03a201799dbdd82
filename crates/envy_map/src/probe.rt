ghost use Rattle.std.specs.Prelude.{◌-◌, ◌*◌, ◌<◌, slice_index, IfOk, IfSome};
ghost use Rattle.envy_base.specs.State.{Reads};
ghost use Rattle.envy_map.specs.Codes.{IsJob, IsPlace, IsUndo};
ghost use Rattle.envy_map.specs.Fields.{chart, place as place_of_page, undo as undo_of_page, slot as slot_of_fields};
ghost use Rattle.envy_base.specs.Shape.{all_positions_of};

// Readers of fields that may hold any words.

use crate::code::{decode_job, decode_place, decode_slot, decode_undo};
use crate::half::half;
use crate::region::{
    JOB_AT, SLOTS_START, back_start, fill_start, origin_start, position_start, table_start,
    undo_start,
};
use envy_base::{Board, Job, Off, Place, Slot, Undo};

/// The job, or none where no job has this word.
pub fn job<B: Board>(board: &B) -> Result<Option<Job>, Off>
    ensures reads { Reads (B.state board.now) (chart (B.state board.now)).fields.job result }
    ensures fits { IfOk result (λ found. IfSome found IsJob) }
{
    let word = board.get(JOB_AT)?;
    Ok(decode_job(word))
}

/// Slot `t`, or none where no slot has this word.
pub fn slot<B: Board>(board: &B, t: u8) -> Result<Option<Slot>, Off>
    requires { t < 64 }
    ensures { Reads (B.state board.now) (slot_of_fields (chart (B.state board.now)).fields t) result }
{
    let word = board.get(SLOTS_START + t as u32)?;
    Ok(decode_slot(word))
}

/// The place of a page, or none where no place has this half.
pub fn place<B: Board>(board: &B, page: u32) -> Result<Option<Place>, Off>
    requires { page < (B.state board.now).shape.pages }
    ensures reads { Reads (B.state board.now) (place_of_page (chart (B.state board.now)).fields page) result }
    ensures fits { IfOk result (λ found. IfSome found IsPlace) }
{
    let word = half(board, table_start(&board.shape()), page)?;
    Ok(decode_place(word))
}

/// The undo of a page, or none where no undo has this half.
pub fn undo<B: Board>(board: &B, page: u32) -> Result<Option<Undo>, Off>
    requires { page < (B.state board.now).shape.pages }
    ensures reads { Reads (B.state board.now) (undo_of_page (chart (B.state board.now)).fields page) result }
    ensures fits { IfOk result (λ found. IfSome found IsUndo) }
{
    let word = half(board, undo_start(&board.shape()), page)?;
    Ok(decode_undo(word))
}

/// The word that is the fill of a segment.
pub fn fill<B: Board>(board: &B, segment: u32) -> Result<u64, Off>
    requires { segment < (B.state board.now).shape.segments }
    ensures { Reads (B.state board.now) (slice_index (chart (B.state board.now)).fields.fills segment) result }
{
    board.get(fill_start(&board.shape()) + segment)
}

/// The word that is the segment at a position.
pub fn segment_at<B: Board>(board: &B, position: u32) -> Result<u64, Off>
    requires { position < all_positions_of (B.state board.now).shape }
    ensures { Reads (B.state board.now) (slice_index (chart (B.state board.now)).fields.positions position) result }
{
    board.get(position_start(&board.shape()) + position)
}

/// The word that is the page that a row was claimed for.
pub fn back<B: Board>(board: &B, row: u32) -> Result<u64, Off>
    requires { row < (B.state board.now).shape.segments * (B.state board.now).shape.rows }
    ensures { Reads (B.state board.now) (slice_index (chart (B.state board.now)).fields.backs row) result }
{
    board.get(back_start(&board.shape()) + row)
}

/// The word that is the row that row `i` of the spare was copied from.
pub fn origin<B: Board>(board: &B, i: u32) -> Result<u64, Off>
    requires { i < (B.state board.now).shape.rows }
    ensures { Reads (B.state board.now) (slice_index (chart (B.state board.now)).fields.origins i) result }
{
    board.get(origin_start(&board.shape()) + i)
}
