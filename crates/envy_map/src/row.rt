ghost use Rattle.std.specs.Prelude.{◌≡◌, ◌+◌, ◌*◌, ◌<◌, slice_index};
ghost use Rattle.envy_base.specs.Map.{back_at, origin_at};
ghost use Rattle.envy_base.specs.State.{Puts, Reads};
ghost use Rattle.envy_map.specs.Fields.{chart};
ghost use Rattle.envy_map.specs.Writes.{Writes, with_back, with_origin};

use crate::probe;
use crate::region::{back_start, origin_start};
use envy_base::{Board, Off};

/// The page that a row was claimed for.
pub fn back<B: Board>(board: &B, row: u32) -> Result<u32, Off>
    requires row { row < (B.state board.now).shape.segments * (B.state board.now).shape.rows }
    requires range { slice_index (chart (B.state board.now)).fields.backs row < (B.state board.now).shape.pages }
    ensures { Reads (B.state board.now) (slice_index (chart (B.state board.now)).fields.backs row) result }
{
    let page = probe::back(board, row)?;
    Ok(page as u32)
}

/// Writes the page that a row was claimed for.
pub fn set_back<B: Board>(board: &mut B, row: u32, page: u32) -> Result<(), Off>
    requires row { row < (B.state board.old).shape.segments * (B.state board.old).shape.rows }
    requires page { page < (B.state board.old).shape.pages }
    ensures writes { Writes (with_back row page) (chart (B.state board.old)) result (chart (B.state board.new)) }
    ensures put { Puts (B.state board.old) (back_at (B.state board.old).shape + row) page result (B.state board.new) }
{
    let at = back_start(&board.shape());
    board.put(at + row, page as u64)
}

/// The row that row `i` of the cleaner's target was copied from.
pub fn origin<B: Board>(board: &B, i: u32) -> Result<u32, Off>
    requires place { i < (B.state board.now).shape.rows }
    requires range { slice_index (chart (B.state board.now)).fields.origins i < (B.state board.now).shape.segments *
        (B.state board.now).shape.rows }
    ensures { Reads (B.state board.now) (slice_index (chart (B.state board.now)).fields.origins i) result }
{
    let row = probe::origin(board, i)?;
    Ok(row as u32)
}

/// Writes the row that row `i` of the cleaner's target was copied from.
pub fn set_origin<B: Board>(board: &mut B, i: u32, row: u32) -> Result<(), Off>
    requires place { i < (B.state board.old).shape.rows }
    requires row { row < (B.state board.old).shape.segments * (B.state board.old).shape.rows }
    ensures writes { Writes (with_origin i row) (chart (B.state board.old)) result (chart (B.state board.new)) }
    ensures put { Puts (B.state board.old) (origin_at (B.state board.old).shape + i) row result (B.state board.new) }
{
    let at = origin_start(&board.shape());
    board.put(at + i, row as u64)
}
