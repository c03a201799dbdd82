ghost use Rattle.std.specs.Prelude.{◌≡◌, ◌+◌, ◌-◌, ◌<◌, ◌≤◌, slice_index};
ghost use Rattle.envy_base.specs.Map.{wear_at, fill_at, position_at};
ghost use Rattle.envy_base.specs.State.{Puts, Reads};
ghost use Rattle.envy_map.specs.Fields.{chart};
ghost use Rattle.envy_map.specs.Writes.{Writes, with_wear, with_fill, with_position};
ghost use Rattle.envy_base.specs.Shape.{all_positions_of};

use crate::probe;
use crate::region::{WEAR_START, fill_start, position_start};
use envy_base::{Board, Off};

/// The wear of a segment: how often it was erased, as the map counts it.
pub fn wear<B: Board>(board: &B, segment: u32) -> Result<u64, Off>
    requires { segment < (B.state board.now).shape.segments }
    ensures { Reads (B.state board.now) (slice_index (chart (B.state board.now)).fields.wears segment) result }
{
    board.get(WEAR_START + segment)
}

/// Writes the wear of a segment.
pub fn set_wear<B: Board>(board: &mut B, segment: u32, count: u64) -> Result<(), Off>
    requires { segment < (B.state board.old).shape.segments }
    ensures writes { Writes (with_wear segment count) (chart (B.state board.old)) result (chart (B.state board.new)) }
    ensures put { Puts (B.state board.old) (wear_at + segment) count result (B.state board.new) }
{
    board.put(WEAR_START + segment, count)
}

/// The fill of a segment: how many of its rows have been claimed since it was erased.
pub fn fill<B: Board>(board: &B, segment: u32) -> Result<u32, Off>
    requires segment { segment < (B.state board.now).shape.segments }
    requires range { slice_index (chart (B.state board.now)).fields.fills segment ≤ (B.state board.now).shape.rows }
    ensures { Reads (B.state board.now) (slice_index (chart (B.state board.now)).fields.fills segment) result }
{
    let fill = probe::fill(board, segment)?;
    Ok(fill as u32)
}

/// Writes the fill of a segment.
pub fn set_fill<B: Board>(board: &mut B, segment: u32, fill: u32) -> Result<(), Off>
    requires segment { segment < (B.state board.old).shape.segments }
    requires fill { fill ≤ (B.state board.old).shape.rows }
    ensures writes { Writes (with_fill segment fill) (chart (B.state board.old)) result (chart (B.state board.new)) }
    ensures put { Puts (B.state board.old) (fill_at (B.state board.old).shape + segment) fill result
        (B.state board.new) }
{
    let at = fill_start(&board.shape());
    board.put(at + segment, fill as u64)
}

/// The segment at a position.
pub fn segment_at<B: Board>(board: &B, position: u32) -> Result<u32, Off>
    requires position { position < all_positions_of (B.state board.now).shape }
    requires range { slice_index (chart (B.state board.now)).fields.positions position
        < (B.state board.now).shape.segments }
    ensures { Reads (B.state board.now) (slice_index (chart (B.state board.now)).fields.positions position) result }
{
    let segment = probe::segment_at(board, position)?;
    Ok(segment as u32)
}

/// Writes the segment at a position.
pub fn set_segment_at<B: Board>(board: &mut B, position: u32, segment: u32) -> Result<(), Off>
    requires position { position < all_positions_of (B.state board.old).shape }
    requires segment { segment < (B.state board.old).shape.segments }
    ensures writes { Writes (with_position position segment) (chart (B.state board.old)) result
        (chart (B.state board.new)) }
    ensures put { Puts (B.state board.old) (position_at (B.state board.old).shape + position) segment result
        (B.state board.new) }
{
    let at = position_start(&board.shape());
    board.put(at + position, segment as u64)
}
