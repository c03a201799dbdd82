ghost use Rattle.std.specs.Prelude.{◌≡◌, ◌<◌, ◌≤◌, IsTrue, Some, OnOk, slice_index};
ghost use Rattle.envy_base.specs.Shape.{all_positions_of, positions_of};
ghost use Rattle.envy_base.specs.declared.fields.Job.TheVariants.{Erase};
ghost use Rattle.envy_map.specs.Fields.{chart, with_fields};
ghost use Rattle.envy_map.specs.Writes.{Writes, with_fill, with_position};
ghost use Rattle.envy_soundness.specs.Power.{power_of};
ghost use Rattle.envy_soundness.specs.Same.{Same};
ghost use Rattle.envy_soundness.specs.Sound.{IsSound, IsSpare};

use crate::position::change_position;
use envy_base::{Board, Off};
use envy_map::set_fill;

/// Closes the spare while the job is to erase it: its fill becomes that of a full segment, so none of its rows
/// is free. The array stays.
pub fn close_spare<B: Board>(board: &mut B, segment: u32) -> Result<(), Off>
    requires sound { IsSound (chart (B.state board.old)) }
    requires segment { segment < (B.state board.old).shape.segments }
    requires erasing { IsTrue (B.state board.old).on → (chart (B.state board.old)).fields.job ≡ Some Erase }
    requires spare { IsTrue (B.state board.old).on
        → IsSpare (B.state board.old).shape (chart (B.state board.old)).fields.positions segment }

    ensures same { Same 0 0 (chart (B.state board.old)) (chart (B.state board.new)) }
    ensures writes { Writes (with_fill segment (B.state board.old).shape.rows) (chart (B.state board.old)) result
        (chart (B.state board.new)) }
    ensures fields { OnOk result (chart (B.state board.new) ≡ with_fields (chart (B.state board.old))
        (with_fill segment (B.state board.old).shape.rows (chart (B.state board.old)).fields)) }
    ensures power { (B.state board.new).on ≡ power_of result }
{
    let rows = board.shape().rows;
    set_fill(board, segment, rows)
}

/// Lets the spare stand at a position in reserve, while the job is to erase it and it is closed. It is retired
/// then: no row of it is ever kept again. The segment that stood there is the spare, and is to be erased. The
/// array stays.
pub fn retire_spare<B: Board>(board: &mut B, position: u32, spare: u32) -> Result<(), Off>
    requires sound { IsSound (chart (B.state board.old)) }
    requires reserved { positions_of (B.state board.old).shape ≤ position }
    requires position { position < all_positions_of (B.state board.old).shape }
    requires segment { spare < (B.state board.old).shape.segments }
    requires erasing { IsTrue (B.state board.old).on → (chart (B.state board.old)).fields.job ≡ Some Erase }
    requires spare { IsTrue (B.state board.old).on
        → IsSpare (B.state board.old).shape (chart (B.state board.old)).fields.positions spare }
    requires closed { IsTrue (B.state board.old).on
        → slice_index (chart (B.state board.old)).fields.fills spare ≡ (B.state board.old).shape.rows }

    ensures same { Same 0 0 (chart (B.state board.old)) (chart (B.state board.new)) }
    ensures writes { Writes (with_position position spare) (chart (B.state board.old)) result
        (chart (B.state board.new)) }
    ensures fields { OnOk result (chart (B.state board.new) ≡ with_fields (chart (B.state board.old))
        (with_position position spare (chart (B.state board.old)).fields)) }
    ensures freed { OnOk result (IsSpare (B.state board.new).shape (chart (B.state board.new)).fields.positions
        (slice_index (chart (B.state board.old)).fields.positions position)) }
    ensures power { (B.state board.new).on ≡ power_of result }
{
    change_position(board, position, spare)
}
