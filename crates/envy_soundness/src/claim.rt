ghost use Rattle.std.specs.Prelude.{◌≡◌, ◌+◌, ◌*◌, ◌<◌, IsTrue, OnOk, slice_index};
ghost use Rattle.envy_map.specs.Fields.{chart, with_fields};
ghost use Rattle.envy_map.specs.Writes.{with_back, with_fill, with_origin};
ghost use Rattle.envy_soundness.specs.Claims.{IsCopying, IsUsable, FillsRise};
ghost use Rattle.envy_soundness.specs.Power.{power_of};
ghost use Rattle.envy_soundness.specs.Same.{Same};
ghost use Rattle.envy_soundness.specs.Sound.{IsSound, IsFree};

use envy_base::{Board, Off};
use envy_map::{set_back, set_fill, set_origin};

/// Notes the page that a free row is claimed for, before the fill of its segment rises over it. The
/// array stays as it is.
pub fn claim_back<B: Board>(board: &mut B, row: u32, page: u32) -> Result<(), Off>
    requires sound { IsSound (chart (B.state board.old)) }
    requires row { row < (B.state board.old).shape.segments * (B.state board.old).shape.rows }
    requires page { page < (B.state board.old).shape.pages }
    requires free { IsTrue (B.state board.old).on
        → IsFree (B.state board.old).shape (chart (B.state board.old)).fields row }

    ensures same { Same 0 0 (chart (B.state board.old)) (chart (B.state board.new)) }
    ensures fields { OnOk result (chart (B.state board.new) ≡ with_fields (chart (B.state board.old))
        (with_back row page (chart (B.state board.old)).fields)) }
    ensures fills { (chart (B.state board.new)).fields.fills ≡ (chart (B.state board.old)).fields.fills }
    ensures power { (B.state board.new).on ≡ power_of result }
{
    set_back(board, row, page)
}

/// Raises the fill of a segment, which is `fill`, by one: its next row is claimed. The segment stands
/// at a position, or is the spare that another is being copied to. The array stays as it is.
pub fn raise_fill<B: Board>(board: &mut B, segment: u32, fill: u32) -> Result<(), Off>
    requires sound { IsSound (chart (B.state board.old)) }
    requires segment { segment < (B.state board.old).shape.segments }
    requires room { fill < (B.state board.old).shape.rows }
    requires filled { IsTrue (B.state board.old).on → slice_index (chart (B.state board.old)).fields.fills segment
        ≡ fill }
    requires usable { IsTrue (B.state board.old).on
        → IsUsable (B.state board.old).shape (chart (B.state board.old)).fields segment }

    ensures same { Same 0 0 (chart (B.state board.old)) (chart (B.state board.new)) }
    ensures fields { OnOk result (chart (B.state board.new) ≡ with_fields (chart (B.state board.old))
        (with_fill segment (fill + 1) (chart (B.state board.old)).fields)) }
    ensures rises { FillsRise (chart (B.state board.old)) (chart (B.state board.new)) }
    ensures power { (B.state board.new).on ≡ power_of result }
{
    set_fill(board, segment, fill + 1)
}

/// Notes the row that row `i` of the spare is copied from, while a segment is being copied there. The
/// array stays as it is.
pub fn note_origin<B: Board>(board: &mut B, i: u32, row: u32) -> Result<(), Off>
    requires sound { IsSound (chart (B.state board.old)) }
    requires place { i < (B.state board.old).shape.rows }
    requires row { row < (B.state board.old).shape.segments * (B.state board.old).shape.rows }
    requires copying { IsTrue (B.state board.old).on → IsCopying (chart (B.state board.old)).fields }

    ensures same { Same 0 0 (chart (B.state board.old)) (chart (B.state board.new)) }
    ensures fields { OnOk result (chart (B.state board.new) ≡ with_fields (chart (B.state board.old))
        (with_origin i row (chart (B.state board.old)).fields)) }
    ensures power { (B.state board.new).on ≡ power_of result }
{
    set_origin(board, i, row)
}
