ghost use Rattle.std.specs.Prelude.{◌≡◌, ◌⊎◌, ◌-◌, ◌<◌, ℕ, IsTrue, Some, OnOk, slice_index};
ghost use Rattle.envy_base.specs.Shape.{IsShape, all_positions_of, positions_of};
ghost use Rattle.envy_base.specs.declared.fields.Job.TheVariants.{Switch};
ghost use Rattle.envy_map.specs.Fields.{Chart, chart, with_fields};
ghost use Rattle.envy_map.specs.Writes.{Writes, with_position};
ghost use Rattle.envy_soundness.specs.Sound.{IsSound, IsPlaced, IsReserved, IsSpare};
ghost use Rattle.envy_soundness.specs.Jobs.{FitsPositions, IsClear};
ghost use Rattle.envy_soundness.specs.Power.{power_of};
ghost use Rattle.envy_soundness.specs.Same.{Same};

use envy_base::{Board, Off};
use envy_map::set_segment_at;

/// Lets a position name another segment, where what the map then says of positions is sound. The
/// array stays.
pub fn change_position<B: Board>(board: &mut B, position: u32, segment: u32) -> Result<(), Off>
    requires sound { IsSound (chart (B.state board.old)) }
    requires position { position < all_positions_of (B.state board.old).shape }
    requires segment { segment < (B.state board.old).shape.segments }
    requires fits { IsTrue (B.state board.old).on
        → FitsPositions (B.state board.old).shape (with_position position segment (chart (B.state board.old)).fields)
        (B.state board.old).flash }

    ensures same { Same 0 0 (chart (B.state board.old)) (chart (B.state board.new)) }
    ensures writes { Writes (with_position position segment) (chart (B.state board.old)) result
        (chart (B.state board.new)) }
    ensures fields { OnOk result (chart (B.state board.new) ≡ with_fields (chart (B.state board.old))
        (with_position position segment (chart (B.state board.old)).fields)) }
    ensures power { (B.state board.new).on ≡ power_of result }
{
    set_segment_at(board, position, segment)
}

/// Lets a position name the spare in place of the segment that is being switched to it, once no kept
/// row lies there. That segment is the spare then. The array stays.
pub fn replace_segment<B: Board>(board: &mut B, position: u32, spare: u32) -> Result<(), Off>
    requires sound { IsSound (chart (B.state board.old)) }
    requires position { position < positions_of (B.state board.old).shape }
    requires segment { spare < (B.state board.old).shape.segments }
    requires spare { IsTrue (B.state board.old).on
        → IsSpare (B.state board.old).shape (chart (B.state board.old)).fields.positions spare }
    requires switching { let f = (chart (B.state board.old)).fields in
        IsTrue (B.state board.old).on → f.job ≡ Some (Switch (slice_index f.positions position)) }
    requires clear { let f = (chart (B.state board.old)).fields in
        IsTrue (B.state board.old).on → IsClear (B.state board.old).shape f (slice_index f.positions position) }

    ensures same { Same 0 0 (chart (B.state board.old)) (chart (B.state board.new)) }
    ensures writes { Writes (with_position position spare) (chart (B.state board.old)) result
        (chart (B.state board.new)) }
    ensures fields { OnOk result (chart (B.state board.new) ≡ with_fields (chart (B.state board.old))
        (with_position position spare (chart (B.state board.old)).fields)) }
    ensures freed { OnOk result (IsSpare (B.state board.new).shape (chart (B.state board.new)).fields.positions
        (slice_index (chart (B.state board.old)).fields.positions position)) }
    ensures power { (B.state board.new).on ≡ power_of result }
{
    change_position(board, position, spare)
}

/// Of the segments of a sound board one is the spare, and each other stands at a position, in use or in reserve.
pub fn a_board_has_one_spare()
    ensures some { (c : Chart) → IsShape c.shape → IsSound c → (e : ℕ) × IsSpare c.shape c.fields.positions e }
    ensures one { (c : Chart) (d e : ℕ) → IsSound c → IsSpare c.shape c.fields.positions d
        → IsSpare c.shape c.fields.positions e → d ≡ e }
    ensures others { (c : Chart) (s : ℕ) → IsSound c → s < c.shape.segments → IsPlaced c.shape c.fields.positions s
        ⊎ (IsReserved c.shape c.fields.positions s ⊎ IsSpare c.shape c.fields.positions s) }
{}
