ghost use Rattle.std.specs.Prelude.{◌≡◌, ◌-◌, ◌<◌, IfOk, slice_index};
ghost use Rattle.envy_map.specs.Fields.{chart};
ghost use Rattle.envy_soundness.specs.Same.{Same};
ghost use Rattle.envy_engine.specs.Agreement.{Ready};
ghost use Rattle.envy_reloc.specs.Plan.{IsFreeOf};
ghost use Rattle.envy_engine.specs.Leaving.{LeavesParts};
ghost use Rattle.envy_soundness.specs.Power.{power_of};
ghost use Rattle.envy_engine.specs.Flushing.{TakesFresh};
ghost use Rattle.envy_base.specs.Shape.{positions_of};

use crate::parts::Parts;
use envy_base::{Board, Off};

/// Claims a row at a position for a page that is flushed.
#[inline(always)]
pub fn claim_at<B: Board>(
    board: &mut B,
    parts: &mut Parts,
    position: u32,
    page: u32,
) -> Result<u32, Off>
    requires ready { Ready (chart (B.state board.old)) parts.old }
    requires position { position < positions_of (B.state board.old).shape }
    requires page { page < (B.state board.old).shape.pages }
    requires room { slice_index parts.old.space.fills (slice_index parts.old.space.positions position)
        < (B.state board.old).shape.rows }
    requires free { IsFreeOf (chart (B.state board.old)).fields.job (slice_index parts.old.space.positions position) }

    ensures same { Same 0 0 (chart (B.state board.old)) (chart (B.state board.new)) }
    ensures leaves { LeavesParts (chart (B.state board.old)) parts.old (chart (B.state board.new)) parts.new }
    ensures takes { IfOk result (λ row. TakesFresh position page row
        (chart (B.state board.old)) parts.old (chart (B.state board.new)) parts.new) }
    ensures parts { parts.new ≡ record parts.old { space = parts.new.space; chooser = parts.new.chooser } }
    ensures power { (B.state board.new).on ≡ power_of result }
{
    let row = parts
        .space
        .claim(board, parts.space.segment_at(position), page)?;
    parts.chooser.note_claim(position, page);
    Ok(row)
}
