ghost use Rattle.std.specs.Prelude.{◌≡◌, ◌+◌, ◌-◌, ◌<◌, ◌≤◌, length, IsTrue, IfOk, OnOk, OnErr};
ghost use Rattle.envy_base.specs.Shape.{all_positions_of};
ghost use Rattle.envy_base.specs.State.{Reads};
ghost use Rattle.envy_map.specs.Fields.{chart, with_fields};
ghost use Rattle.envy_soundness.specs.Formatting.{IsStopped, LaysNext, aside, is_aside, is_kind, laid_out, with_kind_laid, with_positions_laid};

use envy_base::{Board, Off, all_positions_of};
use envy_map::{probe, set_segment_at};

/// Whether formatting set a segment aside.
fn is_aside<B: Board>(board: &B, segment: u32) -> Result<bool, Off>
    requires { segment < (B.state board.now).shape.segments }
    ensures { Reads (B.state board.now)
        (is_aside (B.state board.now).shape (chart (B.state board.now)).fields.fills segment) result }
{
    let fill = probe::fill(board, segment)?;
    Ok(fill == board.shape().rows as u64)
}

/// Whether a segment is of the kind: set aside, or good.
fn is_kind<B: Board>(board: &B, segment: u32, kind: bool) -> Result<bool, Off>
    requires { segment < (B.state board.now).shape.segments }
    ensures { Reads (B.state board.now)
        (is_kind kind (B.state board.now).shape (chart (B.state board.now)).fields.fills segment) result }
{
    let aside = is_aside(board, segment)?;
    Ok(if kind { aside } else { !aside })
}

/// Puts a segment at position `at` if it is of the kind and that is before `end`. Answers the next position.
fn lay_next<B: Board>(
    board: &mut B,
    segment: u32,
    kind: bool,
    at: u32,
    end: u32,
) -> Result<u32, Off>
    requires on { IsTrue (B.state board.old).on }
    requires segment { segment < (B.state board.old).shape.segments }
    requires end { end ≤ all_positions_of (B.state board.old).shape }
    ensures done { IfOk result (λ next. LaysNext kind segment at end (chart (B.state board.old)) next
        (chart (B.state board.new))) }
    ensures stopped { OnErr result (IsStopped 0 (chart (B.state board.old)) (chart (B.state board.new))) }
{
    if at >= end || !is_kind(board, segment, kind)? {
        return Ok(at);
    }
    set_segment_at(board, at, segment)?;
    Ok(at + 1)
}

/// Puts the segments of one kind, rising, at the positions from `start` on, until `end`.
fn lay_kind<B: Board>(board: &mut B, kind: bool, start: u32, end: u32) -> Result<(), Off>
    requires on { IsTrue (B.state board.old).on }
    requires order { start ≤ end }
    requires end { end ≤ all_positions_of (B.state board.old).shape }
    ensures done { OnOk result (chart (B.state board.new) ≡ with_fields (chart (B.state board.old))
        (with_kind_laid kind (B.state board.old).shape start end (chart (B.state board.old)).fields)) }
    ensures stopped { OnErr result (IsStopped 0 (chart (B.state board.old)) (chart (B.state board.new))) }
{
    let mut at = start;
    for segment in 0..board.shape().segments {
        at = lay_next(board, segment, kind, at, end)?;
    }
    Ok(())
}

/// Puts the good segments but the last at the first positions, rising, and behind them those that were set aside.
pub fn lay_positions<B: Board>(board: &mut B, bads: u32) -> Result<(), Off>
    requires on { IsTrue (B.state board.old).on }
    requires bads { bads ≡ length (aside (B.state board.old).shape (chart (B.state board.old)).fields.fills) }
    requires few { bads ≤ (B.state board.old).shape.reserves }
    ensures done { OnOk result (chart (B.state board.new) ≡ with_fields (chart (B.state board.old))
        (with_positions_laid (laid_out (B.state board.old).shape (chart (B.state board.old)).fields.fills)
        (chart (B.state board.old)).fields)) }
    ensures stopped { OnErr result (IsStopped 0 (chart (B.state board.old)) (chart (B.state board.new))) }
{
    let all = all_positions_of(&board.shape());
    lay_kind(board, false, 0, all - bads)?;
    lay_kind(board, true, all - bads, all)?;
    Ok(())
}
