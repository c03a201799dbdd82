ghost use Rattle.std.specs.Prelude.{◌≡◌, ◌*◌, ◌+◌, ◌-◌, ◌<◌, false, IsTrue, IfOk, IsErrOf};
ghost use Rattle.envy_map.specs.Fields.{chart};
ghost use Rattle.envy_soundness.specs.Same.{Same};
ghost use Rattle.envy_engine.specs.Agreement.{Ready};
ghost use Rattle.envy_engine.specs.Flushing.{IsBusy, IsAtRest, GetsFresh, StopsGetting};
ghost use Rattle.envy_engine.specs.Leaving.{LeavesParts, KeepsFrames};
ghost use Rattle.envy_soundness.specs.Power.{power_of, power_after};
ghost use Rattle.envy_base.specs.Shape.{positions_of};

use crate::beside::usable;
use crate::claim::claim_at;
use crate::cleaner::clean;
use crate::job_rest::finish;
use crate::jobs::runs;
use crate::parts::Parts;
use envy_base::{Board, Job, Off, Trouble};
use envy_map::job;
use envy_policy::Choice;
use envy_victims::choose_row;

/// A row for a page with this home, where nothing runs.
#[inline(always)]
fn idle_row<B: Board>(
    board: &mut B,
    parts: &mut Parts,
    home: u32,
    page: u32,
) -> Result<u32, Trouble>
    requires ready { Ready (chart (B.state board.old)) parts.old }
    requires rest { IsAtRest (chart (B.state board.old)) parts.old }
    requires page { page < (B.state board.old).shape.pages }
    requires home { home < positions_of (B.state board.old).shape }

    ensures same { Same ((B.state board.old).shape.rows + 5) 2 (chart (B.state board.old)) (chart (B.state board.new)) }
    ensures leaves { LeavesParts (chart (B.state board.old)) parts.old (chart (B.state board.new)) parts.new }
    ensures keeps { KeepsFrames (chart (B.state board.old)) parts.old (chart (B.state board.new)) parts.new }
    ensures gets { IfOk result
        (λ row. GetsFresh home page row (chart (B.state board.old)) parts.old (chart (B.state board.new)) parts.new) }
    ensures stops { IsErrOf result Trouble.Bad
        → StopsGetting home page (chart (B.state board.old)) parts.old (chart (B.state board.new)) parts.new }
    ensures power { (B.state board.new).on ≡ power_after result }
{
    match choose_row(&parts.space, &parts.chooser, home, page) {
        Choice::Free { position } => Ok(claim_at(board, parts, position, page)?),
        Choice::Clean { position, aside } => clean(board, parts, position, aside, page),
    }
}

/// Whether a job runs or a stage of a swap is left.
fn is_busy<B: Board>(board: &B, parts: &Parts) -> Result<bool, Off>
    requires ready { Ready (chart (B.state board.now)) parts.now }
    ensures busy { IfOk result (λ busy. IsTrue busy → IsBusy (chart (B.state board.now)) parts.now) }
    ensures rest { IfOk result (λ busy. busy ≡ false → IsAtRest (chart (B.state board.now)) parts.now) }
    ensures power { (B.state board.now).on ≡ power_of result }
{
    if job(board)? != Job::Idle {
        return Ok(true);
    }
    Ok(parts.stages.pending())
}

/// A row for a page with this home, while a job runs or a stage of a swap is left.
#[cold]
#[inline(never)]
fn busy_row<B: Board>(
    board: &mut B,
    parts: &mut Parts,
    home: u32,
    page: u32,
) -> Result<u32, Trouble>
    requires ready { Ready (chart (B.state board.old)) parts.old }
    requires page { page < (B.state board.old).shape.pages }
    requires busy { IsBusy (chart (B.state board.old)) parts.old }
    requires home { home < positions_of (B.state board.old).shape }

    ensures same { Same
        (4 * (B.state board.old).shape.rows + 12) 6 (chart (B.state board.old)) (chart (B.state board.new)) }
    ensures leaves { LeavesParts (chart (B.state board.old)) parts.old (chart (B.state board.new)) parts.new }
    ensures keeps { KeepsFrames (chart (B.state board.old)) parts.old (chart (B.state board.new)) parts.new }
    ensures gets { IfOk result
        (λ row. GetsFresh home page row (chart (B.state board.old)) parts.old (chart (B.state board.new)) parts.new) }
    ensures stops { IsErrOf result Trouble.Bad
        → StopsGetting home page (chart (B.state board.old)) parts.old (chart (B.state board.new)) parts.new }
    ensures power { (B.state board.new).on ≡ power_after result }
{
    if let Some(position) = usable(board, parts, home, page)? {
        return Ok(claim_at(board, parts, position, page)?);
    }
    finish(board, parts)?;
    idle_row(board, parts, home, page)
}

/// A row for a page with this home.
#[inline(always)]
pub fn get_row<B: Board>(
    board: &mut B,
    parts: &mut Parts,
    home: u32,
    page: u32,
) -> Result<u32, Trouble>
    requires ready { Ready (chart (B.state board.old)) parts.old }
    requires page { page < (B.state board.old).shape.pages }
    requires home { home < positions_of (B.state board.old).shape }

    ensures same { Same
        (4 * (B.state board.old).shape.rows + 12) 6 (chart (B.state board.old)) (chart (B.state board.new)) }
    ensures leaves { LeavesParts (chart (B.state board.old)) parts.old (chart (B.state board.new)) parts.new }
    ensures keeps { KeepsFrames (chart (B.state board.old)) parts.old (chart (B.state board.new)) parts.new }
    ensures gets { IfOk result
        (λ row. GetsFresh home page row (chart (B.state board.old)) parts.old (chart (B.state board.new)) parts.new) }
    ensures stops { IsErrOf result Trouble.Bad
        → StopsGetting home page (chart (B.state board.old)) parts.old (chart (B.state board.new)) parts.new }
    ensures power { (B.state board.new).on ≡ power_after result }
{
    if is_busy(board, parts)? {
        busy_row(board, parts, home, page)
    } else {
        idle_row(board, parts, home, page)
    }
}
