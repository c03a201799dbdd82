ghost use Rattle.std.specs.Prelude.{◌≡◌, ◌≢◌, ◌+◌, ◌*◌, ◌≤◌, ℕ, false, IsTrue, Some, IfOk, OnOk, IsErrOf};
ghost use Rattle.envy_base.specs.declared.fields.Job.TheVariants.{Idle};
ghost use Rattle.envy_map.specs.Fields.{chart};
ghost use Rattle.envy_soundness.specs.Same.{Same};
ghost use Rattle.envy_soundness.specs.Frames.{FramesStay};
ghost use Rattle.envy_engine.specs.Agreement.{Ready};
ghost use Rattle.envy_engine.specs.Budgets.{Budget, Turns};
ghost use Rattle.envy_engine.specs.Steps.{StepsOnce, Finishes, StopsJob, StopsStep};
ghost use Rattle.envy_engine.specs.Leaving.{LeavesParts, KeepsFrames, CountsBad};
ghost use Rattle.envy_soundness.specs.Power.{power_after};
ghost use Rattle.envy_engine.specs.Flushing.{IsAtRest};

use crate::jobs::{runs, tick_job, tick_stage};
use crate::parts::Parts;
use envy_base::{Board, Trouble};

/// One step of the job or of a swap. False where nothing is left.
fn turn<B: Board>(board: &mut B, parts: &mut Parts) -> Result<bool, Trouble>
    requires ready { Ready (chart (B.state board.old)) parts.old }
    ensures turns { Turns (chart (B.state board.old)) parts.old result (chart (B.state board.new)) parts.new }
    ensures leaves { LeavesParts (chart (B.state board.old)) parts.old (chart (B.state board.new)) parts.new }
    ensures here { IsTrue (B.state board.new).on
        → FramesStay (chart (B.state board.old)).fields.places (chart (B.state board.new)).fields.places }
    ensures parts { parts.new
        ≡ record parts.old {
          space = parts.new.space;
          cache = parts.new.cache;
          reloc = parts.new.reloc;
          stages =
              parts.new.stages;
        } }

    ensures idle { IfOk result (λ more. more ≡ false → IsAtRest (chart (B.state board.new)) parts.new) }
    ensures steps { IfOk result (λ more. IsTrue more
        → StepsOnce (chart (B.state board.old)) parts.old (chart (B.state board.new)) parts.new) }
    ensures still { IfOk result (λ more. more ≡ false → (chart (B.state board.new) ≡ chart (B.state board.old))
        × (parts.new ≡ parts.old)) }
    ensures stops { IsErrOf result Trouble.Bad → ((chart (B.state board.old)).fields.job ≢ Some Idle)
        × StopsJob (chart (B.state board.old)) parts.old (chart (B.state board.new)) parts.new }
    ensures power { (B.state board.new).on ≡ power_after result }
    ensures bad { IsErrOf result Trouble.Bad → CountsBad (chart (B.state board.old)) (chart (B.state board.new)) }
{
    if runs(board)? {
        tick_job(board, parts)?;
        return Ok(true);
    }
    if parts.stages.pending() {
        tick_stage(board, parts)?;
        return Ok(true);
    }
    Ok(false)
}

/// Finishes the job and the stages.
fn finish_all<B: Board>(board: &mut B, parts: &mut Parts, rows: u32) -> Result<(), Trouble>
    requires ready { Ready (chart (B.state board.old)) parts.old }
    requires budget { (n e s : ℕ) × Budget (chart (B.state board.old)) parts.old n e s × (n ≤ 3 * rows + 4) × (e ≤ 3)
        × (s ≤ 3 * rows + 15) }
    requires few { rows ≤ 65536 }

    ensures same { Same (3 * rows + 5) 4 (chart (B.state board.old)) (chart (B.state board.new)) }
    ensures leaves { LeavesParts (chart (B.state board.old)) parts.old (chart (B.state board.new)) parts.new }
    ensures here { IsTrue (B.state board.new).on
        → FramesStay (chart (B.state board.old)).fields.places (chart (B.state board.new)).fields.places }
    ensures parts { parts.new
        ≡ record parts.old {
          space = parts.new.space;
          cache = parts.new.cache;
          reloc = parts.new.reloc;
          stages =
              parts.new.stages;
        } }
    ensures finishes { OnOk result
        (Finishes (chart (B.state board.old)) parts.old (chart (B.state board.new)) parts.new) }
    ensures stops { IsErrOf result Trouble.Bad
        → StopsStep (chart (B.state board.old)) parts.old (chart (B.state board.new)) parts.new }
    ensures power { (B.state board.new).on ≡ power_after result }
    ensures bad { IsErrOf result Trouble.Bad → CountsBad (chart (B.state board.old)) (chart (B.state board.new)) }
{
    for _turn in 0..3 * rows + 16 {
        if !turn(board, parts)? {
            return Ok(());
        }
    }
    unreachable!()
}

/// Finishes the job and the stages that are left.
pub fn finish<B: Board>(board: &mut B, parts: &mut Parts) -> Result<(), Trouble>
    requires ready { Ready (chart (B.state board.old)) parts.old }

    ensures same { Same (3 * (B.state board.old).shape.rows + 5) 4 (chart (B.state board.old))
        (chart (B.state board.new)) }
    ensures leaves { LeavesParts (chart (B.state board.old)) parts.old (chart (B.state board.new)) parts.new }
    ensures keeps { KeepsFrames (chart (B.state board.old)) parts.old (chart (B.state board.new)) parts.new }
    ensures chooser { parts.new.chooser ≡ parts.old.chooser }
    ensures finishes { OnOk result
        (Finishes (chart (B.state board.old)) parts.old (chart (B.state board.new)) parts.new) }
    ensures stops { IsErrOf result Trouble.Bad
        → StopsStep (chart (B.state board.old)) parts.old (chart (B.state board.new)) parts.new }
    ensures power { (B.state board.new).on ≡ power_after result }
    ensures bad { IsErrOf result Trouble.Bad → CountsBad (chart (B.state board.old)) (chart (B.state board.new)) }
{
    let rows = board.shape().rows;
    let _few = parts.reloc.left();
    finish_all(board, parts, rows)
}
