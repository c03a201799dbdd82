ghost use Rattle.std.specs.Prelude.{List, ◌≡◌, ◌≢◌, ◌<◌, ℕ, true, false, IsTrue, Some, IfOk, OnOk, OnErr, IsErrOf, length, drop};
ghost use Rattle.envy_base.specs.declared.fields.Job.TheVariants.{Idle};
ghost use Rattle.envy_map.specs.Fields.{chart};
ghost use Rattle.envy_soundness.specs.Same.{Same};
ghost use Rattle.envy_soundness.specs.Sound.{IsSound};
ghost use Rattle.envy_soundness.specs.Frames.{FramesStay};
ghost use Rattle.envy_reloc.specs.Effort.{Leaves, Spent};
ghost use Rattle.envy_reloc.specs.Keeping.{Fails};
ghost use Rattle.envy_reloc.specs.Phases.{Does, SameOnce};
ghost use Rattle.envy_engine.specs.Agreement.{Ready};
ghost use Rattle.envy_reloc.specs.Cleaning.{Cleans};
ghost use Rattle.envy_engine.specs.Budgets.{StageBegins};
ghost use Rattle.envy_engine.specs.Steps.{TicksJob, TicksStage, StopsJob};
ghost use Rattle.envy_engine.specs.Leaving.{LeavesParts, CountsBad};
ghost use Rattle.envy_soundness.specs.Power.{power_after};

use crate::did::{Did, named};
use crate::parts::Parts;
use arrayvec::ArrayVec;
use envy_base::{Board, Job, Off, Trouble};
use envy_map::job;
use envy_reloc::Phase;

/// Whether a job runs.
pub fn runs<B: Board>(board: &B) -> Result<bool, Off>
    requires sound { IsSound (chart (B.state board.now)) }
    ensures busy { IfOk result (λ busy. busy ≡ true → (chart (B.state board.now)).fields.job ≢ Some Idle) }
    ensures idle { IfOk result (λ busy. busy ≡ false → (chart (B.state board.now)).fields.job ≡ Some Idle) }
    ensures off { OnErr result ((B.state board.now).on ≡ false) }
{
    Ok(job(board)? != Job::Idle)
}

/// One step of the job.
pub fn step_job<B: Board>(board: &mut B, parts: &mut Parts) -> Result<Phase, Trouble>
    requires ready { Ready (chart (B.state board.old)) parts.old }
    requires running { (chart (B.state board.old)).fields.job ≢ Some Idle }

    ensures step { SameOnce (chart (B.state board.old)) (chart (B.state board.new)) }
    ensures leaves { LeavesParts (chart (B.state board.old)) parts.old (chart (B.state board.new)) parts.new }
    ensures here { IsTrue (B.state board.new).on
        → FramesStay (chart (B.state board.old)).fields.places (chart (B.state board.new)).fields.places }
    ensures parts { parts.new
        ≡ record parts.old { space = parts.new.space; cache = parts.new.cache; reloc = parts.new.reloc } }

    ensures does { IfOk result (λ phase.
        Does (chart (B.state board.old)) parts.old.reloc phase (chart (B.state board.new)) parts.new.reloc) }
    ensures cleans { OnOk result ((positions : List ℕ) (k n : ℕ)
        → Cleans (B.state board.old).shape positions k n (chart (B.state board.old)).fields parts.old.reloc.erased
        → Cleans (B.state board.old).shape positions k n (chart (B.state board.new)).fields parts.new.reloc.erased) }
    ensures left { OnOk result ((n e s : ℕ) → Leaves (chart (B.state board.old)) parts.old.reloc n e s
        → Spent (chart (B.state board.old)) (chart (B.state board.new)) parts.new.reloc n e s) }
    ensures spoils { IsErrOf result Trouble.Bad
        → Fails (chart (B.state board.old)) parts.old.reloc (chart (B.state board.new)) parts.new.reloc }
    ensures power { (B.state board.new).on ≡ power_after result }
{
    parts.reloc.step(board, &mut parts.space, &mut parts.cache)
}

/// The first rule: one step of the job. A swap whose copy failed is given up.
#[inline(always)]
pub fn tick_job<B: Board>(board: &mut B, parts: &mut Parts) -> Result<Did, Trouble>
    requires ready { Ready (chart (B.state board.old)) parts.old }
    requires running { (chart (B.state board.old)).fields.job ≢ Some Idle }

    ensures step { SameOnce (chart (B.state board.old)) (chart (B.state board.new)) }
    ensures leaves { LeavesParts (chart (B.state board.old)) parts.old (chart (B.state board.new)) parts.new }
    ensures here { IsTrue (B.state board.new).on
        → FramesStay (chart (B.state board.old)).fields.places (chart (B.state board.new)).fields.places }
    ensures parts { parts.new
        ≡ record parts.old {
          space = parts.new.space;
          cache = parts.new.cache;
          reloc = parts.new.reloc;
          stages =
              parts.new.stages;
        } }

    ensures does { IfOk result
        (λ did. TicksJob did (chart (B.state board.old)) parts.old (chart (B.state board.new)) parts.new) }
    ensures cleans { OnOk result ((positions : List ℕ) (k n : ℕ)
        → Cleans (B.state board.old).shape positions k n (chart (B.state board.old)).fields parts.old.reloc.erased
        → Cleans (B.state board.old).shape positions k n (chart (B.state board.new)).fields parts.new.reloc.erased) }
    ensures left { OnOk result ((n e s : ℕ) → Leaves (chart (B.state board.old)) parts.old.reloc n e s
        → Spent (chart (B.state board.old)) (chart (B.state board.new)) parts.new.reloc n e s) }
    ensures stops { IsErrOf result Trouble.Bad
        → StopsJob (chart (B.state board.old)) parts.old (chart (B.state board.new)) parts.new }
    ensures power { (B.state board.new).on ≡ power_after result }
    ensures bad { IsErrOf result Trouble.Bad → CountsBad (chart (B.state board.old)) (chart (B.state board.new)) }
{
    let erasing = job(board)? == Job::Erase;
    match step_job(board, parts) {
        Ok(phase) => Ok(named(phase)),
        Err(fault) => {
            if fault == Trouble::Bad && !erasing {
                parts.stages.clear();
            }
            Err(fault)
        }
    }
}

/// The second rule: the next relocation of a swap begins, without moves.
pub fn tick_stage<B: Board>(board: &mut B, parts: &mut Parts) -> Result<Did, Trouble>
    requires ready { Ready (chart (B.state board.old)) parts.old }
    requires idle { (chart (B.state board.old)).fields.job ≡ Some Idle }
    requires pending { 0 < length parts.old.stages }

    ensures same { Same 0 0 (chart (B.state board.old)) (chart (B.state board.new)) }
    ensures leaves { LeavesParts (chart (B.state board.old)) parts.old (chart (B.state board.new)) parts.new }
    ensures does { IfOk result
        (λ did. TicksStage did (chart (B.state board.old)) parts.old (chart (B.state board.new)) parts.new) }
    ensures begins { OnOk result (StageBegins (chart (B.state board.old)) (chart (B.state board.new)) parts.new.reloc) }
    ensures rest { parts.new.stages ≡ drop 1 parts.old.stages }
    ensures parts { parts.new ≡ record parts.old { reloc = parts.new.reloc; stages = parts.new.stages } }
    ensures never { IsErrOf result Trouble.Bad → ⊥ }
    ensures power { (B.state board.new).on ≡ power_after result }
{
    let Some(position) = parts.stages.next() else {
        unreachable!();
    };
    parts
        .reloc
        .begin(board, &parts.space, position, ArrayVec::new(), None)?;
    Ok(Did::Began)
}
