ghost use Rattle.std.specs.Prelude.{◌≡◌, ◌<◌, ℕ, IsTrue, Some, OnOk};
ghost use Rattle.envy_base.specs.declared.fields.Job.TheVariants.{Idle, Copy, Switch, Erase};
ghost use Rattle.envy_map.specs.Codes.{IsJob};
ghost use Rattle.envy_map.specs.Fields.{chart, with_fields};
ghost use Rattle.envy_map.specs.Writes.{Writes, with_job};
ghost use Rattle.envy_soundness.specs.Sound.{IsSound, IsPlaced};
ghost use Rattle.envy_soundness.specs.Jobs.{FitsJob, AreHome, IsCopiedWhole, IsBlankSpare};
ghost use Rattle.envy_soundness.specs.Power.{power_of};
ghost use Rattle.envy_soundness.specs.Same.{Same};

use envy_base::{Board, Job, Off};
use envy_map::set_job;

/// Writes the job, where what the map then says of jobs is sound. The array stays.
pub fn change_job<B: Board>(board: &mut B, job: Job) -> Result<(), Off>
    requires sound { IsSound (chart (B.state board.old)) }
    requires job { IsJob job }
    requires fits { IsTrue (B.state board.old).on
        → FitsJob (B.state board.old).shape (with_job (Some job) (chart (B.state board.old)).fields)
        (B.state board.old).flash }

    ensures same { Same 0 0 (chart (B.state board.old)) (chart (B.state board.new)) }
    ensures writes { Writes (with_job (Some job)) (chart (B.state board.old)) result (chart (B.state board.new)) }
    ensures fields { OnOk result (chart (B.state board.new) ≡ with_fields (chart (B.state board.old))
        (with_job (Some job) (chart (B.state board.old)).fields)) }
    ensures power { (B.state board.new).on ≡ power_of result }
{
    set_job(board, job)
}

/// Begins to copy the kept rows of a segment at a position into the spare. The array stays.
pub fn begin_copy<B: Board>(board: &mut B, segment: u32) -> Result<(), Off>
    requires sound { IsSound (chart (B.state board.old)) }
    requires segment { segment < (B.state board.old).shape.segments }
    requires idle { IsTrue (B.state board.old).on → (chart (B.state board.old)).fields.job ≡ Some Idle }
    requires placed { IsTrue (B.state board.old).on
        → IsPlaced (B.state board.old).shape (chart (B.state board.old)).fields.positions segment }

    ensures same { Same 0 0 (chart (B.state board.old)) (chart (B.state board.new)) }
    ensures fields { OnOk result (chart (B.state board.new) ≡ with_fields (chart (B.state board.old))
        (with_job (Some (Copy segment)) (chart (B.state board.old)).fields)) }
    ensures power { (B.state board.new).on ≡ power_of result }
{
    change_job(board, Job::Copy(segment))
}

/// Begins to switch references from the segment that was being copied to the copies in the spare, which
/// has one of each kept row. The array stays.
pub fn begin_switch<B: Board>(board: &mut B, segment: u32) -> Result<(), Off>
    requires sound { IsSound (chart (B.state board.old)) }
    requires segment { segment < (B.state board.old).shape.segments }
    requires copying { IsTrue (B.state board.old).on → (chart (B.state board.old)).fields.job ≡ Some (Copy segment) }
    requires copied { IsTrue (B.state board.old).on
        → IsCopiedWhole (B.state board.old).shape (chart (B.state board.old)).fields (B.state board.old).flash segment }

    ensures same { Same 0 0 (chart (B.state board.old)) (chart (B.state board.new)) }
    ensures fields { OnOk result (chart (B.state board.new) ≡ with_fields (chart (B.state board.old))
        (with_job (Some (Switch segment)) (chart (B.state board.old)).fields)) }
    ensures power { (B.state board.new).on ≡ power_of result }
{
    change_job(board, Job::Switch(segment))
}

/// Begins to erase the spare, in which no kept row lies, whatever the job was. The array stays.
pub fn begin_erase<B: Board>(board: &mut B) -> Result<(), Off>
    requires sound { IsSound (chart (B.state board.old)) }
    requires home { IsTrue (B.state board.old).on
        → AreHome (B.state board.old).shape (chart (B.state board.old)).fields }
    ensures same { Same 0 0 (chart (B.state board.old)) (chart (B.state board.new)) }
    ensures writes { Writes (with_job (Some Erase)) (chart (B.state board.old)) result (chart (B.state board.new)) }
    ensures fields { OnOk result (chart (B.state board.new) ≡ with_fields (chart (B.state board.old))
        (with_job (Some Erase) (chart (B.state board.old)).fields)) }
    ensures power { (B.state board.new).on ≡ power_of result }
{
    change_job(board, Job::Erase)
}

/// Ends the job, once the spare is erased and empty. The array stays.
pub fn end_job<B: Board>(board: &mut B) -> Result<(), Off>
    requires sound { IsSound (chart (B.state board.old)) }
    requires erasing { IsTrue (B.state board.old).on → (chart (B.state board.old)).fields.job ≡ Some Erase }
    requires blank { IsTrue (B.state board.old).on → (e : ℕ)
        × IsBlankSpare (B.state board.old).shape (chart (B.state board.old)).fields (B.state board.old).flash e }
    ensures same { Same 0 0 (chart (B.state board.old)) (chart (B.state board.new)) }
    ensures fields { OnOk result (chart (B.state board.new) ≡ with_fields (chart (B.state board.old))
        (with_job (Some Idle) (chart (B.state board.old)).fields)) }
    ensures power { (B.state board.new).on ≡ power_of result }
{
    change_job(board, Job::Idle)
}
