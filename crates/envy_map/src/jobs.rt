ghost use Rattle.std.specs.Prelude.{◌≢◌, Some, None, IfOk};
ghost use Rattle.envy_base.specs.State.{Puts};
ghost use Rattle.envy_map.specs.Codes.{IsJob, job_code};
ghost use Rattle.envy_map.specs.Fields.{chart};
ghost use Rattle.envy_map.specs.Writes.{Gives, Writes, with_job};

use crate::code::encode_job;
use crate::probe;
use crate::region::JOB_AT;
use envy_base::{Board, Job, Off};

/// The cleaner's job.
pub fn job<B: Board>(board: &B) -> Result<Job, Off>
    requires decodes { (chart (B.state board.now)).fields.job ≢ None }
    ensures value { Gives (chart (B.state board.now)) (chart (B.state board.now)).fields.job result }
    ensures fits { IfOk result IsJob }
{
    match probe::job(board)? {
        Some(job) => Ok(job),
        None => unreachable!(),
    }
}

/// Writes the cleaner's job.
pub fn set_job<B: Board>(board: &mut B, job: Job) -> Result<(), Off>
    requires { IsJob job }
    ensures writes { Writes (with_job (Some job)) (chart (B.state board.old)) result (chart (B.state board.new)) }
    ensures put { Puts (B.state board.old) 5 (job_code job) result (B.state board.new) }
{
    board.put(JOB_AT, encode_job(job))
}
