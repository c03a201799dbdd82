ghost use Rattle.std.specs.Prelude.{◌≡◌, ◌<◌, ℕ, length};
ghost use Rattle.envy_map.specs.Fields.{chart};
ghost use Rattle.envy_soundness.specs.Sound.{IsSpare};
ghost use Rattle.envy_audit.specs.Finding.{Tells};
ghost use Rattle.envy_audit.specs.Points.{Decodes, CopiesOf, JobStands, KeptOnce, rows_of};
ghost use Rattle.envy_audit.specs.Tables.{MarksPlaced, MarksUsed, NotesOwners};

use crate::copies::{holds_copies, is_kept_once};
use crate::kept::switched;
use envy_base::{Board, Job, Off};
use envy_map::job;

// Whether each segment that stands at no position holds the copies of a segment that is switched.
fn spares_hold_copies<B: Board>(
    board: &B,
    segment: u32,
    placed: &[bool],
    owners: &[u32],
    copied: &mut [bool],
) -> Result<bool, Off>
    requires decodes { Decodes (chart (B.state board.now)) }
    requires segment { segment < (B.state board.now).shape.segments }
    requires marks { MarksPlaced (chart (B.state board.now)) placed.now }
    requires notes { NotesOwners (chart (B.state board.now)) owners.now }
    requires long { length copied.old ≡ rows_of (B.state board.now).shape }
    ensures { let c = chart (B.state board.now) in
        Tells c.on ((e : ℕ) → IsSpare c.shape c.fields.positions e → CopiesOf c segment e) result }
{
    for spare in 0..board.shape().segments {
        if placed[spare as usize] {
            continue;
        }
        let holds = holds_copies(board, segment, spare, owners, copied)?;
        if !holds {
            return Ok(false);
        }
    }
    Ok(true)
}

/// Whether the job's segment is where it should be, and the spare of a switch holds its copies.
pub(crate) fn job_stands<B: Board>(
    board: &B,
    placed: &[bool],
    used: &[bool],
    owners: &[u32],
    copied: &mut [bool],
) -> Result<bool, Off>
    requires decodes { Decodes (chart (B.state board.now)) }
    requires marks { MarksPlaced (chart (B.state board.now)) placed.now }
    requires used { MarksUsed (chart (B.state board.now)) used.now }
    requires notes { NotesOwners (chart (B.state board.now)) owners.now }
    requires long { length copied.old ≡ rows_of (B.state board.now).shape }
    ensures { let c = chart (B.state board.now) in Tells c.on (JobStands c) result }
{
    match job(board)? {
        Job::Idle | Job::Erase => Ok(true),
        Job::Copy(segment) => Ok(used[segment as usize]),
        Job::Switch(segment) if used[segment as usize] => {
            spares_hold_copies(board, segment, placed, owners, copied)
        }
        Job::Switch(segment) => Ok(!placed[segment as usize]),
    }
}

/// Whether no kept row of the spare of a switch was copied from a kept row.
pub(crate) fn kept_once<B: Board>(
    board: &B,
    placed: &[bool],
    used: &[bool],
    owners: &[u32],
) -> Result<bool, Off>
    requires decodes { Decodes (chart (B.state board.now)) }
    requires marks { MarksPlaced (chart (B.state board.now)) placed.now }
    requires used { MarksUsed (chart (B.state board.now)) used.now }
    requires notes { NotesOwners (chart (B.state board.now)) owners.now }
    ensures { let c = chart (B.state board.now) in Tells c.on (KeptOnce c) result }
{
    let switching = switched(board, used)?;
    if switching.is_none() {
        return Ok(true);
    }
    for spare in 0..board.shape().segments {
        if placed[spare as usize] {
            continue;
        }
        let once = is_kept_once(board, spare, owners)?;
        if !once {
            return Ok(false);
        }
    }
    Ok(true)
}
