// What crosses to C of what a board holds.
ghost use Rattle.std.specs.Prelude.{◌≡◌};
ghost use Rattle.envy_shown.specs.Shown.{job_for_c, page_for_c, row_for_c};

use envy_base::{Job, Place, Undo};
use envy_picture::RowKind;

/// What a row of flash is.
#[repr(C)]
#[derive(Clone, Copy)]
pub struct EnvyRow {
    /// 0: free, 1: kept, 2: a shadow, 3: dead.
    pub kind: u32,
    /// The page that names it, where one does.
    pub page: u32,
    /// The slot whose transaction owns that page, where the row is a shadow.
    pub slot: u32,
}

/// Where a page is.
#[repr(C)]
#[derive(Clone, Copy)]
pub struct EnvyPage {
    /// 0: absent, 1: in a row, 2: in a frame.
    pub place: u32,
    /// The row or the frame.
    pub at: u32,
    /// What the page goes back to. 0: no transaction owns it, 1: zeros, 2: a shadow.
    pub undo: u32,
    /// The slot whose transaction owns it, where one does.
    pub slot: u32,
    /// The row of the shadow.
    pub shadow: u32,
}

/// A segment of flash.
#[repr(C)]
#[derive(Clone, Copy)]
pub struct EnvySegment {
    /// How often it was erased.
    pub wear: u64,
    /// How many of its rows were claimed since.
    pub fill: u32,
}

/// The cleaner's job.
#[repr(C)]
#[derive(Clone, Copy)]
pub struct EnvyJob {
    /// 0: none, 1: a segment's kept rows are copied, 2: its references are switched, 3: the spare is erased.
    pub kind: u32,
    /// That segment.
    pub segment: u32,
}

/// A row as C has it.
pub(crate) fn row_for_c(kind: RowKind) -> EnvyRow
    ensures { result ≡ row_for_c kind }
{
    let (kind, page, slot) = match kind {
        RowKind::Free => (0, 0, 0),
        RowKind::Kept { page } => (1, page, 0),
        RowKind::Shadow { page, slot } => (2, page, u32::from(slot)),
        RowKind::Dead => (3, 0, 0),
    };
    EnvyRow { kind, page, slot }
}

/// A page as C has it.
pub(crate) fn page_for_c(place: Place, undo: Undo) -> EnvyPage
    ensures { result ≡ page_for_c place undo }
{
    let (place, at) = match place {
        Place::Absent => (0, 0),
        Place::Row(row) => (1, row),
        Place::Frame(frame) => (2, frame),
    };
    let (undo, slot, shadow) = match undo {
        Undo::Clear => (0, 0, 0),
        Undo::Blank { slot } => (1, u32::from(slot), 0),
        Undo::Shadow { slot, row } => (2, u32::from(slot), row),
    };
    EnvyPage {
        place,
        at,
        undo,
        slot,
        shadow,
    }
}

/// A job as C has it.
pub(crate) fn job_for_c(job: Job) -> EnvyJob
    ensures { result ≡ job_for_c job }
{
    let (kind, segment) = match job {
        Job::Idle => (0, 0),
        Job::Copy(segment) => (1, segment),
        Job::Switch(segment) => (2, segment),
        Job::Erase => (3, 0),
    };
    EnvyJob { kind, segment }
}
