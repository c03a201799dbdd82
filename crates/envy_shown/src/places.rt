// The same in a place.
ghost use Rattle.envy_places.specs.Places.{held};
ghost use Rattle.envy_shown.specs.Shown.{ShowsJob, ShowsPage, ShowsPosition, ShowsRow, ShowsSegment};

use crate::contents::{show_job, show_page, show_position, show_row, show_segment};
use crate::shapes::{EnvyJob, EnvyPage, EnvyRow, EnvySegment};
use envy_base::Board;
use envy_places::MemoryPlace;

/// What a row of flash is.
pub fn row_in<R: Board, F: Board, S: Board>(
    place: &MemoryPlace<R, F, S>,
    row: u32,
    found: &mut EnvyRow,
) -> u32
    ensures { ShowsRow (held place.now) row result found.old found.new }
{
    match place {
        MemoryPlace::Regions(slot) => show_row(slot, row, found),
        MemoryPlace::File(slot) => show_row(slot, row, found),
        MemoryPlace::Simulated(slot) => show_row(slot, row, found),
    }
}

/// Where a page is, and what it goes back to.
pub fn page_in<R: Board, F: Board, S: Board>(
    place: &MemoryPlace<R, F, S>,
    page: u32,
    found: &mut EnvyPage,
) -> u32
    ensures { ShowsPage (held place.now) page result found.old found.new }
{
    match place {
        MemoryPlace::Regions(slot) => show_page(slot, page, found),
        MemoryPlace::File(slot) => show_page(slot, page, found),
        MemoryPlace::Simulated(slot) => show_page(slot, page, found),
    }
}

/// The segment at a position; those in use come first, then those in reserve.
pub fn position_in<R: Board, F: Board, S: Board>(
    place: &MemoryPlace<R, F, S>,
    position: u32,
    found: &mut u32,
) -> u32
    ensures { ShowsPosition (held place.now) position result found.old found.new }
{
    match place {
        MemoryPlace::Regions(slot) => show_position(slot, position, found),
        MemoryPlace::File(slot) => show_position(slot, position, found),
        MemoryPlace::Simulated(slot) => show_position(slot, position, found),
    }
}

/// A segment's wear and fill.
pub fn segment_in<R: Board, F: Board, S: Board>(
    place: &MemoryPlace<R, F, S>,
    segment: u32,
    found: &mut EnvySegment,
) -> u32
    ensures { ShowsSegment (held place.now) segment result found.old found.new }
{
    match place {
        MemoryPlace::Regions(slot) => show_segment(slot, segment, found),
        MemoryPlace::File(slot) => show_segment(slot, segment, found),
        MemoryPlace::Simulated(slot) => show_segment(slot, segment, found),
    }
}

/// The cleaner's job.
pub fn job_in<R: Board, F: Board, S: Board>(
    place: &MemoryPlace<R, F, S>,
    found: &mut EnvyJob,
) -> u32
    ensures { ShowsJob (held place.now) result found.old found.new }
{
    match place {
        MemoryPlace::Regions(slot) => show_job(slot, found),
        MemoryPlace::File(slot) => show_job(slot, found),
        MemoryPlace::Simulated(slot) => show_job(slot, found),
    }
}
