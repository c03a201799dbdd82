// What the board of a memory holds, whatever board it is.
ghost use Rattle.envy_shown.specs.Shown.{ShowsJob, ShowsPage, ShowsPosition, ShowsRow, ShowsSegment};

use crate::shapes::{EnvyJob, EnvyPage, EnvyRow, EnvySegment, job_for_c, page_for_c, row_for_c};
use envy_base::{Board, all_positions_of};
use envy_calls::Code;
use envy_map::{fill, job, place, segment_at, undo, wear};
use envy_memory::Memory;
use envy_picture::row_kind;

/// What a row is.
#[tactic(auto, using(crate::proofs::Rows::row_shown))]
pub fn show_row<B: Board>(slot: &Option<Memory<B>>, row: u32, found: &mut EnvyRow) -> u32
    ensures { ShowsRow slot.now row result found.old found.new }
{
    let Some(memory) = slot else {
        return Code::Empty.number();
    };
    let board = memory.board();
    if !board.powered() {
        return Code::Off.number();
    }
    let shape = board.shape();
    if row >= shape.segments * shape.rows {
        return Code::Range.number();
    }
    let Ok(kind) = row_kind(board, row) else {
        unreachable!();
    };
    *found = row_for_c(kind);
    Code::Done.number()
}

/// Where a page is, and what it goes back to.
pub fn show_page<B: Board>(slot: &Option<Memory<B>>, page: u32, found: &mut EnvyPage) -> u32
    ensures { ShowsPage slot.now page result found.old found.new }
{
    let Some(memory) = slot else {
        return Code::Empty.number();
    };
    let board = memory.board();
    if !board.powered() {
        return Code::Off.number();
    }
    if page >= board.shape().pages {
        return Code::Range.number();
    }
    let Ok(place) = place(board, page) else {
        unreachable!();
    };
    let Ok(undo) = undo(board, page) else {
        unreachable!();
    };
    *found = page_for_c(place, undo);
    Code::Done.number()
}

/// The segment at a position; those in use come first, then those in reserve.
pub fn show_position<B: Board>(slot: &Option<Memory<B>>, position: u32, found: &mut u32) -> u32
    ensures { ShowsPosition slot.now position result found.old found.new }
{
    let Some(memory) = slot else {
        return Code::Empty.number();
    };
    let board = memory.board();
    if !board.powered() {
        return Code::Off.number();
    }
    if position >= all_positions_of(&board.shape()) {
        return Code::Range.number();
    }
    let Ok(segment) = segment_at(board, position) else {
        unreachable!();
    };
    *found = segment;
    Code::Done.number()
}

/// A segment's wear and fill.
pub fn show_segment<B: Board>(
    slot: &Option<Memory<B>>,
    segment: u32,
    found: &mut EnvySegment,
) -> u32
    ensures { ShowsSegment slot.now segment result found.old found.new }
{
    let Some(memory) = slot else {
        return Code::Empty.number();
    };
    let board = memory.board();
    if !board.powered() {
        return Code::Off.number();
    }
    if segment >= board.shape().segments {
        return Code::Range.number();
    }
    let Ok(wear) = wear(board, segment) else {
        unreachable!();
    };
    let Ok(fill) = fill(board, segment) else {
        unreachable!();
    };
    *found = EnvySegment { wear, fill };
    Code::Done.number()
}

/// The cleaner's job.
pub fn show_job<B: Board>(slot: &Option<Memory<B>>, found: &mut EnvyJob) -> u32
    ensures { ShowsJob slot.now result found.old found.new }
{
    let Some(memory) = slot else {
        return Code::Empty.number();
    };
    let Ok(job) = job(memory.board()) else {
        return Code::Off.number();
    };
    *found = job_for_c(job);
    Code::Done.number()
}
