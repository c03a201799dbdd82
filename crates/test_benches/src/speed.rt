//! How many rows a second are programmed, read and erased on large boards.

use crate::steps::{erase, marked, program, read_row};
use crate::told::same_at;
use envy_base::Shape;
use envy_bench::MemBoard;
use std::process::Abort;
use std::rt::Clock;
use std::time::{Duration, Instant};

const NO_CLOCK: &str = "no clock";

fn program_all(rt: &impl Abort, board: &mut MemBoard, rows: u32) {
    for row in 0..rows {
        let is = program(board, row, &marked(row)) == Some(Ok(()));
        same_at(rt, is, true, "program of row", row as u64);
    }
}

fn read_all(rt: &impl Abort, board: &MemBoard, rows: u32) {
    for row in 0..rows {
        let is = read_row(board, row) == Some(Ok(marked(row)));
        same_at(rt, is, true, "words of row", row as u64);
    }
}

fn erase_all(rt: &impl Abort, board: &mut MemBoard, segments: u32) {
    for segment in 0..segments {
        let is = erase(board, segment) == Some(Ok(()));
        same_at(rt, is, true, "erase of segment", segment as u64);
    }
}

/// Programs every row, and answers how long that took.
fn time_programs(rt: &(impl Abort + Clock), board: &mut MemBoard, rows: u32) -> Duration {
    let start = Instant::now(rt).expect(rt, NO_CLOCK);
    program_all(rt, board, rows);
    start.elapsed(rt).expect(rt, NO_CLOCK)
}

/// Reads every row, and answers how long that took.
fn time_reads(rt: &(impl Abort + Clock), board: &MemBoard, rows: u32) -> Duration {
    let start = Instant::now(rt).expect(rt, NO_CLOCK);
    read_all(rt, board, rows);
    start.elapsed(rt).expect(rt, NO_CLOCK)
}

/// Erases every segment, and answers how long that took.
fn time_erases(rt: &(impl Abort + Clock), board: &mut MemBoard, segments: u32) -> Duration {
    let start = Instant::now(rt).expect(rt, NO_CLOCK);
    erase_all(rt, board, segments);
    start.elapsed(rt).expect(rt, NO_CLOCK)
}

/// Prints how long that took.
fn tell(
    rt: &(impl Abort + Eprint),
    rows: u32,
    programmed: Duration,
    read: Duration,
    erased: Duration,
) {
    let told = eprintln!(rt;
        "{rows} rows: programmed {programmed:?}, read {read:?}, erased {erased:?}"
    );
    told.expect(rt, "not told");
}

/// Programs, reads and erases every row of a board of that many rows, and prints how long that took.
fn time_rows(rt: &(impl Abort + Clock + Eprint + AllocGlobal), segments: u32, rows: u32) {
    let shape = Shape {
        segments,
        rows,
        pages: 64,
        shadows: 16,
        frames: 8,
        entries: 4,
        reserves: 0,
        sums: 0,
    };
    shape.check().expect(rt, "the shape");
    let mut board = MemBoard::new(rt.alloc(), &shape, 0).expect(rt, "no room for a board");
    let all = segments * rows;
    let programmed = time_programs(rt, &mut board, all);
    let read = time_reads(rt, &board, all);
    let erased = time_erases(rt, &mut board, segments);
    tell(rt, all, programmed, read, erased);
}

#[test]
fn every_row_of_many_short_segments_is_programmed_read_and_erased(rt: HostRuntime) {
    time_rows(&rt, 4096, 16);
}

#[test]
fn every_row_of_a_largest_board_is_programmed_read_and_erased(rt: HostRuntime) {
    time_rows(&rt, 256, 4096);
}
