//! What a test asks of a board in memory, step by step, and what it is answered.

use crate::told::same_at;
use envy_base::{Bench, Board, Off, Shape, Trouble};
use envy_bench::{MemBoard, Torn};
use std::process::Abort;

/// A page by what it is.
#[derive(Clone, Copy)]
pub(crate) enum Page {
    Ones,
    Zeros,
    /// A page that tells its row.
    Marked(u32),
    /// The page that is drawn from a number behind so many others.
    Torn(u64, u32),
}

/// The page that is drawn from a number behind so many others.
fn torn_page(g: u64, before: u32) -> [u64; 32] {
    let mut torn = Torn::new(g);
    let mut page = [0; 32];
    for _page in 0..before.saturating_add(1) {
        for word in page.iter_mut() {
            *word = torn.next();
        }
    }
    page
}

/// A page that tells its row.
pub(crate) fn marked(row: u32) -> [u64; 32] {
    [u64::MAX - row as u64; 32]
}

/// The words of a page.
fn words_of(page: Page) -> [u64; 32] {
    match page {
        Page::Ones => [u64::MAX; 32],
        Page::Zeros => [0; 32],
        Page::Marked(row) => marked(row),
        Page::Torn(g, before) => torn_page(g, before),
    }
}

/// A call, and its answer. Only answers are compared and told, by their own types: what a derive gives for an enum of so
/// many variants costs more proof than all that is made of it.
#[derive(Clone, Copy)]
pub(crate) enum Step {
    Is(Shape),
    Put(u32, u64, Result<(), Off>),
    Get(u32, Result<u64, Off>),
    /// A word of SRAM, with power on or off.
    Peek(u32, u64),
    Program(u32, Page, Result<(), Trouble>),
    Erase(u32, Result<(), Trouble>),
    Read(u32, u32, Result<u64, Off>),
    /// A row holds this page.
    Holds(u32, Page),
    /// Rows from the first to behind the last are each programmed with a page that tells it, or hold that.
    ProgramMarked(u32, u32),
    HoldMarked(u32, u32),
    /// Power is to fail at an operation from now, 1 for the next, or a flash operation is to be bad.
    PlanCut(u32, u64),
    PlanBad(u32, u64),
    CutNow,
    /// Power returns, or not.
    PowerOn(bool),
    IsOn(bool),
    /// How often power can return.
    Lives(u32),
    /// Failures of power and bad operations.
    Failed(u64, u64),
}

/// Programs a row, if the board has it.
pub(crate) fn program<B: Board>(
    board: &mut B,
    row: u32,
    page: &[u64; 32],
) -> Option<Result<(), Trouble>> {
    let shape = board.shape();
    if row >= shape.segments * shape.rows {
        return None;
    }
    Some(board.program(row, page))
}

/// Reads a word of a row, if the board has it.
fn read<B: Board>(board: &B, row: u32, i: u32) -> Option<Result<u64, Off>> {
    let shape = board.shape();
    if row >= shape.segments * shape.rows || i >= 32 {
        return None;
    }
    Some(board.read(row, i))
}

/// Reads a row, if the board has it.
pub(crate) fn read_row<B: Board>(board: &B, row: u32) -> Option<Result<[u64; 32], Off>> {
    let shape = board.shape();
    if row >= shape.segments * shape.rows {
        return None;
    }
    let mut page = [0; 32];
    for i in 0..32u32 {
        match board.read(row, i) {
            Ok(word) => page[i as usize] = word,
            Err(Off) => return Some(Err(Off)),
        }
    }
    Some(Ok(page))
}

/// Erases a segment, if the board has it.
pub(crate) fn erase<B: Board>(board: &mut B, segment: u32) -> Option<Result<(), Trouble>> {
    if segment >= board.shape().segments {
        return None;
    }
    Some(board.erase(segment))
}

/// Whether a row holds this page.
fn holds<B: Board>(board: &B, row: u32, page: &[u64; 32]) -> bool {
    read_row(board, row) == Some(Ok(*page))
}

/// Programs each of these rows with a page that tells it, and tells whether all were.
fn program_marked<B: Board>(board: &mut B, first: u32, behind: u32) -> bool {
    for row in first..behind {
        if program(board, row, &marked(row)) != Some(Ok(())) {
            return false;
        }
    }
    true
}

/// Whether each of these rows holds a page that tells it.
fn hold_marked<B: Board>(board: &B, first: u32, behind: u32) -> bool {
    for row in first..behind {
        if !holds(board, row, &marked(row)) {
            return false;
        }
    }
    true
}

/// Programs a row, and tests the answer.
fn check_program<B: Board>(
    rt: &impl Abort,
    board: &mut B,
    row: u32,
    page: Page,
    answer: Result<(), Trouble>,
    name: &str,
    at: u64,
) {
    let found = program(board, row, &words_of(page));
    same_at(rt, found, Some(answer), name, at);
}

/// Tests that a row holds this page.
fn check_holds<B: Board>(rt: &impl Abort, board: &B, row: u32, page: Page, name: &str, at: u64) {
    same_at(rt, holds(board, row, &words_of(page)), true, name, at);
}

/// Makes a step that is a call of any board, and tests that it is answered as it says.
fn check_of_board<B: Board>(rt: &impl Abort, board: &mut B, name: &str, at: u64, step: Step) {
    match step {
        Step::Is(shape) => same_at(rt, board.shape(), shape, name, at),
        Step::Put(w, v, answer) if w < 71 => same_at(rt, board.put(w, v), answer, name, at),
        Step::Get(w, answer) if w < 71 => same_at(rt, board.get(w), answer, name, at),
        Step::Program(row, page, answer) => check_program(rt, board, row, page, answer, name, at),
        Step::Erase(segment, answer) => same_at(rt, erase(board, segment), Some(answer), name, at),
        Step::Read(row, i, answer) => same_at(rt, read(board, row, i), Some(answer), name, at),
        Step::Holds(row, page) => check_holds(rt, board, row, page, name, at),
        Step::ProgramMarked(first, behind) => {
            same_at(rt, program_marked(board, first, behind), true, name, at);
        }
        Step::HoldMarked(first, behind) => {
            same_at(rt, hold_marked(board, first, behind), true, name, at);
        }
        Step::IsOn(is) => same_at(rt, board.powered(), is, name, at),
        // the board has no such word, or the call may not be made now
        _ => same_at(rt, false, true, name, at),
    }
}

/// Makes a step, and tests that it is answered as it says.
fn check_step(rt: &impl Abort, board: &mut MemBoard, name: &str, at: u64, step: Step) {
    match step {
        Step::Peek(w, word) if w < 71 => same_at(rt, board.peek(w), word, name, at),
        Step::PlanCut(k, g) if k >= 1 => board.arm_cut(k, g),
        Step::PlanBad(k, g) if k >= 1 => board.arm_bad(k, g),
        Step::CutNow if board.powered() => board.cut_now(),
        Step::PowerOn(is) if !board.powered() => same_at(rt, board.power_on(), is, name, at),
        Step::Lives(lives) => same_at(rt, board.lives(), lives, name, at),
        Step::Failed(cuts, bads) => {
            same_at(rt, (board.cuts(), board.bads()), (cuts, bads), name, at);
        }
        _ => check_of_board(rt, board, name, at, step),
    }
}

/// Tests that each step is answered as it says; else the step's number is told.
pub(crate) fn check_steps(rt: &impl Abort, board: &mut MemBoard, name: &str, steps: &[Step]) {
    for i in 0..steps.len() {
        check_step(rt, board, name, i as u64, steps[i]);
    }
}
