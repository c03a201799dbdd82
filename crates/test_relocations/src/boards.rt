//! A board whose segment at position 0 has rows of each kind, and what is asked of a board beside its words.

ghost use Rattle.std.specs.Prelude.{◌≡◌, ◌⊎◌, ◌<◌, ℕ, Some, OnOk};
ghost use Rattle.envy_map.specs.Fields.{chart, undo as undo_of};
ghost use Rattle.envy_soundness.specs.Naming.{AreParted};
ghost use Rattle.envy_soundness.specs.Sound.{IsSound};
ghost use Rattle.envy_bench.specs.Board.{board_state};

use crate::facts::page_of;
use crate::told::{other, same_at};
use envy_audit::{Audit, Verdict};
use envy_base::{Board, Job, Off, Place, Shape, Slot, Trouble, Undo};
use envy_bench::MemBoard;
use envy_map::{job, place, set_back, set_fill, set_place, set_slot, set_undo, undo, write_frame};
use envy_soundness::format_board;
use std::alloc::Global;
use std::process::Abort;

pub(crate) const SHAPE: Shape = Shape {
    segments: 4,
    rows: 6,
    pages: 6,
    shadows: 2,
    frames: 2,
    entries: 2,
    reserves: 0,
    sums: 0,
};

/// What a test writes on a board.
#[derive(Clone, Copy)]
enum Write {
    /// A row is claimed for a page, and the page of a number is programmed into it.
    Row(u32, u32, u32),
    /// So many rows of a segment are claimed.
    Fill(u32, u32),
    /// The page of a number is in a frame.
    Frame(u32, u32),
    /// A page is in a row, or in a frame.
    InRow(u32, u32),
    InFrame(u32, u32),
    /// Slot 0 owns a page, whose shadow is a row.
    Shadow(u32, u32),
    /// Nobody owns a page.
    Clear(u32),
    /// The state of slot 0.
    Slot(Slot),
}

/// Of the six rows of segment 0 pages 0 and 3 keep rows 0 and 3, the shadows of pages 2 and 4, into which slot 0 put
/// other words, are rows 2 and 4, and rows 1 and 5 are dead. Of segment 1 row 6 is that of page 5, and one row is free.
const ROWS_OF_EACH_KIND: [Write; 19] = [
    Write::Row(0, 0, 1000),
    Write::Row(1, 1, 1100),
    Write::Row(2, 2, 1200),
    Write::Row(3, 3, 1300),
    Write::Row(4, 4, 1400),
    Write::Row(5, 5, 1900),
    Write::Row(6, 5, 1500),
    Write::Fill(0, 6),
    Write::Fill(1, 5),
    Write::InRow(0, 0),
    Write::InRow(3, 3),
    Write::InRow(5, 6),
    Write::Slot(Slot::Active),
    Write::Frame(0, 2200),
    Write::Shadow(2, 2),
    Write::InFrame(2, 0),
    Write::Frame(1, 2400),
    Write::Shadow(4, 4),
    Write::InFrame(4, 1),
];

/// Claims a row for a page, and programs the page of a number into it, if the board has both.
fn write_row<B: Board>(
    board: &mut B,
    row: u32,
    page: u32,
    number: u32,
) -> Option<Result<(), Trouble>> {
    let shape = board.shape();
    if row >= shape.segments * shape.rows || page >= shape.pages {
        return None;
    }
    if let Err(Off) = set_back(board, row, page) {
        return Some(Err(Trouble::Off));
    }
    Some(board.program(row, &page_of(number)))
}

/// Makes a write of SRAM; none where the board hasn't what it names.
fn make_in_sram<B: Board>(board: &mut B, write: Write) -> Option<Result<(), Off>> {
    let shape = board.shape();
    match write {
        Write::Fill(segment, rows) if segment < shape.segments && rows <= shape.rows => {
            Some(set_fill(board, segment, rows))
        }
        Write::Frame(frame, number) if frame < shape.frames => {
            Some(write_frame(board, frame, &page_of(number)))
        }
        Write::InRow(page, row) if page < shape.pages && row < 24 => {
            Some(set_place(board, page, Place::Row(row)))
        }
        Write::InFrame(page, frame) if page < shape.pages && frame < 2 => {
            Some(set_place(board, page, Place::Frame(frame)))
        }
        Write::Shadow(page, row) if page < shape.pages && row < 24 => {
            Some(set_undo(board, page, Undo::Shadow { slot: 0, row }))
        }
        Write::Clear(page) if page < shape.pages => Some(set_undo(board, page, Undo::Clear)),
        Write::Slot(state) => Some(set_slot(board, 0, state)),
        _ => None,
    }
}

/// Makes a write, which is done; else its number is told.
fn make<B: Board>(rt: &impl Abort, board: &mut B, at: u64, write: Write) {
    if let Write::Row(row, page, number) = write {
        let found = write_row(board, row, page, number);
        same_at(rt, &found, &Some(Ok(())), "write", at);
    } else {
        let found = make_in_sram(board, write);
        same_at(rt, &found, &Some(Ok(())), "write", at);
    }
}

/// Makes each of these writes.
fn make_all<B: Board>(rt: &impl Abort, board: &mut B, writes: &[Write]) {
    for i in 0..writes.len() {
        make(rt, board, i as u64, writes[i]);
    }
}

/// Lays rows of each kind on a new board.
pub(crate) fn lay<B: Board>(rt: &impl Abort, board: &mut B) {
    if let Err(fault) = format_board(board) {
        other(rt, "format", &fault);
    }
    make_all(rt, board, &ROWS_OF_EACH_KIND);
}

/// The row of a page's shadow.
fn shadow_of<B: Board>(rt: &impl Abort, board: &B, page: u32) -> Result<Option<u32>, Off>
    requires { IsSound (chart (B.state board.now)) }
{
    assert!(rt; page < board.shape().pages);
    match undo(board, page)? {
        Undo::Shadow { slot: _, row } => Ok(Some(row)),
        _ => Ok(None),
    }
}

/// Puts a page back to its shadow, where it has one.
fn put_back<B: Board>(rt: &impl Abort, board: &mut B, page: u32, shadow: Option<u32>) {
    if let Some(row) = shadow {
        make_all(rt, board, &[Write::InRow(page, row), Write::Clear(page)]);
    }
}

/// Puts pages 2 and 4, which slot 0 owns, back to their shadows.
pub(crate) fn undo_all<B: Board>(rt: &impl Abort, board: &mut B) -> Result<(), Off>
    requires { IsSound (chart (B.state board.old)) }
{
    let (second, fourth) = (shadow_of(rt, board, 2)?, shadow_of(rt, board, 4)?);
    put_back(rt, board, 2, second);
    put_back(rt, board, 4, fourth);
    make_all(rt, board, &[Write::Slot(Slot::Vacant)]);
    Ok(())
}

/// Tests that a board is sound.
pub(crate) fn assert_sound(rt: &impl Abort, alloc: Global, board: &MemBoard)
    ensures { IsSound (chart (board_state board.now)) }
{
    let mut audit = Audit::new(alloc, &board.shape()).expect(rt, "no room for an audit");
    match audit.check(board) {
        Ok(Verdict::Sound) => {}
        found => other(rt, "audit", &found),
    }
}

/// Tests that the place and the undo of no page name one row.
pub(crate) fn assert_parted<B: Board>(rt: &impl Abort, board: &B) -> Result<(), Off>
    requires { IsSound (chart (B.state board.now)) }
    ensures { let f = (chart (B.state board.now)).fields in OnOk result (AreParted f.slots f.undos f.places) }
{
    for page in 0..board.shape().pages {
        if let Undo::Shadow { slot: _, row } = undo(board, page)? {
            let now = place(board, page)?;
            assert!(rt; now != Place::Row(row));
        }
    }
    Ok(())
}

/// Tests that nothing is copied or switched.
pub(crate) fn assert_at_rest<B: Board>(rt: &impl Abort, board: &B) -> Result<(), Off>
    requires { IsSound (chart (B.state board.now)) }
    ensures { let job = (chart (B.state board.now)).fields.job in OnOk result ((job ≡ Some Job.Idle)
        ⊎ (job ≡ Some Job.Erase)) }
{
    match job(board)? {
        Job::Idle | Job::Erase => Ok(()),
        found => other(rt, "job", &found),
    }
}

/// Tests that no page has an owner.
pub(crate) fn assert_clear<B: Board>(rt: &impl Abort, board: &B) -> Result<(), Off>
    requires { IsSound (chart (B.state board.now)) }
    ensures { OnOk result ((p : ℕ) → p < (B.state board.now).shape.pages
        → undo_of (chart (B.state board.now)).fields p ≡ Some Undo.Clear) }
{
    for page in 0..board.shape().pages {
        let undo = undo(board, page)?;
        assert!(rt; undo == Undo::Clear);
    }
    Ok(())
}
