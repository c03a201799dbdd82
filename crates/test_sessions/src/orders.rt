//! The order of the device operations of a call: what stands on the board where power fails at one of them.
ghost use Rattle.envy_map.specs.Fields.{chart};
ghost use Rattle.envy_soundness.specs.Sound.{IsSound};
ghost use Rattle.envy_bench.specs.Board.{board_state};

use crate::ordered::OrderedBoard;
use crate::session::{check_part, new_memory};
use crate::setups::SIX_LOCALITY;
use crate::steps::Step;
use crate::steps::Step::{Abort, Begin, Commit, PlanCut, Put, Store};
use crate::told::same_at;
use envy_base::{Bench, Board, Off, Place, Slot, Undo};
use envy_map::{back, fill, place, slot, undo};
use envy_memory::{EndFault, StoreFault};
use std::alloc::Global;
use std::process;

/// Steps, and a call behind them that loses power.
#[derive(Clone, Copy)]
struct Order {
    name: &'static str,
    before: &'static [Step],
    call: Step,
}

/// What a flush of page 3 into row 4 leaves: the page that the row was claimed for, the fill of its segment, whether
/// page 3 is there, and whether page 2 is absent.
type Flushed = (u32, u32, bool, bool);

/// What the end of a transaction leaves: the state of the first slot; and of page 1, and then of page 0, whether it is
/// absent, and whether its undo is clear.
type Ended = (Slot, (bool, bool), (bool, bool));

/// Whether a page is at this place.
fn is_at(board: &OrderedBoard, page: u32, at: Place) -> bool
    requires { IsSound (chart (board_state board.now.inner)) }
{
    page < board.shape().pages && place(board, page) == Ok(at)
}

/// Whether a page is absent, and whether its undo is clear, if the board has it.
fn state_of(board: &OrderedBoard, page: u32) -> Option<(bool, bool)>
    requires { IsSound (chart (board_state board.now.inner)) }
{
    if page >= board.shape().pages {
        return None;
    }
    match (place(board, page), undo(board, page)) {
        (Ok(now), Ok(undo)) => Some((now == Place::Absent, undo == Undo::Clear)),
        _ => None,
    }
}

/// The page that row 4 was claimed for, and the fill of segment 1, if the board has them.
fn claim(board: &OrderedBoard) -> Option<(u32, u32)>
    requires { IsSound (chart (board_state board.now.inner)) }
{
    let shape = board.shape();
    if 4 >= shape.segments * shape.rows || 1 >= shape.segments {
        return None;
    }
    match (back(board, 4), fill(board, 1)) {
        (Ok(page), Ok(rows)) => Some((page, rows)),
        _ => None,
    }
}

/// What a flush has left; none where the board hasn't the rows and pages.
fn flushed(board: &OrderedBoard) -> Option<Flushed>
    requires { IsSound (chart (board_state board.now.inner)) }
{
    let (page, rows) = claim(board)?;
    let moved = is_at(board, 3, Place::Row(4));
    let absent = is_at(board, 2, Place::Absent);
    Some((page, rows, moved, absent))
}

/// Lets power return to a board that has none, and nothing else.
fn lit(rt: &impl process::Abort, mut board: OrderedBoard) -> OrderedBoard
    requires { IsSound (chart (board_state board.inner)) }
    ensures { IsSound (chart (board_state result.inner)) }
{
    assert!(rt; !board.powered());
    assert!(rt; board.power_on());
    board
}

/// The board of a call that is cut at this operation.
fn cut(rt: &impl process::Abort, alloc: Global, order: &Order, k: u32) -> OrderedBoard
    ensures { IsSound (chart (board_state result.inner)) }
{
    let mut memory = new_memory(rt, alloc, SIX_LOCALITY, 1);
    check_part(rt, &mut memory, order.name, 0, order.before);
    check_part(rt, &mut memory, order.name, 0, &[PlanCut(k, 0), order.call]);
    lit(rt, memory.into_board())
}

/// Tests what stands on the board of a flush that is cut at this operation.
fn check_flush(rt: &impl process::Abort, alloc: Global, k: u32, left: Flushed) {
    let board = cut(rt, alloc, &FLUSH, k);
    same_at(rt, &flushed(&board), &Some(left), FLUSH.name, k as u64);
}

/// Tests what stands on the board of the end of a transaction that is cut at this operation.
fn check_end(rt: &impl process::Abort, alloc: Global, order: &Order, k: u32, left: Ended) {
    let board = cut(rt, alloc, order, k);
    let (state, first, second) = left;
    same_at(rt, &slot(&board, 0), &Ok(state), order.name, k as u64);
    let found = (state_of(&board, 1), state_of(&board, 0));
    same_at(
        rt,
        &found,
        &(Some(first), Some(second)),
        order.name,
        k as u64,
    );
}

const FLUSH: Order = Order {
    name: "store flushes before it fills the frame",
    before: &[Store(96, 5, Ok(())), Store(32, 6, Ok(()))],
    call: Store(64, 7, Err(StoreFault::Off)),
};

// The page and the fill of the row's claim, the program, the place of page 3, and then the frame of page 2 and its place.
const FLUSHES: [(u32, Flushed); 6] = [
    (1, (0, 0, false, true)),
    (2, (3, 0, false, true)),
    (3, (3, 1, false, true)),
    (4, (3, 1, false, true)),
    (5, (3, 1, true, true)),
    (37, (3, 1, true, true)),
];

// Slot 0 owns page 1, and then page 0, which were absent.
const TWO_ARE_OWNED: [Step; 3] = [Begin(Ok(0)), Put(0, 32, 1, Ok(())), Put(0, 0, 2, Ok(()))];

const COMMIT: Order = Order {
    name: "commit clears undos in order of owning",
    before: &TWO_ARE_OWNED,
    call: Commit(0, Err(EndFault::Off)),
};

// The slot, the undo of page 1, that of page 0, and the slot again.
const COMMITS: [(u32, Ended); 4] = [
    (1, (Slot::Active, (false, false), (false, false))),
    (2, (Slot::Committed, (false, false), (false, false))),
    (3, (Slot::Committed, (false, true), (false, false))),
    (4, (Slot::Committed, (false, true), (false, true))),
];

const ABORT: Order = Order {
    name: "abort puts pages back in order of owning",
    before: &TWO_ARE_OWNED,
    call: Abort(0, Err(EndFault::Off)),
};

// The place of page 1 and its undo, those of page 0, and the slot.
const ABORTS: [(u32, Ended); 5] = [
    (1, (Slot::Active, (false, false), (false, false))),
    (2, (Slot::Active, (true, false), (false, false))),
    (3, (Slot::Active, (true, true), (false, false))),
    (4, (Slot::Active, (true, true), (true, false))),
    (5, (Slot::Active, (true, true), (true, true))),
];

#[test]
fn operations_come_in_their_order(rt: HostRuntime) {
    for (k, left) in FLUSHES.as_slice() {
        check_flush(&rt, rt.alloc(), *k, *left);
    }
    for (k, left) in COMMITS.as_slice() {
        check_end(&rt, rt.alloc(), &COMMIT, *k, *left);
    }
    for (k, left) in ABORTS.as_slice() {
        check_end(&rt, rt.alloc(), &ABORT, *k, *left);
    }
}
