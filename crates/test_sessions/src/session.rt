//! Sessions: calls of a memory over a new board, and the answer that each of them must have.

ghost use Rattle.std.specs.Prelude.{◌≡◌, IfOk};
ghost use Rattle.envy_map.specs.Fields.{chart};
ghost use Rattle.envy_bench.specs.Board.{board_state};
ghost use Rattle.envy_bench.specs.Parts.{new_state};
ghost use Rattle.envy_memory.specs.Attaching.{IsAttachable};

use crate::ordered::OrderedBoard;
use crate::steps::{Step, Tested, check_step};
use envy_memory::Memory;
use envy_policy::Setup;
use std::alloc::Global;
use std::process::Abort;

/// A session with a memory of this setup over a new board, whose power can return so often.
#[derive(Clone, Copy)]
pub(crate) struct Session {
    pub(crate) name: &'static str,
    pub(crate) setup: Setup,
    pub(crate) lives: u32,
    /// The steps, in parts that other sessions may have too, each made so often.
    pub(crate) parts: &'static [(u32, &'static [Step])],
}

/// A new board for a setup.
pub(crate) fn new_board(rt: &impl Abort, alloc: Global, setup: &Setup, lives: u32) -> OrderedBoard
    ensures { board_state result.inner ≡ new_state setup.now.shape lives }
{
    setup.shape.check().expect(rt, "the shape");
    OrderedBoard::new(alloc, &setup.shape, lives).expect(rt, "no room for a board")
}

/// The memory that a board was formatted for.
pub(crate) fn formatted(
    rt: &impl Abort,
    alloc: Global,
    board: OrderedBoard,
    setup: Setup,
) -> Tested {
    match Memory::format(alloc, board, setup) {
        Ok(memory) => memory,
        Err((_, fault)) => panic!(rt; "not formatted: {fault:?}"),
    }
}

/// The memory that was attached to the board of another one.
fn attached(rt: &impl Abort, alloc: Global, memory: Tested, setup: Setup) -> Tested {
    match Memory::attach(alloc, memory.into_board(), setup) {
        Ok(memory) => memory,
        Err((_, fault)) => panic!(rt; "not attached: {fault:?}"),
    }
}

/// A memory of a setup over a new board.
pub(crate) fn new_memory(rt: &impl Abort, alloc: Global, setup: Setup, lives: u32) -> Tested {
    let board = new_board(rt, alloc, &setup, lives);
    formatted(rt, alloc, board, setup)
}

/// Tests that each step of a part is answered as it says, behind so many; else the step's number is told.
pub(crate) fn check_part(
    rt: &impl Abort,
    memory: &mut Tested,
    name: &str,
    before: u64,
    part: &[Step],
) {
    for i in 0..part.len() {
        check_step(rt, memory, name, before.wrapping_add(i as u64), part[i]);
    }
}

/// Tests that no program broke a rule.
pub(crate) fn check_order(rt: &impl Abort, memory: &Tested, name: &str) {
    assert_eq!(rt; memory.board().breach(), None, "{name}");
}

/// Tests that each step of a session is answered as it says, from a memory on.
pub(crate) fn check_from(rt: &impl Abort, alloc: Global, memory: Tested, session: &Session) {
    let mut memory = memory;
    let mut before = 0u64;
    for (times, part) in session.parts {
        for _time in 0..*times {
            if let [Step::Attach] = *part {
                memory = attached(rt, alloc, memory, session.setup);
            } else {
                check_part(rt, &mut memory, session.name, before, part);
            }
            before = before.wrapping_add(part.len() as u64);
            check_order(rt, &memory, session.name);
        }
    }
    let _board = memory.into_board();
}

/// Tests each session of a table.
pub(crate) fn check_all(rt: &impl Abort, alloc: Global, table: &[Session]) {
    for session in table {
        let memory = new_memory(rt, alloc, session.setup, session.lives);
        check_from(rt, alloc, memory, session);
    }
}
