//! Calls of a board with their answers.

use crate::steps::Step::{
    CutNow, Erase, Failed, Get, HoldMarked, Holds, Is, IsOn, Lives, Peek, PlanBad, PlanCut,
    PowerOn, Program, ProgramMarked, Put, Read,
};
use crate::steps::{Page, Step, check_steps};
use crate::told::same_at;
use envy_base::{Maker, Off, Shape, Trouble};
use envy_bench::{MemBoard, MemMaker};
use std::alloc::Global;
use std::process::Abort;

// Why a test ends where a board, or a shape that checks, is wanted.
const NO_ROOM: &str = "no room for a board";

const SIZES: &str = "the shape";

/// Calls of a new board, whose power can return so often.
#[derive(Clone, Copy)]
struct Calls {
    name: &'static str,
    shape: Shape,
    lives: u32,
    steps: &'static [Step],
}

const SHAPE: Shape = Shape {
    segments: 8,
    rows: 16,
    pages: 64,
    shadows: 16,
    frames: 8,
    entries: 4,
    reserves: 0,
    sums: 0,
};

// Six segments, so that two of the four banks have a block that is no segment's.
const SIX: Shape = Shape {
    segments: 6,
    rows: 3,
    pages: 9,
    shadows: 3,
    frames: 2,
    entries: 1,
    reserves: 0,
    sums: 0,
};

const CALLS: [Calls; 7] = [
    Calls {
        name: "cut put keeps the old word",
        shape: SHAPE,
        lives: u32::MAX,
        steps: &[
            PlanCut(1, 0),
            Put(8, 5, Err(Off)),
            PowerOn(true),
            Get(8, Ok(0)),
        ],
    },
    Calls {
        name: "cut put has the new word",
        shape: SHAPE,
        lives: u32::MAX,
        steps: &[
            PlanCut(1, 1),
            Put(8, 5, Err(Off)),
            PowerOn(true),
            Get(8, Ok(5)),
        ],
    },
    Calls {
        name: "bad program comes at the second flash operation",
        shape: SHAPE,
        lives: u32::MAX,
        steps: &[
            PlanBad(2, 9),
            Program(0, Page::Zeros, Ok(())),
            Put(8, 5, Ok(())),
            Program(1, Page::Zeros, Err(Trouble::Bad)),
            Holds(0, Page::Zeros),
            Holds(1, Page::Torn(9, 0)),
            Holds(2, Page::Ones),
            Failed(0, 1),
        ],
    },
    Calls {
        name: "cut goes before bad on one operation",
        shape: SHAPE,
        lives: u32::MAX,
        steps: &[
            PlanBad(1, 2),
            PlanCut(1, 2),
            Erase(0, Err(Trouble::Off)),
            Failed(1, 0),
        ],
    },
    Calls {
        name: "peek shows a word without power",
        shape: SHAPE,
        lives: 0,
        steps: &[
            Put(9, 7, Ok(())),
            IsOn(true),
            CutNow,
            Get(9, Err(Off)),
            Peek(9, 7),
        ],
    },
    Calls {
        name: "erase and torn erase leave the rows of other segments",
        shape: SIX,
        lives: u32::MAX,
        steps: &[
            ProgramMarked(0, 18),
            Erase(1, Ok(())),
            PlanCut(1, 7),
            Erase(5, Err(Trouble::Off)),
            PowerOn(true),
            HoldMarked(0, 3),
            Holds(3, Page::Ones),
            Holds(4, Page::Ones),
            Holds(5, Page::Ones),
            HoldMarked(6, 15),
            Holds(15, Page::Torn(7, 0)),
            Holds(16, Page::Torn(7, 1)),
            Holds(17, Page::Torn(7, 2)),
        ],
    },
    // The words that the bench gives for g = 7, made with an independent program.
    Calls {
        name: "torn erase begins with the first words of its number",
        shape: SHAPE,
        lives: u32::MAX,
        steps: &[
            PlanBad(1, 7),
            Erase(6, Err(Trouble::Bad)),
            Read(96, 0, Ok(1778390507669511913)),
            Read(96, 2, Ok(5876829922724166588)),
        ],
    },
];

fn check_calls(rt: &impl Abort, alloc: Global, calls: &Calls) {
    calls.shape.check().expect(rt, SIZES);
    let mut board = MemBoard::new(alloc, &calls.shape, calls.lives).expect(rt, NO_ROOM);
    check_steps(rt, &mut board, calls.name, calls.steps);
}

#[test]
fn calls_of_a_board_are_answered(rt: HostRuntime) {
    for calls in CALLS.as_slice() {
        check_calls(&rt, rt.alloc(), calls);
    }
}

const OF_A_MAKER: [Step; 11] = [
    Is(SHAPE),
    Lives(1),
    Holds(127, Page::Ones),
    Get(70, Ok(0)),
    IsOn(true),
    CutNow,
    Read(0, 0, Err(Off)),
    PowerOn(true),
    IsOn(true),
    CutNow,
    PowerOn(false),
];

#[test]
fn maker_makes_a_board_of_ones_and_zeros(rt: HostRuntime) {
    SHAPE.check().expect(&rt, SIZES);
    let made = MemMaker::new().make(rt.alloc(), &SHAPE, 1);
    let mut board = made.expect(&rt, NO_ROOM);
    check_steps(&rt, &mut board, "maker", &OF_A_MAKER);
}

#[test]
fn the_last_word_of_sram_is_zero(rt: HostRuntime) {
    SHAPE.check().expect(&rt, SIZES);
    let board = MemBoard::new(rt.alloc(), &SHAPE, 0).expect(&rt, NO_ROOM);
    same_at(&rt, board.peek(558), 0, "word", 558);
}
