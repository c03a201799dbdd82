//! Boards with segments in reserve: formatting sets those aside whose erase is bad.

use crate::formats::{declined, get};
use crate::session::{formatted, new_board};
use crate::setups::{RESERVED, TEN_PLAIN};
use crate::told::same_at;
use crate::worn::WornBoard;
use envy_base::{Board, Shape};
use envy_memory::{AttachFault, FormatFault, Memory, Worn};
use envy_policy::Setup;
use std::alloc::Global;
use std::process::Abort;

/// The wears, the fills and the positions of ten segments in SRAM.
const WEARS: u32 = 72;

const FILLS: u32 = 82;

const POSITIONS: u32 = 92;

/// What formatting leaves of a board with worn segments: the segments at its positions, and what is in reserve.
struct Formatting {
    worn: &'static [u32],
    positions: [u64; 9],
    left: Worn,
}

const FORMATTINGS: [Formatting; 4] = [
    Formatting {
        worn: &[],
        positions: [0, 1, 2, 3, 4, 5, 6, 7, 8],
        left: Worn {
            retired: 0,
            left: 2,
        },
    },
    Formatting {
        worn: &[3],
        positions: [0, 1, 2, 4, 5, 6, 7, 8, 3],
        left: Worn {
            retired: 1,
            left: 1,
        },
    },
    Formatting {
        worn: &[9],
        positions: [0, 1, 2, 3, 4, 5, 6, 7, 9],
        left: Worn {
            retired: 1,
            left: 1,
        },
    },
    Formatting {
        worn: &[0, 9],
        positions: [1, 2, 3, 4, 5, 6, 7, 0, 9],
        left: Worn {
            retired: 2,
            left: 0,
        },
    },
];

fn worn_board(rt: &impl Abort, alloc: Global, shape: &Shape, worn: &'static [u32]) -> WornBoard {
    shape.check().expect(rt, "the shape");
    WornBoard::new(alloc, shape, worn).expect(rt, "no room for a board")
}

/// Each segment is worn once; those with a bad erase have no free row, and the others are empty.
fn check_segments(rt: &impl Abort, board: &WornBoard, worn: &[u32]) {
    for segment in 0..10u32 {
        let fill = if worn.contains(&segment) { 16 } else { 0 };
        let found = (
            get(rt, board, WEARS + segment),
            get(rt, board, FILLS + segment),
        );
        same_at(rt, &found, &(1, fill), "wear and fill of", segment as u64);
    }
}

fn check_positions(rt: &impl Abort, board: &WornBoard, positions: &[u64; 9]) {
    for position in 0..9u32 {
        same_at(
            rt,
            &get(rt, board, POSITIONS + position),
            &positions[position as usize],
            "position",
            position as u64,
        );
    }
}

fn check_formatting(rt: &impl Abort, alloc: Global, row: &Formatting) {
    let board = worn_board(rt, alloc, &RESERVED.shape, row.worn);
    let memory = match Memory::format(alloc, board, RESERVED) {
        Ok(memory) => memory,
        Err((_, fault)) => panic!(rt; "not formatted: {fault:?}"),
    };
    same_at(rt, &memory.worn(), &Ok(row.left), "worn", row.positions[0]);
    check_segments(rt, memory.board(), row.worn);
    check_positions(rt, memory.board(), &row.positions);
    let _board = memory.into_board();
}

#[test]
fn segments_with_a_bad_erase_are_set_aside(rt: HostRuntime) {
    for row in FORMATTINGS.as_slice() {
        check_formatting(&rt, rt.alloc(), row);
    }
}

#[test]
fn formatting_fails_where_more_erases_are_bad_than_are_in_reserve(rt: HostRuntime) {
    let board = worn_board(&rt, rt.alloc(), &RESERVED.shape, &[0, 5, 9]);
    let (board, fault) = match Memory::format(rt.alloc(), board, RESERVED) {
        Ok(memory) => {
            let _board = memory.into_board();
            panic!(&rt; "formatted")
        }
        Err(refusal) => refusal,
    };
    same_at(&rt, &fault, &FormatFault::Bad, "format", 3);
    same_at(&rt, &get(&rt, &board, 0), &0, "word", 0);
}

/// Attaches by one setup to a board that was formatted by another.
fn check_other(rt: &impl Abort, alloc: Global, made: Setup, asked: Setup) {
    let board = new_board(rt, alloc, &made, 0);
    let board = formatted(rt, alloc, board, made).into_board();
    let (_, fault) = declined(rt, Memory::attach(alloc, board, asked));
    let other = AttachFault::OtherShape { kept: made.shape };
    same_at(rt, &fault, &other, "attach", made.shape.reserves as u64);
}

#[test]
fn board_of_other_reserves_is_declined(rt: HostRuntime) {
    check_other(&rt, rt.alloc(), RESERVED, TEN_PLAIN);
    check_other(&rt, rt.alloc(), TEN_PLAIN, RESERVED);
}
