ghost use Rattle.std.specs.Prelude.{◌≡◌, ◌<◌, IsTrue, IfOk, OnOk};
ghost use Rattle.envy_base.specs.Shape.{IsShape};
ghost use Rattle.envy_map.specs.Fields.{chart};
ghost use Rattle.envy_soundness.specs.Sound.{IsSound};

use crate::told::same_at;
use envy_base::{Board, Off, Shape, Trouble};
use envy_bench::MemBoard;
use envy_soundness::{format_board, raise_wear};
use envy_wear::{Stages, Swap, due};
use std::alloc::Global;
use std::process::Abort;

/// What is done with the stages of a swap, or asked of them, and the answer.
#[derive(Clone, Copy)]
enum Turn {
    Start(Swap),
    Clear,
    Pending(bool),
    Next(Option<u32>),
}

const TURNS: [Turn; 12] = [
    Turn::Pending(false),
    Turn::Next(None),
    Turn::Start(Swap { worn: 4, young: 1 }),
    Turn::Pending(true),
    Turn::Next(Some(4)),
    Turn::Next(Some(1)),
    Turn::Next(Some(4)),
    Turn::Pending(false),
    Turn::Next(None),
    Turn::Start(Swap { worn: 2, young: 3 }),
    Turn::Clear,
    Turn::Next(None),
];

/// Does this, and tests the answer; else the number of the turn is told.
fn check_turn(rt: &impl Abort, stages: &mut Stages, at: u64, turn: Turn) {
    match turn {
        Turn::Start(swap) => stages.start(swap),
        Turn::Clear => stages.clear(),
        Turn::Pending(is) => same_at(rt, &stages.pending(), &is, "turn", at),
        Turn::Next(position) => same_at(rt, &stages.next(), &position, "turn", at),
    }
}

#[test]
fn a_swap_has_three_stages(rt: HostRuntime) {
    let mut stages = Stages::new();
    for i in 0..TURNS.len() {
        check_turn(&rt, &mut stages, i as u64, TURNS[i]);
    }
}

const SHAPE: Shape = Shape {
    segments: 4,
    rows: 2,
    pages: 2,
    shadows: 0,
    frames: 2,
    entries: 1,
    reserves: 0,
    sums: 0,
};

/// Formats a board, and wears the segments at its three positions so often more.
fn wear_out<B: Board>(board: &mut B, more: [u32; 3]) -> Result<(), Trouble>
    requires { (B.state board.old).shape ≡ SHAPE }
    ensures sound { OnOk result (IsSound (chart (B.state board.new))) }
{
    format_board(board)?;
    wear_segment(board, 0, more[0])?;
    wear_segment(board, 1, more[1])?;
    wear_segment(board, 2, more[2])?;
    Ok(())
}

fn wear_segment<B: Board>(board: &mut B, segment: u32, times: u32) -> Result<(), Off>
    requires sound { IsSound (chart (B.state board.old)) }
    requires segment { segment < (B.state board.old).shape.segments }
    ensures sound { OnOk result (IsSound (chart (B.state board.new))) }
    ensures shape { (B.state board.new).shape ≡ (B.state board.old).shape }
{
    for _turn in 0..times {
        raise_wear(board, segment)?;
    }
    Ok(())
}

/// How often the segments of a new board were worn more, the limit, the erases since the last swap, and the swap that is
/// due then.
#[derive(Clone, Copy)]
struct Due {
    more: [u32; 3],
    limit: u64,
    since: u64,
    swap: Option<Swap>,
}

/// The swap that is due.
fn found(rt: &impl Abort, alloc: Global, row: &Due) -> Option<Swap> {
    SHAPE.check().expect(rt, "the shape");
    let mut board = MemBoard::new(alloc, &SHAPE, 0).expect(rt, "no room for a board");
    wear_out(&mut board, row.more).expect(rt, "wearing out");
    due(&board, row.limit, row.since).expect(rt, "no power")
}

/// Tests the swap that is due, by the number of the row.
fn check(rt: &impl Abort, alloc: Global, at: u64, row: &Due) {
    same_at(rt, &found(rt, alloc, row), &row.swap, "due", at);
}

const SWAP: Swap = Swap { worn: 1, young: 0 };

/// One swap is due or not by the limit and the erases since the last.
const ABOVE: [Due; 3] = [
    Due {
        more: [0, 3, 1],
        limit: 2,
        since: 2,
        swap: Some(SWAP),
    },
    Due {
        more: [0, 3, 1],
        limit: 3,
        since: 3,
        swap: None,
    },
    Due {
        more: [0, 3, 1],
        limit: 2,
        since: 1,
        swap: None,
    },
];

#[test]
fn a_swap_is_due_above_the_limit(rt: HostRuntime) {
    for i in 0..ABOVE.len() {
        check(&rt, rt.alloc(), i as u64, &ABOVE[i]);
    }
}

/// How often the segments were worn more, and the most and the least worn position then.
const LOWEST: [([u32; 3], Swap); 4] = [
    ([3, 0, 3], Swap { worn: 0, young: 1 }),
    ([0, 3, 3], Swap { worn: 1, young: 0 }),
    ([0, 0, 3], Swap { worn: 2, young: 0 }),
    ([3, 0, 0], Swap { worn: 0, young: 1 }),
];

#[test]
fn the_lowest_of_several_positions_is_swapped(rt: HostRuntime) {
    for i in 0..LOWEST.len() {
        let (more, swap) = LOWEST[i];
        let row = Due {
            more,
            limit: 1,
            since: 9,
            swap: Some(swap),
        };
        check(&rt, rt.alloc(), i as u64, &row);
    }
}
