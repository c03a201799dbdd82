//! Formatting a board, attaching to it, and raising its version, with failures on the way.
ghost use Rattle.std.specs.Prelude.{◌≡◌, ◌<◌, ◌≤◌, Err, OnOk};
ghost use Rattle.envy_base.specs.Shape.{version_of};
ghost use Rattle.envy_map.specs.Fields.{chart};
ghost use Rattle.envy_soundness.specs.Sound.{IsSound};
ghost use Rattle.envy_bench.specs.Board.{board_state};
ghost use Rattle.envy_bench.specs.Parts.{new_state};
ghost use Rattle.envy_memory.specs.Attaching.{IsAttachable};

use crate::ordered::OrderedBoard;
use crate::session::{Session, check_all, check_from, check_part, formatted, new_board};
use crate::setups::{COMMON, THREE_GREEDY};
use crate::steps::Step::{Attach, Begin, Load, Put, Store};
use crate::steps::{Step, Tested};
use crate::told::same_at;
use envy_base::{Bench, Board, Shape, Slot, Trouble, Undo, version_of};
use envy_map::{is_formatted, words};
use envy_memory::{AttachFault, FormatFault, Memory, StoreFault};
use envy_policy::Setup;
use envy_soundness::{format_board_1, move_to_frame, own_page, set_unused_slot, write_free_frame};
use std::alloc::Global;
use std::process::Abort;

const ANEW: [Session; 1] = [Session {
    name: "attaching puts back what an open transaction stored",
    setup: COMMON,
    lives: 0,
    parts: &[
        (
            1,
            &[Store(5, 1, Ok(())), Begin(Ok(0)), Put(0, 6, 2, Ok(()))],
        ),
        (1, &[Attach]),
        (1, &[Load(5, Ok(1)), Load(6, Ok(0))]),
    ],
}];

#[test]
fn a_memory_is_attached_anew(rt: HostRuntime) {
    check_all(&rt, rt.alloc(), &ANEW);
}

const FRAMES_ARE_FULL: [Step; 8] = [
    Store(0, 10, Ok(())),
    Store(32, 11, Ok(())),
    Store(64, 12, Ok(())),
    Store(96, 13, Ok(())),
    Store(128, 14, Ok(())),
    Store(160, 15, Ok(())),
    Store(192, 16, Ok(())),
    Store(224, 17, Ok(())),
];

// The first eight of nine pages have frames of their own.
const FIRST_FLUSH: Session = Session {
    name: "flush that fails is made again",
    setup: COMMON,
    lives: 0,
    parts: &[
        (1, &FRAMES_ARE_FULL),
        (
            1,
            &[
                Store(256, 5, Err(StoreFault::Bad)),
                Load(256, Ok(0)),
                Store(256, 5, Ok(())),
                Load(256, Ok(5)),
            ],
        ),
    ],
};

// Eight erases come first, so that the ninth flash operation is the program of the first flush.
#[test]
fn flush_that_fails_is_made_again(rt: HostRuntime) {
    let mut board = new_board(&rt, rt.alloc(), &COMMON, 0);
    board.arm_bad(9, 7);
    let memory = formatted(&rt, rt.alloc(), board, COMMON);
    check_from(&rt, rt.alloc(), memory, &FIRST_FLUSH);
}

/// The board that wasn't formatted, and why.
fn refused(
    rt: &impl Abort,
    answer: Result<Tested, (OrderedBoard, FormatFault)>,
) -> (OrderedBoard, FormatFault)
    ensures { answer ≡ Err result }
{
    match answer {
        Ok(memory) => {
            let _board = memory.into_board();
            panic!(rt; "formatted")
        }
        Err(refusal) => refusal,
    }
}

/// The board to which no memory was attached, and why.
pub(crate) fn declined(
    rt: &impl Abort,
    answer: Result<Tested, (OrderedBoard, AttachFault)>,
) -> (OrderedBoard, AttachFault)
    ensures { answer ≡ Err result }
{
    match answer {
        Ok(memory) => {
            let _board = memory.into_board();
            panic!(rt; "attached")
        }
        Err(refusal) => refusal,
    }
}

/// A new board is declined, and is formatted then.
fn formatted_anew(rt: &impl Abort, alloc: Global) -> OrderedBoard
    ensures { IsSound (chart (board_state result.inner)) }
{
    let board = new_board(rt, alloc, &COMMON, 0);
    let Ok(false) = is_formatted(&board) else {
        panic!(rt; "formatted");
    };
    let (board, fault) = declined(rt, Memory::attach(alloc, board, COMMON));
    same_at(rt, &fault, &AttachFault::NotFormatted, "attach", 1);
    formatted(rt, alloc, board, COMMON).into_board()
}

#[test]
fn new_board_and_one_of_another_shape_are_declined(rt: HostRuntime) {
    let shape = Shape {
        frames: 9,
        ..COMMON.shape
    };
    let nine = Setup { shape, ..COMMON };
    let board = formatted_anew(&rt, rt.alloc());
    let (board, fault) = declined(&rt, Memory::attach(rt.alloc(), board, nine));
    let other = AttachFault::OtherShape { kept: COMMON.shape };
    same_at(&rt, &fault, &other, "attach", 2);
    let (_, fault) = refused(&rt, Memory::format(rt.alloc(), board, nine));
    same_at(&rt, &fault, &FormatFault::OtherShape, "format", 3);
}

fn power_on(rt: &impl Abort, board: &mut OrderedBoard) -> bool {
    assert!(rt; !board.powered());
    board.power_on()
}

#[test]
fn formatting_that_fails_leaves_a_board_that_is_not_formatted(rt: HostRuntime) {
    let mut board = new_board(&rt, rt.alloc(), &COMMON, 1);
    board.arm_bad(1, 3);
    let (mut board, fault) = refused(&rt, Memory::format(rt.alloc(), board, COMMON));
    same_at(&rt, &fault, &FormatFault::Bad, "format", 1);
    same_at(&rt, &board.get(0), &Ok(0), "word", 0);
    board.arm_cut(5, 2);
    let (mut board, fault) = refused(&rt, Memory::format(rt.alloc(), board, COMMON));
    same_at(&rt, &fault, &FormatFault::Off, "format", 2);
    assert!(rt; power_on(&rt, &mut board));
    let mut memory = formatted(&rt, rt.alloc(), board, COMMON);
    check_part(
        &rt,
        &mut memory,
        "formatting that was cut",
        0,
        &[Load(0, Ok(0))],
    );
    let _board = memory.into_board();
}

/// Formats a board as version 1, and lets slot 0 put 2 into word 5, whose page was absent.
fn put_on_version_1<B: Board>(board: &mut B) -> Result<(), Trouble>
    requires version { version_of (B.state board.old).shape ≡ 2 }
    requires shadows { 0 < (B.state board.old).shape.shadows }
    ensures { OnOk result (IsSound (chart (B.state board.new))) }
{
    format_board_1(board)?;
    let mut words = [0u64; 32];
    words[5] = 2;
    write_free_frame(board, 0, &words)?;
    set_unused_slot(board, 0, Slot::Active)?;
    own_page(board, 0, Undo::Blank { slot: 0 })?;
    move_to_frame(board, 0, 0, 5, 2)?;
    Ok(())
}

fn put<B: Board>(rt: &impl Abort, board: &mut B, w: u32, v: u64) {
    assert!(rt; w < words(&board.shape()));
    same_at(rt, &board.put(w, v), &Ok(()), "put of word", w as u64);
}

pub(crate) fn get<B: Board>(rt: &impl Abort, board: &B, w: u32) -> u64 {
    assert!(rt; w < words(&board.shape()));
    match board.get(w) {
        Ok(word) => word,
        Err(_) => panic!(rt; "no power"),
    }
}

/// A board of version 1 whose words of the slots that only version 2 has hold 9. Slot 0 has put 2 into word 5.
fn board_of_version_1(rt: &impl Abort, alloc: Global) -> OrderedBoard
    ensures { IsSound (chart (board_state result.inner)) }
{
    let mut board = new_board(rt, alloc, &COMMON, 1);
    for w in 24..72 {
        put(rt, &mut board, w, 9);
    }
    assert!(rt; version_of(&board.shape()) == 2);
    assert!(rt; board.shape().shadows > 0);
    put_on_version_1(&mut board).expect(rt, "version 1");
    board
}

/// The memory that was attached to a board.
fn attached(rt: &impl Abort, alloc: Global, board: OrderedBoard) -> Tested
    requires { IsAttachable (chart (board_state board.inner)) }
{
    match Memory::attach(alloc, board, COMMON) {
        Ok(memory) => memory,
        Err((_, fault)) => panic!(rt; "not attached: {fault:?}"),
    }
}

/// Attaches to a board whose power fails in that, once power is back.
fn attached_again(rt: &impl Abort, alloc: Global, board: OrderedBoard) -> Tested
    requires { IsSound (chart (board_state board.inner)) }
{
    let (mut board, fault) = declined(rt, Memory::attach(alloc, board, COMMON));
    same_at(rt, &fault, &AttachFault::Off, "attach", 1);
    assert!(rt; !board.powered());
    assert!(rt; board.power_on());
    attached(rt, alloc, board)
}

/// Tests an upgrade that is cut at this operation, if it has so many.
fn check_upgrade(rt: &impl Abort, alloc: Global, k: u32)
    requires { 1 ≤ k }
{
    let mut board = board_of_version_1(rt, alloc);
    board.arm_cut(k, 1);
    let mut memory = if k < 53 {
        attached_again(rt, alloc, board)
    } else {
        attached(rt, alloc, board)
    };
    same_at(rt, &memory.load(5), &Ok(0), "load with", k as u64);
    let board = memory.into_board();
    let found = (get(rt, &board, 24), get(rt, &board, 1));
    same_at(rt, &found, &(0, 2), "words with", k as u64);
}

#[test]
fn upgrade_that_was_cut_is_made_again(rt: HostRuntime) {
    for k in 1..54 {
        check_upgrade(&rt, rt.alloc(), k);
    }
}

// Behind 8 words of the header, 64 slots, 4 wears, 4 fills and 3 positions stand the places of three pages in two words,
// and their undos in two: the high half of the second word of each belongs to no page.
#[test]
fn halves_that_no_page_uses_are_zero_once_formatted(rt: HostRuntime) {
    let mut board = new_board(&rt, rt.alloc(), &THREE_GREEDY, 0);
    for w in 0..words(&board.shape()) {
        put(&rt, &mut board, w, u64::MAX);
    }
    let board = formatted(&rt, rt.alloc(), board, THREE_GREEDY).into_board();
    for w in 83..87 {
        same_at(&rt, &get(&rt, &board, w), &0, "word", w as u64);
    }
}
