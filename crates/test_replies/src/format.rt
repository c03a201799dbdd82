//! What formatting a board writes, and what is left of it where formatting fails.

use crate::played_run::NO_ROOM;
use crate::rows::{number_of, parted};
use crate::told::same;
use envy_base::{Bench, Board, Place, Shape, Trouble, version_of};
use envy_bench::MemBoard;
use envy_map::{decode_place, set_place, words};
use envy_memory::{FormatFault, Memory};
use envy_policy::{Policy, Setup};
use envy_soundness::{format_board, format_board_1, upgrade};
use std::alloc::Global;
use std::process::Abort;

const SHAPE: Shape = Shape {
    segments: 8,
    rows: 16,
    pages: 64,
    shadows: 16,
    frames: 8,
    entries: 4,
    reserves: 0,
    sums: 0,
};

/// What a board holds in words that nothing wrote since.
const OLD: u64 = 9;

/// The word that a formatted board begins with.
const MARK: u64 = 0x654E_5679_464C_5348;

/// The words of an empty array of 8 segments of 16 rows, 64 pages, 16 shadows, 8 frames and 4 entries,
/// from the third on: the first and the last word of a part, and what all of its words are.
const PARTS: &str = "\
2 2 34359738384
3 3 274877906960
4 4 34359738372
5 5 0
6 7 9
8 23 0
72 79 1
80 87 0
88 88 0
89 89 1
90 90 2
91 91 3
92 92 4
93 93 5
94 94 6
95 158 0
159 302 0
303 558 9";

/// What is said where power is off.
const DARK: &str = "power is off";

/// What is done with a new board.
#[derive(Clone, Copy)]
enum Task<'a> {
    /// It is formatted, with old words on it.
    Format,
    /// It is formatted by version 1, and brought to version 2.
    Upgrade,
    /// Its formatting fails.
    Fail,
    /// Seven pages are moved in this order.
    Move(&'a [u32]),
}

fn new_board(rt: &(impl Abort + Alloc<A = Global>), shape: &Shape) -> MemBoard {
    shape.check().expect(rt, "the sizes of the board");
    MemBoard::new(rt.alloc(), shape, 9).expect(rt, NO_ROOM)
}

/// Does the task over a board of this shape. To let go of a board costs each function that holds one.
fn check_task(rt: &(impl Abort + Alloc<A = Global>), shape: &Shape, task: Task<'_>) {
    let mut board = new_board(rt, shape);
    check_on(rt, &mut board, task);
}

fn check_on(rt: &impl Abort, board: &mut MemBoard, task: Task<'_>) {
    match task {
        Task::Format => check_map(rt, board),
        Task::Upgrade => check_upgrade(rt, board),
        Task::Fail => check_failures(rt, board),
        Task::Move(pages) => check_places(rt, board, pages),
    }
}

fn put(rt: &impl Abort, board: &mut MemBoard, w: u32, word: u64) {
    assert!(rt; w < words(&board.shape()));
    board.put(w, word).expect(rt, DARK);
}

/// Lets all words be old.
fn put_old(rt: &impl Abort, board: &mut MemBoard) {
    for w in 0..559 {
        put(rt, board, w, OLD);
    }
}

/// A word of SRAM, with power or without.
fn peek(rt: &impl Abort, board: &MemBoard, w: u32) -> u64 {
    assert!(rt; w < words(&board.shape()));
    board.peek(w)
}

/// The words from the first to the last are this.
fn assert_words(rt: &impl Abort, board: &MemBoard, first: u32, last: u32, word: u64) {
    for w in first..=last {
        let found = peek(rt, board, w);
        assert!(rt; found == word, "map: word {w}: {found}, and not {word}");
    }
}

fn small(rt: &impl Abort, text: &str) -> u32 {
    number_of(rt, text).min(u64::from(u32::MAX)) as u32
}

/// The map is that of an empty array of this version, whose slots from 16 on hold this.
fn assert_map(rt: &impl Abort, board: &MemBoard, version: u64, new_slots: u64) {
    assert_words(rt, board, 0, 0, MARK);
    assert_words(rt, board, 1, 1, version);
    assert_words(rt, board, 24, 71, new_slots);
    for part in PARTS.split('\n') {
        let (first, rest) = parted(part, ' ');
        let (last, word) = parted(rest, ' ');
        let word = number_of(rt, word);
        assert_words(rt, board, small(rt, first), small(rt, last), word);
    }
}

fn check_map(rt: &impl Abort, board: &mut MemBoard) {
    put_old(rt, board);
    format_board(board).expect(rt, DARK);
    assert_map(rt, board, 2, 0);
}

#[test]
fn formatting_writes_the_map_and_nothing_beside_it(rt: HostRuntime) {
    check_task(&rt, &SHAPE, Task::Format);
}

fn check_upgrade(rt: &impl Abort, board: &mut MemBoard) {
    put_old(rt, board);
    assert!(rt; version_of(&board.shape()) == 2);
    format_board_1(board).expect(rt, DARK);
    assert_map(rt, board, 1, OLD);
    upgrade(board).expect(rt, DARK);
    assert_map(rt, board, 2, 0);
}

#[test]
fn version_1_has_16_slots_and_an_upgrade_brings_the_others(rt: HostRuntime) {
    check_task(&rt, &SHAPE, Task::Upgrade);
}

/// Lets power return to a board that has none.
fn light(rt: &impl Abort, board: &mut MemBoard) {
    assert!(rt; !board.powered());
    assert!(rt; board.power_on());
}

/// How formatting ended: 0 where it is done, 1 where power failed and 2 where an operation was bad.
fn answer_of(answer: Result<(), Trouble>) -> u64 {
    match answer {
        Ok(()) => 0,
        Err(Trouble::Off) => 1,
        Err(Trouble::Bad) => 2,
    }
}

/// Formatting ends so, and leaves a board that isn't formatted.
fn check_format(rt: &impl Abort, board: &mut MemBoard, name: &str, wanted: u64) {
    let answer = answer_of(format_board(board));
    same(rt, answer, wanted, name, "answer");
    same(rt, peek(rt, board, 0), 0, name, "word 0");
}

fn check_failures(rt: &impl Abort, board: &mut MemBoard) {
    format_board(board).expect(rt, DARK);
    board.arm_bad(1, 3);
    check_format(rt, board, "a bad operation", 2);
    board.arm_cut(5, 2);
    check_format(rt, board, "a cut", 1);
    light(rt, board);
    format_board(board).expect(rt, DARK);
    same(rt, board.cuts(), 1, "formatting", "cuts");
    same(rt, board.bads(), 1, "formatting", "bads");
}

#[test]
fn board_whose_formatting_failed_is_not_formatted(rt: HostRuntime) {
    check_task(&rt, &SHAPE, Task::Fail);
}

/// The usual setup, with a frame for every page.
const SETUP: Setup = Setup {
    shape: Shape {
        frames: 64,
        ..SHAPE
    },
    policy: Policy::Greedy,
    limit: 100,
    mark: 8,
};

/// Formats a board as a memory's.
fn format(alloc: Global, board: MemBoard) -> Result<MemBoard, (MemBoard, FormatFault)> {
    Ok(Memory::format(alloc, board, SETUP)?.into_board())
}

/// How formatting as a memory's ended: 1 where power failed, 2 where an operation was bad, and 3 for another fault.
fn fault_of(fault: FormatFault) -> u64 {
    match fault {
        FormatFault::Off => 1,
        FormatFault::Bad => 2,
        _ => 3,
    }
}

/// Formats a board as a memory's: the board comes back, and the fault, 0 where it is formatted.
fn format_again(alloc: Global, board: MemBoard) -> (MemBoard, u64) {
    match format(alloc, board) {
        Ok(board) => (board, 0),
        Err((board, fault)) => (board, fault_of(fault)),
    }
}

/// Formatting as a memory's has this fault, and leaves this first word.
fn check_again(
    rt: &(impl Abort + Alloc<A = Global>),
    board: MemBoard,
    wanted: u64,
    word: u64,
) -> MemBoard {
    let (board, fault) = format_again(rt.alloc(), board);
    same(rt, fault, wanted, "formatting", "fault");
    same(rt, peek(rt, &board, 0), word, "formatting", "word 0");
    board
}

#[test]
fn memory_is_made_where_formatting_succeeds(rt: HostRuntime) {
    let mut board = new_board(&rt, &SETUP.shape);
    board.arm_bad(1, 3);
    let mut board = check_again(&rt, board, 2, 0);
    board.arm_cut(5, 2);
    let mut board = check_again(&rt, board, 1, 0);
    light(&rt, &mut board);
    let _board = check_again(&rt, board, 0, MARK);
}

/// Lets a page be in the row after its number.
fn move_page(rt: &impl Abort, board: &mut MemBoard, page: u32) {
    assert!(rt; page < 7 && page < board.shape().pages);
    set_place(board, page, Place::Row(page + 1)).expect(rt, DARK);
}

/// The row in which a half of a word says that a page is.
fn row_of(half: u64) -> u64 {
    match decode_place(half) {
        Some(Place::Row(row)) => u64::from(row),
        _ => u64::MAX,
    }
}

/// Seven pages take four words, of which the last has nothing in its high half.
fn assert_seven_places(rt: &impl Abort, board: &MemBoard) {
    let two_to_32 = 0x1_0000_0000;
    for page in 0..7u32 {
        let word = peek(rt, board, 83 + page / 2);
        let half = if page % 2 == 0 {
            word % two_to_32
        } else {
            word / two_to_32
        };
        same(rt, row_of(half), u64::from(page + 1), "places", "page");
    }
    same(rt, peek(rt, board, 86), 29, "places", "the last word");
}

/// The pages are moved in this order.
fn check_places(rt: &impl Abort, board: &mut MemBoard, pages: &[u32]) {
    for page in pages {
        move_page(rt, board, *page);
    }
    assert_seven_places(rt, board);
}

/// Seven pages share words.
const SEVEN: Shape = Shape {
    segments: 4,
    rows: 4,
    pages: 7,
    shadows: 1,
    frames: 2,
    entries: 1,
    reserves: 0,
    sums: 0,
};

#[test]
fn places_share_words_and_the_last_has_a_free_half(rt: HostRuntime) {
    check_task(&rt, &SEVEN, Task::Move(&[0, 1, 2, 3, 4, 5, 6]));
    check_task(&rt, &SEVEN, Task::Move(&[6, 5, 4, 3, 2, 1, 0]));
}
