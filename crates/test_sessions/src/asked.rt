//! Calls to a memory over a board that counts its reads, and how often they read it.

use crate::session::new_memory;
use crate::steps::Tested;
use envy_base::Shape;
use envy_memory::Did;
use envy_policy::{Policy, Setup};
use std::alloc::Global;
use std::process::Abort;

/// What is said where memory for a test runs out.
const NO_ROOM: &str = "no room for a test";

/// The text in front of the first of these, and that behind it.
fn parted(text: &str, at: char) -> (&str, &str) {
    match text.split_once(at) {
        Some(parts) => parts,
        None => (text, ""),
    }
}

/// The number that a text spells.
fn number_of(rt: &impl Abort, text: &str) -> u64 {
    text.parse::<u64>().expect(rt, "a number of a table")
}

/// What is done with a memory before and while its reads are counted.
#[derive(Clone, Copy)]
pub(crate) enum Task {
    /// The cleaning of a segment of so many segments and rows.
    Cleaning(u16, u16),
    /// Each call of a list, where the last page begins at this address.
    Listed(u32),
    /// Each call of the list of a full memory of so many segments, and then how many segments were cleaned.
    Full(u16),
    /// A store into a page in a frame that the cache holds, and one that it doesn't, where so many slots are open.
    Stores(u8),
    /// Two ticks that find nothing to do.
    Idle,
}

fn task_reads(rt: &(impl Abort + Alloc<A = Global>), memory: &mut Tested, task: Task) -> Vec<u64> {
    match task {
        Task::Cleaning(segments, rows) => cleaning_reads(rt, memory, segments, rows),
        Task::Listed(last) => reads_by_call(rt, memory, CALLS, last),
        Task::Full(segments) => full_reads(rt, memory, segments),
        Task::Stores(slots) => store_reads(rt, memory, slots),
        Task::Idle => idle_reads(rt, memory),
    }
}

/// How often the board of a memory by this setup is read in the task. No other function holds a memory: to let go of one
/// costs each that does.
pub(crate) fn reads_in(
    rt: &(impl Abort + Alloc<A = Global>),
    setup: Setup,
    task: Task,
) -> Vec<u64> {
    let mut memory = new_memory(rt, rt.alloc(), setup, 0);
    let reads = task_reads(rt, &mut memory, task);
    let _board = memory.into_board();
    reads
}

/// A setup of so many segments, one of which is the spare, whose positions are cleaned in turn.
pub(crate) const fn setup_of(segments: u32, rows: u32, pages: u32, mark: u32) -> Setup {
    Setup {
        shape: Shape {
            segments,
            rows,
            pages,
            shadows: 200,
            frames: 4,
            entries: 4,
            reserves: 0,
            sums: 0,
        },
        policy: Policy::Fifo,
        limit: 100,
        mark,
    }
}

/// The address that a text spells, in a memory whose last page begins at this one.
fn address(rt: &impl Abort, text: &str, last: u32) -> u32 {
    if text == "last" {
        last
    } else if text == "last+1" {
        last.wrapping_add(1)
    } else {
        number_of(rt, text).min(u64::from(u32::MAX)) as u32
    }
}

/// Whether a call to a memory isn't refused. A transaction begins in this slot.
fn is_done(memory: &mut Tested, word: &str, slot: u8, a: u32) -> bool {
    if word == "load" {
        memory.load(a).is_ok()
    } else if word == "look" {
        memory.look(a).is_ok()
    } else if word == "store" {
        memory.store(a, 1).is_ok()
    } else if word == "begin" {
        memory.begin() == Ok(slot)
    } else if word == "put" {
        memory.put(slot, a, 2).is_ok()
    } else if word == "commit" {
        memory.commit(slot).is_ok()
    } else {
        word == "abort" && memory.abort(slot).is_ok()
    }
}

/// Makes a call, which is done.
fn make(rt: &impl Abort, memory: &mut Tested, word: &str, slot: u8, a: u32) {
    assert!(rt;
        is_done(memory, word, slot, a),
        "{word}: slot {slot}, address {a}"
    );
}

/// The word for what a tick did.
fn word_of(did: Did) -> &'static str {
    match did {
        Did::Idle => "idle",
        Did::Flushed => "flushed",
        Did::Began => "began",
        Did::Moved => "moved",
        Did::Copied => "copied",
        Did::Switched => "switched",
        Did::Placed => "placed",
        Did::Erased => "erased",
    }
}

/// The word for what a tick does.
fn ticked(memory: &mut Tested) -> &'static str {
    match memory.tick() {
        Ok(did) => word_of(did),
        Err(_) => "failed",
    }
}

/// Makes a tick, which does this.
fn tick(rt: &impl Abort, memory: &mut Tested, wanted: &str) {
    let found = ticked(memory);
    assert!(rt; found == wanted, "tick: {found}, and not {wanted}");
}

/// Stores into the word at this address.
fn store(rt: &impl Abort, memory: &mut Tested, a: u32) {
    make(rt, memory, "store", 0, a);
}

/// Makes the call of a line, which is done, to a memory whose last page begins at this address.
fn make_line(rt: &impl Abort, memory: &mut Tested, line: &str, last: u32) {
    let (word, rest) = parted(line, ' ');
    let (first, second) = parted(rest, ' ');
    if word == "tick" {
        tick(rt, memory, rest);
    } else if second.is_empty() {
        let a = address(rt, first, last);
        make(rt, memory, word, a.min(255) as u8, a);
    } else {
        let slot = number_of(rt, first).min(255) as u8;
        make(rt, memory, word, slot, address(rt, second, last));
    }
}

/// How often the board was read since it was last asked.
fn reads_since(memory: &Tested) -> u64 {
    memory.board().take_reads()
}

/// How many segments were erased.
fn erases_of(memory: &Tested) -> u64 {
    memory.counts().erases
}

/// A page is stored, and goes to the next free row.
fn flush(rt: &impl Abort, memory: &mut Tested, page: u16) {
    store(rt, memory, 32 * page as u32);
    tick(rt, memory, "flushed");
}

/// Flushes a page into so many rows.
fn fill(rt: &impl Abort, memory: &mut Tested, page: u16, rows: u32) {
    for _row in 0..rows {
        flush(rt, memory, page);
    }
}

/// Lets the cleaning of position 0 begin, all of whose rows but the first are kept. No row is free at the others.
fn begin_cleaning(rt: &impl Abort, memory: &mut Tested, segments: u16, rows: u16) {
    // page 0 leaves row 0
    flush(rt, memory, 0);
    for page in 1..rows {
        flush(rt, memory, page - 1);
    }
    let others = u32::from(segments.saturating_sub(2));
    fill(rt, memory, 63, others.wrapping_mul(u32::from(rows)));
    store(rt, memory, 32 * 63);
    tick(rt, memory, "began");
}

/// Makes the steps of a cleaning behind its copies.
fn end_cleaning(rt: &impl Abort, memory: &mut Tested) {
    tick(rt, memory, "switched");
    tick(rt, memory, "placed");
    tick(rt, memory, "erased");
}

/// How often all steps of the cleaning of a segment read the board, where so many rows but one are kept.
fn cleaning_reads(
    rt: &(impl Abort + Alloc<A = Global>),
    memory: &mut Tested,
    segments: u16,
    rows: u16,
) -> Vec<u64> {
    begin_cleaning(rt, memory, segments, rows);
    let _before = reads_since(memory);
    for _row in 1..rows {
        tick(rt, memory, "copied");
    }
    end_cleaning(rt, memory);
    [reads_since(memory)].to_vec(rt.alloc()).expect(rt, NO_ROOM)
}

/// Calls to a memory, each with its slot or its address or both. No call cleans.
///
/// An absent page comes to a frame, and is hit there. Then the frames are full, so the first page is flushed, and then the
/// next one is. Pages in a frame, in a row and absent get an owner; page 1 is flushed for the last of them. At last pages
/// in a frame and absent are put back.
const CALLS: &str = "\
tick idle
load last
look last
store last
store last+1
load last
store 0
store 32
store 64
store 96
load last
look last
tick flushed
begin 0
put 0 64
put 0 65
put 0 last
put 0 128
look 64
look last
look 128
commit 0
begin 0
put 0 64
put 0 last
put 0 160
abort 0
tick idle";

/// How often each of these calls reads the board of a memory whose last page begins at this address.
fn reads_by_call(
    rt: &(impl Abort + Alloc<A = Global>),
    memory: &mut Tested,
    calls: &str,
    last: u32,
) -> Vec<u64> {
    let mut reads = Vec::new(rt.alloc());
    let _before = reads_since(memory);
    for line in calls.split('\n') {
        make_line(rt, memory, line, last);
        reads.push(reads_since(memory)).expect(rt, NO_ROOM);
    }
    reads
}

/// The last page of the smaller memory below.
pub(crate) const BUSY: u16 = 19;

/// Calls to a memory that has no free row, no page in a frame, and at each of the first 13 positions a row of the page of
/// the position's number and a dead one. Each page that comes to a frame makes the oldest leave once 4 are there, and for
/// that a position is cleaned: for 9 pages, and once in ticks.
const FULL: &str = "\
store 416
store 448
store 480
store 512
store 544
store 576
store 384
load 416
begin 0
put 0 416
put 0 448
put 0 320
put 0 321
commit 0
begin 0
put 0 480
put 0 352
put 0 384
abort 0
tick began
tick copied
tick switched
tick placed
tick erased
tick flushed";

/// Leaves no row of so many segments free.
fn fill_all(rt: &impl Abort, memory: &mut Tested, segments: u16) {
    for page in 0..13 {
        flush(rt, memory, page);
        flush(rt, memory, BUSY);
    }
    let others = u32::from(segments.saturating_sub(14));
    fill(rt, memory, BUSY, others.wrapping_mul(2));
}

/// How often each call of the second list reads the board of so many segments of 2 rows, and how many segments are
/// cleaned in all.
fn full_reads(
    rt: &(impl Abort + Alloc<A = Global>),
    memory: &mut Tested,
    segments: u16,
) -> Vec<u64> {
    fill_all(rt, memory, segments);
    let before = erases_of(memory);
    let mut reads = reads_by_call(rt, memory, FULL, 0);
    let erases = erases_of(memory).wrapping_sub(before);
    reads.push(erases).expect(rt, NO_ROOM);
    reads
}

/// Opens a slot, which then owns 25 pages.
fn open(rt: &impl Abort, memory: &mut Tested, slot: u8) {
    make(rt, memory, "begin", slot, 0);
    let first = 4 + 25 * slot as u32;
    for page in first..first + 25 {
        make(rt, memory, "put", slot, page.wrapping_mul(32));
    }
}

/// How often a store into a page in a frame reads the board: where the cache holds the page, and where it doesn't. So
/// many slots are open, each of which owns 25 pages.
fn store_reads(rt: &(impl Abort + Alloc<A = Global>), memory: &mut Tested, slots: u8) -> Vec<u64> {
    for slot in 0..slots {
        open(rt, memory, slot);
    }
    store(rt, memory, 0);
    let _before = reads_since(memory);
    store(rt, memory, 1);
    let held = reads_since(memory);
    // page 4 uses the same entry
    make(rt, memory, "load", 0, 128);
    let _before = reads_since(memory);
    store(rt, memory, 2);
    let reads = [held, reads_since(memory)];
    reads.to_vec(rt.alloc()).expect(rt, NO_ROOM)
}

/// How often two ticks read the board that find nothing to do, one after the other, where one erase has begun and that
/// is the limit.
fn idle_reads(rt: &(impl Abort + Alloc<A = Global>), memory: &mut Tested) -> Vec<u64> {
    // both rows of the page's home are left, so the home is cleaned for the page
    flush(rt, memory, 0);
    flush(rt, memory, 0);
    store(rt, memory, 0);
    tick(rt, memory, "began");
    end_cleaning(rt, memory);
    tick(rt, memory, "flushed");
    let _before = reads_since(memory);
    tick(rt, memory, "idle");
    let first = reads_since(memory);
    tick(rt, memory, "idle");
    let reads = [first, reads_since(memory)];
    reads.to_vec(rt.alloc()).expect(rt, NO_ROOM)
}
