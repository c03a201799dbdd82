use envy_base::{Board, Shape};
use envy_journal::{HeadError, Journaled, OpenError, create, open, read_head};
use envy_region::OwnedBoard;
use envy_torn::{Dice, TornFile};
use std::alloc::Global;
use std::process::Abort;

pub(crate) const SHAPE: Shape = Shape {
    segments: 4,
    rows: 2,
    pages: 2,
    shadows: 1,
    frames: 2,
    entries: 1,
    reserves: 0,
    sums: 0,
};

// How many operations a session has, and after how many it syncs. Every fourth sync compacts.
pub(crate) const SESSION: usize = 60;

const SYNC_EACH: usize = 7;

// How many calls of the device the longest session makes at most: zeros are written ahead again after each compaction.
pub(crate) const MOST_CALLS: usize = 200;

// After how many calls more the next session fails: those of the two kinds of files fail at others.
const EACH: usize = 2;

// How many calls on the second file the sessions in which one fails make, at most.
const SECOND_CALLS: usize = 9;

// How many crashes are drawn of each session.
const CRASHES: usize = 6;

// How many bytes are held back between writes.
pub(crate) const ROOM: usize = 800;

// Why a test ends where memory, or a shape that checks, is wanted.
pub(crate) const NO_ROOM: &str = "no room";

pub(crate) const SIZES: &str = "the shape";

type Opened = Result<Journaled<OwnedBoard, TornFile>, (OpenError, TornFile)>;

// What was found in a file, where it opened, and the file.
type Found = (Option<Vec<u64>>, TornFile);

fn drawn(dice: &mut Dice, n: usize) -> u32 {
    u32::try_from(dice.below(n)).unwrap_or(0)
}

// Operation `i` of a session.
pub(crate) fn act<B: Board>(rt: &impl Abort, board: &mut B, i: usize) -> bool {
    let shape = board.shape();
    let mut dice = Dice::new((i as u64).wrapping_mul(7919).wrapping_add(1));
    let kind = dice.below(32) / 4;
    // half of the words are put in a row
    let place = if kind < 6 {
        drawn(&mut dice, 150)
    } else {
        u32::try_from(i % 90).unwrap_or(0).saturating_add(60)
    };
    let word = dice.below(1 << 40) as u64;
    if kind == 0 {
        let segment = place % 4;
        assert!(rt; segment < shape.segments);
        board.erase(segment).is_ok()
    } else if kind <= 2 {
        let row = place % 8;
        assert!(rt; row < shape.segments * shape.rows);
        board.program(row, &[word | 1 << 50; 32]).is_ok()
    } else {
        assert!(rt; place < envy_map::words(&shape));
        board.put(place, word).is_ok()
    }
}

// All words of a board. What ends a test ends it where it is found: a way out by `?` would let go of all that a function
// holds, part by part, and cost each that holds a journal or a file.
pub(crate) fn words<B: Board>(rt: &impl Abort, alloc: Global, board: &B) -> Vec<u64> {
    let shape = board.shape();
    let mut all = Vec::new(alloc);
    for row in 0..shape.segments * shape.rows {
        for i in 0..32 {
            let word = board.read(row, i).unwrap_or(7);
            all.push(word).expect(rt, NO_ROOM);
        }
    }
    for w in 0..envy_map::words(&shape) {
        let word = board.get(w).unwrap_or(7);
        all.push(word).expect(rt, NO_ROOM);
    }
    all
}

// The words of a board after the first `n` operations of a session.
pub(crate) fn wanted(rt: &impl Abort, alloc: Global, n: usize) -> Vec<u64> {
    SHAPE.check().expect(rt, SIZES);
    let mut board = OwnedBoard::blank(alloc, &SHAPE).expect(rt, NO_ROOM);
    for i in 0..n {
        act(rt, &mut board, i);
    }
    words(rt, alloc, &board)
}

fn found(rt: &impl Abort, alloc: Global, opened: Opened) -> Found {
    match opened {
        Ok(journal) => {
            let held = words(rt, alloc, &journal);
            (Some(held), journal.close())
        }
        Err((_, file)) => (None, file),
    }
}

// Makes a journal in an empty file, whose calls fail from one on.
fn made(rt: &impl Abort, alloc: Global, bytes: Vec<u8>, left: usize, bytewise: bool) -> Found {
    assert!(rt; bytes.is_empty());
    SHAPE.check().expect(rt, SIZES);
    let board = OwnedBoard::blank(alloc, &SHAPE).expect(rt, NO_ROOM);
    let file = TornFile::new(alloc, bytes, left, bytewise).expect(rt, NO_ROOM);
    found(rt, alloc, create(alloc, board, file, ROOM))
}

// Takes up a file whose calls fail from one on.
fn taken_up(rt: &impl Abort, alloc: Global, bytes: Vec<u8>, left: usize, bytewise: bool) -> Found {
    match read_head(&bytes) {
        Ok(shape) => {
            assert!(rt; shape == SHAPE);
            shape.check().expect(rt, SIZES);
            let board = OwnedBoard::blank(alloc, &shape).expect(rt, NO_ROOM);
            let copy = bytes.to_vec(alloc).expect(rt, NO_ROOM);
            let file = TornFile::new(alloc, copy, left, bytewise).expect(rt, NO_ROOM);
            found(rt, alloc, open(alloc, board, file, &bytes, ROOM))
        }
        Err(HeadError::NoJournal) => made(rt, alloc, bytes, left, bytewise),
        Err(HeadError::OtherVersion) => panic!(rt; "another version"),
    }
}

// The words of a file that a crash left, once it is opened. At first opening it crashes too.
pub(crate) fn reopened(
    rt: &impl Abort,
    alloc: Global,
    bytes: Vec<u8>,
    bytewise: bool,
    dice: &mut Dice,
) -> Vec<u64> {
    let mut bytes = bytes;
    for _ in 0..dice.below(3) {
        let (_, file) = taken_up(rt, alloc, bytes, dice.below(8), bytewise);
        bytes = file.crash(alloc, dice).expect(rt, NO_ROOM);
    }
    let (held, _file) = taken_up(rt, alloc, bytes, MOST_CALLS, bytewise);
    held.expect(rt, "the file doesn't open")
}

// A session: its file, how many operations were done when the last sync was answered by Ok, how many when the last one
// began, and whether no call failed.
#[derive(Drop)]
pub(crate) struct Session {
    pub(crate) file: TornFile,
    synced: usize,
    begun: usize,
    ended: bool,
}

// Runs a session over a file whose calls fail from one on.
pub(crate) fn run(rt: &impl Abort, alloc: Global, left: usize, bytewise: bool) -> Session {
    run_on(rt, alloc, left, usize::MAX, bytewise)
}

// The same, over one whose second file's calls fail too, from another on.
fn run_on(rt: &impl Abort, alloc: Global, left: usize, second: usize, bytewise: bool) -> Session {
    SHAPE.check().expect(rt, SIZES);
    let board = OwnedBoard::blank(alloc, &SHAPE).expect(rt, NO_ROOM);
    let mut file = TornFile::new(alloc, Vec::new(alloc), left, bytewise).expect(rt, NO_ROOM);
    file.fail_second(second);
    let mut journal = match create(alloc, board, file, ROOM) {
        Ok(journal) => journal,
        Err((_, file)) => {
            return Session {
                file,
                synced: 0,
                begun: 0,
                ended: false,
            };
        }
    };
    let mut synced = 0;
    let mut begun = 0;
    let mut ended = true;
    for i in 0..SESSION {
        if !act(rt, &mut journal, i) {
            ended = false;
            break;
        }
        if i % SYNC_EACH == SYNC_EACH - 1 {
            begun = i + 1;
            let is_compacted = i % (4 * SYNC_EACH) == SYNC_EACH - 1;
            let done = if is_compacted {
                journal.compact()
            } else {
                journal.sync()
            };
            if done.is_err() {
                ended = false;
                break;
            }
            synced = begun;
        }
    }
    Session {
        file: journal.close(),
        synced,
        begun,
        ended,
    }
}

// What a crash of a session may leave: the words of its last sync and those of the one that was begun then.
#[derive(Drop)]
struct Syncs {
    before: Vec<u64>,
    after: Vec<u64>,
}

// Whether the words that a crash leaves are those before, and whether they are those after.
fn crashed(
    rt: &impl Abort,
    alloc: Global,
    file: &TornFile,
    syncs: &Syncs,
    bytewise: bool,
    dice: &mut Dice,
    left: usize,
) -> (bool, bool) {
    let bytes = file.crash(alloc, dice).expect(rt, NO_ROOM);
    let found = reopened(rt, alloc, bytes, bytewise, dice);
    let is_before = found.as_slice() == syncs.before.as_slice();
    let is_after = found.as_slice() == syncs.after.as_slice();
    assert!(rt; is_before || is_after, "after {left} calls");
    (is_before, is_after)
}

// What was seen of the sessions: one that ended, and crashes within a sync that left what was before, and what is after.
#[derive(Clone, Copy)]
struct Seen {
    ended: bool,
    before: bool,
    after: bool,
}

// A session over a file that fails at a call, and what is found behind crashes then and while the file is opened.
fn crash_all(
    rt: &impl Abort,
    alloc: Global,
    left: usize,
    bytewise: bool,
    dice: &mut Dice,
    seen: Seen,
) -> Seen {
    let Session {
        file,
        synced,
        begun,
        ended,
    } = run(rt, alloc, left, bytewise);
    let syncs = Syncs {
        before: wanted(rt, alloc, synced),
        after: wanted(rt, alloc, begun),
    };
    let mut seen = seen;
    for _ in 0..CRASHES {
        let (is_before, is_after) = crashed(rt, alloc, &file, &syncs, bytewise, dice, left);
        seen.before |= is_before && synced != begun;
        seen.after |= is_after && synced != begun;
    }
    seen.ended |= ended;
    seen
}

// Sessions over files of one kind, each of which fails at another call.
fn each_crash_leaves_a_sync(rt: &impl Abort, alloc: Global, bytewise: bool) {
    let mut dice = Dice::new(5);
    let mut all = Seen {
        ended: false,
        before: false,
        after: false,
    };
    let first = usize::from(bytewise);
    for k in 0..MOST_CALLS / EACH {
        all = crash_all(rt, alloc, first + EACH * k, bytewise, &mut dice, all);
    }
    assert!(rt; all.ended && all.before && all.after);
}

#[test]
fn each_crash_leaves_the_operations_before_some_sync(rt: HostRuntime) {
    each_crash_leaves_a_sync(&rt, rt.alloc(), false);
}

#[test]
fn so_does_each_of_a_file_that_is_written_byte_by_byte(rt: HostRuntime) {
    each_crash_leaves_a_sync(&rt, rt.alloc(), true);
}

// Sessions in which calls on the second file fail, from another one on each time. Once the journal is made, each session
// ends with all of its operations on the disk.
fn each_failed_second_file_leaves_the_log(rt: &impl Abort, alloc: Global, bytewise: bool) {
    let mut dice = Dice::new(7);
    for second in 3..SECOND_CALLS {
        let session = run_on(rt, alloc, usize::MAX, second, bytewise);
        assert!(rt;
            session.ended,
            "ended with {second} calls on the second file"
        );
        let bytes = session.file.crash(alloc, &mut dice).expect(rt, NO_ROOM);
        let held = reopened(rt, alloc, bytes, bytewise, &mut dice);
        let all = wanted(rt, alloc, session.synced);
        assert!(rt;
            held.as_slice() == all.as_slice(),
            "lost with {second} calls"
        );
    }
}

#[test]
fn a_failed_second_file_leaves_the_log(rt: HostRuntime) {
    each_failed_second_file_leaves_the_log(&rt, rt.alloc(), false);
    each_failed_second_file_leaves_the_log(&rt, rt.alloc(), true);
}

// Zeros after a log are read as none, and so is a log without them.
#[test]
fn zeros_after_a_log_change_nothing(rt: HostRuntime) {
    let alloc = rt.alloc();
    let session = run(&rt, alloc, usize::MAX, false);
    let bytes = session.file.bytes();
    let mut end = 0;
    for (i, byte) in bytes.iter().enumerate() {
        if *byte != 0 {
            end = i.saturating_add(1);
        }
    }
    assert!(rt;
        end.saturating_add(1) < bytes.len(),
        "zeros are written ahead"
    );
    let mut short = bytes.to_vec(alloc).expect(&rt, NO_ROOM);
    short.truncate(end);
    let long = bytes.to_vec(alloc).expect(&rt, NO_ROOM);
    let (with, _) = taken_up(&rt, alloc, long, MOST_CALLS, false);
    let (without, _) = taken_up(&rt, alloc, short, MOST_CALLS, false);
    let with = with.expect(&rt, "the file doesn't open");
    let without = without.expect(&rt, "the file without zeros doesn't open");
    assert!(rt; with.as_slice() == without.as_slice(), "they read alike");
    let all = wanted(&rt, alloc, session.synced);
    assert!(rt; with.as_slice() == all.as_slice(), "all is there");
}
