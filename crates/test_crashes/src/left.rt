// A process whose file failed, and the next one, which reads the file while the machine goes on.
ghost use Rattle.std.specs.Prelude.{◌≡◌};
ghost use Rattle.envy_device.specs.Device.{Only};
ghost use Rattle.envy_torn.specs.Torn.{file_bytes, file_outcome};

use crate::crashes::{MOST_CALLS, NO_ROOM, ROOM, SESSION, SHAPE, SIZES, act, reopened, run, words};
use envy_journal::{open, read_head};
use envy_region::OwnedBoard;
use envy_torn::{Dice, LeftFile, TornFile};
use std::alloc::Global;
use std::process::Abort;

// How many operations the next process does before it syncs.
const LATER: usize = 20;

// The words that a process leaves on the disk, as it was told, and its file.
type Told = Option<(Vec<u64>, TornFile)>;

// What the next process does over a file that it read: operations, and a sync. None if the file holds no journal yet.
fn next(rt: &impl Abort, alloc: Global, file: TornFile, bytes: &[u8]) -> Told
    requires bytes { file_bytes file ≡ bytes.now }
    requires durable { Only (file_bytes file) (file_outcome file) }
{
    let Ok(shape) = read_head(bytes) else {
        return None;
    };
    assert!(rt; shape == SHAPE);
    shape.check().expect(rt, SIZES);
    let board = OwnedBoard::blank(alloc, &shape).expect(rt, NO_ROOM);
    let Ok(mut journal) = open(alloc, board, file, bytes, ROOM) else {
        return None;
    };
    for i in SESSION..SESSION + LATER {
        assert!(rt; act(rt, &mut journal, i));
    }
    assert!(rt; journal.sync().is_ok());
    let told = words(rt, alloc, &journal);
    Some((told, journal.close()))
}

// The next process over a file of which the system dropped what it held.
fn next_dropped(rt: &impl Abort, alloc: Global, left: &mut LeftFile, bytewise: bool) -> Told {
    left.drop_held(alloc).expect(rt, NO_ROOM);
    let file = left.found(alloc, MOST_CALLS, bytewise).expect(rt, NO_ROOM);
    next(rt, alloc, file, left.held())
}

// The next process over a file of which the system dropped nothing: it takes what it reads for what is on the disk.
fn next_undropped(rt: &impl Abort, alloc: Global, left: &LeftFile, bytewise: bool) -> Told {
    let held = left.held().to_vec(alloc).expect(rt, NO_ROOM);
    let file = TornFile::new(alloc, held, MOST_CALLS, bytewise).expect(rt, NO_ROOM);
    next(rt, alloc, file, left.held())
}

// Whether what is on the disk opens as these words.
fn holds(rt: &impl Abort, alloc: Global, disk: &[u8], told: &[u64], bytewise: bool) -> bool {
    let copy = disk.to_vec(alloc).expect(rt, NO_ROOM);
    let file = TornFile::new(alloc, copy, MOST_CALLS, bytewise).expect(rt, NO_ROOM);
    let Ok(shape) = read_head(disk) else {
        return false;
    };
    assert!(rt; shape == SHAPE);
    shape.check().expect(rt, SIZES);
    let board = OwnedBoard::blank(alloc, &shape).expect(rt, NO_ROOM);
    match open(alloc, board, file, disk, ROOM) {
        Ok(journal) => words(rt, alloc, &journal).as_slice() == told,
        Err(_) => false,
    }
}

// What was seen of the processes: that what is read and what is on the disk differed, and that words which a process was
// told to be on the disk weren't, if nothing was dropped.
#[derive(Clone, Copy)]
struct Seen {
    differs: bool,
    loses: bool,
}

// A process whose file fails at a call, and the next one, with what the system holds dropped and without.
fn follow_all(
    rt: &impl Abort,
    alloc: Global,
    calls: usize,
    bytewise: bool,
    dice: &mut Dice,
    seen: Seen,
) -> Seen {
    let mut seen = seen;
    let session = run(rt, alloc, calls, bytewise);
    let mut left = LeftFile::of(alloc, &session.file, dice).expect(rt, NO_ROOM);
    seen.differs |= left.held() != left.disk();
    if let Some((told, file)) = next_undropped(rt, alloc, &left, bytewise) {
        let disk = left.disk_after(alloc, &file).expect(rt, NO_ROOM);
        seen.loses |= !holds(rt, alloc, &disk, &told, bytewise);
    }
    if let Some((told, file)) = next_dropped(rt, alloc, &mut left, bytewise) {
        let disk = file.crash(alloc, dice).expect(rt, NO_ROOM);
        let found = reopened(rt, alloc, disk, bytewise, dice);
        assert!(rt; found.as_slice() == told.as_slice(), "after {calls} calls");
    }
    seen
}

// Each call of a session fails in turn. What the next process syncs is found, if what the system held was dropped; and these
// files are such that it isn't always found if it wasn't.
fn each_next_process_keeps_its_sync(rt: &impl Abort, alloc: Global, bytewise: bool) {
    let mut dice = Dice::new(11);
    let mut seen = Seen {
        differs: false,
        loses: false,
    };
    for calls in 0..MOST_CALLS {
        seen = follow_all(rt, alloc, calls, bytewise, &mut dice, seen);
    }
    assert!(rt; seen.differs && seen.loses);
}

#[test]
fn what_is_dropped_at_opening_keeps_the_next_sync(rt: HostRuntime) {
    each_next_process_keeps_its_sync(&rt, rt.alloc(), false);
}

#[test]
fn so_it_does_in_a_file_that_is_written_byte_by_byte(rt: HostRuntime) {
    each_next_process_keeps_its_sync(&rt, rt.alloc(), true);
}
