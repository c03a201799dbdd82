// A journal that isn't synced for long, whose log is condensed, and whose machine crashes then.
use crate::crashes::{NO_ROOM, SHAPE, SIZES, act, reopened, wanted};
use envy_journal::create;
use envy_region::OwnedBoard;
use envy_torn::{Dice, TornFile};
use std::alloc::Global;
use std::process::Abort;

// How many bytes are held back between writes.
const ROOM: usize = 1 << 16;

// How many operations come before the first sync, and how many behind a log that was condensed.
const FEW: usize = 10;

// How many make a log that is condensed.
const MANY: usize = 16_000;

// How many calls of the device a session makes at most, and after how many more the next one fails.
const MOST_CALLS: usize = 150;

const EACH: usize = 3;

// A session: its file, how many operations its last sync that succeeded brought to the disk, and the last one that began;
// whether the log was condensed, and whether that failed.
#[derive(Drop)]
struct Long {
    file: TornFile,
    synced: usize,
    begun: usize,
    condensed: bool,
    failed: bool,
}

// Runs a session over a file whose calls fail from one on.
fn run_long(rt: &impl Abort, alloc: Global, left: usize, bytewise: bool) -> Long {
    SHAPE.check().expect(rt, SIZES);
    let board = OwnedBoard::blank(alloc, &SHAPE).expect(rt, NO_ROOM);
    let file = TornFile::new(alloc, Vec::new(alloc), left, bytewise).expect(rt, NO_ROOM);
    let (mut synced, mut begun, mut condensed, mut failed) = (0, 0, false, false);
    let mut journal = match create(alloc, board, file, ROOM) {
        Ok(journal) => journal,
        Err((_, file)) => {
            return Long {
                file,
                synced,
                begun,
                condensed,
                failed,
            };
        }
    };
    for i in 0..FEW + MANY {
        if i == FEW {
            begun = FEW;
            if journal.sync().is_err() {
                break;
            }
            synced = FEW;
        }
        if !act(rt, &mut journal, i) {
            break;
        }
        let before = journal.device().bytes().len();
        failed = journal.condense().is_err();
        if failed {
            break;
        }
        condensed |= journal.device().bytes().len() < before;
        if i + 1 == FEW + MANY {
            begun = FEW + MANY;
            if journal.sync().is_ok() {
                synced = begun;
            }
        }
    }
    Long {
        file: journal.close(),
        synced,
        begun,
        condensed,
        failed,
    }
}

// Sessions over files of one kind, each of which fails at another call. A crash leaves the operations before some sync.
fn each_crash_leaves_a_sync(rt: &impl Abort, alloc: Global, bytewise: bool) {
    let mut dice = Dice::new(13);
    let mut condensed = false;
    let mut failed = false;
    for k in 0..MOST_CALLS / EACH {
        let long = run_long(rt, alloc, EACH * k, bytewise);
        condensed |= long.condensed && long.synced == FEW + MANY;
        failed |= long.failed;
        let bytes = long.file.crash(alloc, &mut dice).expect(rt, NO_ROOM);
        let found = reopened(rt, alloc, bytes, bytewise, &mut dice);
        let before = wanted(rt, alloc, long.synced);
        let after = wanted(rt, alloc, long.begun);
        let is_some = found.as_slice() == before.as_slice() || found.as_slice() == after.as_slice();
        assert!(rt; is_some, "after {} calls", EACH * k);
    }
    assert!(rt; condensed && failed);
}

#[test]
fn a_condensed_log_crashes_as_any_other(rt: HostRuntime) {
    each_crash_leaves_a_sync(&rt, rt.alloc(), false);
}

#[test]
fn so_does_one_in_a_file_that_is_written_byte_by_byte(rt: HostRuntime) {
    each_crash_leaves_a_sync(&rt, rt.alloc(), true);
}
