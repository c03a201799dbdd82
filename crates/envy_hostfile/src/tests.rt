use crate::folder::is_named;
use crate::{Folder, HostCalls, HostFile, Names, OpenFault, open};
use envy_device::{Device, ReplaceError, Replaceable};
use std::cell::Cell;
use std::fmt::Debug;
use std::fs::{self, File, Metadata, OpenFile, Permissions};
use std::io;
use std::os::unix::fs::{FileExt, PermissionsExt};
use std::process::Abort;

const PATH: &str = "envy_hostfile_test";

// What a test asks of what it found. A text that is put together in an assertion costs a second of proof, so it stands
// here, where it is proved once; and what ends a test by `expect` lets go of nothing.
fn holds(rt: &impl Abort, is: bool, what: &str) {
    assert!(rt; is, "{what}");
}

fn same<T: PartialEq + Debug>(rt: &impl Abort, found: &T, wanted: &T, what: &str) {
    assert!(rt; found == wanted, "{what}: {found:?}, and not {wanted:?}");
}

fn same_bytes(rt: &impl Abort, found: &[u8], wanted: &[u8], what: &str) {
    assert!(rt; found == wanted, "{what}: {found:?}, and not {wanted:?}");
}

// A file of the host, and its bytes.
fn opened<'a>(
    abort: &impl Abort,
    rt: &'a HostRuntime,
    path: &str,
) -> (HostFile<File, Names<'a>>, Vec<u8>) {
    open(rt, path, false).expect(abort, "not opened")
}

fn is_in_use(rt: &HostRuntime, path: &str) -> bool {
    matches!(open(rt, path, false), Err(OpenFault::InUse))
}

// Writes bytes at the begin of a file, and syncs it.
fn write_synced(rt: &impl Abort, file: &mut HostFile<File, Names<'_>>, bytes: &[u8]) {
    file.write_at(0, bytes).expect(rt, "not written");
    file.sync().expect(rt, "not synced");
}

// How many bytes a file has.
fn length_of(abort: &impl Abort, rt: &HostRuntime, path: &str) -> u64 {
    fs::metadata(rt, path).expect(abort, "no file").len()
}

fn access_of(abort: &impl Abort, rt: &HostRuntime, path: &str) -> u32 {
    fs::metadata(rt, path)
        .expect(abort, "no file")
        .permissions()
        .mode()
        & 0o777
}

fn remove(abort: &impl Abort, rt: &HostRuntime, path: &str) {
    fs::remove_file(rt, path).expect(abort, "not removed");
}

#[test]
fn a_file_is_locked_written_synced_and_read_again(rt: HostRuntime) {
    let _ = fs::remove_file(&rt, PATH);
    let (mut file, bytes) = opened(&rt, &rt, PATH);
    holds(&rt, bytes.is_empty(), "a new file has no bytes");
    holds(&rt, is_in_use(&rt, PATH), "it is in use");
    file.write_at(0, b"abcdef").expect(&rt, "not written");
    write_synced(&rt, &mut file, b"xy");
    drop(file);
    let (mut again, bytes) = opened(&rt, &rt, PATH);
    same_bytes(&rt, bytes.as_slice(), b"xycdef", "what is read again");
    again.cut(0).expect(&rt, "not cut");
    again.sync().expect(&rt, "not synced");
    drop(again);
    same(&rt, &length_of(&rt, &rt, PATH), &0, "bytes behind a cut");
    remove(&rt, &rt, PATH);
}

// Writes a second file, and has it take the first one's place.
fn replace(
    rt: &impl Abort,
    file: &mut HostFile<File, Names<'_>>,
    bytes: &[u8],
) -> Result<(), ReplaceError> {
    let (head, tail) = bytes.split_at(bytes.len() / 2);
    file.begin_second().expect(rt, "not made");
    file.write_second(head).expect(rt, "not written");
    file.write_second(tail).expect(rt, "not written");
    file.replace()
}

// A file of somebody else's that has the second one's name stays as it is; one that a crash left is removed.
#[test]
fn a_second_file_takes_the_place(rt: HostRuntime) {
    let path = "envy_hostfile_second";
    let other = "envy_hostfile_second.envy-new";
    let left = "envy_hostfile_second.envy-new1";
    let _ = fs::remove_file(&rt, path);
    fs::write(&rt, other, b"somebody's").expect(&rt, "not written");
    fs::write(&rt, left, b"left by a crash").expect(&rt, "not written");
    fs::set_permissions(&rt, left, Permissions::from_mode(0o1600)).expect(&rt, "access not set");
    let (mut file, _) = opened(&rt, &rt, path);
    holds(&rt, fs::metadata(&rt, left).is_err(), "what a crash left");
    fs::set_permissions(&rt, path, Permissions::from_mode(0o640)).expect(&rt, "access not set");
    write_synced(&rt, &mut file, b"first");
    let opened_before = File::open(&rt, path).expect(&rt, "not opened");
    holds(&rt, replace(&rt, &mut file, b"second").is_ok(), "replaced");
    holds(&rt, is_in_use(&rt, path), "the second file is in use");
    holds(&rt, opened_before.try_lock().is_ok(), "the first is let go");
    let is_named = is_named(&rt, path, &opened_before).expect(&rt, "no names");
    holds(&rt, !is_named, "the first has no name");
    write_synced(&rt, &mut file, b"seventh");
    drop(file);
    let (again, bytes) = opened(&rt, &rt, path);
    same_bytes(&rt, bytes.as_slice(), b"seventh", "what is read again");
    holds(&rt, fs::metadata(&rt, left).is_err(), "a second file");
    same(&rt, &length_of(&rt, &rt, other), &10, "bytes of another");
    same(&rt, &access_of(&rt, &rt, path), &0o640, "access");
    drop(again);
    remove(&rt, &rt, path);
    remove(&rt, &rt, other);
}

// A file at the second one's name that another process has in use stays as it is.
#[test]
fn a_second_file_in_use_is_left(rt: HostRuntime) {
    let path = "envy_hostfile_used";
    let other = "envy_hostfile_used.envy-new";
    let _ = fs::remove_file(&rt, path);
    let _ = fs::remove_file(&rt, other);
    let (mut in_use, _) = opened(&rt, &rt, other);
    write_synced(&rt, &mut in_use, b"kept");
    let (mut file, _) = opened(&rt, &rt, path);
    holds(&rt, replace(&rt, &mut file, b"second").is_ok(), "replaced");
    same(
        &rt,
        &length_of(&rt, &rt, other),
        &4,
        "bytes of the file in use",
    );
    drop(file);
    drop(in_use);
    remove(&rt, &rt, path);
    remove(&rt, &rt, other);
}

// A file that was moved while it was open takes no other one's place, and goes on.
#[test]
fn a_file_that_was_moved_replaces_no_other(rt: HostRuntime) {
    let path = "envy_hostfile_moved";
    let away = "envy_hostfile_moved_away";
    let _ = fs::remove_file(&rt, path);
    let (mut file, _) = opened(&rt, &rt, path);
    fs::rename(&rt, path, away).expect(&rt, "not renamed");
    fs::write(&rt, path, b"another").expect(&rt, "not written");
    let answer = replace(&rt, &mut file, b"second");
    same(&rt, &answer, &Err(ReplaceError::Second), "the answer");
    write_synced(&rt, &mut file, b"goes on");
    drop(file);
    let (moved, bytes) = opened(&rt, &rt, away);
    same_bytes(&rt, bytes.as_slice(), b"goes on", "what is read again");
    let (other, bytes) = opened(&rt, &rt, path);
    same_bytes(&rt, bytes.as_slice(), b"another", "the other file");
    drop(moved);
    drop(other);
    remove(&rt, &rt, path);
    remove(&rt, &rt, away);
}

// A name to which nothing can be added is refused, and no file comes to be.
#[test]
fn a_name_that_is_too_long_is_refused(rt: HostRuntime) {
    let path = concat!(
        "envy_hostfile_long",
        "012345678901234567890123456789012345678901234567890123456789012345678901234567890123456789",
        "012345678901234567890123456789012345678901234567890123456789012345678901234567890123456789",
        "01234567890123456789012345678901234567890123456789"
    );
    let answer = open(&rt, path, false);
    holds(
        &rt,
        matches!(answer, Err(OpenFault::NotMade)),
        "it is refused",
    );
    holds(&rt, fs::metadata(&rt, path).is_err(), "no file is left");
}

// What is noted of the calls that end a batch or a second file, one digit for each.
const CUT: u32 = 1;

const DATA_SYNCED: u32 = 2;

const SYNCED: u32 = 3;

const RENAMED: u32 = 4;

const FOLDER_SYNCED: u32 = 5;

// A file that takes two bytes at a time, is interrupted at each third call, and fails at one. It notes whether each write
// goes on where the one before ended, and the calls behind the writes in their order.
#[derive(Drop)]
struct Slow {
    fails_at: u32,
    calls: Cell<u32>,
    next: Cell<u64>,
    is_straight: Cell<bool>,
    order: Cell<u32>,
}

impl Slow {
    fn call(&self) -> io::Result<()> {
        let call = self.calls.get();
        self.calls.set(call.wrapping_add(1));
        if call == self.fails_at {
            return Err(io::ErrorKind::StorageFull.into());
        }
        Ok(())
    }

    fn noted(&self, digit: u32) -> io::Result<()> {
        self.call()?;
        let order = self.order.get().wrapping_mul(10);
        self.order.set(order.wrapping_add(digit));
        Ok(())
    }
}

impl FileExt for &Slow {
    fn read_at(&self, _buf: &mut [u8], _offset: u64) -> io::Result<usize> {
        Ok(0)
    }

    fn write_at(&self, buf: &[u8], offset: u64) -> io::Result<usize> {
        self.call()?;
        if self.calls.get() % 3 == 0 {
            return Err(io::ErrorKind::Interrupted.into());
        }
        if offset != self.next.get() {
            self.is_straight.set(false);
        }
        let n = buf.len().min(2);
        self.next.set(offset.wrapping_add(n as u64));
        Ok(n)
    }
}

impl OpenFile for &Slow {
    fn metadata(&self) -> io::Result<Metadata> {
        Err(io::ErrorKind::Unsupported.into())
    }

    fn set_len(&self, _size: u64) -> io::Result<()> {
        self.noted(CUT)
    }

    fn sync_all(&self) -> io::Result<()> {
        self.noted(SYNCED)
    }

    fn sync_data(&self) -> io::Result<()> {
        self.noted(DATA_SYNCED)
    }
}

impl<'a> Folder<&'a Slow> for &'a Slow {
    fn make(&mut self, _first: &&'a Slow) -> io::Result<&'a Slow> {
        self.call()?;
        self.next.set(0);
        Ok(*self)
    }

    fn is_first(&self, _first: &&'a Slow) -> bool {
        true
    }

    fn rename(&mut self, _second: &&'a Slow) -> io::Result<()> {
        self.noted(RENAMED)
    }

    fn remove_second(&mut self, _second: &&'a Slow) {}

    fn sync(&self) -> io::Result<()> {
        self.noted(FOLDER_SYNCED)
    }

    fn copy_aside(&self, _first: &&'a Slow, _cut: usize) {}

    fn tell_hindered(&self) {}
}

// A file that fails at one call.
fn failing_at(fails_at: u32) -> Slow {
    Slow {
        fails_at,
        calls: Cell::new(0),
        next: Cell::new(0),
        is_straight: Cell::new(true),
        order: Cell::new(0),
    }
}

// What a file that fails at a call leaves is what it should.
fn check<T: PartialEq + Debug>(rt: &impl Abort, at: u32, found: &T, wanted: &T, what: &str) {
    assert!(rt;
        found == wanted,
        "at {at}: {what}: {found:?}, and not {wanted:?}"
    );
}

// Whether a write, a sync, a cut and a further sync of a slow file are done.
fn done_on(slow: &Slow) -> (bool, bool, bool, bool) {
    let mut file = HostCalls::found(slow, slow, &[], false);
    let wrote = file.write_at(0, b"1234567").is_ok();
    let synced = file.sync().is_ok();
    let cut = file.cut(0).is_ok();
    (wrote, synced, cut, file.sync().is_ok())
}

// 7 bytes are 4 pieces, between which the file is interrupted once, and behind them a sync, a cut and a sync.
#[test]
fn a_write_goes_on_and_a_failure_ends_the_file(rt: HostRuntime) {
    let table = [
        (0, 0, 0),
        (1, 2, 0),
        (2, 4, 0),
        (3, 4, 0),
        (4, 6, 0),
        (5, 7, 0),
        (6, 7, 2),
        (7, 7, 21),
        (8, 7, 212),
    ];
    for (fails_at, next, order) in table.as_slice() {
        let at = *fails_at;
        let slow = failing_at(at);
        let wanted = (at > 4, at > 5, at > 6, at > 7);
        check(&rt, at, &done_on(&slow), &wanted, "what is done");
        check(
            &rt,
            at,
            &slow.is_straight.get(),
            &true,
            "each write goes on",
        );
        check(&rt, at, &slow.next.get(), next, "bytes");
        check(&rt, at, &slow.order.get(), order, "calls");
    }
}

// Whether the steps to a second file of a slow one are done, and a sync behind them.
fn replaced_on(slow: &Slow) -> ((bool, bool, bool, bool), bool) {
    let mut file = HostCalls::found(slow, slow, &[], false);
    let begun = file.begin_second().is_ok();
    let wrote = file.write_second(b"123").is_ok();
    let more = file.write_second(b"45").is_ok();
    let replaced = file.replace().is_ok();
    ((begun, wrote, more, replaced), file.sync().is_ok())
}

// The second file is made, 3 bytes are 2 pieces with an interruption between, 2 bytes are one, and then the file is synced
// and renamed, and the folder is synced. Until it is renamed the first file goes on.
#[test]
fn a_failure_of_the_second_file_leaves_the_first(rt: HostRuntime) {
    let table = [
        (0, 0, 2),
        (1, 1, 2),
        (2, 1, 2),
        (3, 1, 2),
        (4, 2, 2),
        (5, 3, 2),
        (6, 3, 32),
        (7, 3, 34),
        (9, 4, 3452),
    ];
    for (fails_at, passed, order) in table.as_slice() {
        let (at, passed) = (*fails_at, *passed);
        let slow = failing_at(at);
        let wanted = (passed > 0, passed > 1, passed > 2, passed > 3);
        check(
            &rt,
            at,
            &replaced_on(&slow),
            &(wanted, at != 7),
            "what is done",
        );
        check(&rt, at, &slow.order.get(), order, "calls");
        check(
            &rt,
            at,
            &slow.is_straight.get(),
            &true,
            "each write goes on",
        );
    }
}

#[test]
fn a_foreign_file_is_left_as_it_is(rt: HostRuntime) {
    let path = "envy_hostfile_foreign";
    fs::write(&rt, path, b"another kind of file").expect(&rt, "not written");
    let answer = open(&rt, path, false);
    holds(
        &rt,
        matches!(answer, Err(OpenFault::NoJournal)),
        "it is no journal",
    );
    let found = fs::read(&rt, path).expect(&rt, "not read");
    same_bytes(&rt, &found, b"another kind of file", "the file");
    remove(&rt, &rt, path);
}
