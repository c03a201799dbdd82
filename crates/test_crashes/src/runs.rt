// What a file has of puts: words in a row are one run.
use crate::crashes::{NO_ROOM, SHAPE, SIZES, words};
use envy_base::Board;
use envy_journal::{Journaled, create, open, read_head};
use envy_region::OwnedBoard;
use envy_torn::TornFile;
use std::alloc::Global;
use std::process::Abort;

// How many bytes are held back, so that nothing is written before a sync.
const HELD: usize = 4000;

// The version of files that are made, and the one before it.
const VERSION: u8 = 4;

const OLDER_VERSION: u8 = 2;

type Journal = Journaled<OwnedBoard, TornFile>;

// Puts so many words in a row.
fn put_row(rt: &impl Abort, board: &mut Journal, first: u32, count: u32) {
    for i in 0..count {
        let w = first.saturating_add(i);
        assert!(rt; w < envy_map::words(&board.shape()));
        assert!(rt; board.put(w, u64::from(w) + 1).is_ok());
    }
}

// Does what a text says: a digit puts so many words in a row, each row behind the one before; + puts 60 more, and - leaves
// a word out; p programs a row, s syncs, c compacts.
fn act(rt: &impl Abort, journal: &mut Journal, text: &str) {
    let mut next = 20u32;
    for &byte in text.as_bytes() {
        if byte == b'p' {
            assert!(rt; 0 < journal.shape().segments * journal.shape().rows);
            assert!(rt; journal.program(0, &[7; 32]).is_ok());
        } else if byte == b's' {
            assert!(rt; journal.sync().is_ok());
        } else if byte == b'c' {
            assert!(rt; journal.compact().is_ok());
        } else if byte == b'-' {
            next = next.saturating_add(1);
        } else {
            let count = if byte == b'+' {
                60
            } else {
                u32::from(byte.saturating_sub(b'0'))
            };
            put_row(rt, journal, next, count);
            next = next.saturating_add(count);
        }
    }
    assert!(rt; journal.sync().is_ok());
}

// A new journal.
fn made(rt: &impl Abort, alloc: Global) -> Option<Journal> {
    SHAPE.check().expect(rt, SIZES);
    let board = OwnedBoard::blank(alloc, &SHAPE).expect(rt, NO_ROOM);
    let file = TornFile::new(alloc, Vec::new(alloc), usize::MAX, false).expect(rt, NO_ROOM);
    create(alloc, board, file, HELD).ok()
}

// The journal of a file, if it opens.
fn opened(rt: &impl Abort, alloc: Global, bytes: &[u8]) -> Option<Journal> {
    let shape = read_head(bytes).expect(rt, "no head");
    assert!(rt; shape == SHAPE);
    shape.check().expect(rt, SIZES);
    let board = OwnedBoard::blank(alloc, &shape).expect(rt, NO_ROOM);
    let copy = bytes.to_vec(alloc).expect(rt, NO_ROOM);
    let file = TornFile::new(alloc, copy, usize::MAX, false).expect(rt, NO_ROOM);
    open(alloc, board, file, bytes, HELD).ok()
}

// The file of a journal in which a text is done.
fn file_after(rt: &impl Abort, alloc: Global, journal: Option<Journal>, text: &str) -> Vec<u8> {
    let mut journal = journal.expect(rt, "it doesn't open");
    act(rt, &mut journal, text);
    journal.close().bytes().to_vec(alloc).expect(rt, NO_ROOM)
}

// The version that a file's head says.
fn version_of(bytes: &[u8]) -> u8 {
    if bytes.len() > 8 { bytes[8] } else { 0 }
}

// How many bytes an operation or the end of a batch takes, by its tag.
fn size_of(tag: u8) -> usize {
    match tag {
        1 => 13,
        2 => 261,
        3 => 5,
        7 => 9,
        130..=192 => usize::from(tag.saturating_sub(128))
            .saturating_mul(8)
            .saturating_add(5),
        _ => 1,
    }
}

// The tags of all operations of a file, and of the ends of its batches.
fn tags(rt: &impl Abort, alloc: Global, bytes: &[u8]) -> Vec<u8> {
    let mut found = Vec::new(alloc);
    let mut at = 33;
    let mut within = false;
    for _turn in 0..bytes.len() {
        if at >= bytes.len() {
            break;
        }
        let tag = bytes[at];
        if within {
            found.push(tag).expect(rt, NO_ROOM);
            within = tag != 5 && tag != 7;
            at = at.saturating_add(size_of(tag));
        } else if tag == 4 || tag == 6 {
            within = true;
            at = at.saturating_add(1);
        } else {
            break;
        }
    }
    found
}

// A text done in a new journal leaves operations with these tags, and a file that holds what the journal held.
fn logs(rt: &impl Abort, alloc: Global, text: &str, wanted: &[u8]) {
    let bytes = file_after(rt, alloc, made(rt, alloc), text);
    assert!(rt; version_of(&bytes) == VERSION);
    let found = tags(rt, alloc, &bytes);
    assert!(rt; found.as_slice() == wanted, "{text} is logged otherwise");
    let mut journal = made(rt, alloc).expect(rt, "it isn't made");
    act(rt, &mut journal, text);
    let held = words(rt, alloc, &journal);
    let again = opened(rt, alloc, &bytes).expect(rt, "it doesn't open");
    let read = words(rt, alloc, &again);
    assert!(rt;
        held.as_slice() == read.as_slice(),
        "{text} is read otherwise"
    );
}

#[test]
fn words_in_a_row_are_one_run(rt: HostRuntime) {
    let alloc = rt.alloc();
    logs(&rt, alloc, "2", &[130, 5]);
    logs(&rt, alloc, "+4", &[192, 5]);
    logs(&rt, alloc, "+5", &[192, 1, 5]);
    logs(&rt, alloc, "1-1", &[1, 1, 5]);
    logs(&rt, alloc, "2-3", &[130, 131, 5]);
    logs(&rt, alloc, "1p1", &[1, 2, 1, 5]);
    logs(&rt, alloc, "2s2", &[130, 5, 130, 5]);
}

#[test]
fn an_older_log_gets_runs_once_it_is_compacted(rt: HostRuntime) {
    let alloc = rt.alloc();
    let mut bytes = file_after(&rt, alloc, made(&rt, alloc), "1");
    if bytes.len() > 8 {
        bytes[8] = OLDER_VERSION;
    }
    let more = file_after(&rt, alloc, opened(&rt, alloc, &bytes), "3");
    assert!(&rt; version_of(&more) == OLDER_VERSION);
    let alone: &[u8] = &[1, 5, 1, 1, 1, 5];
    assert!(&rt; tags(&rt, alloc, &more).as_slice() == alone, "no run");
    let new = file_after(&rt, alloc, opened(&rt, alloc, &more), "c3");
    assert!(&rt; version_of(&new) == VERSION);
    assert!(&rt; tags(&rt, alloc, &new).ends_with(&[5, 131, 5]), "a run");
}

#[test]
fn a_run_that_is_cut_short_is_damage(rt: HostRuntime) {
    let alloc = rt.alloc();
    let mut bytes = file_after(&rt, alloc, made(&rt, alloc), "3");
    bytes.truncate(34 + 28);
    assert!(&rt; opened(&rt, alloc, &bytes).is_none());
}
