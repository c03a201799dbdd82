//! Texts of replies, and numbers of faults.

use crate::told::{same, same_bytes};
use arrayvec::ArrayVec;
use envy_array::Counts;
use envy_trace::{LineFault, Reply, reply_text};
use std::process::Abort;

const COUNTS: Counts = Counts {
    misses: 10,
    flushes: 1,
    ..Counts::ZERO
};

// Each reply has one text.
const TEXTS: [(Reply, &str); 14] = [
    (Reply::Word(0), "0"),
    (Reply::Word(18446744073709551615), "18446744073709551615"),
    (Reply::Done, "ok"),
    (Reply::Started(63), "tx 63"),
    (Reply::Range, "range"),
    (Reply::Held(0), "held 0"),
    (Reply::Closed, "closed"),
    (Reply::Full, "full"),
    (Reply::Busy, "busy"),
    (Reply::Fault, "fault"),
    (Reply::Lost, "lost"),
    (Reply::Restarted, "restarted"),
    (Reply::Armed, "armed"),
    (
        Reply::Stat(COUNTS),
        "stat hits 0 misses 10 flushes 1 copies 0 moves 0 erases 0 swaps 0 cost 0",
    ),
];

/// Tests the text of this reply.
fn check_text(rt: &impl Abort, reply: &Reply, wanted: &str) {
    let mut out: ArrayVec<u8, 512> = ArrayVec::new();
    reply_text(reply, &mut out);
    same_bytes(rt, &out, wanted.as_bytes(), wanted);
}

#[test]
fn replies_have_their_texts(rt: HostRuntime) {
    for (reply, wanted) in TEXTS.as_slice() {
        check_text(&rt, reply, wanted);
    }
}

const NUMBERS: [(&str, LineFault, u8); 4] = [
    ("Word", LineFault::Word, 1),
    ("Number", LineFault::Number, 2),
    ("Count", LineFault::Count, 3),
    ("Long", LineFault::Long, 4),
];

#[test]
fn faults_have_numbers(rt: HostRuntime) {
    for (name, fault, number) in NUMBERS.as_slice() {
        same(&rt, fault.number(), *number, name);
    }
}
