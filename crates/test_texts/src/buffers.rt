//! A source and a sink that hold bytes back.

use crate::told::{same, same_bytes};
use envy_io::{BufferedSink, BufferedSource, Failed, MemSink, MemSource, Sink, Source, write_all};
use std::alloc::Global;
use std::process::Abort;

/// A number for the byte that stands at a place of the source.
fn byte_at(place: usize) -> u8 {
    (place % 251) as u8
}

/// So many bytes.
fn bytes(rt: &impl Abort, alloc: Global, count: usize) -> Vec<u8> {
    let mut bytes = Vec::new(alloc);
    for i in 0..count {
        bytes.push(byte_at(i)).expect(rt, "no room for bytes");
    }
    bytes
}

/// A source of so many bytes in pieces, of which these calls fail.
fn source_of(
    rt: &impl Abort,
    alloc: Global,
    count: usize,
    fails: &[u64],
) -> BufferedSource<MemSource> {
    let fails = fails.to_vec(alloc).expect(rt, "no room for a plan");
    let source = MemSource::new(bytes(rt, alloc, count), 50_000, fails);
    BufferedSource::new(alloc, source).expect(rt, "no room for a source")
}

/// Whether these are the next bytes of a source of which so many were taken.
fn is_next(piece: &[u8], taken: usize) -> bool {
    for i in 0..piece.len() {
        if piece[i] != byte_at(taken.saturating_add(i)) {
            return false;
        }
    }
    true
}

/// Takes 50,000 bytes, one failure and then the rest, and answers how many bytes and failures came.
fn drained(rt: &impl Abort, source: &mut BufferedSource<MemSource>) -> (usize, u32) {
    let (mut taken, mut failures) = (0usize, 0u32);
    let mut piece = [0; 128];
    for _call in 0..2000 {
        match source.fill(&mut piece) {
            Ok(0) => break,
            Ok(count) => {
                let is = count <= 128 && is_next(&piece[..count.min(128)], taken);
                same(rt, is, true, "bytes in their order");
                taken = taken.saturating_add(count);
            }
            Err(Failed) => {
                failures = failures.saturating_add(1);
                same(rt, (taken, failures), (50_000, 1), "failure");
            }
        }
    }
    (taken, failures)
}

#[test]
fn bytes_come_in_order_and_a_failure_between_them_is_told(rt: HostRuntime) {
    let mut source = source_of(&rt, rt.alloc(), 120_000, &[2]);
    let found = drained(&rt, &mut source);
    same(&rt, found, (120_000, 1), "bytes and failures");
}

/// How the source is asked for eight bytes, and what it answers.
#[derive(Clone, Copy)]
enum Pull {
    Fill(Result<usize, Failed>),
    FillOnly(Result<usize, Failed>),
}

/// The second call of the source below fails: so it came, since the first took eight bytes alone.
const PULLS: [(&str, Pull); 4] = [
    ("first eight", Pull::FillOnly(Ok(8))),
    ("failure", Pull::FillOnly(Err(Failed))),
    ("eight with others behind them", Pull::Fill(Ok(8))),
    ("eight that were held", Pull::FillOnly(Ok(8))),
];

/// Asks the source as each row says.
fn pull_all(rt: &impl Abort, source: &mut BufferedSource<MemSource>, piece: &mut [u8; 8]) {
    for (name, pull) in PULLS.as_slice() {
        let (found, wanted) = match pull {
            Pull::Fill(wanted) => (source.fill(piece), wanted),
            Pull::FillOnly(wanted) => (source.fill_only(piece), wanted),
        };
        same(rt, found, *wanted, name);
    }
}

#[test]
fn exact_asking_takes_no_byte_ahead(rt: HostRuntime) {
    let mut source = source_of(&rt, rt.alloc(), 100, &[2, 4]);
    let mut piece = [0; 8];
    pull_all(&rt, &mut source, &mut piece);
    same_bytes(&rt, &piece, &[16, 17, 18, 19, 20, 21, 22, 23], "bytes");
}

/// What a sink is asked, and what it answers.
#[derive(Clone, Copy)]
enum Push {
    Write(&'static [u8], Result<(), Failed>),
    Flush(Result<(), Failed>),
    HandOn(Result<(), Failed>),
}

/// Over a sink with so much room, of which these calls fail, what is asked so often.
#[derive(Clone, Copy)]
struct Pushes {
    name: &'static str,
    room: usize,
    fails: &'static [u64],
    pushes: &'static [(u32, Push)],
}

const PAGE: [u8; 1024] = [7; 1024];

const FLUSHED: Pushes = Pushes {
    name: "sink that is flushed handed all on",
    room: 100_000,
    fails: &[],
    pushes: &[
        (10_000, Push::Write(b"0123456789", Ok(()))),
        (1, Push::Flush(Ok(()))),
    ],
};

const FAILING: Pushes = Pushes {
    name: "failed write is told at the latest by the next call",
    room: 100_000,
    fails: &[1],
    pushes: &[
        (1, Push::Write(b"a reply\n", Ok(()))),
        (1, Push::HandOn(Err(Failed))),
        (1, Push::Write(b"another\n", Err(Failed))),
        (1, Push::Flush(Err(Failed))),
        (1, Push::HandOn(Err(Failed))),
    ],
};

const FULL: Pushes = Pushes {
    name: "sink with no room left fails when it is full",
    room: 70_000,
    fails: &[],
    pushes: &[
        (128, Push::Write(&PAGE, Ok(()))),
        (1, Push::Write(&PAGE, Err(Failed))),
        (1, Push::Flush(Err(Failed))),
    ],
};

/// Asks the sink this, and tells the name where it is answered otherwise.
fn ask(rt: &impl Abort, sink: &mut BufferedSink<MemSink>, push: Push, name: &str) {
    let (found, wanted) = match push {
        Push::Write(piece, wanted) => (write_all(sink, piece), wanted),
        Push::Flush(wanted) => (sink.flush(), wanted),
        Push::HandOn(wanted) => (sink.hand_on(), wanted),
    };
    same(rt, found, wanted, name);
}

fn push_all(rt: &impl Abort, sink: &mut BufferedSink<MemSink>, pushes: &Pushes) {
    for (count, one) in pushes.pushes {
        for _turn in 0..*count {
            ask(rt, sink, *one, pushes.name);
        }
    }
}

/// A sink with so much room, of which these calls fail.
fn sink_with(rt: &impl Abort, alloc: Global, pushes: &Pushes) -> BufferedSink<MemSink> {
    let fails = pushes.fails.to_vec(alloc).expect(rt, "no room for a plan");
    let sink = MemSink::new(alloc, pushes.room, fails).expect(rt, "no room for a sink");
    BufferedSink::new(alloc, sink).expect(rt, "no room for a buffer")
}

fn check(rt: &impl Abort, alloc: Global, pushes: &Pushes) {
    let mut sink = sink_with(rt, alloc, pushes);
    push_all(rt, &mut sink, pushes);
}

#[test]
fn a_sink_that_is_flushed_handed_all_on(rt: HostRuntime) {
    check(&rt, rt.alloc(), &FLUSHED);
}

#[test]
fn a_failed_write_is_told_at_the_latest_by_the_next_call(rt: HostRuntime) {
    check(&rt, rt.alloc(), &FAILING);
}

#[test]
fn a_sink_with_no_room_left_fails_when_it_is_full(rt: HostRuntime) {
    check(&rt, rt.alloc(), &FULL);
}
