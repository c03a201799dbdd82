//! A trace of which only so many bytes may be taken: its lines are read, done and answered one after another, and how that
//! ends is told.

use crate::told::{same, same_bytes};
use arrayvec::ArrayVec;
use envy_io::{Failed, Lines, MemSink, MemSource, Sink, write_all};
use envy_serve::{End, LineOutcome, Service, conclude, fetch};
use envy_trace::{Line, LineFault, read_line};
use std::alloc::Global;
use std::process::Abort;

/// Answers each load by the last digit of its address, and any other line by `-`.
#[derive(Drop)]
struct Digits;

impl Service for Digits {
    ghost use Rattle.std.specs.Prelude.{⊤, [], ◌∷◌};
    ghost use Rattle.envy_trace.specs.Grammar.{line_of};
    ghost use Rattle.envy_trace.proofs.Lines.{line-long};

    type Line = Line;

    type Reply = u8;

    ghost grammar = { record { reads = line_of; text = λ digit. digit ∷ 10 ∷ [] } };

    ghost Start = { ⊤ };

    ghost Did = { λ start s turns. ⊤ };

    ghost Died = { λ start s turns. ⊥ };

    ghost IsReady = { λ s. ⊤ };

    ghost tail = { λ s. [] };

    fn read(bytes: &[u8]) -> Result<Line, LineFault> {
        read_line(bytes)
    }

    fn obey<K: Sink>(&mut self, line: &Line, sink: &mut K) -> LineOutcome {
        let digit = match *line {
            Line::Load { address } => b'0' + (address % 10) as u8,
            _ => b'-',
        };
        match write_all(sink, &[digit, b'\n']) {
            Ok(()) => LineOutcome::Done,
            Err(Failed) => LineOutcome::WriteFault,
        }
    }

    fn close<K: Sink>(&self, _sink: &mut K) -> Result<(), Failed> {
        Ok(())
    }

    ghost long = { line-long };

    ghost stays_ready = { λ start s turns did. tt };
}

/// Four lines of 7 bytes each.
const TRACE: &[u8] = b"load 1\nload 2\nload 3\nload 4\n";

/// The trace, which comes in pieces.
fn source_in(rt: &impl Abort, alloc: Global, piece: usize) -> MemSource {
    let bytes = TRACE.to_vec(alloc).expect(rt, "no room for a trace");
    MemSource::new(bytes, piece.max(1), Vec::new(alloc))
}

/// Serves a trace of which at most `cap` bytes may be taken. Gives the end, where it came.
fn serve_within(cap: u64, source: &mut MemSource, sink: &mut MemSink) -> Option<End> {
    let mut reader = Lines::new(cap.max(1));
    let mut text = ArrayVec::new();
    for _ in 0..5 {
        match fetch::<Digits, MemSource>(source, &mut reader, &mut text) {
            Ok(line) => {
                let _ = Digits.obey(&line, sink);
            }
            Err(stop) => return Some(conclude(&Digits, stop, sink)),
        }
    }
    None
}

/// For so many bytes at most, from the first to the last: the end, and the replies.
type Row = (&'static str, u64, u64, End, &'static str);

const CAPS: [Row; 6] = [
    ("1 to 6 bytes", 1, 6, End::TooLong, ""),
    ("7 to 13 bytes", 7, 13, End::TooLong, "1\n"),
    ("14 to 20 bytes", 14, 20, End::TooLong, "1\n2\n"),
    ("21 to 27 bytes", 21, 27, End::TooLong, "1\n2\n3\n"),
    ("28 bytes", 28, 28, End::TooLong, "1\n2\n3\n4\n"),
    ("29 to 30 bytes", 29, 30, End::Done, "1\n2\n3\n4\n"),
];

/// Serves the trace in pieces of several sizes, where at most `cap` bytes of it may be taken.
fn check(rt: &impl Abort, alloc: Global, cap: u64, row: &Row) {
    let (name, _, _, end, replies) = *row;
    for piece in [1, 5, 128].as_slice() {
        let mut source = source_in(rt, alloc, *piece);
        let mut sink = MemSink::new(alloc, 100, Vec::new(alloc)).expect(rt, "no room for a sink");
        let found = serve_within(cap, &mut source, &mut sink);
        same(rt, found, Some(end), name);
        same_bytes(rt, sink.written(), replies.as_bytes(), name);
    }
}

#[test]
fn a_trace_that_is_too_long_leaves_the_replies_before(rt: HostRuntime) {
    for row in CAPS.as_slice() {
        let (_, first, last, _, _) = *row;
        for cap in first..=last {
            check(&rt, rt.alloc(), cap, row);
        }
    }
}
