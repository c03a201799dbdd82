//! Lines and bytes of a source whatever its pieces, and what a sink takes, with calls that fail on the way.

use crate::told::{same, same_bytes};
use arrayvec::ArrayVec;
use envy_io::{Failed, Lines, MemSink, MemSource, Next, ReadOutcome, Sink, Source, write_all};
use std::alloc::Global;
use std::process::Abort;

/// What the lines of a source are asked for, and what they answer.
#[derive(Clone, Copy)]
enum Ask {
    /// The next line, with its text.
    Line(Next, &'static str),
    /// The next four bytes, and which they are, where that is said.
    Bytes(ReadOutcome, Option<&'static str>),
    /// How many bytes were taken from the source.
    Taken(u64),
}

/// A source in pieces of so many bytes, in which these calls fail, and of which at most `cap` bytes are taken.
#[derive(Clone, Copy)]
struct Reading {
    name: &'static str,
    pieces: &'static [usize],
    fails: &'static [u64],
    cap: u64,
    asks: &'static [Ask],
}

/// A source of these bytes, in pieces of at most `piece` bytes, in which these calls fail.
fn source_of(
    rt: &impl Abort,
    alloc: Global,
    bytes: &[u8],
    piece: usize,
    fails: &[u64],
) -> MemSource {
    let bytes = bytes.to_vec(alloc).expect(rt, "no room for bytes");
    let fails = fails.to_vec(alloc).expect(rt, "no room for a plan");
    MemSource::new(bytes, piece.max(1), fails)
}

/// Tests that an ask is answered as it says.
fn check_ask(rt: &impl Abort, name: &str, lines: &mut Lines, source: &mut MemSource, ask: &Ask) {
    match ask {
        Ask::Line(next, text) => {
            let mut line = ArrayVec::new();
            let answer = lines.next_line(source, &mut line);
            same(rt, answer, *next, name);
            same_bytes(rt, &line, text.as_bytes(), name);
        }
        Ask::Bytes(got, text) => {
            let mut bytes = [0; 4];
            let answer = lines.next_bytes(source, &mut bytes);
            same(rt, answer, *got, name);
            if let Some(text) = text {
                same_bytes(rt, &bytes, text.as_bytes(), name);
            }
        }
        Ask::Taken(count) => same(rt, lines.taken(), *count, name),
    }
}

/// Tests each ask of a source of these bytes.
fn check(rt: &impl Abort, alloc: Global, bytes: &[u8], reading: &Reading) {
    for piece in reading.pieces {
        let mut source = source_of(rt, alloc, bytes, *piece, reading.fails);
        let mut lines = Lines::new(reading.cap.max(1));
        for ask in reading.asks {
            check_ask(rt, reading.name, &mut lines, &mut source, ask);
        }
    }
}

const ONE_TO_ELEVEN: [usize; 11] = [1, 2, 3, 4, 5, 6, 7, 8, 9, 10, 11];

// The bytes of a source, and what is read of it.
const READINGS: [(&str, Reading); 9] = [
    (
        "load 0\nload 1\n",
        Reading {
            name: "lines end at the cap",
            pieces: &[100],
            fails: &[],
            cap: 7,
            asks: &[
                Ask::Line(Next::Line, "load 0"),
                Ask::Line(Next::Spent, ""),
                Ask::Taken(7),
            ],
        },
    ),
    (
        "ab\n\nc\r\nlast",
        Reading {
            name: "lines are the same in any pieces",
            pieces: &ONE_TO_ELEVEN,
            fails: &[],
            cap: 1000,
            asks: &[
                Ask::Line(Next::Line, "ab"),
                Ask::Line(Next::Line, ""),
                Ask::Line(Next::Line, "c\r"),
                Ask::Line(Next::Line, "last"),
                Ask::Line(Next::End, ""),
                Ask::Taken(11),
            ],
        },
    ),
    (
        "a\n",
        Reading {
            name: "newline at the end begins no line",
            pieces: &[100],
            fails: &[],
            cap: 100,
            asks: &[
                Ask::Line(Next::Line, "a"),
                Ask::Line(Next::End, ""),
                Ask::Taken(2),
            ],
        },
    ),
    (
        "load 0\nload 1\n",
        Reading {
            name: "failed read loses nothing",
            pieces: &[4],
            fails: &[2, 3, 5],
            cap: 100,
            asks: &[
                Ask::Line(Next::Failed, ""),
                Ask::Line(Next::Failed, ""),
                Ask::Line(Next::Line, "load 0"),
                Ask::Line(Next::Failed, ""),
                Ask::Line(Next::Line, "load 1"),
                Ask::Line(Next::End, ""),
                Ask::Taken(14),
            ],
        },
    ),
    (
        "load 0\n",
        Reading {
            name: "whole line is given before the source is asked",
            pieces: &[64],
            fails: &[2],
            cap: 100,
            asks: &[
                Ask::Line(Next::Line, "load 0"),
                Ask::Line(Next::Failed, ""),
                Ask::Taken(7),
            ],
        },
    ),
    (
        "a",
        Reading {
            name: "source is not asked behind its end",
            pieces: &[10],
            fails: &[3],
            cap: 100,
            asks: &[
                Ask::Line(Next::Line, "a"),
                Ask::Line(Next::End, ""),
                Ask::Line(Next::End, ""),
                Ask::Taken(1),
            ],
        },
    ),
    (
        "ab\ncdefgh\nij",
        Reading {
            name: "bytes are the same in any pieces",
            pieces: &ONE_TO_ELEVEN,
            fails: &[],
            cap: 1000,
            asks: &[
                Ask::Line(Next::Line, "ab"),
                Ask::Bytes(ReadOutcome::Whole, Some("cdef")),
                Ask::Line(Next::Line, "gh"),
                Ask::Bytes(ReadOutcome::Short, None),
                Ask::Line(Next::End, ""),
            ],
        },
    ),
    (
        "abcdef",
        Reading {
            name: "no byte is taken beyond what is asked",
            pieces: &[100],
            fails: &[],
            cap: 5,
            asks: &[
                Ask::Bytes(ReadOutcome::Whole, None),
                Ask::Taken(4),
                Ask::Bytes(ReadOutcome::Spent, None),
                Ask::Taken(5),
            ],
        },
    ),
    (
        "abcdefgh",
        Reading {
            name: "bytes before a failed read are used up",
            pieces: &[2],
            fails: &[2],
            cap: 100,
            asks: &[
                Ask::Bytes(ReadOutcome::Failed, None),
                Ask::Taken(2),
                Ask::Bytes(ReadOutcome::Whole, Some("cdef")),
            ],
        },
    ),
];

#[test]
fn lines_and_bytes_of_a_source(rt: HostRuntime) {
    for (text, reading) in READINGS.as_slice() {
        check(&rt, rt.alloc(), text.as_bytes(), reading);
    }
}

const LONGEST: &str =
    "xxxxxxxxxxxxxxxxxxxxxxxxxxxxxxxxxxxxxxxxxxxxxxxxxxxxxxxxxxxxxxxxxxxxxxxxxxxxxxxxxxxxxxxxxxxxxxxxxxxxxxxxxxxxxxxxxxxxxxxx";

const LONGEST_AND_LONGER: Reading = Reading {
    name: "line has 120 bytes and not 121",
    pieces: &[7],
    fails: &[],
    cap: 1000,
    asks: &[
        Ask::Line(Next::Line, LONGEST),
        Ask::Line(Next::Long, ""),
        Ask::Line(Next::Long, ""),
        Ask::Taken(242),
    ],
};

const ASKED_ONCE: Reading = Reading {
    name: "source is asked for 128 bytes at once",
    pieces: &[1000],
    fails: &[2],
    cap: 1000,
    asks: &[Ask::Line(Next::Long, ""), Ask::Taken(128)],
};

#[test]
fn long_lines_of_a_source(rt: HostRuntime) {
    let mut text = [b'x'; 242];
    text[120] = b'\n';
    check(&rt, rt.alloc(), &text, &LONGEST_AND_LONGER);
    check(&rt, rt.alloc(), &[b'x'; 300], &ASKED_ONCE);
}

/// What a source of six bytes in pieces of three, whose second call fails, answers to calls for two bytes and then for
/// five, and what was read then, where that is said.
const FEWEST: [(&str, usize, Result<usize, Failed>, Option<&str>); 5] = [
    ("two that are asked for", 2, Ok(2), None),
    ("failure", 5, Err(Failed), None),
    ("three of a piece", 5, Ok(3), Some("cde..")),
    ("one that is left", 5, Ok(1), None),
    ("none that is left", 5, Ok(0), None),
];

/// Asks the source as each row says.
fn check_fewest(rt: &impl Abort, source: &mut MemSource) {
    let (mut two, mut five) = ([b'.'; 2], [b'.'; 5]);
    for (name, count, answer, text) in FEWEST.as_slice() {
        let found = if *count == 2 {
            source.fill(&mut two)
        } else {
            source.fill(&mut five)
        };
        same(rt, found, *answer, name);
        if let Some(text) = text {
            same_bytes(rt, &five, text.as_bytes(), name);
        }
    }
}

#[test]
fn a_source_gives_the_fewest_of_three(rt: HostRuntime) {
    let mut source = source_of(&rt, rt.alloc(), b"abcdef", 3, &[2]);
    check_fewest(&rt, &mut source);
}

/// What a sink is asked, and what it answers.
#[derive(Clone, Copy)]
enum Push {
    Write(&'static str, Result<(), Failed>),
    Flush(Result<(), Failed>),
}

/// A sink that takes `room` bytes, in which these calls fail, and what it took.
#[derive(Clone, Copy)]
struct Writing {
    name: &'static str,
    room: usize,
    fails: &'static [u64],
    pushes: &'static [Push],
    written: &'static str,
}

const WRITINGS: [Writing; 2] = [
    Writing {
        name: "sink of eight bytes takes eight",
        room: 8,
        fails: &[],
        pushes: &[
            Push::Write("ok\n", Ok(())),
            Push::Write("range\n", Err(Failed)),
        ],
        written: "ok\nrange",
    },
    Writing {
        name: "writes and flushes are counted together",
        room: 100,
        fails: &[2, 4],
        pushes: &[
            Push::Write("ok\n", Ok(())),
            Push::Flush(Err(Failed)),
            Push::Write("7\n", Ok(())),
            Push::Write("range\n", Err(Failed)),
        ],
        written: "ok\n7\n",
    },
];

/// Asks the sink all of this.
fn push_all(rt: &impl Abort, sink: &mut MemSink, writing: &Writing) {
    for push in writing.pushes {
        let (found, wanted) = match push {
            Push::Write(text, wanted) => (write_all(sink, text.as_bytes()), wanted),
            Push::Flush(wanted) => (sink.flush(), wanted),
        };
        same(rt, found, *wanted, writing.name);
    }
}

fn check_writing(rt: &impl Abort, alloc: Global, writing: &Writing) {
    let fails = writing.fails.to_vec(alloc).expect(rt, "no room for a plan");
    let mut sink = MemSink::new(alloc, writing.room, fails).expect(rt, "no room for a sink");
    push_all(rt, &mut sink, writing);
    let written = writing.written.as_bytes();
    same_bytes(rt, sink.written(), written, writing.name);
}

#[test]
fn writes_of_a_sink(rt: HostRuntime) {
    for writing in WRITINGS.as_slice() {
        check_writing(&rt, rt.alloc(), writing);
    }
}
