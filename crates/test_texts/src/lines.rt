//! What the lines of a trace say, and how they are written.

ghost use Rattle.std.specs.Prelude.{IsTrue};
ghost use Rattle.envy_trace.specs.Spelling.{HasPlace};

use crate::told::{same, same_bytes};
use arrayvec::ArrayVec;
use envy_trace::{Line, LineFault, line_text, read_line};
use std::process::Abort;

/// A line's text, and what it says.
type Row = (&'static str, Result<Line, LineFault>);

const COMMANDS: [Row; 12] = [
    ("load 5", Ok(Line::Load { address: 5 })),
    ("look 5", Ok(Line::Look { address: 5 })),
    (
        "store 5 1",
        Ok(Line::Store {
            address: 5,
            word: 1,
        }),
    ),
    ("begin", Ok(Line::Begin)),
    (
        "put 0 5 2",
        Ok(Line::Put {
            slot: 0,
            address: 5,
            word: 2,
        }),
    ),
    ("commit 1", Ok(Line::Commit { slot: 1 })),
    ("abort 2", Ok(Line::Abort { slot: 2 })),
    ("tick", Ok(Line::Tick)),
    ("power", Ok(Line::Power)),
    ("cut 3 4", Ok(Line::Cut { k: 3, g: 4 })),
    ("bad 5 6", Ok(Line::Bad { k: 5, g: 6 })),
    ("stat", Ok(Line::Stat)),
];

// Blanks and comments are skipped. A form feed is no blank.
const BLANKS: [Row; 8] = [
    ("", Ok(Line::Empty)),
    (" \t ", Ok(Line::Empty)),
    ("\r", Ok(Line::Empty)),
    ("# day one", Ok(Line::Empty)),
    ("\t#day 1 2 3 4 5", Ok(Line::Empty)),
    (
        "\tstore  007 1\r",
        Ok(Line::Store {
            address: 7,
            word: 1,
        }),
    ),
    (" load\t \t7 ", Ok(Line::Load { address: 7 })),
    ("load\x0c7", Err(LineFault::Word)),
];

// One carriage return at the very end is taken off.
const RETURNS: [Row; 5] = [
    ("load 1\r", Ok(Line::Load { address: 1 })),
    ("load 1 \r", Ok(Line::Load { address: 1 })),
    ("load 1\r ", Err(LineFault::Number)),
    ("load 1\r\r", Err(LineFault::Number)),
    ("tick\r \r", Err(LineFault::Word)),
];

// A refused line names its first fault: the count is asked before the numbers, and the word before the count.
const FAULTS: [Row; 15] = [
    ("load 5 6", Err(LineFault::Count)),
    ("store 5", Err(LineFault::Count)),
    ("load", Err(LineFault::Count)),
    ("tick 1", Err(LineFault::Count)),
    ("put 0 1 2 3", Err(LineFault::Count)),
    ("load x y", Err(LineFault::Count)),
    ("jump 1", Err(LineFault::Word)),
    ("Load 1", Err(LineFault::Word)),
    ("loads 1", Err(LineFault::Word)),
    ("loa 1", Err(LineFault::Word)),
    ("load +1", Err(LineFault::Number)),
    ("load 1x", Err(LineFault::Number)),
    ("load -", Err(LineFault::Number)),
    ("cut 0 1", Err(LineFault::Number)),
    ("bad 0 1", Err(LineFault::Number)),
];

// A number has a greatest value.
const NUMBERS: [Row; 8] = [
    (
        "put 255 4294967295 18446744073709551615",
        Ok(Line::Put {
            slot: 255,
            address: 4294967295,
            word: 18446744073709551615,
        }),
    ),
    ("put 256 0 0", Err(LineFault::Number)),
    ("put 0 4294967296 0", Err(LineFault::Number)),
    ("put 0 0 18446744073709551616", Err(LineFault::Number)),
    (
        "put 0 0 99999999999999999999999999999",
        Err(LineFault::Number),
    ),
    ("load 4294967296", Err(LineFault::Number)),
    ("cut 4294967296 0", Err(LineFault::Number)),
    (
        "commit 0000000000000000000000000000000000255",
        Ok(Line::Commit { slot: 255 }),
    ),
];

/// Tests what this line says.
fn check_read(rt: &impl Abort, row: &Row) {
    let (text, wanted) = *row;
    same(rt, read_line(text.as_bytes()), wanted, text);
}

/// The same of each line of a table.
fn check_each(rt: &impl Abort, rows: &[Row]) {
    for row in rows {
        check_read(rt, row);
    }
}

#[test]
fn lines_are_read(rt: HostRuntime) {
    check_each(&rt, &COMMANDS);
    check_each(&rt, &BLANKS);
    check_each(&rt, &RETURNS);
    check_each(&rt, &FAULTS);
    check_each(&rt, &NUMBERS);
}

/// A name, a byte that stands in a line as often as it can, the last byte, whether the line has 121 bytes and not 120, and
/// what it says.
type Length = (&'static str, u8, u8, bool, Result<Line, LineFault>);

// The carriage return counts.
const LENGTHS: [Length; 5] = [
    ("120 of a comment", b'#', b'#', false, Ok(Line::Empty)),
    ("121 of a comment", b'#', b'#', true, Err(LineFault::Long)),
    ("121 blanks", b' ', b' ', true, Err(LineFault::Long)),
    ("121 with a return", b' ', b'\r', true, Err(LineFault::Long)),
    ("120 with a return", b' ', b'\r', false, Ok(Line::Empty)),
];

/// Tests what a line of this length says.
fn check_length(rt: &impl Abort, row: &Length) {
    let (name, byte, last, is_long, wanted) = *row;
    let mut line = [byte; 121];
    line[120] = last;
    let text = if is_long { &line[..] } else { &line[1..] };
    same(rt, read_line(text), wanted, name);
}

#[test]
fn a_line_has_120_bytes_at_most(rt: HostRuntime) {
    for row in LENGTHS.as_slice() {
        check_length(&rt, row);
    }
}

// Each line has one written form.
const WRITTEN: [(Line, &str); 13] = [
    (Line::Empty, ""),
    (Line::Load { address: 10 }, "load 10"),
    (Line::Look { address: 0 }, "look 0"),
    (
        Line::Store {
            address: 4294967295,
            word: 100,
        },
        "store 4294967295 100",
    ),
    (Line::Begin, "begin"),
    (
        Line::Put {
            slot: 255,
            address: 4294967295,
            word: 18446744073709551615,
        },
        "put 255 4294967295 18446744073709551615",
    ),
    (Line::Commit { slot: 7 }, "commit 7"),
    (Line::Abort { slot: 63 }, "abort 63"),
    (Line::Tick, "tick"),
    (Line::Power, "power"),
    (Line::Cut { k: 1, g: 0 }, "cut 1 0"),
    (
        Line::Bad {
            k: 4294967295,
            g: 90,
        },
        "bad 4294967295 90",
    ),
    (Line::Stat, "stat"),
];

/// Whether a planned failure has a place from 1 on.
fn has_place(line: &Line) -> bool
    ensures { IsTrue result → HasPlace line.now }
{
    match line {
        Line::Cut { k, g: _ } | Line::Bad { k, g: _ } => *k >= 1,
        _ => true,
    }
}

/// Tests how this line is written.
fn check_written(rt: &impl Abort, row: &(Line, &str)) {
    let (line, wanted) = *row;
    assert!(rt; has_place(&line));
    let mut out: ArrayVec<u8, 120> = ArrayVec::new();
    line_text(&line, &mut out);
    same_bytes(rt, &out, wanted.as_bytes(), wanted);
}

#[test]
fn lines_are_written(rt: HostRuntime) {
    for row in WRITTEN.as_slice() {
        check_written(&rt, row);
    }
}
