//! Words that are refused, all texts of standard error, and traces that are generated.

use crate::rows::{check_table, number_of, parted};
use crate::told::holds;
use arrayvec::ArrayVec;
use envy_run::{Ended, end_text};
use std::process::Abort;

const REFUSED: &str = "\
~ not understood
$
$ fly
$ run run
$ --help
$ run --rows 16 --rows 16
$ run --part 2 --part 2
$ run --policy lazy
$ audit --lives 3
$ resume --rows 16
$ gen --policy fifo
> load 0;
ends 2 0 0 envy: words not understood
~ the number of segments
$ run --segments 3
$ run --segments 4097 --rows 2
> load 0;
ends 2 1 0 envy: segments must be 4 to 4096
~ the number of rows
$ run --rows 1
$ run --rows 65537
> load 0;
ends 2 2 0 envy: rows must be 2 to 65536
~ no pages
$ run --pages 0
$ gen --pages 0
> load 0;
ends 2 3 0 envy: pages must be at least 1
~ the number of frames
$ run --frames 1
$ run --frames 65537
> load 0;
ends 2 4 0 envy: frames must be 2 to 65536
~ the number of entries
$ run --entries 0
$ run --entries 65537
> load 0;
ends 2 5 0 envy: entries must be 1 to 65536
~ too many pages
$ run --pages 81
$ save --pages 81
$ mirror --pages 81
> load 0;
ends 2 6 0 envy: pages and shadows exceed the share
~ too many rows
$ run --segments 17 --rows 65536
> load 0;
ends 2 7 0 envy: more than 1048576 rows
~ too many rows of a large board
$ run --segments 257 --rows 65281 --large 1
> load 0;
ends 2 17 0 envy: more than 16777216 rows
~ the size of a part
$ run --policy hybrid --part 0
$ run --policy hybrid --part 8
$ save --policy hybrid --part 8
$ tpca --policy hybrid --part 0
$ index --policy hybrid --part 0
$ mirror --policy hybrid --part 8
> load 0;
ends 2 8 0 envy: part must be 1 to segments less 1
~ no limit
$ run --limit 0
$ save --limit 0
$ tpca --limit 0
$ index --limit 0
$ mirror --limit 0
> load 0;
ends 2 9 0 envy: limit must be at least 1
~ the mark
$ run --mark 0
$ run --mark 9
$ save --mark 9
$ tpca --mark 0
$ index --mark 17
$ mirror --mark 9
> load 0;
ends 2 10 0 envy: mark must be 1 to frames
~ too many transfers
$ tpca --transfers 1070
> load 0;
ends 2 11 0 envy: the load does not fit
~ too few shadows for a transfer
$ tpca --shadows 4
> load 0;
ends 2 12 0 envy: shadows must be at least 5
~ too few shadows for an index
$ index --shadows 31
> load 0;
ends 2 13 0 envy: shadows must be at least 32
~ too few pages for an index
$ index --pages 19
> load 0;
ends 2 14 0 envy: pages must be at least 20
";

#[test]
fn refused_words_do_nothing(rt: HostRuntime) {
    check_table(&rt, REFUSED);
}

/// All that is said on standard error: for a status, its second number, and how many lines were done.
const TEXTS: &str = "\
0 0 7
2 0 0 envy: words not understood
2 1 0 envy: segments must be 4 to 4096
2 2 0 envy: rows must be 2 to 65536
2 3 0 envy: pages must be at least 1
2 4 0 envy: frames must be 2 to 65536
2 5 0 envy: entries must be 1 to 65536
2 6 0 envy: pages and shadows exceed the share
2 7 0 envy: more than 1048576 rows
2 8 0 envy: part must be 1 to segments less 1
2 9 0 envy: limit must be at least 1
2 10 0 envy: mark must be 1 to frames
2 11 0 envy: the load does not fit
2 12 0 envy: shadows must be at least 5
2 13 0 envy: shadows must be at least 32
2 14 0 envy: pages must be at least 20
2 15 0 envy: per cent must be 1 to 99
2 16 0 envy: hot and share go together
2 17 0 envy: more than 16777216 rows
3 0 0 envy: read fault after 0 lines
3 0 12 envy: read fault after 12 lines
4 0 0 envy: write fault after 0 lines
4 0 1 envy: write fault after 1 lines
5 1 0 envy: line 1: unknown word
5 2 8 envy: line 9: bad number
5 3 9 envy: line 10: wrong count of fields
5 4 99 envy: line 100: longer than 120 bytes
6 0 0 envy: power did not return after 0 lines
6 0 3 envy: power did not return after 3 lines
7 0 0 envy: bad flash operation
8 0 0 envy: out of memory
9 0 1099511627775 envy: trace longer than 1099511627776 bytes
10 1 0 envy: image ends early
10 2 0 envy: not an image
10 3 0 envy: image has a bad shape
10 4 0 envy: setup does not fit the image
10 5 0 envy: image is not sound
11 0 0 envy: image could not be installed
3 0 1099511627776 envy: read fault after 1099511627776 lines
5 4 1099511627776 envy: line 1099511627777: longer than 120 bytes
";

/// The number of a small kind that a text spells.
fn byte_of(rt: &impl Abort, text: &str) -> u8 {
    number_of(rt, text).min(255) as u8
}

/// An end of this status, with its second number after so many lines, has the text behind them.
fn check_text(rt: &impl Abort, row: &str) {
    let (status, rest) = parted(row, ' ');
    let (why, rest) = parted(rest, ' ');
    let (lines, wanted) = parted(rest, ' ');
    let ended: Ended<u8> = Ended {
        status: byte_of(rt, status),
        why: byte_of(rt, why),
        lines: number_of(rt, lines).min(u64::MAX - 1),
        taken: 0,
        board: None,
        second: None,
    };
    let mut text = ArrayVec::new();
    end_text(&ended, &mut text);
    holds(rt, text.as_slice() == wanted.as_bytes(), row, "text");
}

#[test]
fn each_end_has_its_text(rt: HostRuntime) {
    for row in TEXTS.split('\n') {
        if !row.is_empty() {
            check_text(&rt, row);
        }
    }
}

/// What is written, and how the run ends.
const GENERATED: &str = "\
~ no lines
$ gen --start 7 --lines 0
> load 0;
ends 0 0 0
taken 0
~ five lines
$ gen --start 7 --lines 5
> load 0;
< tick;load 1602;tick;begin;store 1232 146749363665314351;
ends 0 0 0
taken 0
~ a sink that fails
$ gen --start 7
> load 0;
< tick;
ends 4 0 0 envy: write fault after 0 lines
sink 2
";

#[test]
fn a_trace_is_generated(rt: HostRuntime) {
    check_table(&rt, GENERATED);
}
