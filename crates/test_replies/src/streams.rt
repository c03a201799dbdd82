//! Sources that give few bytes at a time, streams that fail, and traces that stop anywhere.

use crate::played_run::{Given, Told, calm, play};
use crate::rows::{check_played, check_table, stops};
use crate::told::holds;
use std::alloc::Global;
use std::process::Abort;

/// A stream that fails. The seventh call of the sink is the flush, and each call of the source fills 8 bytes.
const FAILING: &str = "\
~ pieces of 8 bytes
$ run
$ plain
> begin;begin;put 0 5 1;store 6 9;put 1 7 9;store 32 9;
< tx 0;tx 1;ok;held 0;held 0;ok;
piece 8
taken 53
~ write 1 fails
$ run
$ plain
> begin;begin;put 0 5 1;store 6 9;put 1 7 9;store 32 9;
sink 1
piece 64
ends 4 0 1 envy: write fault after 1 lines
taken 53
~ write 2 fails
$ run
$ plain
> begin;begin;put 0 5 1;store 6 9;put 1 7 9;store 32 9;
< tx 0;
sink 2
piece 64
ends 4 0 2 envy: write fault after 2 lines
taken 53
~ write 3 fails
$ run
$ plain
> begin;begin;put 0 5 1;store 6 9;put 1 7 9;store 32 9;
< tx 0;tx 1;
sink 3
piece 64
ends 4 0 3 envy: write fault after 3 lines
taken 53
~ write 4 fails
$ run
$ plain
> begin;begin;put 0 5 1;store 6 9;put 1 7 9;store 32 9;
< tx 0;tx 1;ok;
sink 4
piece 64
ends 4 0 4 envy: write fault after 4 lines
taken 53
~ write 5 fails
$ run
$ plain
> begin;begin;put 0 5 1;store 6 9;put 1 7 9;store 32 9;
< tx 0;tx 1;ok;held 0;
sink 5
piece 64
ends 4 0 5 envy: write fault after 5 lines
taken 53
~ write 6 fails
$ run
$ plain
> begin;begin;put 0 5 1;store 6 9;put 1 7 9;store 32 9;
< tx 0;tx 1;ok;held 0;held 0;
sink 6
piece 64
ends 4 0 6 envy: write fault after 6 lines
taken 53
~ write 7 fails
$ run
$ plain
> begin;begin;put 0 5 1;store 6 9;put 1 7 9;store 32 9;
< tx 0;tx 1;ok;held 0;held 0;ok;
sink 7
piece 64
ends 4 0 6 envy: write fault after 6 lines
taken 53
~ fill 1 fails
$ run
$ plain
> begin;begin;put 0 5 1;store 6 9;put 1 7 9;store 32 9;
source 1
piece 8
ends 3 0 0 envy: read fault after 0 lines
taken 0
~ fill 2 fails
$ run
$ plain
> begin;begin;put 0 5 1;store 6 9;put 1 7 9;store 32 9;
< tx 0;
source 2
piece 8
ends 3 0 1 envy: read fault after 1 lines
taken 8
~ fill 3 fails
$ run
$ plain
> begin;begin;put 0 5 1;store 6 9;put 1 7 9;store 32 9;
< tx 0;tx 1;
source 3
piece 8
ends 3 0 2 envy: read fault after 2 lines
taken 16
~ fill 4 fails
$ run
$ plain
> begin;begin;put 0 5 1;store 6 9;put 1 7 9;store 32 9;
< tx 0;tx 1;ok;
source 4
piece 8
ends 3 0 3 envy: read fault after 3 lines
taken 24
~ fill 5 fails
$ run
$ plain
> begin;begin;put 0 5 1;store 6 9;put 1 7 9;store 32 9;
< tx 0;tx 1;ok;held 0;
source 5
piece 8
ends 3 0 4 envy: read fault after 4 lines
taken 32
~ fill 6 fails
$ run
$ plain
> begin;begin;put 0 5 1;store 6 9;put 1 7 9;store 32 9;
< tx 0;tx 1;ok;held 0;
source 6
piece 8
ends 3 0 4 envy: read fault after 4 lines
taken 40
";

#[test]
fn a_stream_that_fails_ends_the_run(rt: HostRuntime) {
    check_table(&rt, FAILING);
}

/// A trace of which the first bytes are left.
const CUT_SHORT: &str = "\
~ cut short behind 0 bytes
$ run
$ plain
> begin;begin;put 0 5 1;store 6 9;put 1 7 9;store 32 9;
left 0 0
taken all
~ cut short behind 1 to 4 bytes
$ run
$ plain
> begin;begin;put 0 5 1;store 6 9;put 1 7 9;store 32 9;
left 1 4
ends 5 1 0 envy: line 1: unknown word
taken all
~ cut short behind 5 to 6 bytes
$ run
$ plain
> begin;begin;put 0 5 1;store 6 9;put 1 7 9;store 32 9;
left 5 6
< tx 0;
taken all
~ cut short behind 7 to 10 bytes
$ run
$ plain
> begin;begin;put 0 5 1;store 6 9;put 1 7 9;store 32 9;
left 7 10
< tx 0;
ends 5 1 1 envy: line 2: unknown word
taken all
~ cut short behind 11 to 12 bytes
$ run
$ plain
> begin;begin;put 0 5 1;store 6 9;put 1 7 9;store 32 9;
left 11 12
< tx 0;tx 1;
taken all
~ cut short behind 13 to 14 bytes
$ run
$ plain
> begin;begin;put 0 5 1;store 6 9;put 1 7 9;store 32 9;
left 13 14
< tx 0;tx 1;
ends 5 1 2 envy: line 3: unknown word
taken all
~ cut short behind 15 to 20 bytes
$ run
$ plain
> begin;begin;put 0 5 1;store 6 9;put 1 7 9;store 32 9;
left 15 20
< tx 0;tx 1;
ends 5 3 2 envy: line 3: wrong count of fields
taken all
~ cut short behind 21 to 22 bytes
$ run
$ plain
> begin;begin;put 0 5 1;store 6 9;put 1 7 9;store 32 9;
left 21 22
< tx 0;tx 1;ok;
taken all
~ cut short behind 23 to 26 bytes
$ run
$ plain
> begin;begin;put 0 5 1;store 6 9;put 1 7 9;store 32 9;
left 23 26
< tx 0;tx 1;ok;
ends 5 1 3 envy: line 4: unknown word
taken all
~ cut short behind 27 to 30 bytes
$ run
$ plain
> begin;begin;put 0 5 1;store 6 9;put 1 7 9;store 32 9;
left 27 30
< tx 0;tx 1;ok;
ends 5 3 3 envy: line 4: wrong count of fields
taken all
~ cut short behind 31 to 32 bytes
$ run
$ plain
> begin;begin;put 0 5 1;store 6 9;put 1 7 9;store 32 9;
left 31 32
< tx 0;tx 1;ok;held 0;
taken all
~ cut short behind 33 to 34 bytes
$ run
$ plain
> begin;begin;put 0 5 1;store 6 9;put 1 7 9;store 32 9;
left 33 34
< tx 0;tx 1;ok;held 0;
ends 5 1 4 envy: line 5: unknown word
taken all
~ cut short behind 35 to 40 bytes
$ run
$ plain
> begin;begin;put 0 5 1;store 6 9;put 1 7 9;store 32 9;
left 35 40
< tx 0;tx 1;ok;held 0;
ends 5 3 4 envy: line 5: wrong count of fields
taken all
~ cut short behind 41 to 42 bytes
$ run
$ plain
> begin;begin;put 0 5 1;store 6 9;put 1 7 9;store 32 9;
left 41 42
< tx 0;tx 1;ok;held 0;held 0;
taken all
~ cut short behind 43 to 46 bytes
$ run
$ plain
> begin;begin;put 0 5 1;store 6 9;put 1 7 9;store 32 9;
left 43 46
< tx 0;tx 1;ok;held 0;held 0;
ends 5 1 5 envy: line 6: unknown word
taken all
~ cut short behind 47 to 51 bytes
$ run
$ plain
> begin;begin;put 0 5 1;store 6 9;put 1 7 9;store 32 9;
left 47 51
< tx 0;tx 1;ok;held 0;held 0;
ends 5 3 5 envy: line 6: wrong count of fields
taken all
~ cut short behind 52 to 53 bytes
$ run
$ plain
> begin;begin;put 0 5 1;store 6 9;put 1 7 9;store 32 9;
left 52 53
< tx 0;tx 1;ok;held 0;held 0;ok;
taken all
";

#[test]
fn a_trace_may_be_cut_short_anywhere(rt: HostRuntime) {
    check_table(&rt, CUT_SHORT);
}

/// A frame of the usual board has these first words.
fn has_frame(told: &Told, one: u64, two: u64) -> bool {
    for frame in 0..8 {
        let at = 303 + 32 * frame;
        if told.word(at) == Some(one) && told.word(at + 1) == Some(two) {
            return true;
        }
    }
    false
}

/// The sink fails at the second reply, and what was stored stays.
fn check_stored(rt: &(impl Abort + Alloc<A = Global>), given: &Given<'_>, replies: &[u8]) {
    let told = play(rt, given);
    let ends = stops(4, 0, 2, "envy: write fault after 2 lines");
    check_played(rt, "a failing sink", given, &told, ends, replies);
    holds(rt, has_frame(&told, 1, 2), "a failing sink", "frame");
}

/// A source that fails at its second call.
const SOURCE: &str = "\
~ a failing source
$ run
> load 0;
< 0;
ends 3 0 1 envy: read fault after 1 lines
piece 64
source 2
taken 7
";

#[test]
fn a_sink_that_fails_leaves_what_was_stored(rt: HostRuntime) {
    let usual = calm("run", b"store 0 1\nstore 1 2\nload 0\n");
    let second_fails = Given {
        sink_fails: 2,
        ..usual
    };
    check_stored(&rt, &second_fails, b"ok\n");
    let small = Given { room: 4, ..usual };
    check_stored(&rt, &small, b"ok\no");
    check_table(&rt, SOURCE);
}
