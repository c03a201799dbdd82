//! Images that are taken up, and those that aren't.

use crate::images::image;
use crate::played_run::{Given, calm, play};
use crate::rows::check_behind;
use crate::told::same;
use std::alloc::Global;
use std::process::Abort;

/// An image of the usual board, which has this many bytes.
const USUAL: usize = 37272;

/// How such an image is judged.
const JUDGED: &str = "\
~ a sound image
$ audit
< sound;
ends 0 0 0
taken 37272
~ an image whose map breaks a rule
$ audit
byte 32864 3
< unsound a;
ends 0 0 0
taken 37272
~ such an image is not resumed
$ resume
byte 32864 3
ends 10 5 0 envy: image is not sound
taken 37272
~ an image of whose flash a byte was programmed
$ audit
byte 32 0
< unsound f;
ends 0 0 0
taken 37272
~ an image whose last byte is missing
$ audit
$ resume
left 37271 37271
ends 10 1 0 envy: image ends early
taken 37271
";

#[test]
fn an_image_is_judged(rt: HostRuntime) {
    let image = image(&rt, "save", b"", b"");
    same(&rt, image.len() as u64, USUAL as u64, "save", "length");
    check_behind(&rt, JUDGED, &image);
}

/// A trace behind an image. An audit leaves it, and no bytes of the image are lines.
const BEHIND: &str = "\
~ a trace behind an image
$ resume
> load 5;begin;
< 1;tx 0;
ends 0 0 2
taken 37285
~ an audit leaves what is behind the image
$ audit
> load 5;begin;
< sound;
ends 0 0 0
taken 37272
~ no bytes of the image are lines, and all are counted
$ resume
> load 5;fly;
< 1;
ends 5 1 1 envy: line 2: unknown word
taken 37283
";

#[test]
fn a_trace_behind_an_image_is_answered(rt: HostRuntime) {
    let image = image(&rt, "save", b"store 5 1\nbegin\nput 0 5 2\n", b"");
    check_behind(&rt, BEHIND, &image);
}

/// The smallest board: 8 rows of 256 bytes, and 161 words of SRAM.
const SMALLEST: &str = "save --segments=4 --rows=2 --pages=3 --shadows=1 --frames=2 --entries=1";

/// How many bytes its image has: 32 and 2,048 and 1,288.
const SIZE: usize = 3368;

/// Images of it that end early. No board is made before the head is read.
const STOPPED: &str = "\
~ an image that stops in its head
$ audit
$ resume
left 0 31
ends 10 1 0 envy: image ends early
taken all
boards 0
~ an image that stops behind its head
$ audit
$ resume
left 32 3367
ends 10 1 0 envy: image ends early
taken all
";

#[test]
fn an_image_may_stop_at_any_byte(rt: HostRuntime) {
    let trace = b"store 3 4\nbegin\nput 0 40 5\ntick\n";
    let image = image(&rt, SMALLEST, trace, b"");
    same(&rt, image.len() as u64, SIZE as u64, SMALLEST, "length");
    check_behind(&rt, STOPPED, &image);
}

/// Bytes of the numbers of the shape, and of the mark, and what each of them becomes by itself.
const MISSHAPEN: &str = "\
~ a shape that breaks a rule
$ audit
$ resume
byte 8 3
byte 9 17
byte 12 1
byte 14 2
byte 16 0
byte 16 4
byte 20 2
byte 23 255
byte 24 1
byte 26 2
byte 28 0
byte 30 2
byte 11 255
ends 10 3 0 envy: image has a bad shape
taken 32
boards 0
~ no mark
$ audit
$ resume
byte 0 120
byte 1 120
byte 2 120
byte 3 120
byte 4 120
byte 5 120
byte 6 120
byte 7 120
ends 10 2 0 envy: not an image
taken 8
boards 0
";

#[test]
fn a_shape_is_checked(rt: HostRuntime) {
    check_behind(&rt, MISSHAPEN, &image(&rt, SMALLEST, b"", b""));
}

/// Words that don't fit the smallest board. What is behind the head is not looked at.
const UNFIT: &str = "\
~ words that don't fit an image that stops in its head
$ resume --policy=hybrid --part=4
$ resume --policy=hybrid --part=0
$ resume --policy=fifo --limit=0
$ resume --policy=greedy --mark=0
$ resume --policy=greedy --mark=3
left 31 31
ends 10 1 0 envy: image ends early
taken 31
boards 0
~ words that don't fit a head
$ resume --policy=hybrid --part=4
$ resume --policy=hybrid --part=0
$ resume --policy=fifo --limit=0
$ resume --policy=greedy --mark=0
$ resume --policy=greedy --mark=3
left 32 32
ends 10 4 0 envy: setup does not fit the image
taken 32
boards 0
~ words that don't fit an image
$ resume --policy=hybrid --part=4
$ resume --policy=hybrid --part=0
$ resume --policy=fifo --limit=0
$ resume --policy=greedy --mark=0
$ resume --policy=greedy --mark=3
left 3367 3368
ends 10 4 0 envy: setup does not fit the image
taken 32
boards 0
";

#[test]
fn the_rules_of_the_words_come_before_the_rest(rt: HostRuntime) {
    check_behind(&rt, UNFIT, &image(&rt, SMALLEST, b"", b""));
}

/// A number of the run is this; else they are told, and at which call that was.
fn same_part(rt: &impl Abort, found: u64, wanted: u64, command: &str, part: &str, call: u64) {
    assert!(rt;
        found == wanted,
        "{command}: {part} at {call}: {found}, and not {wanted}"
    );
}

/// This call of the source fails within the image.
fn check_source(rt: &(impl Abort + Alloc<A = Global>), command: &str, image: &[u8], call: u64) {
    let fails = Given {
        source_fails: call,
        ..calm(command, image)
    };
    let told = play(rt, &fails);
    let is_short = u64::from(told.taken < SIZE as u64);
    same_part(rt, u64::from(told.status), 3, command, "status", call);
    same_part(rt, u64::from(told.why), 0, command, "why", call);
    same_part(rt, told.lines, 0, command, "lines", call);
    same_part(
        rt,
        told.boards,
        u64::from(call > 2),
        command,
        "boards",
        call,
    );
    same_part(rt, is_short, 1, command, "taken", call);
}

#[test]
fn a_source_may_fail_within_an_image(rt: HostRuntime) {
    let image = image(&rt, SMALLEST, b"store 3 4\n", b"");
    // 8 and 24 bytes of the head, 8 rows, five times 32 words and one word, each of which is asked for by itself
    for call in 1..17 {
        check_source(&rt, "audit", &image, call);
        check_source(&rt, "resume", &image, call);
    }
}

/// This call of the sink fails, of which the last is the flush.
fn check_sink(rt: &(impl Abort + Alloc<A = Global>), image: &[u8], call: u64) {
    let fails = Given {
        sink_fails: call,
        ..calm(SMALLEST, b"store 3 4\n")
    };
    let told = play(rt, &fails);
    let is_front = u64::from(image.starts_with(&told.written));
    let is_whole = u64::from(told.written.len() == SIZE);
    let name = "a failing sink";
    same_part(rt, u64::from(told.status), 4, name, "status", call);
    same_part(rt, told.lines, 1, name, "lines", call);
    same_part(rt, is_front, 1, name, "text", call);
    same_part(rt, is_whole, u64::from(call == 22), name, "size", call);
}

#[test]
fn a_sink_may_fail_within_an_image(rt: HostRuntime) {
    let image = image(&rt, SMALLEST, b"store 3 4\n", b"");
    // the mark, six numbers, 8 rows, five times 32 words of SRAM and one word, and the flush
    for call in 1..23 {
        check_sink(&rt, &image, call);
    }
}
