//! Generated traces, under each policy: the memory writes what the plain machine writes, and its counters are those of
//! a program that was written apart from this one, by the rules alone.

use crate::filled::{put_number, put_text};
use crate::images::image;
use crate::played_run::NO_ROOM;
use crate::rows::{number_of, parted};
use crate::told::{holds, same};
use std::alloc::Global;
use std::process::Abort;

/// The options of a small array.
const SMALL: &str =
    "--segments 6 --rows 8 --pages 26 --shadows 4 --frames 4 --entries 3 --mark 2 --limit 3";

/// What the trace over the usual array counts: the options that name a policy, and the counters.
const OF_USUAL: &str = "\
--policy greedy|stat hits 785 misses 12637 flushes 5106 copies 1534 moves 0 erases 408 swaps 0 cost 30
--policy fifo|stat hits 785 misses 12637 flushes 5105 copies 1709 moves 0 erases 419 swaps 0 cost 33
--policy locality|stat hits 785 misses 12637 flushes 5105 copies 7973 moves 956 erases 872 swaps 0 cost 174
--policy hybrid|stat hits 785 misses 12637 flushes 5103 copies 8124 moves 357 erases 843 swaps 0 cost 166";

/// What the trace over the small array counts.
const OF_SMALL: &str = "\
--policy greedy|stat hits 1505 misses 11687 flushes 4855 copies 2298 moves 0 erases 893 swaps 7 cost 47
--policy fifo|stat hits 1505 misses 11687 flushes 4850 copies 2603 moves 0 erases 927 swaps 0 cost 53
--policy locality|stat hits 1505 misses 11687 flushes 4846 copies 8278 moves 805 erases 1738 swaps 1 cost 187
--policy hybrid|stat hits 1505 misses 11687 flushes 4845 copies 7172 moves 161 erases 1519 swaps 2 cost 151";

/// What is written for a trace by these words, which do it to its end.
pub(crate) fn written(
    rt: &(impl Abort + Alloc<A = Global>),
    command: &str,
    trace: &[u8],
) -> Vec<u8> {
    image(rt, command, trace, b"")
}

/// Three words of a command, or more, with blanks between them.
pub(crate) fn joined(
    rt: &(impl Abort + Alloc<A = Global>),
    word: &str,
    options: &str,
    others: &str,
) -> String {
    format!(in rt.alloc(); "{word} {options} {others}").expect(rt, NO_ROOM)
}

/// The trace, and a line behind it that asks for the counters.
pub(crate) fn asking(rt: &(impl Abort + Alloc<A = Global>), trace: &[u8]) -> Vec<u8> {
    let mut lines = trace.to_vec(rt.alloc()).expect(rt, NO_ROOM);
    put_text(rt, &mut lines, b"stat\n");
    lines
}

/// The replies are those of the plain machine, and then these counters are told, which end with a newline.
fn is_counted(memory: &[u8], plain: &[u8], told: &str) -> bool {
    let Some(lines) = memory.strip_suffix(b"\n") else {
        return false;
    };
    lines.strip_suffix(told.as_bytes()) == Some(plain)
}

/// The trace is answered under the row's policy as by the plain machine, and then its counters are told.
fn check_policy(
    rt: &(impl Abort + Alloc<A = Global>),
    options: &str,
    lines: &[u8],
    plain: &[u8],
    row: &str,
) {
    let (policy, told) = parted(row, '|');
    let memory = written(rt, &joined(rt, "run", options, policy), lines);
    holds(rt, is_counted(&memory, plain, told), policy, "replies");
}

/// The trace is answered under each policy as by the plain machine, and then these counters are told.
fn check_counters(rt: &(impl Abort + Alloc<A = Global>), options: &str, trace: &[u8], table: &str) {
    let plain = written(rt, &joined(rt, "plain", options, ""), trace);
    let lines = asking(rt, trace);
    for row in table.split('\n') {
        check_policy(rt, options, &lines, &plain, row);
    }
}

#[test]
fn the_memory_writes_what_the_plain_machine_writes(rt: HostRuntime) {
    let trace = written(&rt, "gen --start 7 --lines 20000", b"");
    check_counters(&rt, "", &trace, OF_USUAL);
}

#[test]
fn a_small_array_swaps_its_segments(rt: HostRuntime) {
    let trace = written(&rt, "gen --start 11 --lines 20000 --pages 26", b"");
    check_counters(&rt, SMALL, &trace, OF_SMALL);
}

/// The line that plans a failure.
pub(crate) fn put_plan(
    rt: &(impl Abort + Alloc<A = Global>),
    out: &mut Vec<u8>,
    word: &str,
    k: u64,
    g: u64,
) {
    put_text(rt, out, word.as_bytes());
    put_number(rt, out, k);
    put_text(rt, out, b" ");
    put_number(rt, out, g);
    put_text(rt, out, b"\n");
}

/// The failures before the line of this number.
fn put_failures(rt: &(impl Abort + Alloc<A = Global>), out: &mut Vec<u8>, number: u64) {
    if number % 50 == 0 {
        put_plan(rt, out, "cut ", 1 + number.wrapping_mul(7) % 97, number);
    }
    if number % 333 == 0 {
        put_plan(rt, out, "bad ", 1 + number % 5, number);
    }
    if number % 1999 == 0 {
        put_text(rt, out, b"power\n");
    }
}

/// The trace with failures before its lines: a cut before each fiftieth, a bad operation before each 333rd, and power
/// that fails before each 1,999th; at its end the counters are asked for.
fn with_failures(rt: &(impl Abort + Alloc<A = Global>), trace: &[u8]) -> Vec<u8> {
    let mut failing = Vec::new(rt.alloc());
    let mut number = 1_u64;
    let mut is_begun = false;
    for byte in trace {
        if !is_begun {
            put_failures(rt, &mut failing, number);
            number = number.wrapping_add(1);
        }
        put_text(rt, &mut failing, &[*byte]);
        is_begun = *byte != b'\n';
    }
    put_text(rt, &mut failing, b"stat\n");
    failing
}

/// How many of the replies are this one. Each of them ends with a newline.
fn count_of(replies: &[u8], reply: &[u8]) -> u64 {
    let mut count = 0_u64;
    let mut from = 0_usize;
    for (at, byte) in replies.iter().enumerate() {
        if *byte == b'\n' {
            if replies.get(from..at) == Some(reply) {
                count = count.saturating_add(1);
            }
            from = at.saturating_add(1);
        }
    }
    count
}

/// For each policy: how many replies say `fault`, and the counters.
const OF_FAILURES: &str = "\
greedy|60|stat hits 1350 misses 11765 flushes 4257 copies 1801 moves 0 erases 817 swaps 0 cost 42
fifo|60|stat hits 1357 misses 11760 flushes 4241 copies 4926 moves 0 erases 1214 swaps 1 cost 116
locality|59|stat hits 1348 misses 11771 flushes 4218 copies 5618 moves 654 erases 1411 swaps 0 cost 148
hybrid|60|stat hits 1349 misses 11780 flushes 4267 copies 4912 moves 556 erases 1292 swaps 0 cost 128";

/// The trace, in which things fail, is answered under the row's policy as the row says.
fn check_failures(rt: &(impl Abort + Alloc<A = Global>), trace: &[u8], row: &str) {
    let (policy, rest) = parted(row, '|');
    let (faults, told) = parted(rest, '|');
    let options = joined(rt, SMALL, "--policy", policy);
    let memory = written(rt, &joined(rt, "run", &options, ""), trace);
    holds(rt, ends_with_line(&memory, told), policy, "counters");
    same(rt, count_of(&memory, b"lost"), 400, policy, "lost");
    let faults = number_of(rt, faults);
    same(rt, count_of(&memory, b"fault"), faults, policy, "fault");
}

#[test]
fn failures_leave_the_counters_that_the_rules_give(rt: HostRuntime) {
    let calm = written(&rt, "gen --start 13 --lines 20000 --pages 26", b"");
    let trace = with_failures(&rt, &calm);
    for row in OF_FAILURES.split('\n') {
        check_failures(&rt, &trace, row);
    }
}

/// Whether the last of these lines is this one.
pub(crate) fn ends_with_line(lines: &[u8], line: &str) -> bool {
    let Some(lines) = lines.strip_suffix(b"\n") else {
        return false;
    };
    match lines.strip_suffix(line.as_bytes()) {
        Some(others) => others.ends_with(b"\n"),
        None => false,
    }
}
