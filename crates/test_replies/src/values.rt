//! Options are handed on: each changes the counters, which a program that was written apart from this one made by the
//! rules alone.

use crate::generated::{asking, ends_with_line, joined, written};
use crate::images::image;
use crate::index::operations;
use crate::played_run::{NO_ROOM, calm, play};
use crate::rows::{number_of, parted};
use crate::told::{holds, same};
use crate::tpca::SUMS;
use std::alloc::Global;
use std::process::Abort;

/// What the trace over the usual array counts under a hybrid with parts of this size. Each row has the options that say
/// how many segments there are and the like; policy, part, limit and mark; how often the segments were erased, formatting
/// included; and the counters.
const HYBRIDS: &str = "\
|--policy hybrid --part 1 --mark 3|260|stat hits 232 misses 3810 flushes 1530 copies 2258 moves 319 erases 252 swaps 0 cost 168
|--policy hybrid --part 2 --mark 3|239|stat hits 232 misses 3810 flushes 1527 copies 2197 moves 62 erases 231 swaps 0 cost 147
|--policy hybrid --part 3 --mark 3|284|stat hits 232 misses 3810 flushes 1527 copies 2919 moves 63 erases 276 swaps 0 cost 195
|--policy hybrid --part 7 --mark 3|129|stat hits 232 misses 3810 flushes 1530 copies 514 moves 0 erases 121 swaps 0 cost 33";

/// What a longer trace counts where pages are parted by their lives.
const LIFETIMES: &str = "\
|--policy lifetime|502|stat hits 785 misses 12637 flushes 5104 copies 2898 moves 0 erases 494 swaps 0 cost 56
--segments 6 --rows 24|--policy lifetime --mark 3|369|stat hits 785 misses 12637 flushes 5114 copies 3680 moves 0 erases 363 swaps 0 cost 71";

/// What it counts under greedy beside it.
const GREEDY: &str = "\
--segments 6 --rows 24|--policy greedy --mark 3|273|stat hits 785 misses 12637 flushes 5114 copies 1410 moves 0 erases 267 swaps 0 cost 27";

/// What the trace over the small array counts where segments change places.
const SWAPPING: &str = "\
--segments 6 --rows 8 --pages 26 --shadows 4 --frames 4 --entries 3|--mark 2 --limit 3 --policy greedy|899|stat hits 1505 misses 11687 flushes 4855 copies 2298 moves 0 erases 893 swaps 7 cost 47";

/// How often the segments of the saved board were erased in all.
fn erases_of_save(rt: &(impl Abort + Alloc<A = Global>), command: &str, trace: &[u8]) -> u64 {
    let told = play(rt, &calm(command, trace));
    same(rt, u64::from(told.status), 0, command, "status");
    let mut sum = 0_u64;
    for segment in 0..told.first.segments.min(100) as usize {
        sum = sum.saturating_add(told.word(72 + segment).unwrap_or(0));
    }
    sum
}

/// What is written for the trace by this command ends with this line.
fn check_told(rt: &(impl Abort + Alloc<A = Global>), command: &str, trace: &[u8], told: &str) {
    let replies = written(rt, command, trace);
    holds(rt, ends_with_line(&replies, told), command, "counters");
}

/// The lines are answered so by this word with these options.
fn check_lines(
    rt: &(impl Abort + Alloc<A = Global>),
    word: &str,
    row: &str,
    lines: &[u8],
    told: &str,
) {
    let (shape, rest) = parted(row, '|');
    let options = parted(rest, '|').0;
    check_told(rt, &joined(rt, word, shape, options), lines, told);
}

/// The words hand the options on to a memory: what the counters say shows it.
fn check_value(rt: &(impl Abort + Alloc<A = Global>), row: &str, trace: &[u8]) {
    let lines = asking(rt, trace);
    let (shape, rest) = parted(row, '|');
    let (options, rest) = parted(rest, '|');
    let (erases, told) = parted(rest, '|');
    check_lines(rt, "run", row, &lines, told);
    check_lines(rt, "mirror", row, &lines, told);
    let command = joined(rt, "save", shape, options);
    let found = erases_of_save(rt, &command, trace);
    same(rt, found, number_of(rt, erases), &command, "erases");
    let bytes = image(rt, &joined(rt, "save", shape, ""), b"", &lines);
    check_told(rt, &joined(rt, "resume", "", options), &bytes, told);
}

fn check_values(rt: &(impl Abort + Alloc<A = Global>), table: &str, command: &str) {
    let trace = written(rt, command, b"");
    for row in table.split('\n') {
        check_value(rt, row, &trace);
    }
}

#[test]
fn part_and_mark_are_handed_on_to_a_memory(rt: HostRuntime) {
    check_values(&rt, HYBRIDS, "gen --start 7 --lines 6000");
}

#[test]
fn lives_are_noted_by_a_memory(rt: HostRuntime) {
    check_values(&rt, LIFETIMES, "gen --start 7 --lines 20000");
}

#[test]
fn no_lives_are_noted_under_greedy(rt: HostRuntime) {
    check_values(&rt, GREEDY, "gen --start 7 --lines 20000");
}

#[test]
fn limit_and_mark_are_handed_on_to_a_memory(rt: HostRuntime) {
    check_values(&rt, SWAPPING, "gen --start 11 --lines 20000 --pages 26");
}

/// Two reports of loads have the sums of every load of so many transfers, and not the same counters behind them.
fn check_counters(rt: &impl Abort, found: &[u8], usual: &[u8], command: &str) {
    holds(rt, found.starts_with(SUMS.as_bytes()), command, "sums");
    holds(
        rt,
        usual.starts_with(SUMS.as_bytes()),
        command,
        "usual sums",
    );
    holds(rt, found != usual, command, "counters");
}

// With a lower mark ticks flush more pages, and with a lower limit they let segments change places.
#[test]
fn limit_and_mark_are_handed_on_to_a_load(rt: HostRuntime) {
    let usual = written(&rt, "tpca", b"");
    let command = "tpca --limit 1";
    check_counters(&rt, &written(&rt, command, b""), &usual, command);
    let command = "tpca --mark 1";
    check_counters(&rt, &written(&rt, command, b""), &usual, command);
}

/// What the board's map says behind its slots, once a trace is done.
fn map_of(rt: &(impl Abort + Alloc<A = Global>), command: &str, trace: &[u8]) -> Vec<u64> {
    let told = play(rt, &calm(command, trace));
    same(rt, u64::from(told.status), 0, command, "status");
    let map = told.sram.get(72..).unwrap_or(&[]);
    map.to_vec(rt.alloc()).expect(rt, NO_ROOM)
}

/// Indexes, each of whose maps is another.
const INDEXES: &str = "\
index --policy fifo
index --policy locality
index --policy hybrid --part 3
index --policy hybrid --part 15
index --policy lifetime";

// An index doesn't tick, so that limit and mark say nothing there.
#[test]
fn policy_and_part_are_handed_on_to_an_index(rt: HostRuntime) {
    let trace = operations(&rt);
    let greedy = map_of(&rt, "index", &trace);
    let mut last = Vec::new(rt.alloc());
    for command in INDEXES.split('\n') {
        let map = map_of(&rt, command, &trace);
        holds(&rt, map.as_slice() != greedy.as_slice(), command, "map");
        holds(&rt, map.as_slice() != last.as_slice(), command, "map");
        last = map;
    }
}
