//! The line `stat`, and the cost of cleaning.

use crate::told::{same, same_bytes};
use arrayvec::ArrayVec;
use envy_array::Counts;
use envy_trace::{cost, stat_text};
use std::process::Abort;

const EACH: Counts = Counts {
    hits: 1,
    misses: 20,
    flushes: 3,
    copies: 4,
    moves: 5,
    erases: 6,
    swaps: 7,
};

const EACH_TOLD: &str =
    "stat hits 1 misses 20 flushes 3 copies 4 moves 5 erases 6 swaps 7 cost 300";

const LARGEST: Counts = Counts {
    hits: u64::MAX,
    misses: u64::MAX,
    flushes: 1,
    copies: u64::MAX,
    moves: u64::MAX,
    erases: u64::MAX,
    swaps: u64::MAX,
};

const LARGEST_TOLD: &str =
    "stat hits 18446744073709551615 misses 18446744073709551615 flushes 1 copies 18446744073709551615 moves 18446744073709551615 erases 18446744073709551615 swaps 18446744073709551615 cost 3689348814741910323000";

/// Tests that this line tells the counters.
fn check_line(rt: &impl Abort, counts: &Counts, wanted: &str, name: &str) {
    let mut out: ArrayVec<u8, 512> = ArrayVec::new();
    stat_text(counts, &mut out);
    same_bytes(rt, &out, wanted.as_bytes(), name);
}

#[test]
fn each_counter_stands_at_its_name(rt: HostRuntime) {
    check_line(&rt, &EACH, EACH_TOLD, "each counter");
}

#[test]
fn the_largest_counters_fit(rt: HostRuntime) {
    check_line(&rt, &LARGEST, LARGEST_TOLD, "largest counters");
}

/// Copies, moves and flushes, and their cost.
const COSTS: [(&str, [u64; 3], u128); 4] = [
    ("3 and 0 to 13", [3, 0, 13], 23),
    ("3 and 0 to 12", [3, 0, 12], 25),
    ("1 and 0 to 12", [1, 0, 12], 8),
    ("5 and 6 to 0", [5, 6, 0], 0),
];

/// Tests the cost of so many copies, moves and flushes.
fn check_cost(rt: &impl Abort, row: &(&str, [u64; 3], u128)) {
    let (name, [copies, moves, flushes], wanted) = *row;
    let counts = Counts {
        copies,
        moves,
        flushes,
        ..Counts::ZERO
    };
    same(rt, cost(&counts), wanted, name);
}

#[test]
fn cost_is_rounded_down(rt: HostRuntime) {
    for row in COSTS.as_slice() {
        check_cost(&rt, row);
    }
}
