//! How often calls read the board, of which no clause says anything.

use crate::asked::{BUSY, Task, reads_in, setup_of};
use crate::told::same_at;
use envy_base::Shape;
use envy_policy::{Policy, Setup};
use std::alloc::Global;
use std::process::Abort;

/// The same of a memory of so many segments, rows and pages.
fn cleaning_of(rt: &(impl Abort + Alloc<A = Global>), segments: u16, rows: u16, pages: u32) -> u64 {
    let setup = setup_of(u32::from(segments), u32::from(rows), pages, 1);
    let reads = reads_in(rt, setup, Task::Cleaning(segments, rows));
    reads.first().copied().unwrap_or(u64::MAX)
}

/// Twice as many reads, and those of a row.
fn twice(reads: u64) -> u64 {
    reads.wrapping_mul(2).wrapping_add(45)
}

fn at_most(rt: &impl Abort, found: u64, most: u64, name: &str) {
    same_at(rt, &found, &found.min(most), name, most);
}

// A row that is kept makes one step, which looks at the job three times (3), asks who keeps the row (4 at most: the
// page that it was claimed for, the page's place and undo, and the undo's slot) and reads its words (32). The switch
// looks where the copy came from (1), asks again who keeps that row (4), and reads the word that it changes (1). Those
// are 45. The steps that switch, place and erase look at the job too (9), and the last at the segment's wear (1).
//
// Each kept row makes as many reads as another, k, and what doesn't depend on the rows makes c. Then n rows, one of
// which isn't kept, make k (n - 1) + c, and 2 n rows make k - c more than twice as many, so at most 45 more. Steps
// that began at the first row again would read 2 words of each row that was copied before: about n n in all.
#[test]
fn a_cleaning_looks_at_each_row_a_few_times(rt: HostRuntime) {
    let few = cleaning_of(&rt, 34, 16, 64);
    at_most(&rt, few, 45 * 16 + 10, "of 16 rows");
    let more = cleaning_of(&rt, 34, 32, 64);
    at_most(&rt, more, twice(few), "of 32 rows");
    let most = cleaning_of(&rt, 34, 64, 64);
    at_most(&rt, most, twice(more), "of 64 rows");
}

/// How often each call of the list reads the board, by this policy, of so many segments and with this last page.
fn listed_reads(
    rt: &(impl Abort + Alloc<A = Global>),
    policy: Policy,
    segments: u32,
    last: u16,
) -> Vec<u64> {
    let setup = setup_of(segments, 32, u32::from(last) + 1, 4);
    let task = Task::Listed(32 * u32::from(last));
    reads_in(rt, Setup { policy, ..setup }, task)
}

fn same_reads(rt: &impl Abort, found: &[u64], wanted: &[u64], name: &str) {
    assert!(rt; found == wanted, "{name}: {found:?}, and not {wanted:?}");
}

// Nothing but the number of pages differs, and only format, attach and revive may look at all pages. Each call reads
// the same fields of its own page, of slots and of rows.
#[test]
fn calls_read_as_much_of_many_pages(rt: HostRuntime) {
    let few = listed_reads(&rt, Policy::Fifo, 34, 63);
    let many = listed_reads(&rt, Policy::Fifo, 34, 511);
    same_reads(&rt, &many, &few, "of 512 pages");
    let few = cleaning_of(&rt, 34, 32, 64);
    let many = cleaning_of(&rt, 34, 32, 512);
    same_at(&rt, &many, &few, "a cleaning of pages", 512);
}

/// The policies, under each of which no call looks at all segments.
const POLICIES: &str = "greedy fifo locality hybrid-of-2 lifetime";

fn policy_of(name: &str) -> Policy {
    if name == "greedy" {
        Policy::Greedy
    } else if name == "fifo" {
        Policy::Fifo
    } else if name == "locality" {
        Policy::Locality
    } else if name == "lifetime" {
        Policy::Lifetime
    } else {
        Policy::Hybrid(2)
    }
}

// Nothing but the number of segments differs.
#[test]
fn calls_read_as_much_of_many_segments(rt: HostRuntime) {
    for name in POLICIES.split(' ') {
        let few = listed_reads(&rt, policy_of(name), 16, 63);
        let many = listed_reads(&rt, policy_of(name), 4096, 63);
        same_reads(&rt, &many, &few, name);
    }
    let few = cleaning_of(&rt, 16, 32, 64);
    let many = cleaning_of(&rt, 4096, 32, 64);
    same_at(&rt, &many, &few, "a cleaning of segments", 4096);
}

/// A setup of so many segments of 2 rows.
const fn full_setup(segments: u16) -> Setup {
    let setup = setup_of(segments as u32, 2, BUSY as u32 + 1, 1);
    let shape = Shape {
        shadows: 8,
        ..setup.shape
    };
    Setup { shape, ..setup }
}

// Nothing but the number of segments differs, and the positions that are cleaned have the same rows.
#[test]
fn calls_that_clean_read_as_much_of_many_segments(rt: HostRuntime) {
    let few = reads_in(&rt, full_setup(16), Task::Full(16));
    let many = reads_in(&rt, full_setup(4096), Task::Full(4096));
    same_reads(&rt, &many, &few, "of 4096 segments");
    same_at(&rt, &few.last().copied(), &Some(10), "cleaned of", 16);
}

// A store of one word into a frame needs to know but the page's place, which is one word, and whether the page has an
// owner, which the memory knows without the board.
#[test]
fn a_store_into_a_frame_reads_as_much_beside_owned_pages(rt: HostRuntime) {
    let setup = setup_of(34, 32, 512, 4);
    let reads = reads_in(&rt, setup, Task::Stores(0));
    for count in &reads {
        at_most(&rt, *count, 1, "held and sought");
    }
    let beside = reads_in(&rt, setup, Task::Stores(1));
    same_reads(&rt, &beside, &reads, "beside 25 owned pages");
    let beside = reads_in(&rt, setup, Task::Stores(8));
    same_reads(&rt, &beside, &reads, "beside 200 owned pages");
}

/// A setup of so many segments of 2 rows, in which one erase is the limit.
const fn idle_setup(segments: u32) -> Setup {
    Setup {
        shape: Shape {
            segments,
            rows: 2,
            pages: 8,
            shadows: 0,
            frames: 2,
            entries: 1,
            reserves: 0,
            sums: 0,
        },
        policy: Policy::Locality,
        limit: 1,
        mark: 1,
    }
}

// A tick looks whether a job runs, which is one word. As many erases have begun as the limit says, so the first tick
// that finds nothing else to do looks which segment is at each position but the spare's, and at the wear of that, and
// then at the wear of each segment. One segment is worn once more than the others, which is no more than the limit, so
// no swap can be due until another erase has begun: the next tick doesn't look at any segment.
#[test]
fn an_idle_tick_looks_at_wear_once(rt: HostRuntime) {
    let reads = reads_in(&rt, idle_setup(16), Task::Idle);
    same_reads(&rt, &reads, &[1 + 2 * 15 + 16, 1], "of 16 segments");
    let reads = reads_in(&rt, idle_setup(4096), Task::Idle);
    same_reads(&rt, &reads, &[1 + 2 * 4095 + 4096, 1], "of 4096 segments");
}
