//! Calls that lose power at each of their operations: what is found then.

use crate::session::{check_order, check_part, new_memory};
use crate::setups::{COMMON, TWO_SWAPS};
use crate::steps::Step::{Abort, Begin, Commit, Load, Look, PlanCut, Put, Store, Ticks};
use crate::steps::{Step, Tested, is_done, is_met, revive};
use crate::told::{holds_at, same_at};
use envy_policy::Setup;
use std::alloc::Global;
use std::process;

/// Calls of a memory with the first parts behind it, under a cut of power at each operation up to the last one.
#[derive(Clone, Copy)]
struct Cuts {
    name: &'static str,
    setup: Setup,
    before: &'static [Step],
    /// The calls. Where one loses power, power returns.
    calls: &'static [Step],
    /// Up to which operation power is cut, whether the last call is done then, and what a torn word is drawn from.
    last: u32,
    ends_done: bool,
    drawn: u64,
    /// What holds where the last call was done.
    done: &'static [Step],
    /// What may hold where it lost power, and what else may.
    lost: &'static [Step],
    or: &'static [Step],
}

/// Makes all calls, and tells whether the last of them, but for ticks, was done. Where one loses power, power returns.
fn make_all(rt: &impl process::Abort, memory: &mut Tested, cuts: &Cuts) -> bool {
    let mut done = true;
    for i in 0..cuts.calls.len() {
        let step = cuts.calls[i];
        let now = is_done(rt, memory, (cuts.name, i as u64, true), step);
        if !now {
            revive(memory);
        }
        if !matches!(step, Ticks(_)) {
            done = now;
        }
    }
    done
}

/// Whether each of these steps is answered as it says.
fn are_met(memory: &mut Tested, steps: &[Step]) -> bool {
    for step in steps {
        if !is_met(memory, *step) {
            return false;
        }
    }
    true
}

/// Whether what may hold where the last call lost power does.
fn is_lost(memory: &mut Tested, cuts: &Cuts) -> bool {
    are_met(memory, cuts.lost) || are_met(memory, cuts.or)
}

/// Tests calls that are cut at this operation, and tells whether the last one was done.
fn check_cut(rt: &impl process::Abort, alloc: Global, cuts: &Cuts, k: u32) -> bool {
    let mut memory = new_memory(rt, alloc, cuts.setup, u32::MAX);
    check_part(rt, &mut memory, cuts.name, 0, cuts.before);
    check_part(rt, &mut memory, cuts.name, 0, &[PlanCut(k, cuts.drawn)]);
    let done = make_all(rt, &mut memory, cuts);
    if done {
        check_part(rt, &mut memory, cuts.name, 0, cuts.done);
    } else {
        holds_at(rt, is_lost(&mut memory, cuts), cuts.name, k as u64);
    }
    check_order(rt, &memory, cuts.name);
    let _board = memory.into_board();
    done
}

/// Tests calls that are cut at each operation up to the last one.
fn check_cuts(rt: &impl process::Abort, alloc: Global, cuts: &Cuts) {
    let mut done = false;
    for k in 1..cuts.last.saturating_add(1) {
        done = check_cut(rt, alloc, cuts, k);
    }
    same_at(rt, &done, &cuts.ends_done, cuts.name, cuts.last as u64);
}

// The first eight of nine pages, each in a frame of its own.
const FRAMES_ARE_FULL: [Step; 8] = [
    Store(0, 10, Ok(())),
    Store(32, 11, Ok(())),
    Store(64, 12, Ok(())),
    Store(96, 13, Ok(())),
    Store(128, 14, Ok(())),
    Store(160, 15, Ok(())),
    Store(192, 16, Ok(())),
    Store(224, 17, Ok(())),
];

const ALL_NINE: [Step; 9] = [
    Load(0, Ok(10)),
    Load(32, Ok(11)),
    Load(64, Ok(12)),
    Load(96, Ok(13)),
    Load(128, Ok(14)),
    Load(160, Ok(15)),
    Load(192, Ok(16)),
    Load(224, Ok(17)),
    Load(256, Ok(18)),
];

const FIRST_EIGHT: [Step; 9] = [
    Load(0, Ok(10)),
    Load(32, Ok(11)),
    Load(64, Ok(12)),
    Load(96, Ok(13)),
    Load(128, Ok(14)),
    Load(160, Ok(15)),
    Load(192, Ok(16)),
    Load(224, Ok(17)),
    Load(256, Ok(0)),
];

// Two pages change, so that half a transaction would be seen.
const TWO_WERE_PUT: [Step; 4] = [
    Store(5, 1, Ok(())),
    Begin(Ok(0)),
    Put(0, 5, 2, Ok(())),
    Put(0, 37, 3, Ok(())),
];

const NONE_CHANGED: [Step; 2] = [Load(5, Ok(1)), Load(37, Ok(0))];

const BOTH_CHANGED: [Step; 2] = [Load(5, Ok(2)), Load(37, Ok(3))];

const CALLS: [Cuts; 5] = [
    Cuts {
        name: "store with a flush is done or not",
        setup: COMMON,
        before: &FRAMES_ARE_FULL,
        calls: &[Store(256, 18, Ok(()))],
        last: 40,
        ends_done: true,
        drawn: 3,
        done: &ALL_NINE,
        lost: &ALL_NINE,
        or: &FIRST_EIGHT,
    },
    Cuts {
        name: "put is taken back",
        setup: COMMON,
        before: &[Store(5, 1, Ok(())), Begin(Ok(0))],
        calls: &[Put(0, 5, 2, Ok(()))],
        last: 40,
        ends_done: true,
        drawn: 4,
        done: &[Load(5, Ok(2)), Look(5, Ok(1))],
        lost: &[Load(5, Ok(1))],
        or: &[Load(5, Ok(1))],
    },
    // 32 operations of the frame and one of the undo come before the place.
    Cuts {
        name: "first put to an absent page leaves zeros",
        setup: COMMON,
        before: &[Begin(Ok(0))],
        calls: &[Put(0, 5, 7, Ok(()))],
        last: 34,
        ends_done: false,
        drawn: 0,
        done: &[Load(5, Ok(7))],
        lost: &[Load(5, Ok(0))],
        or: &[Load(5, Ok(0))],
    },
    Cuts {
        name: "commit is done whole or not at all",
        setup: COMMON,
        before: &TWO_WERE_PUT,
        calls: &[Commit(0, Ok(()))],
        last: 8,
        ends_done: true,
        drawn: 4,
        done: &BOTH_CHANGED,
        lost: &BOTH_CHANGED,
        or: &NONE_CHANGED,
    },
    Cuts {
        name: "abort is the same",
        setup: COMMON,
        before: &TWO_WERE_PUT,
        calls: &[Abort(0, Ok(()))],
        last: 8,
        ends_done: true,
        drawn: 4,
        done: &NONE_CHANGED,
        lost: &NONE_CHANGED,
        or: &NONE_CHANGED,
    },
];

// The words 1 to 13 are stored with ticks between them, in which a swap is made.
const A_SWAP: Cuts = Cuts {
    name: "swap keeps the words",
    setup: TWO_SWAPS,
    before: &[],
    calls: &[
        Store(0, 1, Ok(())),
        Ticks(1),
        Store(0, 2, Ok(())),
        Ticks(1),
        Store(0, 3, Ok(())),
        Ticks(1),
        Store(0, 4, Ok(())),
        Ticks(1),
        Store(0, 5, Ok(())),
        Ticks(1),
        Store(0, 6, Ok(())),
        Ticks(1),
        Store(0, 7, Ok(())),
        Ticks(5),
        Store(0, 8, Ok(())),
        Ticks(1),
        Store(0, 9, Ok(())),
        Ticks(5),
        Store(0, 10, Ok(())),
        Ticks(1),
        Store(0, 11, Ok(())),
        Ticks(5),
        Store(0, 12, Ok(())),
        Ticks(1),
        Store(0, 13, Ok(())),
        Ticks(19),
    ],
    last: 560,
    ends_done: true,
    drawn: 5,
    done: &[Load(0, Ok(13))],
    lost: &[Load(0, Ok(13))],
    or: &[Load(0, Ok(12))],
};

#[test]
fn calls_are_cut_at_each_operation(rt: HostRuntime) {
    for cuts in CALLS.as_slice() {
        check_cuts(&rt, rt.alloc(), cuts);
    }
}

#[test]
fn a_swap_is_cut_at_each_operation(rt: HostRuntime) {
    check_cuts(&rt, rt.alloc(), &A_SWAP);
}
