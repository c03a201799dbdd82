//! Drawn calls, with cuts of power and bad operations between them, beside the plain machine.

use crate::calls::{
    Call, Made, SMALL, WORDS, check_found, check_plainly, draw, of_begin, of_end, of_put, of_store,
    of_tick,
};
use crate::session::{check_order, new_memory};
use crate::steps::{Tested, revive};
use crate::told::{holds_at, same_at};
use envy_plain::Plain;
use envy_policy::{Policy, Setup};
use std::alloc::Global;
use std::process::Abort;

fn drawn_call(seed: &mut u64) -> Call {
    let a = draw(seed) % (WORDS + 4);
    let t = (draw(seed) % 5) as u8;
    let w = draw(seed) as u64;
    match draw(seed) % 16 {
        0 => Call::Begin,
        1 => Call::Commit(t),
        2 => Call::Abort(t),
        3 | 4 | 5 => Call::Tick,
        6 | 7 | 8 | 9 => Call::Put(t, a, w),
        _ => Call::Store(a, w),
    }
}

fn is_kept(memory: &Tested, plain: &Plain) -> bool {
    for a in 0..WORDS {
        if memory.look(a).ok() != plain.look(a).ok() {
            return false;
        }
    }
    true
}

fn assert_same(rt: &impl Abort, memory: &mut Tested, plain: &Plain, name: &str) {
    assert!(rt; is_kept(memory, plain), "{name}");
    for a in 0..WORDS {
        same_at(
            rt,
            &memory.load(a).ok(),
            &plain.load(a).ok(),
            name,
            a as u64,
        );
    }
}

/// Lets power return, and lets the plain machine make the call where a restart finds it done.
fn lose(rt: &impl Abort, memory: &mut Tested, plain: &mut Plain, call: Call) {
    for _ in 0..4 {
        revive(memory);
    }
    holds_at(rt, memory.powered(), "restarts", 4);
    if !is_kept(memory, plain) {
        check_found(rt, plain, call);
    }
    plain.power();
}

/// Makes a call of a memory.
fn made(memory: &mut Tested, call: Call) -> Made {
    match call {
        Call::Store(a, w) => of_store(memory.store(a, w)),
        Call::Begin => of_begin(memory.begin()),
        Call::Put(t, a, w) => of_put(memory.put(t, a, w)),
        Call::Commit(t) => of_end(memory.commit(t)),
        Call::Abort(t) => of_end(memory.abort(t)),
        Call::Tick => of_tick(memory.tick()),
    }
}

/// Makes a call of both machines, which answer alike but for failures.
fn make(rt: &impl Abort, memory: &mut Tested, plain: &mut Plain, call: Call) {
    match made(memory, call) {
        Made::Answered(answer) => check_plainly(rt, plain, call, answer),
        Made::Bad => {}
        Made::Off => lose(rt, memory, plain, call),
    }
}

/// A drawn plan of a cut or of a bad operation, or none.
fn plan(memory: &mut Tested, seed: &mut u64) {
    match draw(seed) % 24 {
        0 => memory.arm_cut(1 + draw(seed) % 60, 3),
        1 => memory.arm_bad(1 + draw(seed) % 6, 5),
        _ => {}
    }
}

/// A drawn call of both, behind which every word is compared.
fn check_call(rt: &impl Abort, memory: &mut Tested, plain: &mut Plain, name: &str, seed: &mut u64) {
    plan(memory, seed);
    let call = drawn_call(seed);
    make(rt, memory, plain, call);
    assert_same(rt, memory, plain, name);
    check_order(rt, memory, name);
}

/// Makes so many drawn calls, with cuts of power and bad operations between them.
fn drive(rt: &impl Abort, alloc: Global, memory: &mut Tested, name: &str, calls: u32) {
    let mut plain = Plain::new(alloc, &SMALL).expect(rt, "no room for words");
    let mut seed = 7;
    for _ in 0..calls {
        check_call(rt, memory, &mut plain, name, &mut seed);
    }
}

/// Drawn calls under a policy.
fn run(rt: &impl Abort, alloc: Global, name: &str, policy: Policy, calls: u32) {
    let setup = Setup {
        shape: SMALL,
        policy,
        limit: 2,
        mark: 2,
    };
    let mut memory = new_memory(rt, alloc, setup, u32::MAX);
    drive(rt, alloc, &mut memory, name, calls);
    let _board = memory.into_board();
}

const POLICIES: [(&str, Policy); 5] = [
    ("greedy", Policy::Greedy),
    ("fifo", Policy::Fifo),
    ("locality", Policy::Locality),
    ("hybrid", Policy::Hybrid(2)),
    ("lifetime", Policy::Lifetime),
];

#[test]
fn memory_is_the_plain_machine(rt: HostRuntime) {
    for (name, policy) in POLICIES.as_slice() {
        run(&rt, rt.alloc(), name, *policy, 1500);
    }
}
