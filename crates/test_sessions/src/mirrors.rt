//! A pair over two boards in memory beside the plain machine, while power and flash operations fail.

use crate::calls::{Call, Made, SMALL, WORDS, check_found, check_plainly, draw};
use crate::mirrors::pairs::{Pair, made, paired};
use crate::told::same_at;
use envy_memory::LoadFault;
use envy_mirror::Caught;
use envy_plain::Plain;
use envy_policy::Policy;
use std::alloc::Global;
use std::process::Abort;

mod clients;
mod pairs;

fn drawn_call(seed: &mut u64) -> Call {
    let a = draw(seed) % (WORDS + 4);
    let t = (draw(seed) % 5) as u8;
    let w = draw(seed) as u64;
    match draw(seed) % 16 {
        0 => Call::Begin,
        1 | 2 => Call::Commit(t),
        3 => Call::Abort(t),
        4 | 5 => Call::Tick,
        6 | 7 | 8 => Call::Put(t, a, w),
        _ => Call::Store(a, w),
    }
}

/// Where a side is Good, a restart of it would find the words that the plain machine has committed.
fn assert_kept(rt: &impl Abort, mirror: &Pair, side: u8, name: &str, plain: &Plain) {
    assert!(rt; side < 2);
    if mirror.good(side) {
        for a in 0..WORDS {
            let (found, wanted) = (mirror.look_at(side, a).ok(), plain.look(a).ok());
            same_at(rt, &found, &wanted, name, a as u64);
        }
    }
}

/// Each Good side has the committed words, and the pair the words that loads read.
fn assert_same(rt: &impl Abort, mirror: &mut Pair, plain: &Plain) {
    assert_kept(rt, mirror, 0, "word of side 0 at", plain);
    assert_kept(rt, mirror, 1, "word of side 1 at", plain);
    for a in 0..WORDS {
        let (found, wanted) = (mirror.load(a).ok(), plain.load(a).ok());
        same_at(rt, &found, &wanted, "load of", a as u64);
    }
    same_at(
        rt,
        &mirror.load(WORDS),
        &Err(LoadFault::Range),
        "load of",
        WORDS as u64,
    );
}

/// Lets power return to the side that was Good last.
fn revive(rt: &impl Abort, mirror: &mut Pair) {
    for _ in 0..4 {
        if !mirror.good(0) && !mirror.good(1) {
            let _answer = mirror.revive();
        }
    }
    assert!(rt; mirror.good(0) != mirror.good(1));
}

fn is_found(mirror: &Pair, plain: &Plain) -> bool {
    for a in 0..WORDS {
        if mirror.look(a).ok() != plain.look(a).ok() {
            return false;
        }
    }
    true
}

/// Lets power return, and lets the plain machine make the call where a restart finds it done.
fn lose(rt: &impl Abort, mirror: &mut Pair, plain: &mut Plain, call: Call) {
    revive(rt, mirror);
    if !is_found(mirror, plain) {
        check_found(rt, plain, call);
    }
    plain.power();
}

/// Makes a call of both machines, which answer alike but for failures.
fn make(rt: &impl Abort, mirror: &mut Pair, plain: &mut Plain, call: Call) {
    match made(mirror, call) {
        Made::Answered(answer) => check_plainly(rt, plain, call, answer),
        Made::Bad => {}
        Made::Off => lose(rt, mirror, plain, call),
    }
}

/// Cuts a side by hand. Where none is Good then, power returns.
fn cut(rt: &impl Abort, mirror: &mut Pair, plain: &mut Plain, side: u8) {
    assert!(rt; side < 2);
    mirror.cut_now(side);
    assert!(rt; !mirror.good(side));
    if !mirror.good(0) && !mirror.good(1) {
        revive(rt, mirror);
        plain.power();
    }
}

/// Plans a failure, cuts a side, or lets the side that isn't Good catch up.
fn disturb(rt: &impl Abort, mirror: &mut Pair, plain: &mut Plain, seed: &mut u64) -> bool {
    let side = (draw(seed) % 2) as u8;
    assert!(rt; side < 2);
    match draw(seed) % 64 {
        0 | 1 => mirror.arm_cut(side, 1 + draw(seed) % 60, 3),
        2 | 3 => mirror.arm_bad(side, 1 + draw(seed) % 6, 5),
        4 => cut(rt, mirror, plain, side),
        5..=40 => return mirror.catch_up() == Ok(Caught::Joined),
        _ => {}
    }
    false
}

/// Makes so many drawn calls; after each, every word of each Good side is compared. A side must have caught up at times.
fn drive(rt: &impl Abort, alloc: Global, mirror: &mut Pair, lines: u32) {
    let mut plain = Plain::new(alloc, &SMALL).expect(rt, "no room for a machine");
    let mut seed = 11;
    let mut joined = false;
    for _ in 0..lines {
        if disturb(rt, mirror, &mut plain, &mut seed) {
            joined = true;
        }
        let call = drawn_call(&mut seed);
        make(rt, mirror, &mut plain, call);
        assert_same(rt, mirror, &plain);
    }
    assert!(rt; joined);
}

/// Drawn calls under a policy.
fn run(rt: &impl Abort, alloc: Global, policy: Policy) {
    let mut mirror = paired(rt, alloc, policy);
    drive(rt, alloc, &mut mirror, 800);
    let (_a, _b) = mirror.into_boards();
}

#[test]
fn pair_is_the_plain_machine_under_greedy(rt: HostRuntime) {
    run(&rt, rt.alloc(), Policy::Greedy);
}

#[test]
fn pair_is_the_plain_machine_under_fifo(rt: HostRuntime) {
    run(&rt, rt.alloc(), Policy::Fifo);
}

#[test]
fn pair_is_the_plain_machine_under_locality(rt: HostRuntime) {
    run(&rt, rt.alloc(), Policy::Locality);
}

#[test]
fn pair_is_the_plain_machine_under_hybrid(rt: HostRuntime) {
    run(&rt, rt.alloc(), Policy::Hybrid(2));
}
