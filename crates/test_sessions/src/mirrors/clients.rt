//! Catching up, both sides cut, and waiting for a slot, as a client would do it.

use crate::calls::{Call, Made};
use crate::mirrors::pairs::{Pair, made, paired};
use crate::told::{holds_at, same_at};
use envy_memory::{LoadFault, ReviveFault};
use envy_mirror::{CatchFault, Caught};
use envy_plain::Refusal;
use envy_policy::Policy;
use std::alloc::Global;
use std::process::Abort;

/// What a client asks of a pair, and its answer.
#[derive(Clone, Copy)]
enum Step {
    /// A call that neither loses power nor meets a bad operation, and the slot that it opens, or 0.
    Makes(Call, Result<u8, Refusal>),
    Loads(u32, Result<u64, LoadFault>),
    Cuts(u8),
    /// Which sides are Good.
    Stands(bool, bool),
    CatchesUp(Result<Caught, CatchFault>),
    Revives(Result<(), ReviveFault>),
    /// What a side missed.
    Misses(u8, u64),
}

/// Makes a call, and tests that it is answered so; else the name and the step's number are told.
fn check_made(
    rt: &impl Abort,
    pair: &mut Pair,
    name: &str,
    at: u64,
    call: Call,
    answer: Result<u8, Refusal>,
) {
    match made(pair, call) {
        Made::Answered(found) => same_at(rt, &found, &answer, name, at),
        _ => holds_at(rt, false, name, at),
    }
}

/// Makes a step, and tests that it is answered as it says; else the name and the step's number are told.
fn check_step(rt: &impl Abort, pair: &mut Pair, name: &str, at: u64, step: Step) {
    match step {
        Step::Makes(call, answer) => check_made(rt, pair, name, at, call, answer),
        Step::Loads(a, answer) => same_at(rt, &pair.load(a), &answer, name, at),
        Step::Cuts(side) if side < 2 => pair.cut_now(side),
        Step::Stands(a, b) => same_at(rt, &(pair.good(0), pair.good(1)), &(a, b), name, at),
        Step::CatchesUp(answer) => same_at(rt, &pair.catch_up(), &answer, name, at),
        Step::Revives(answer) if !pair.good(0) && !pair.good(1) => {
            same_at(rt, &pair.revive(), &answer, name, at);
        }
        Step::Misses(side, count) if side < 2 => {
            same_at(rt, &pair.counts(side).misses, &count, name, at);
        }
        // the answer can't be had
        _ => holds_at(rt, false, name, at),
    }
}

/// Steps of a client, as it would make them.
#[derive(Clone, Copy)]
struct Client {
    name: &'static str,
    steps: &'static [Step],
}

const CLIENTS: [Client; 2] = [
    Client {
        name: "side catches up page by page",
        steps: &[
            Step::Makes(Call::Store(5, 1), Ok(0)),
            Step::Cuts(0),
            Step::Stands(false, true),
            Step::Makes(Call::Store(5, 2), Ok(0)),
            Step::Loads(5, Ok(2)),
            Step::CatchesUp(Ok(Caught::Woken)),
            Step::CatchesUp(Ok(Caught::Copied(0))),
            Step::CatchesUp(Ok(Caught::Copied(1))),
            Step::CatchesUp(Ok(Caught::Copied(2))),
            Step::CatchesUp(Ok(Caught::Copied(3))),
            Step::CatchesUp(Ok(Caught::Copied(4))),
            Step::CatchesUp(Ok(Caught::Copied(5))),
            Step::CatchesUp(Ok(Caught::Copied(6))),
            Step::CatchesUp(Ok(Caught::Copied(7))),
            Step::CatchesUp(Ok(Caught::Copied(8))),
            Step::CatchesUp(Ok(Caught::Copied(9))),
            Step::Makes(Call::Store(70, 9), Ok(0)),
            Step::CatchesUp(Ok(Caught::Copied(2))),
            Step::CatchesUp(Ok(Caught::Joined)),
            Step::CatchesUp(Ok(Caught::Whole)),
            Step::Cuts(1),
            Step::Loads(5, Ok(2)),
            Step::Loads(70, Ok(9)),
            Step::Cuts(0),
            Step::Loads(5, Err(LoadFault::Off)),
            Step::CatchesUp(Err(CatchFault::Off)),
            Step::Revives(Ok(())),
            Step::Stands(true, false),
            Step::Loads(5, Ok(2)),
        ],
    },
    Client {
        name: "catching up waits for an open slot",
        steps: &[
            Step::Makes(Call::Begin, Ok(0)),
            Step::Makes(Call::Put(0, 5, 7), Ok(0)),
            Step::Cuts(0),
            Step::CatchesUp(Ok(Caught::Woken)),
            Step::CatchesUp(Ok(Caught::Waiting(0))),
            Step::Makes(Call::Commit(0), Ok(0)),
            Step::CatchesUp(Ok(Caught::Copied(0))),
            Step::Misses(1, 1),
        ],
    },
];

/// Makes each step of a client, over a pair of its own.
fn play(rt: &impl Abort, alloc: Global, client: &Client) {
    let mut mirror = paired(rt, alloc, Policy::Greedy);
    for i in 0..client.steps.len() {
        check_step(rt, &mut mirror, client.name, i as u64, client.steps[i]);
    }
    let (_a, _b) = mirror.into_boards();
}

#[test]
fn clients_are_answered(rt: HostRuntime) {
    for client in CLIENTS.as_slice() {
        play(&rt, rt.alloc(), client);
    }
}
