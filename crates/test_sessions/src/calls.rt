//! Calls that a memory, a pair and the plain machine have, and what they come to.

use crate::told::same_at;
use envy_base::{Shape, Trouble};
use envy_memory::{BeginFault, Did, EndFault, PutFault, StoreFault};
use envy_plain::{Plain, Refusal};
use std::process::Abort;

/// The boards over which calls are drawn.
pub(crate) const SMALL: Shape = Shape {
    segments: 6,
    rows: 4,
    pages: 10,
    shadows: 4,
    frames: 3,
    entries: 2,
    reserves: 0,
    sums: 0,
};

/// How many words these boards have.
pub(crate) const WORDS: u32 = 320;

#[derive(Clone, Copy)]
pub(crate) enum Call {
    Store(u32, u64),
    Begin,
    Put(u8, u32, u64),
    Commit(u8),
    Abort(u8),
    Tick,
}

/// What a call of a memory or of a pair comes to.
#[derive(Clone, Copy)]
pub(crate) enum Made {
    /// What the plain machine answers too: the slot that it opened, or 0.
    Answered(Result<u8, Refusal>),
    /// A flash operation was bad.
    Bad,
    /// Power was lost.
    Off,
}

/// The next of a sequence of numbers below 65,536.
pub(crate) fn draw(seed: &mut u64) -> u32 {
    *seed = seed
        .wrapping_mul(6364136223846793005)
        .wrapping_add(1442695040888963407);
    ((*seed >> 40) % 65536) as u32
}

const DONE: Made = Made::Answered(Ok(0));

const fn refused(refusal: Refusal) -> Made {
    Made::Answered(Err(refusal))
}

pub(crate) fn of_store(answer: Result<(), StoreFault>) -> Made {
    match answer {
        Ok(()) => DONE,
        Err(StoreFault::Range) => refused(Refusal::Range),
        Err(StoreFault::Held(u)) => refused(Refusal::Held(u)),
        Err(StoreFault::Bad) => Made::Bad,
        Err(StoreFault::Off) => Made::Off,
    }
}

pub(crate) fn of_begin(answer: Result<u8, BeginFault>) -> Made {
    match answer {
        Ok(t) => Made::Answered(Ok(t)),
        Err(BeginFault::Busy) => refused(Refusal::Busy),
        Err(BeginFault::Off) => Made::Off,
    }
}

pub(crate) fn of_put(answer: Result<(), PutFault>) -> Made {
    match answer {
        Ok(()) => DONE,
        Err(PutFault::Range) => refused(Refusal::Range),
        Err(PutFault::Closed) => refused(Refusal::Closed),
        Err(PutFault::Held(u)) => refused(Refusal::Held(u)),
        Err(PutFault::Full) => refused(Refusal::Full),
        Err(PutFault::Bad) => Made::Bad,
        Err(PutFault::Off) => Made::Off,
    }
}

pub(crate) fn of_end(answer: Result<(), EndFault>) -> Made {
    match answer {
        Ok(()) => DONE,
        Err(EndFault::Closed) => refused(Refusal::Closed),
        Err(EndFault::Off) => Made::Off,
    }
}

pub(crate) fn of_tick(answer: Result<Did, Trouble>) -> Made {
    match answer {
        Ok(_) => DONE,
        Err(Trouble::Bad) => Made::Bad,
        Err(Trouble::Off) => Made::Off,
    }
}

fn of_plain(answer: Result<(), Refusal>) -> Result<u8, Refusal> {
    match answer {
        Ok(()) => Ok(0),
        Err(refusal) => Err(refusal),
    }
}

/// Makes a call of the plain machine, to which a tick is nothing.
fn made_plainly(plain: &mut Plain, call: Call) -> Result<u8, Refusal> {
    match call {
        Call::Store(a, w) => of_plain(plain.store(a, w)),
        Call::Begin => plain.begin(),
        Call::Put(t, a, w) => of_plain(plain.put(t, a, w)),
        Call::Commit(t) => of_plain(plain.commit(t)),
        Call::Abort(t) => of_plain(plain.abort(t)),
        Call::Tick => Ok(0),
    }
}

/// The call's name, and its address or its slot.
fn named(call: Call) -> (&'static str, u64) {
    match call {
        Call::Store(a, _) => ("store", a as u64),
        Call::Begin => ("begin", 0),
        Call::Put(_, a, _) => ("put", a as u64),
        Call::Commit(t) => ("commit", t as u64),
        Call::Abort(t) => ("abort", t as u64),
        Call::Tick => ("tick", 0),
    }
}

/// The plain machine answers the call so.
pub(crate) fn check_plainly(
    rt: &impl Abort,
    plain: &mut Plain,
    call: Call,
    answer: Result<u8, Refusal>,
) {
    let (name, at) = named(call);
    same_at(rt, &made_plainly(plain, call), &answer, name, at);
}

/// Lets the plain machine make a call that lost power, and that a restart found done.
pub(crate) fn check_found(rt: &impl Abort, plain: &mut Plain, call: Call) {
    assert!(rt;
        matches!(call, Call::Store(_, _) | Call::Commit(_)),
        "a call is half done"
    );
    check_plainly(rt, plain, call, Ok(0));
}
