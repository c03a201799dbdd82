//! What a session asks of a memory, step by step, and what it is answered.

use crate::ordered::OrderedBoard;
use crate::told::{holds_at, same_at};
use envy_array::Counts;
use envy_base::{Board, Job, Off, Place, Trouble};
use envy_map::{job, place};
use envy_memory::{
    BeginFault, Did, EndFault, LoadFault, Memory, PutFault, ReviveFault, StoreFault,
};
use std::fmt::Debug;
use std::process;

/// A call, or what a test does to the board, and its answer. Only answers are compared and told, by their own types:
/// what a derive gives for an enum of so many variants costs more proof than all that is made of it.
#[derive(Clone, Copy)]
pub(crate) enum Step {
    Load(u32, Result<u64, LoadFault>),
    Look(u32, Result<u64, LoadFault>),
    Store(u32, u64, Result<(), StoreFault>),
    Begin(Result<u8, BeginFault>),
    Put(u8, u32, u64, Result<(), PutFault>),
    Commit(u8, Result<(), EndFault>),
    Abort(u8, Result<(), EndFault>),
    Tick(Result<Did, Trouble>),
    /// So many ticks, whatever they do; power returns where one loses it. None fails otherwise.
    Ticks(u32),
    /// Power fails between two operations.
    Cut,
    Revive(Result<(), ReviveFault>),
    /// Power is to fail at an operation from now, 1 for the next, or a flash operation is to be bad.
    PlanCut(u32, u64),
    PlanBad(u32, u64),
    /// A memory is attached to the board anew.
    Attach,
    IsOn(bool),
    IsAt(u32, Place),
    Works(Job),
    Counted(Counts),
    Flushes(u64),
    Copies(u64),
    Swaps(u64),
}

/// A memory of the sessions.
pub(crate) type Tested = Memory<OrderedBoard>;

/// Where a page is, if the board has it.
fn place_of(memory: &Tested, page: u32) -> Option<Result<Place, Off>> {
    let board = memory.board();
    if page >= board.shape().pages {
        return None;
    }
    Some(place(board, page))
}

/// Lets the memory work, and tells whether no tick failed otherwise than by power.
fn work(memory: &mut Tested, count: u32) -> bool {
    for _turn in 0..count {
        match memory.tick() {
            Ok(_) => {}
            Err(Trouble::Off) => revive(memory),
            Err(Trouble::Bad) => return false,
        }
    }
    true
}

/// Lets power return, if it is off.
pub(crate) fn revive(memory: &mut Tested) {
    if !memory.powered() {
        let _answer = memory.revive();
    }
}

/// Makes a step that changes the board or its power, and tests that it is answered as it says.
fn check_power(rt: &impl process::Abort, memory: &mut Tested, name: &str, at: u64, step: Step) {
    match step {
        Step::Cut if memory.powered() => memory.cut_now(),
        Step::Revive(answer) if !memory.powered() => {
            same_at(rt, &memory.revive(), &answer, name, at);
        }
        Step::PlanCut(k, g) if k >= 1 => memory.arm_cut(k, g),
        Step::PlanBad(k, g) if k >= 1 => memory.arm_bad(k, g),
        // the answer can't be had
        _ => holds_at(rt, false, name, at),
    }
}

/// Tests what a memory tells of itself and of its board, or makes a step that changes the board or its power.
fn check_state(rt: &impl process::Abort, memory: &mut Tested, name: &str, at: u64, step: Step) {
    match step {
        Step::IsAt(page, is) => same_at(rt, &place_of(memory, page), &Some(Ok(is)), name, at),
        Step::Works(is) => same_at(rt, &job(memory.board()), &Ok(is), name, at),
        Step::Counted(counts) => same_at(rt, &memory.counts(), &counts, name, at),
        Step::Flushes(count) => same_at(rt, &memory.counts().flushes, &count, name, at),
        Step::Copies(count) => same_at(rt, &memory.counts().copies, &count, name, at),
        Step::Swaps(count) => same_at(rt, &memory.counts().swaps, &count, name, at),
        Step::IsOn(is) => same_at(rt, &memory.powered(), &is, name, at),
        _ => check_power(rt, memory, name, at, step),
    }
}

/// Whether a call was done: it was answered as it should, or, where that may be, it lost power.
fn is_answered<T: PartialEq + Debug + Copy>(
    rt: &impl process::Abort,
    asked: (&str, u64, bool),
    found: T,
    wanted: T,
    lost: T,
) -> bool {
    let (name, at, may_lose) = asked;
    if may_lose && found == lost {
        return false;
    }
    same_at(rt, &found, &wanted, name, at);
    true
}

/// Makes a step, and tests that it is answered as it says. Tells whether it was done: where a call may lose power, it
/// may be cut instead.
pub(crate) fn is_done(
    rt: &impl process::Abort,
    memory: &mut Tested,
    asked: (&str, u64, bool),
    step: Step,
) -> bool {
    match step {
        Step::Store(a, word, answer) => {
            let found = memory.store(a, word);
            is_answered(rt, asked, found, answer, Err(StoreFault::Off))
        }
        Step::Begin(answer) => {
            let found = memory.begin();
            is_answered(rt, asked, found, answer, Err(BeginFault::Off))
        }
        Step::Put(t, a, word, answer) => {
            let found = memory.put(t, a, word);
            is_answered(rt, asked, found, answer, Err(PutFault::Off))
        }
        Step::Commit(t, answer) => {
            let found = memory.commit(t);
            is_answered(rt, asked, found, answer, Err(EndFault::Off))
        }
        Step::Abort(t, answer) => {
            let found = memory.abort(t);
            is_answered(rt, asked, found, answer, Err(EndFault::Off))
        }
        Step::Tick(answer) => {
            let found = memory.tick();
            is_answered(rt, asked, found, answer, Err(Trouble::Off))
        }
        Step::Ticks(count) => {
            let (name, at, _may_lose) = asked;
            holds_at(rt, work(memory, count), name, at);
            true
        }
        _ => {
            let (name, at, _may_lose) = asked;
            check_state(rt, memory, name, at, step);
            true
        }
    }
}

/// Whether a load, or a look, is answered as it says.
pub(crate) fn is_met(memory: &mut Tested, step: Step) -> bool {
    match step {
        Step::Load(a, answer) => memory.load(a) == answer,
        Step::Look(a, answer) => memory.look(a) == answer,
        _ => false,
    }
}

/// Makes a step, and tests that it is answered as it says.
pub(crate) fn check_step(
    rt: &impl process::Abort,
    memory: &mut Tested,
    name: &str,
    at: u64,
    step: Step,
) {
    match step {
        Step::Load(a, answer) => same_at(rt, &memory.load(a), &answer, name, at),
        Step::Look(a, answer) => same_at(rt, &memory.look(a), &answer, name, at),
        _ => {
            let _done = is_done(rt, memory, (name, at, false), step);
        }
    }
}
