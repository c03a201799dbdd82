//! What a test asks of a relocation, step by step, and what it is answered.

use crate::facts::{Fact, holds, keeps, reads};
use crate::rig::Rig;
use crate::told::same_at;
use envy_base::{Job, Off, Trouble};
use envy_map::job;
use envy_reloc::Phase;
use std::process::Abort;

/// A call, or what a test does to the board, and its answer.
#[derive(Clone, Copy)]
pub(crate) enum Step {
    /// Power is to fail at an operation from now, 1 for the next, or a flash operation is to be bad.
    PlanCut(u32, u64),
    PlanBad(u32, u64),
    Begin(Result<(), Off>),
    Work(Result<Phase, Trouble>),
    /// Steps until nothing is left, and whether one of them was bad.
    Finish(Result<bool, Off>),
    /// A beginning, and then the same.
    Run(Result<bool, Off>),
    /// The moves, copies and erases that were begun.
    Counted(u64, u64, u64),
    /// The numbers of the pages that loads read, and of those that a restart leaves.
    Words([u32; 6], [u32; 6]),
    /// This stands on the board.
    Stands(Fact),
}

/// Tests that loads read the pages of these numbers, and that a restart leaves those; else the page is told.
fn check_words(rt: &impl Abort, rig: &Rig, name: &str, read: [u32; 6], kept: [u32; 6]) {
    for page in 0..6 {
        let number = read[page];
        let found = (number, reads(&rig.board, page as u32, number));
        same_at(rt, &found, &(number, Ok(true)), name, page as u64);
        let number = kept[page];
        let found = (number, keeps(&rig.board, page as u32, number));
        same_at(rt, &found, &(number, Ok(true)), name, page as u64);
    }
}

/// Tests that this stands on the board.
fn check_fact(rt: &impl Abort, rig: &Rig, name: &str, at: u64, fact: Fact) {
    same_at(rt, &holds(&rig.board, fact), &Ok(true), name, at);
}

/// Does a step, and answers whether it was bad.
fn is_bad(rt: &impl Abort, rig: &mut Rig) -> Result<bool, Off> {
    match rig.work(rt) {
        Ok(_) => Ok(false),
        Err(Trouble::Bad) => Ok(true),
        Err(Trouble::Off) => Err(Off),
    }
}

/// Does steps until nothing is left, and answers whether one of them was bad.
pub(crate) fn finish(rt: &impl Abort, rig: &mut Rig) -> Result<bool, Off> {
    let mut bad = false;
    for _ in 0..12u32 {
        if job(&rig.board)? == Job::Idle {
            return Ok(bad);
        }
        if is_bad(rt, rig)? {
            bad = true;
        }
    }
    panic!(rt; "it never ends")
}

/// Begins, and does steps until nothing is left.
fn run(rt: &impl Abort, rig: &mut Rig) -> Result<bool, Off> {
    rig.begin(rt)?;
    finish(rt, rig)
}

/// Makes a step, and tests that it is answered as it says.
fn check_step(rt: &impl Abort, rig: &mut Rig, name: &str, at: u64, step: Step) {
    match step {
        Step::PlanCut(k, g) => rig.plan_cut(rt, k, g),
        Step::PlanBad(k, g) => rig.plan_bad(rt, k, g),
        Step::Begin(answer) => same_at(rt, &rig.begin(rt), &answer, name, at),
        Step::Work(answer) => same_at(rt, &rig.work(rt), &answer, name, at),
        Step::Finish(answer) => same_at(rt, &finish(rt, rig), &answer, name, at),
        Step::Run(answer) => same_at(rt, &run(rt, rig), &answer, name, at),
        Step::Counted(moved, copied, erased) => {
            let reloc = &rig.reloc;
            let found = (reloc.moved(), reloc.copied(), reloc.erased());
            same_at(rt, &found, &(moved, copied, erased), name, at);
        }
        Step::Words(read, kept) => check_words(rt, rig, name, read, kept),
        Step::Stands(fact) => check_fact(rt, rig, name, at, fact),
    }
}

/// Tests that each step is answered as it says; else the step's number is told.
pub(crate) fn check_steps(rt: &impl Abort, rig: &mut Rig, name: &str, steps: &[Step]) {
    for i in 0..steps.len() {
        check_step(rt, rig, name, i as u64, steps[i]);
    }
}
