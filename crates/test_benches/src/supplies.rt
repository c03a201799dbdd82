//! The supply of power: its plans and its lives, the words of a torn page, and SRAM that it keeps.

use crate::told::same_at;
use envy_bench::{Event, Sram, Supply, Torn};
use std::process::Abort;

/// The first three words of the page that is torn by a number, made with an independent program.
const TORN: [(u64, [u64; 3]); 4] = [
    (
        0,
        [
            18195738587432868099,
            4538132255688111059,
            6944247732487142299,
        ],
    ),
    (
        1,
        [
            9060384754756946918,
            1273517867490297681,
            2963138657977888315,
        ],
    ),
    (
        7,
        [
            1778390507669511913,
            15139196238614234269,
            5876829922724166588,
        ],
    ),
    (
        9,
        [
            2891028797734506294,
            8569461736179982127,
            13785801004673610654,
        ],
    ),
];

#[test]
fn torn_words_are_those_of_the_original(rt: HostRuntime) {
    for (g, words) in TORN.as_slice() {
        let mut torn = Torn::new(*g);
        let found = [torn.next(), torn.next(), torn.next()];
        same_at(&rt, found, *words, "words of", *g);
    }
}

#[test]
fn new_sram_is_zeros_and_keeps_what_is_put(rt: HostRuntime) {
    let mut one = Sram::new(rt.alloc(), 1).expect(&rt, "no room for a word");
    same_at(&rt, one.get(0), 0, "new word", 0);
    one.put(0, u64::MAX);
    same_at(&rt, one.get(0), u64::MAX, "word that was put", 0);
}

/// A call of a supply, and its answer.
#[derive(Clone, Copy)]
enum Step {
    Put(Event),
    Flash(Event),
    /// So many puts, each with a flash operation behind it, which all pass.
    Pass(u8),
    /// Power is to fail at an operation from now, 1 for the next, or a flash operation is to be bad.
    PlanCut(u32, u64),
    PlanBad(u32, u64),
    CutNow,
    /// Power returns, or not.
    PowerOn(bool),
    IsOn(bool),
    /// How often power can return.
    Lives(u32),
    /// Failures of power and bad operations.
    Failed(u64, u64),
}

fn put(supply: &mut Supply) -> Option<Event> {
    if supply.powered() {
        Some(supply.put_event())
    } else {
        None
    }
}

fn flash(supply: &mut Supply) -> Option<Event> {
    if supply.powered() {
        Some(supply.flash_event())
    } else {
        None
    }
}

/// Whether so many puts and flash operations pass.
fn pass(supply: &mut Supply, count: u8) -> bool {
    for _turn in 0..count {
        if put(supply) != Some(Event::Pass) || flash(supply) != Some(Event::Pass) {
            return false;
        }
    }
    true
}

/// Makes a call, and tests that it is answered as it says.
fn check_step(rt: &impl Abort, supply: &mut Supply, name: &str, at: u64, step: Step) {
    match step {
        Step::Put(event) => same_at(rt, put(supply), Some(event), name, at),
        Step::Flash(event) => same_at(rt, flash(supply), Some(event), name, at),
        Step::Pass(count) => same_at(rt, pass(supply, count), true, name, at),
        Step::PlanCut(k, g) if k >= 1 => supply.arm_cut(k, g),
        Step::PlanBad(k, g) if k >= 1 => supply.arm_bad(k, g),
        Step::CutNow if supply.powered() => supply.cut_now(),
        Step::PowerOn(is) if !supply.powered() => same_at(rt, supply.power_on(), is, name, at),
        Step::IsOn(is) => same_at(rt, supply.powered(), is, name, at),
        Step::Lives(lives) => same_at(rt, supply.lives(), lives, name, at),
        Step::Failed(cuts, bads) => {
            same_at(rt, (supply.cuts(), supply.bads()), (cuts, bads), name, at);
        }
        // the call may not be made now
        _ => same_at(rt, false, true, name, at),
    }
}

/// Tests the calls of a supply that can return so often; where one is answered otherwise, its number is told.
fn check(rt: &impl Abort, name: &str, lives: u32, steps: &[Step]) {
    let mut supply = Supply::new(lives);
    for i in 0..steps.len() {
        check_step(rt, &mut supply, name, i as u64, steps[i]);
    }
}

const BOTH_SPENT: [Step; 11] = [
    Step::PlanBad(2, 5),
    Step::PlanCut(3, 6),
    Step::Flash(Event::Pass),
    Step::Put(Event::Pass),
    Step::Flash(Event::Cut(6)),
    Step::Failed(1, 0),
    Step::PowerOn(true),
    Step::Flash(Event::Pass),
    Step::Flash(Event::Pass),
    Step::Flash(Event::Pass),
    Step::Flash(Event::Pass),
];

const OVER_A_CUT: [Step; 13] = [
    Step::PlanBad(2, 8),
    Step::PlanCut(1, 3),
    Step::Put(Event::Cut(3)),
    Step::PowerOn(true),
    Step::Flash(Event::Pass),
    Step::PlanCut(2, 4),
    Step::CutNow,
    Step::PowerOn(true),
    Step::Flash(Event::Bad(8)),
    Step::Put(Event::Cut(4)),
    Step::Failed(3, 1),
    Step::PowerOn(false),
    Step::IsOn(false),
];

const TWO_PLANS: [Step; 10] = [
    Step::PlanCut(9, 1),
    Step::PlanCut(4, 2),
    Step::PlanBad(1, 3),
    Step::Flash(Event::Bad(3)),
    Step::Flash(Event::Pass),
    Step::Flash(Event::Pass),
    Step::Flash(Event::Cut(2)),
    Step::PowerOn(true),
    Step::Lives(4294967294),
    Step::Pass(12),
];

#[test]
fn cut_goes_before_bad_and_both_are_spent(rt: HostRuntime) {
    check(&rt, "cut goes before bad, both are spent", 1, &BOTH_SPENT);
}

#[test]
fn plan_stands_over_a_cut_and_the_return_of_power(rt: HostRuntime) {
    check(&rt, "plan stands over a cut", 2, &OVER_A_CUT);
}

#[test]
fn each_of_two_plans_comes_once(rt: HostRuntime) {
    check(&rt, "each of two plans comes once", 4294967295, &TWO_PLANS);
}
