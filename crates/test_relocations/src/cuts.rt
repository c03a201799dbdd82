//! A relocation that loses power at each of its operations: what is found then, and how it ends.

use crate::facts::Fact::{At, Back, Fill, FillAtLeast, Origin, Segment, Wear};
use crate::facts::{Fact, holds};
use crate::rig::Rig;
use crate::steps::Step::{Finish, PlanCut, Run, Words};
use crate::steps::{Step, check_steps};
use crate::told::same_at;
use envy_base::{Off, Place};
use std::alloc::Global;
use std::process::Abort;

// The transaction is undone, so that loads read what a restart leaves.
const WORDS: Step = Words(
    [1000, 0, 1200, 1300, 1400, 1500],
    [1000, 0, 1200, 1300, 1400, 1500],
);

// The last operation of a relocation.
const LAST: u32 = 26;

// The job; page, fill, program and place for each of two moves; origin, page, fill and program for each of two copies;
// the job and two references; the position and the job; wear, the erase, the fill and the job. What an operation leaves
// stands where more operations than its number have been done. The second move moved the shadow of page 2, where the
// page is after a restart. Once a switch has begun, a restart finishes it and puts the spare at the position.
const LEFT: [(u64, Fact); 14] = [
    (3, Fill(1, 6)),
    (5, At(0, Place::Row(11))),
    (6, Back(12, 2)),
    (7, Fill(2, 1)),
    (9, At(2, Place::Row(12))),
    (10, Origin(0, 3)),
    (11, Back(18, 3)),
    (12, FillAtLeast(3, 1)),
    (14, Origin(1, 4)),
    (15, Back(19, 4)),
    (16, Fill(3, 2)),
    (18, Segment(0, 3)),
    (23, Wear(0, 2)),
    (25, Fill(0, 0)),
];

/// Tests which operations have been done, of so many that were written.
fn check_left(rt: &impl Abort, rig: &Rig, written: u64) {
    for (operation, fact) in LEFT.as_slice() {
        let found = (*operation, holds(&rig.board, *fact));
        let wanted = (*operation, Ok(written > *operation));
        same_at(rt, &found, &wanted, "written", written);
    }
}

/// Tests a relocation whose operation `k` loses power. A write of SRAM that is cut is lost where `g` is 0.
fn check_cut(rt: &impl Abort, alloc: Global, k: u32, g: u64) {
    let mut rig = Rig::new(rt, alloc);
    check_steps(rt, &mut rig, "cut", &[PlanCut(k, g), Run(Err(Off))]);
    let mut rig = rig.restart(rt, alloc);
    check_steps(rt, &mut rig, "restarted", &[WORDS]);
    check_left(rt, &rig, u64::from(k).saturating_add(g));
    check_steps(rt, &mut rig, "finished", &[Finish(Ok(false)), WORDS]);
}

#[test]
fn words_stay_wherever_a_relocation_is_cut(rt: HostRuntime) {
    for k in 1..LAST + 1 {
        for g in 0..2 {
            check_cut(&rt, rt.alloc(), k, g);
        }
    }
}
