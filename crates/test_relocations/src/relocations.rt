//! Relocations from their beginning to their end, with bad flash operations on the way.

use crate::facts::Fact::{At, Fill, Undone, Wear, Works};
use crate::rig::Rig;
use crate::steps::Step::{Begin, Counted, PlanBad, PlanCut, Run, Stands, Words, Work};
use crate::steps::{Step, check_steps};
use envy_base::{Job, Place, Undo};
use envy_reloc::Phase;
use std::alloc::Global;
use std::process::Abort;

// The numbers of the pages that loads read, and of those that a restart leaves.
const WORDS: Step = Words(
    [1000, 0, 2200, 1300, 2400, 1500],
    [1000, 0, 1200, 1300, 1400, 1500],
);

// Row 0 took the only free row of position 1, so row 2 went to position 2; rows 3 and 4 were copied to segment 3. Rows
// 1 and 5 aren't kept.
const OF_EACH_KIND: [Step; 30] = [
    Begin(Ok(())),
    WORDS,
    Work(Ok(Phase::Moved)),
    WORDS,
    Work(Ok(Phase::Moved)),
    WORDS,
    Work(Ok(Phase::Copied)),
    WORDS,
    Work(Ok(Phase::Copied)),
    WORDS,
    Work(Ok(Phase::Switched)),
    WORDS,
    Work(Ok(Phase::Placed)),
    WORDS,
    Work(Ok(Phase::Erased)),
    WORDS,
    Stands(Works(Job::Idle)),
    Stands(At(0, Place::Row(11))),
    Stands(At(3, Place::Row(18))),
    Stands(At(5, Place::Row(6))),
    Stands(Undone(2, Undo::Shadow { slot: 0, row: 12 })),
    Stands(Undone(4, Undo::Shadow { slot: 0, row: 19 })),
    Stands(Fill(0, 0)),
    Stands(Fill(1, 6)),
    Stands(Fill(2, 1)),
    Stands(Fill(3, 2)),
    Stands(Wear(0, 2)),
    Stands(Wear(1, 1)),
    Stands(Wear(2, 1)),
    Stands(Wear(3, 1)),
];

const NO_CUT: [Step; 2] = [PlanCut(27, 0), Run(Ok(false))];

/// The flash operation that is bad, and the moves, copies and erases that were begun then. After a bad program the spare
/// is erased, and the moves that are left are dropped; a bad erase is done again.
const BAD: [(&str, u32, [u64; 3]); 5] = [
    ("words stay when the first move is bad", 1, [1, 0, 1]),
    ("words stay when the second move is bad", 2, [2, 0, 1]),
    ("words stay when the first copy is bad", 3, [2, 1, 1]),
    ("words stay when the second copy is bad", 4, [2, 2, 1]),
    ("words stay when the erase is bad", 5, [2, 2, 2]),
];

/// Relocates the segment with rows of each kind.
fn check(rt: &impl Abort, alloc: Global, name: &str, steps: &[Step]) {
    let mut rig = Rig::new(rt, alloc);
    check_steps(rt, &mut rig, name, steps);
}

#[test]
fn words_stay_through_relocations(rt: HostRuntime) {
    check(
        &rt,
        rt.alloc(),
        "rows of each kind are relocated",
        &OF_EACH_KIND,
    );
    check(&rt, rt.alloc(), "relocation has 26 operations", &NO_CUT);
    for (name, k, counts) in BAD.as_slice() {
        let [moved, copied, erased] = *counts;
        let steps = [
            PlanBad(*k, 9),
            Run(Ok(true)),
            WORDS,
            Counted(moved, copied, erased),
        ];
        check(&rt, rt.alloc(), name, &steps);
    }
}
