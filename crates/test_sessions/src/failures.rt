//! Rules of swaps, and of failures of power and of flash operations, that only the counts and later calls show.

use crate::rules::{BAD_TICK, BEGAN, ERASED, FLUSHED, IDLE, PLACED, RESTART, SWITCHED};
use crate::session::{Session, check_all};
use crate::setups::{COMMON, THREE_GREEDY, THREE_SWAPS, TWO_SWAPS};
use crate::steps::Step;
use crate::steps::Step::{
    Abort, Begin, Counted, Cut, Flushes, IsOn, Load, PlanBad, PlanCut, Put, Revive, Store, Swaps,
    Tick, Ticks, Works,
};
use envy_array::Counts;
use envy_base::{Job, Trouble};
use envy_memory::{LoadFault, PutFault, ReviveFault};

const PAGE_0_FLUSHED: [Step; 2] = [Store(0, 1, Ok(())), FLUSHED];

const POSITION_0_CLEANED: [Step; 8] = [
    Store(0, 2, Ok(())),
    FLUSHED,
    Store(0, 3, Ok(())),
    BEGAN,
    SWITCHED,
    PLACED,
    ERASED,
    FLUSHED,
];

const ONE_SWAP: Counts = Counts {
    hits: 13,
    misses: 1,
    flushes: 13,
    copies: 2,
    moves: 0,
    erases: 7,
    swaps: 1,
};

const SWAPS: [Session; 3] = [
    // Page 0 fills all rows, and then position 0 is cleaned four times: segments 0 and 3 take turns there. Segment 0
    // stands there at last, erased twice, and a swap is due. The erases that the swap waits for are counted from the
    // restart on.
    Session {
        name: "swap that is cut is not counted",
        setup: THREE_SWAPS,
        lives: 1,
        parts: &[
            (5, &PAGE_0_FLUSHED),
            (4, &POSITION_0_CLEANED),
            (
                1,
                &[
                    PlanCut(1, 0),
                    Tick(Err(Trouble::Off)),
                    Revive(Ok(())),
                    Swaps(0),
                    IDLE,
                ],
            ),
        ],
    },
    // The next swap begins with position 0 again.
    Session {
        name: "bad copy ends a swap",
        setup: THREE_SWAPS,
        lives: 0,
        parts: &[
            (5, &PAGE_0_FLUSHED),
            (4, &POSITION_0_CLEANED),
            (
                1,
                &[
                    BEGAN,
                    PlanBad(1, 5),
                    BAD_TICK,
                    ERASED,
                    BEGAN,
                    Works(Job::Copy(0)),
                    Swaps(2),
                ],
            ),
        ],
    },
    // The load is counted too.
    Session {
        name: "swap is counted",
        setup: TWO_SWAPS,
        lives: 0,
        parts: &[
            (
                1,
                &[
                    Store(0, 1, Ok(())),
                    Ticks(1),
                    Store(0, 2, Ok(())),
                    Ticks(1),
                    Store(0, 3, Ok(())),
                    Ticks(1),
                    Store(0, 4, Ok(())),
                    Ticks(1),
                    Store(0, 5, Ok(())),
                    Ticks(1),
                    Store(0, 6, Ok(())),
                    Ticks(1),
                ],
            ),
            (
                1,
                &[
                    Store(0, 7, Ok(())),
                    Ticks(5),
                    Store(0, 8, Ok(())),
                    Ticks(1),
                    Store(0, 9, Ok(())),
                    Ticks(5),
                    Store(0, 10, Ok(())),
                    Ticks(1),
                    Store(0, 11, Ok(())),
                    Ticks(5),
                    Store(0, 12, Ok(())),
                    Ticks(1),
                ],
            ),
            (
                1,
                &[
                    Store(0, 13, Ok(())),
                    Ticks(19),
                    Load(0, Ok(13)),
                    Counted(ONE_SWAP),
                ],
            ),
        ],
    },
];

const FAILURES: [Session; 4] = [
    Session {
        name: "planned cut may come in the restart",
        setup: THREE_GREEDY,
        lives: 2,
        parts: &[(
            1,
            &[
                Store(0, 1, Ok(())),
                Begin(Ok(0)),
                Put(0, 0, 2, Ok(())),
                PlanCut(1, 0),
                Cut,
                IsOn(false),
                Revive(Err(ReviveFault::Off)),
                Revive(Ok(())),
                Load(0, Ok(1)),
            ],
        )],
    },
    Session {
        name: "planned bad operation stands over a restart",
        setup: THREE_GREEDY,
        lives: 1,
        parts: &[
            (1, &[Store(0, 1, Ok(())), PlanBad(1, 5)]),
            (1, &RESTART),
            (1, &[BAD_TICK, FLUSHED]),
        ],
    },
    // The undo is written after the program, and each of the two programs is a flush.
    Session {
        name: "bad shadow leaves the page without an owner",
        setup: THREE_GREEDY,
        lives: 0,
        parts: &[(
            1,
            &[
                Store(0, 1, Ok(())),
                Begin(Ok(0)),
                Begin(Ok(1)),
                PlanBad(1, 5),
                Put(0, 0, 2, Err(PutFault::Bad)),
                Put(1, 0, 3, Ok(())),
                Flushes(2),
                Abort(1, Ok(())),
                Load(0, Ok(1)),
            ],
        )],
    },
    Session {
        name: "memory without lives stays dead",
        setup: COMMON,
        lives: 0,
        parts: &[(
            1,
            &[
                IsOn(true),
                Cut,
                IsOn(false),
                Revive(Err(ReviveFault::Dead)),
                Load(0, Err(LoadFault::Off)),
            ],
        )],
    },
];

#[test]
fn swaps_keep_to_their_rules(rt: HostRuntime) {
    check_all(&rt, rt.alloc(), &SWAPS);
}

#[test]
fn failures_are_answered(rt: HostRuntime) {
    check_all(&rt, rt.alloc(), &FAILURES);
}
