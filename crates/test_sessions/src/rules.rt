//! Rules of flushing, cleaning and restarts that only the order of rows and the counts show.

use crate::session::{Session, check_all};
use crate::setups::{SEVEN_LOCALITY, THREE_FIFO, THREE_GREEDY};
use crate::steps::Step;
use crate::steps::Step::{
    Abort, Begin, Copies, Counted, Cut, Flushes, IsAt, Load, PlanBad, Put, Revive, Store, Tick,
    Works,
};
use envy_array::Counts;
use envy_base::{Job, Place, Trouble};
use envy_memory::Did;

pub(crate) const FLUSHED: Step = Tick(Ok(Did::Flushed));

pub(crate) const BEGAN: Step = Tick(Ok(Did::Began));

const COPIED: Step = Tick(Ok(Did::Copied));

const MOVED: Step = Tick(Ok(Did::Moved));

pub(crate) const SWITCHED: Step = Tick(Ok(Did::Switched));

pub(crate) const PLACED: Step = Tick(Ok(Did::Placed));

pub(crate) const ERASED: Step = Tick(Ok(Did::Erased));

pub(crate) const IDLE: Step = Tick(Ok(Did::Idle));

pub(crate) const BAD_TICK: Step = Tick(Err(Trouble::Bad));

pub(crate) const RESTART: [Step; 2] = [Cut, Revive(Ok(()))];

// Pages 1, 0, 1, 1, 2 and 2 go to the six rows in turn, and page 2 is in a frame again. Page 0 keeps row 1, and page 1
// keeps row 3.
const ROWS_ARE_FULL: [Step; 13] = [
    Store(32, 1, Ok(())),
    FLUSHED,
    Store(0, 1, Ok(())),
    FLUSHED,
    Store(32, 1, Ok(())),
    FLUSHED,
    Store(32, 1, Ok(())),
    FLUSHED,
    Store(64, 1, Ok(())),
    FLUSHED,
    Store(64, 1, Ok(())),
    FLUSHED,
    Store(64, 1, Ok(())),
];

const DEAD_ROWS: [Session; 2] = [
    // Page 1 leaves row 3, and then position 1 has as many dead rows as position 2, and more than position 0.
    Session {
        name: "row that a page leaves is dead",
        setup: THREE_GREEDY,
        lives: 0,
        parts: &[
            (1, &ROWS_ARE_FULL),
            (1, &[Store(32, 2, Ok(())), BEGAN, Works(Job::Copy(1))]),
        ],
    },
    // The undo of page 1 names row 3, and then position 2 alone has two dead rows.
    Session {
        name: "row that an undo names is kept",
        setup: THREE_GREEDY,
        lives: 0,
        parts: &[
            (1, &ROWS_ARE_FULL),
            (
                1,
                &[
                    Begin(Ok(0)),
                    Put(0, 32, 2, Ok(())),
                    BEGAN,
                    Works(Job::Copy(2)),
                ],
            ),
        ],
    },
];

// Pages 5 and 6 fill position 2, where page 5 keeps row 8 and the other rows are dead. Pages 6 and 0 are in frames, and
// the store into page 5 flushes page 6: position 2 is cleaned, and page 5 moves to row 4, of position 1.
const PAGE_MOVED: [Step; 12] = [
    Store(160, 1, Ok(())),
    FLUSHED,
    Store(192, 2, Ok(())),
    FLUSHED,
    Store(192, 3, Ok(())),
    FLUSHED,
    Store(192, 4, Ok(())),
    FLUSHED,
    Store(192, 5, Ok(())),
    Store(0, 6, Ok(())),
    Store(161, 9, Ok(())),
    IsAt(6, Place::Row(12)),
];

const BOTH_READ: [Step; 2] = [Load(160, Ok(1)), Load(161, Ok(9))];

const ONE_OF_FOUR: Counts = Counts {
    hits: 1,
    misses: 3,
    flushes: 1,
    copies: 0,
    moves: 0,
    erases: 0,
    swaps: 0,
};

const HOMES: [Session; 4] = [
    // Pages 0 and 5 are flushed.
    Session {
        name: "home is where the flush moved the page",
        setup: SEVEN_LOCALITY,
        lives: 0,
        parts: &[
            (1, &PAGE_MOVED),
            (
                1,
                &[
                    FLUSHED,
                    IsAt(0, Place::Row(0)),
                    FLUSHED,
                    IsAt(5, Place::Row(5)),
                ],
            ),
            (1, &BOTH_READ),
        ],
    },
    Session {
        name: "home is that of the page after a restart",
        setup: SEVEN_LOCALITY,
        lives: 1,
        parts: &[
            (1, &PAGE_MOVED),
            (1, &RESTART),
            (
                1,
                &[
                    FLUSHED,
                    IsAt(0, Place::Row(0)),
                    FLUSHED,
                    IsAt(5, Place::Row(13)),
                ],
            ),
            (1, &BOTH_READ),
        ],
    },
    // Page 6 was held longer.
    Session {
        name: "pages are held in rising order after a restart",
        setup: SEVEN_LOCALITY,
        lives: 1,
        parts: &[
            (1, &[Store(192, 1, Ok(())), Store(0, 2, Ok(()))]),
            (1, &RESTART),
            (1, &[Store(96, 3, Ok(())), IsAt(0, Place::Row(0))]),
        ],
    },
    // A store again leaves page 0 the oldest, and each store looks its page up once.
    Session {
        name: "oldest page is flushed",
        setup: SEVEN_LOCALITY,
        lives: 0,
        parts: &[(
            1,
            &[
                Store(0, 1, Ok(())),
                Store(32, 2, Ok(())),
                Store(0, 3, Ok(())),
                Store(64, 4, Ok(())),
                IsAt(0, Place::Row(0)),
                Counted(ONE_OF_FOUR),
            ],
        )],
    },
];

// Pages 5 and 6 fill position 2, and its cleaning is begun for page 6, which goes back to its row then.
const CLEANING_BEGAN: [Step; 12] = [
    Store(160, 1, Ok(())),
    FLUSHED,
    Store(192, 2, Ok(())),
    FLUSHED,
    Store(192, 3, Ok(())),
    FLUSHED,
    Store(192, 4, Ok(())),
    FLUSHED,
    Begin(Ok(0)),
    Put(0, 192, 5, Ok(())),
    BEGAN,
    Abort(0, Ok(())),
];

// The cleaning of position 0 is begun, of whose rows page 1 keeps row 1 alone.
const COPY_BEGAN: [Step; 14] = [
    Store(0, 1, Ok(())),
    FLUSHED,
    Store(32, 1, Ok(())),
    FLUSHED,
    Store(0, 1, Ok(())),
    FLUSHED,
    Store(0, 1, Ok(())),
    FLUSHED,
    Store(0, 1, Ok(())),
    FLUSHED,
    Store(0, 1, Ok(())),
    FLUSHED,
    Store(0, 2, Ok(())),
    BEGAN,
];

// Three rows are claimed at position 0, three at position 1, and four at position 2, the second of these for a flush that
// is bad.
const HEATED: [Step; 23] = [
    Store(0, 1, Ok(())),
    FLUSHED,
    Store(0, 1, Ok(())),
    FLUSHED,
    Store(0, 1, Ok(())),
    FLUSHED,
    Store(96, 1, Ok(())),
    FLUSHED,
    Store(96, 1, Ok(())),
    FLUSHED,
    Store(96, 1, Ok(())),
    FLUSHED,
    Store(160, 1, Ok(())),
    FLUSHED,
    Store(192, 2, Ok(())),
    PlanBad(1, 5),
    BAD_TICK,
    Flushes(8),
    FLUSHED,
    IsAt(6, Place::Row(10)),
    Store(192, 3, Ok(())),
    FLUSHED,
    Store(192, 4, Ok(())),
];

const CLEANINGS: [Session; 4] = [
    // Position 0 has room for page 0, so the job stays as it is.
    Session {
        name: "row is claimed beside a job",
        setup: SEVEN_LOCALITY,
        lives: 0,
        parts: &[
            (1, &CLEANING_BEGAN),
            (
                1,
                &[
                    Store(0, 6, Ok(())),
                    Store(32, 6, Ok(())),
                    Store(96, 6, Ok(())),
                    IsAt(0, Place::Row(0)),
                    Works(Job::Copy(2)),
                    Flushes(5),
                ],
            ),
        ],
    },
    // Position 2 has a heat of 4 of 10, which is more than its share of a third: page 5 moves to position 1.
    Session {
        name: "heat is noted with the claim",
        setup: SEVEN_LOCALITY,
        lives: 0,
        parts: &[(1, &HEATED), (1, &[BEGAN, MOVED, IsAt(5, Place::Row(7))])],
    },
    Session {
        name: "row that a store leaves is not copied",
        setup: THREE_FIFO,
        lives: 0,
        parts: &[
            (1, &COPY_BEGAN),
            (
                1,
                &[
                    Store(32, 7, Ok(())),
                    SWITCHED,
                    PLACED,
                    ERASED,
                    Load(32, Ok(7)),
                    Copies(0),
                ],
            ),
        ],
    },
    Session {
        name: "page that left its row is not switched",
        setup: THREE_FIFO,
        lives: 0,
        parts: &[
            (1, &COPY_BEGAN),
            (
                1,
                &[
                    COPIED,
                    Store(32, 7, Ok(())),
                    SWITCHED,
                    PLACED,
                    ERASED,
                    Load(32, Ok(7)),
                ],
            ),
        ],
    },
];

#[test]
fn rows_die_when_no_page_and_no_undo_names_them(rt: HostRuntime) {
    check_all(&rt, rt.alloc(), &DEAD_ROWS);
}

#[test]
fn pages_have_homes_and_an_order(rt: HostRuntime) {
    check_all(&rt, rt.alloc(), &HOMES);
}

#[test]
fn cleanings_keep_to_their_rules(rt: HostRuntime) {
    check_all(&rt, rt.alloc(), &CLEANINGS);
}
