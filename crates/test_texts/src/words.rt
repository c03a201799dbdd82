//! Which command the words of a command line name.

use crate::told::same;
use envy_args::{Command, WordsFault, read_words};
use envy_array::Area;
use envy_base::Shape;
use envy_gen::{Mix, Skew};
use envy_policy::{Policy, Setup};
use std::alloc::Global;
use std::process::Abort;

/// A command line, and what its words are read as.
type Row = (&'static str, Result<Command, WordsFault>);

/// The words that stand between single spaces.
pub(crate) fn split(rt: &impl Abort, alloc: Global, line: &str) -> Vec<String> {
    let mut words = Vec::new(alloc);
    for word in line.split(" ") {
        let word = String::from_str(alloc, word).expect(rt, "no room for a word");
        words.push(word).expect(rt, "no room for words");
    }
    words
}

fn read(rt: &impl Abort, alloc: Global, line: &str) -> Result<Command, WordsFault> {
    let words = split(rt, alloc, line);
    read_words(alloc, &words)
}

/// Tests that a line is read so.
pub(crate) fn check(
    rt: &impl Abort,
    alloc: Global,
    line: &str,
    wanted: Result<Command, WordsFault>,
) {
    same(rt, read(rt, alloc, line), wanted, line);
}

// Power may return as often as a number of 32 bits tells.
const LIVES: u32 = 4294967295;

// The most rows of a board that isn't asked to be large.
const ROWS: u32 = 1048576;

const SHAPE: Shape = Shape {
    segments: 8,
    rows: 16,
    pages: 64,
    shadows: 16,
    frames: 8,
    entries: 4,
    reserves: 0,
    sums: 0,
};

const SETUP: Setup = Setup {
    shape: SHAPE,
    policy: Policy::Greedy,
    limit: 100,
    mark: 8,
};

const RUN: Command = Command::Run {
    setup: SETUP,
    lives: LIVES,
};

const LOAD_SHAPE: Shape = Shape {
    segments: 16,
    rows: 32,
    pages: 384,
    shadows: 16,
    frames: 16,
    entries: 16,
    reserves: 0,
    sums: 0,
};

const LOAD_SETUP: Setup = Setup {
    shape: LOAD_SHAPE,
    policy: Policy::Greedy,
    limit: 100,
    mark: 16,
};

const TREE_SETUP: Setup = Setup {
    shape: Shape {
        shadows: 32,
        ..LOAD_SHAPE
    },
    ..LOAD_SETUP
};

const SIXTY_FOUR_PAGES: Mix = Mix {
    pages: 64,
    skew: None,
    stores: None,
};

const DEFAULTS: [Row; 10] = [
    ("run", Ok(RUN)),
    ("plain", Ok(Command::Plain { setup: SETUP })),
    (
        "tpca",
        Ok(Command::Tpca {
            setup: LOAD_SETUP,
            lives: LIVES,
            start: 1,
            area: Area {
                branches: 1,
                accounts: 8000,
                transfers: 1000,
            },
            every: 0,
        }),
    ),
    (
        "gen",
        Ok(Command::Gen {
            start: 1,
            lines: 1000,
            mix: SIXTY_FOUR_PAGES,
        }),
    ),
    (
        "save",
        Ok(Command::Save {
            setup: SETUP,
            lives: LIVES,
        }),
    ),
    (
        "mirror",
        Ok(Command::Mirror {
            setup: SETUP,
            lives: LIVES,
        }),
    ),
    ("audit", Ok(Command::Audit { most: ROWS })),
    ("map", Ok(Command::Map { most: ROWS })),
    (
        "resume",
        Ok(Command::Resume {
            policy: Policy::Greedy,
            limit: 100,
            mark: None,
            lives: LIVES,
            most: ROWS,
        }),
    ),
    (
        "index",
        Ok(Command::Index {
            setup: TREE_SETUP,
            lives: LIVES,
        }),
    ),
];

const NINE_FRAMES: Shape = Shape { frames: 9, ..SHAPE };

const NINE_AND_THREE: Command = Command::Run {
    setup: Setup {
        shape: NINE_FRAMES,
        mark: 3,
        ..SETUP
    },
    lives: LIVES,
};

const NINE_AND_NINE: Command = Command::Run {
    setup: Setup {
        shape: NINE_FRAMES,
        mark: 9,
        ..SETUP
    },
    lives: LIVES,
};

const ONE_IN_RESERVE: Setup = Setup {
    shape: Shape {
        reserves: 1,
        ..SHAPE
    },
    ..SETUP
};

const HYBRID_OF_SEVEN: Setup = Setup {
    policy: Policy::Hybrid(7),
    ..SETUP
};

const HYBRID_OF_TWO: Setup = Setup {
    policy: Policy::Hybrid(2),
    ..SETUP
};

const FIFO: Setup = Setup {
    policy: Policy::Fifo,
    ..SETUP
};

const LIFETIME: Setup = Setup {
    policy: Policy::Lifetime,
    ..SETUP
};

const LOCALITY: Setup = Setup {
    policy: Policy::Locality,
    ..SETUP
};

// Options stand in any order and in both forms.
const OPTIONS: [Row; 21] = [
    ("run --frames 9 --mark 3", Ok(NINE_AND_THREE)),
    ("run --mark=3 --frames=9", Ok(NINE_AND_THREE)),
    ("run --mark 3 --frames=9 --", Ok(NINE_AND_THREE)),
    ("run --frames=9", Ok(NINE_AND_NINE)),
    ("run --", Ok(RUN)),
    (
        "run --policy hybrid --part 7",
        Ok(Command::Run {
            setup: HYBRID_OF_SEVEN,
            lives: LIVES,
        }),
    ),
    (
        "run --policy=hybrid",
        Ok(Command::Run {
            setup: HYBRID_OF_TWO,
            lives: LIVES,
        }),
    ),
    (
        "run --policy=fifo",
        Ok(Command::Run {
            setup: FIFO,
            lives: LIVES,
        }),
    ),
    (
        "run --part 3 --policy lifetime",
        Ok(Command::Run {
            setup: LIFETIME,
            lives: LIVES,
        }),
    ),
    (
        "run --part 4000 --policy locality",
        Ok(Command::Run {
            setup: LOCALITY,
            lives: LIVES,
        }),
    ),
    ("run --part=0 --policy=greedy", Ok(RUN)),
    ("run --reserves=0", Ok(RUN)),
    (
        "run --reserves 1",
        Ok(Command::Run {
            setup: ONE_IN_RESERVE,
            lives: LIVES,
        }),
    ),
    (
        "mirror --reserves=1",
        Ok(Command::Mirror {
            setup: ONE_IN_RESERVE,
            lives: LIVES,
        }),
    ),
    (
        "gen --pages=1048576 --lines 0 --start 18446744073709551615",
        Ok(Command::Gen {
            start: 18446744073709551615,
            lines: 0,
            mix: Mix {
                pages: 1048576,
                ..SIXTY_FOUR_PAGES
            },
        }),
    ),
    (
        "gen --share 99 --hot=1",
        Ok(Command::Gen {
            start: 1,
            lines: 1000,
            mix: Mix {
                skew: Some(Skew { hot: 1, share: 99 }),
                ..SIXTY_FOUR_PAGES
            },
        }),
    ),
    (
        "gen --stores=60",
        Ok(Command::Gen {
            start: 1,
            lines: 1000,
            mix: Mix {
                stores: Some(60),
                ..SIXTY_FOUR_PAGES
            },
        }),
    ),
    (
        "tpca --branches 2 --accounts=3 --transfers 4 --start 5 --lives 6 --every=7",
        Ok(Command::Tpca {
            setup: LOAD_SETUP,
            lives: 6,
            start: 5,
            area: Area {
                branches: 2,
                accounts: 3,
                transfers: 4,
            },
            every: 7,
        }),
    ),
    (
        "resume --mark 0 --policy hybrid --part=0 --limit 0 --lives 3",
        Ok(Command::Resume {
            policy: Policy::Hybrid(0),
            limit: 0,
            mark: Some(0),
            lives: 3,
            most: ROWS,
        }),
    ),
    ("audit --large 1", Ok(Command::Audit { most: 16777216 })),
    ("map --large=0", Ok(Command::Map { most: ROWS })),
];

// Numbers go to the end of their width.
const NUMBERS: [Row; 7] = [
    ("run --lives 4294967295", Ok(RUN)),
    ("run --lives 4294967296", Err(WordsFault::Form)),
    (
        "run --lives=0",
        Ok(Command::Run {
            setup: SETUP,
            lives: 0,
        }),
    ),
    (
        "run --lives=000000000000000000000007",
        Ok(Command::Run {
            setup: SETUP,
            lives: 7,
        }),
    ),
    ("run --shadows 0016", Ok(RUN)),
    (
        "run --limit 18446744073709551615",
        Ok(Command::Run {
            setup: Setup {
                limit: 18446744073709551615,
                ..SETUP
            },
            lives: LIVES,
        }),
    ),
    ("run --limit 18446744073709551616", Err(WordsFault::Form)),
];

/// Tests that each line of a table is read as it says.
fn check_each(rt: &impl Abort, alloc: Global, rows: &[Row]) {
    for row in rows {
        let (line, wanted) = *row;
        check(rt, alloc, line, wanted);
    }
}

#[test]
fn words_name_their_commands(rt: HostRuntime) {
    check_each(&rt, rt.alloc(), &DEFAULTS);
    check_each(&rt, rt.alloc(), &OPTIONS);
    check_each(&rt, rt.alloc(), &NUMBERS);
}
