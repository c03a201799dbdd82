use envy_array::Area;
use envy_gen::Mix;
use envy_policy::{Policy, Setup};

/// What the program is asked to do.
#[derive(Clone, Copy, Debug, PartialEq, Eq)]
pub enum Command {
    /// Answer a trace over a board on which power returns at most so often.
    Run {
        setup: Setup,
        lives: u32,
    },
    /// Answer a trace by the plain machine.
    Plain {
        setup: Setup,
    },
    /// Do the TPC-A load: its transfers drawn from `start`, with a failure of power every so many
    /// transfers, or none at 0.
    Tpca {
        setup: Setup,
        lives: u32,
        start: u64,
        area: Area,
        every: u32,
    },
    /// Write a trace of so many lines, drawn from `start` by the mix.
    Gen {
        start: u64,
        lines: u32,
        mix: Mix,
    },
    /// Answer a trace without a reply, and write the board's image where the trace was done to its end.
    Save {
        setup: Setup,
        lives: u32,
    },
    /// Read an image of at most so many rows, and answer the trace behind it. A mark of None is the image's number of frames.
    Resume {
        policy: Policy,
        limit: u64,
        mark: Option<u32>,
        lives: u32,
        most: u32,
    },
    /// Read an image of at most so many rows, and judge it.
    Audit {
        most: u32,
    },
    /// Read an image of at most so many rows, and tell its segments.
    Map {
        most: u32,
    },
    /// Keep an index tree in the memory: a trace of its operations is answered.
    Index {
        setup: Setup,
        lives: u32,
    },
    /// Answer a trace over a mirrored pair of boards.
    Mirror {
        setup: Setup,
        lives: u32,
    },
}

/// Why words are refused.
#[derive(Clone, Copy, Debug, PartialEq, Eq)]
pub enum WordsFault {
    /// They aren't in the form.
    Form,
    /// They are, but break a rule. This is the number of the first: 1 to 10 those of a setup, 11 that
    /// the records of the load fit, 12 that it has shadows enough, 13 that an index has shadows enough, 14
    /// that it has pages enough, 15 that a number of per cent is 1 to 99, 16 that hot pages and their share are
    /// given together, 17 that a board that may be large has no more rows than any may have, 18 that reserves leave
    /// at least 4 segments, 19 that sums are 0 or 1.
    Setup(u8),
    /// Out of memory.
    Memory,
}
