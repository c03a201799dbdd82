//! Small boards of the sessions.

use envy_base::Shape;
use envy_policy::{Policy, Setup};

const SHAPE: Shape = Shape {
    segments: 8,
    rows: 16,
    pages: 64,
    shadows: 16,
    frames: 8,
    entries: 4,
    reserves: 0,
    sums: 0,
};

/// Seven positions of 16 rows for 64 pages.
pub(crate) const COMMON: Setup = Setup {
    shape: SHAPE,
    policy: Policy::Greedy,
    limit: 100,
    mark: 8,
};

const TWO_PAGES: Shape = Shape {
    segments: 4,
    rows: 2,
    pages: 2,
    shadows: 0,
    frames: 2,
    entries: 4,
    reserves: 0,
    sums: 0,
};

/// Three positions of two rows each, and swaps soon.
pub(crate) const TWO_SWAPS: Setup = Setup {
    shape: TWO_PAGES,
    policy: Policy::Greedy,
    limit: 1,
    mark: 1,
};

const THREE_PAGES: Shape = Shape {
    segments: 4,
    rows: 2,
    pages: 3,
    shadows: 1,
    frames: 2,
    entries: 4,
    reserves: 0,
    sums: 0,
};

/// Three positions of two rows each. Page p is at home at position p.
pub(crate) const THREE_GREEDY: Setup = Setup {
    shape: THREE_PAGES,
    policy: Policy::Greedy,
    limit: 100,
    mark: 1,
};

pub(crate) const THREE_FIFO: Setup = Setup {
    shape: THREE_PAGES,
    policy: Policy::Fifo,
    limit: 100,
    mark: 1,
};

pub(crate) const THREE_SWAPS: Setup = Setup {
    shape: THREE_PAGES,
    policy: Policy::Greedy,
    limit: 1,
    mark: 1,
};

const SIX_PAGES: Shape = Shape {
    segments: 4,
    rows: 4,
    pages: 6,
    shadows: 2,
    frames: 2,
    entries: 4,
    reserves: 0,
    sums: 0,
};

/// Three positions of four rows each, under locality. Page 3 is at home at position 1.
pub(crate) const SIX_LOCALITY: Setup = Setup {
    shape: SIX_PAGES,
    policy: Policy::Locality,
    limit: 100,
    mark: 2,
};

const SEVEN_PAGES: Shape = Shape {
    segments: 4,
    rows: 4,
    pages: 7,
    shadows: 1,
    frames: 2,
    entries: 4,
    reserves: 0,
    sums: 0,
};

/// Three positions of four rows each. Pages 0, 1 and 2 are at home at position 0, pages 3 and 4 at position 1, and
/// pages 5 and 6 at position 2.
pub(crate) const SEVEN_LOCALITY: Setup = Setup {
    shape: SEVEN_PAGES,
    policy: Policy::Locality,
    limit: 100,
    mark: 1,
};

const TEN_SEGMENTS: Shape = Shape {
    segments: 10,
    rows: 16,
    pages: 64,
    shadows: 16,
    frames: 8,
    entries: 4,
    reserves: 0,
    sums: 0,
};

const TEN_RESERVED: Shape = Shape {
    segments: 10,
    rows: 16,
    pages: 64,
    shadows: 16,
    frames: 8,
    entries: 4,
    reserves: 2,
    sums: 0,
};

/// Nine positions of 16 rows for 64 pages.
pub(crate) const TEN_PLAIN: Setup = Setup {
    shape: TEN_SEGMENTS,
    policy: Policy::Greedy,
    limit: 100,
    mark: 8,
};

/// The same with two of them in reserve.
pub(crate) const RESERVED: Setup = Setup {
    shape: TEN_RESERVED,
    policy: Policy::Greedy,
    limit: 100,
    mark: 8,
};
