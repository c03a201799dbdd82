/// What a memory has done since it was formatted or attached. Each counter stops at `2^64 - 1`.
#[derive(Clone, Copy, Debug, PartialEq, Eq)]
pub struct Counts {
    /// Host accesses whose page the translation cache held.
    pub hits: u64,
    /// Host accesses whose page it didn't hold.
    pub misses: u64,
    /// Programs begun to flush a page, or to keep a shadow of one.
    pub flushes: u64,
    /// Programs begun by the cleaner to copy a kept row into the spare.
    pub copies: u64,
    /// Programs begun by the cleaner to move a kept row to a neighbour partition.
    pub moves: u64,
    /// Erases begun.
    pub erases: u64,
    /// Wear swaps begun.
    pub swaps: u64,
}

impl Counts {
    /// No work done.
    pub const ZERO: Counts = Counts {
        hits: 0,
        misses: 0,
        flushes: 0,
        copies: 0,
        moves: 0,
        erases: 0,
        swaps: 0,
    };
}
