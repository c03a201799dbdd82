/// A failure of a board that is planned for a later operation.
#[derive(Clone, Copy, Debug, PartialEq, Eq)]
pub enum PlannedFault {
    /// Power is cut in the `k`-th device operation (`put`, `program` and `erase` count), `k` at least 1. What the
    /// cut leaves is drawn from `g`.
    Cut { k: u32, g: u64 },
    /// The `k`-th flash operation (`program` and `erase` count) goes bad, `k` at least 1. What it leaves is drawn
    /// from `g`.
    Bad { k: u32, g: u64 },
}
