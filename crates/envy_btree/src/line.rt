/// A line of a trace of the index.
#[derive(Clone, Copy, Debug, PartialEq, Eq)]
pub enum IndexLine {
    /// Blanks alone, or a comment: its first field begins with `#`.
    Empty,
    /// Ask for the value of a key.
    Get { key: u64 },
    /// Set the value of a key.
    Insert { key: u64, value: u64 },
    /// Take a key out.
    Remove { key: u64 },
    /// Cut the power, and restart.
    Power,
    /// Plan a cut of power in the k-th device operation from here, k at least 1; `g` chooses what it leaves.
    Cut { k: u32, g: u64 },
    /// Plan that the k-th flash operation from here goes bad, k at least 1; `g` chooses what it leaves.
    Bad { k: u32, g: u64 },
}
