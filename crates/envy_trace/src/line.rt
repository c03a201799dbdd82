/// A line of a trace.
#[derive(Clone, Copy, Debug, PartialEq, Eq)]
pub enum Line {
    /// Blanks alone, or a comment: its first field begins with `#`.
    Empty,
    /// Read a word.
    Load { address: u32 },
    /// Read the word that a restart would leave.
    Look { address: u32 },
    /// Write a word.
    Store { address: u32, word: u64 },
    /// Open a transaction.
    Begin,
    /// Write a word in the transaction of a slot.
    Put { slot: u8, address: u32, word: u64 },
    /// Keep what the slot's transaction wrote, and close it.
    Commit { slot: u8 },
    /// Take back what the slot's transaction wrote, and close it.
    Abort { slot: u8 },
    /// One step of work in the background.
    Tick,
    /// Cut the power, and restart.
    Power,
    /// Plan a cut of power in the k-th device operation from here, k at least 1; `g` chooses what it leaves.
    Cut { k: u32, g: u64 },
    /// Plan that the k-th flash operation from here goes bad, k at least 1; `g` chooses what it leaves.
    Bad { k: u32, g: u64 },
    /// Ask for the counters.
    Stat,
}
