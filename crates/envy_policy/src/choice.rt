/// Where the next page is written to. Positions and partitions are numbered from 0.
#[derive(Clone, Copy, Debug, PartialEq, Eq)]
pub enum Choice {
    /// A position with a free row.
    Free { position: u32 },
    /// No row is free near the page's home: clean this position, which has dead rows. Of its kept
    /// rows some may be moved to the partition `aside`.
    Clean { position: u32, aside: Option<u32> },
}
