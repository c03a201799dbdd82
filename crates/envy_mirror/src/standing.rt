/// What a side of a mirror is good for.
#[derive(Clone, Copy, Debug, PartialEq, Eq)]
pub enum Standing {
    /// It answers calls.
    Good,
    /// It has power and no slot open, and copies the other side page by page.
    Behind,
    /// It has no power.
    Gone,
}

/// One of the two sides.
#[derive(Clone, Copy, Debug, PartialEq, Eq)]
pub enum Which {
    First,
    Second,
}
