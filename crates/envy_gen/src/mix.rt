/// A skew of accesses: the pages that are hot, and how many accesses go to them.
#[derive(Clone, Copy, Debug, PartialEq, Eq)]
pub struct Skew {
    /// Per cent of the pages that are hot, 1 to 99. They are the lowest, and one at least is hot.
    pub hot: u32,
    /// Per cent of the accesses that go to hot pages, 1 to 99.
    pub share: u32,
}

/// What lines are drawn.
#[derive(Clone, Copy, Debug, PartialEq, Eq)]
pub struct Mix {
    /// The pages of the array: 1 to 1,048,576.
    pub pages: u32,
    /// Without a skew each page is as likely.
    pub skew: Option<Skew>,
    /// Per cent of the lines that are stores, 1 to 99, where the others are loads. Without it lines of each kind are
    /// drawn.
    pub stores: Option<u32>,
}
