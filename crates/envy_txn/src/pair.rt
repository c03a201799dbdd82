/// A page that an open transaction owns.
#[derive(Clone, Copy, Debug, PartialEq, Eq)]
pub struct Pair {
    pub page: u32,
    /// The slot of the transaction.
    pub slot: u8,
}
