/// Two positions whose segments are to change places.
#[derive(Clone, Copy, Debug, PartialEq, Eq)]
pub struct Swap {
    /// The position of the most worn segment.
    pub worn: u32,
    /// The position of the least worn segment.
    pub young: u32,
}
