use crate::pair::Pair;

/// A pair in order of owning, and whether it owns its page still.
#[derive(Clone, Copy, Debug, PartialEq, Eq)]
pub struct Entry {
    pub pair: Pair,
    pub live: bool,
    /// One past the place of the slot's newest entry that owned when this one came, or 0 where none did.
    pub older: u32,
}
