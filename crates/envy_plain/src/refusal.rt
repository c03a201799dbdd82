/// Why a call was refused. The array is as it was.
#[derive(Clone, Copy, Debug, PartialEq, Eq)]
pub enum Refusal {
    /// The address is not below 32 times the pages.
    Range,
    /// The slot isn't open, or there is no such slot.
    Closed,
    /// The page is owned by this other slot.
    Held(u8),
    /// The page has no owner, and as many pages are owned as may be.
    Full,
    /// All 64 slots are open.
    Busy,
}
