/// A frame that holds a page.
#[derive(Clone, Copy, Debug, PartialEq, Eq)]
pub struct Held {
    /// The frame's number on the board.
    pub frame: u32,
    /// The page whose words it holds.
    pub page: u32,
    /// The position that the page is written back to, or near to.
    pub home: u32,
}
