use crate::Held;

/// A page that was put into a frame.
#[derive(Clone, Copy, Debug, PartialEq, Eq)]
pub struct Entry {
    pub held: Held,
    /// The stamp that the frame had then.
    pub stamp: u32,
}
