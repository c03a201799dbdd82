/// A point of soundness, by its letter.
#[derive(Clone, Copy, Debug, PartialEq, Eq)]
pub enum Rule {
    /// The map keeps the board's shape, and every field decodes within its range.
    A,
    /// No two positions name one segment.
    B,
    /// No two places name one frame.
    C,
    /// No row is referred to from two pages.
    D,
    /// A kept row is below its segment's fill and was claimed for its page.
    E,
    /// Rows from the fill upward are all ones.
    F,
    /// While there is no job the spare's fill is 0.
    G,
    /// Kept rows lie in segments at positions, or in the spare of a switch.
    H,
    /// The job's segment is where it should be, and the spare of a switch holds its copies.
    I,
    /// Of a row and its copy no more than one is kept.
    J,
    /// No more pages have an active undo than may.
    K,
    /// An undo names a slot in use.
    L,
    /// No kept row lies in a segment at a position in reserve.
    M,
}

/// What an audit finds.
#[derive(Clone, Copy, Debug, PartialEq, Eq)]
pub enum Verdict {
    /// The board is formatted and sound.
    Sound,
    /// The board isn't formatted, or its map has a version that isn't of the board's shape.
    Unformatted,
    /// The board is formatted, and this is the first point that fails.
    Broken(Rule),
}
