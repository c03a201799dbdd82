/// Which way pairs are gone through.
#[derive(Clone, Copy)]
pub enum Way {
    /// By rising key.
    Up,
    /// By falling key.
    Down,
}
