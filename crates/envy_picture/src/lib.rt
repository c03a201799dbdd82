//! What each row of a board is: kept, a shadow, dead or free, for those who draw a memory.
#![tactic(auto)]

mod kinds;

pub use kinds::{RowKind, row_kind};
