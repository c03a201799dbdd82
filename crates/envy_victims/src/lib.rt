//! The choice of the position that a page is written to, by questions to the pool of erased rows.
//!
//! It is the choice that the policies define over lists of the rows at all positions, in a time that grows
//! with the logarithm of the segments.
#![tactic(auto)]

mod choice;
mod pooled;

pub use choice::{choose_row, free_beside};
pub use pooled::beside_job;
