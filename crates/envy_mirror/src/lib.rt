//! A mirrored pair of boards: it gives the answers of one array while at least one board is good, and a side that
//! lost power comes back and catches up while the array is in use.
//!
//! The array is as in the memory of each side; the pair stands for it where each Good side does. Only `Mirror::new`
//! takes memory.
#![tactic(auto)]

mod both_sides;
mod call;
mod calls;
mod catch_up;
mod cuts;
mod half;
mod loads;
mod mirror;
mod page_copy;
mod revival;
mod standing;

pub use catch_up::{CatchFault, Caught};
pub use mirror::Mirror;
pub use standing::{Standing, Which};
