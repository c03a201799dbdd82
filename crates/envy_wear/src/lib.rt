//! Swaps, which let segments wear alike: when one is due, and the relocations that it is made of.
#![tactic(auto)]

mod laws;
mod overdue;
mod quiet;
mod stages;
mod swap;

pub use laws::one_swap_is_due;
pub use overdue::due;
pub use quiet::due_after;
pub use stages::Stages;
pub use swap::Swap;
