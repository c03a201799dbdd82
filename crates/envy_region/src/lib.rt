//! Boards over plain memory: flash as rows of 32 words, SRAM as words, and a count of erases for each segment.
//!
//! `BorrowedBoard` is over memory that its caller owns, as of a file that is mapped. `OrderedBoard` is the same with a barrier
//! after each put, for memory that outlives power. `OwnedBoard` has memory of its own, and a row of it takes none before it is
//! programmed.
//!
//! Power doesn't fail here, and no flash operation goes wrong. If the process that owns the memory is killed inside
//! a call, what it leaves is what a failure of power leaves.
#![tactic(auto)]

mod borrowed_board;
mod ordered_board;
mod owned_board;
#[cfg(test)]
mod tests;

pub use borrowed_board::{BorrowedBoard, anded, fill};
pub use ordered_board::{Fence, OrderedBoard};
pub use owned_board::OwnedBoard;
