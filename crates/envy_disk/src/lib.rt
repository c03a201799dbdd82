//! A board that can be brought to a disk, so that its words outlive the machine.
#![tactic(auto)]

mod durable_board;

pub use durable_board::{Compaction, Durable};
