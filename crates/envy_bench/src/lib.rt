//! A board in memory, made of flash chips, SRAM and a supply of power that a test may make fail.
//!
//! `Supply` is the power with the failures that are planned for it, `Sram` the words that a battery keeps, and `Torn` draws the
//! words that a disturbed flash operation leaves.
#![tactic(auto)]

mod board;
mod calm;
mod flash;
mod maker;
mod plans;
mod sram;
mod supply;
mod torn_rows;
mod torn_words;

pub use board::MemBoard;
pub use calm::{CalmBoard, CalmMaker};
pub use maker::MemMaker;
pub use sram::Sram;
pub use supply::{Event, Supply};
pub use torn_words::Torn;

/// Want of memory.
pub type NoMemory = std::alloc::AllocError;
