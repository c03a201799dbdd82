//! What the whole of eNVy stands on: the sizes of a board, and the traits of the device.
//!
//! A board is flash in rows of one page, battery-backed SRAM in words of 64 bits, and power that may
//! fail inside any device operation. After Wu and Zwaenepoel, "eNVy: A Non-Volatile, Main Memory
//! Storage System", ASPLOS 1994.
#![tactic(auto)]

mod bench;
mod board;
mod count;
mod faults;
mod fields;
mod page;
mod shape;

pub use bench::{Bench, Maker, NoMemory};
pub use board::{Board, Off, Trouble};
pub use count::more;
pub use faults::PlannedFault;
pub use fields::{Job, Place, Slot, Undo};
pub use page::{PAGE_BYTES, PAGE_LENGTH, PAGE_WORDS, Page};
pub use shape::{
    MOST_ROWS, MOST_WORDS, Shape, ShapeFault, all_positions_of, positions_of, version_of,
};
