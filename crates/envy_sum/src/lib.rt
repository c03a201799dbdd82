//! CRC-32C of a row, by which it is told from each row that differs from it in no more than 32 consecutive bits.
//!
//! The sum is that of RFC 3720 over the bytes of the row, the words in order and the lowest byte of each first. No
//! board keeps sums yet.
#![tactic(auto)]

mod lanes;
mod laws;
mod register;
mod sums;
#[cfg(test)]
mod tests;

pub use laws::{
    a_burst_changes_the_sum, a_changed_bit_changes_the_sum, a_row_is_summed_by_its_bytes,
};
pub use register::sum_of_bytes;
pub use sums::Sums;

/// Want of memory.
pub type NoMemory = std::alloc::AllocError;
