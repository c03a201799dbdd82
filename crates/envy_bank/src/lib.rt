//! A bank of flash: 256 chips side by side, whose bytes at one address make a row of 32 words.
//!
//! Lane `j` of a row is byte `j % 8` of word `j / 8`, the least significant byte first. `Bank` keeps the
//! rows, and `ChipBank` the chips; both have the same contract. The chips that a bank's rows mean, and
//! that each call is what the command bytes do to each of them, are the laws at the end.
//!
//! A `Chip` is driven by the bytes that are written to it, as by a processor. The commands and the bits of
//! the status byte are after those of Intel's 28F008SA (its data sheet, "Command Definitions"), without
//! suspension and identification. An erase or a program ends within the write that starts it.
#![tactic(auto)]

mod bank;
mod chip;
mod chip_bank;
mod kept;
mod lanes;
mod laws;

pub use bank::{Bank, NoMemory};
pub use chip::{
    CLEAR_STATUS, Chip, ERASE_CONFIRM, ERASE_ERROR, ERASE_SETUP, MOST_BYTES, Mode, PROGRAM_ERROR,
    PROGRAM_SETUP, READ_ARRAY, READ_STATUS, READY,
};
pub use chip_bank::ChipBank;
pub use laws::{
    erases_are_writes_to_each_chip, programs_are_writes_to_each_chip, rows_are_read_from_the_chips,
    upsets_reach_each_chip,
};
