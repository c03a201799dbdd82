//! The memory: a board of flash and SRAM that is a plain array of words to those who use it, with transactions.
//!
//! Each call says what it does to the array that the board stands for, at every exit, and what it counts. Only
//! `format` and `attach` take memory.
#![tactic(auto)]

mod attach;
mod bench;
mod faults;
mod format;
mod kept_place;
mod laws;
mod load_runs;
mod memory;
mod new_parts;
mod one_tx;
mod put;
mod put_runs;
mod reserves;
mod rooms;
mod searches;
mod store;
mod store_runs;
mod sync;
mod tick;
mod transaction;

pub use envy_engine::Did;
pub use faults::{
    AttachFault, BeginFault, EndFault, FormatFault, LoadFault, PutFault, ReviveFault, StoreFault,
};
pub use laws::hits_are_those_of_the_accesses;
pub use memory::Memory;
pub use one_tx::OneTx;
pub use reserves::Worn;
