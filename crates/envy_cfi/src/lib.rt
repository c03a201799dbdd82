//! The driver of a flash part of the Intel command set, over any bus to it.
//!
//! A bus may know the chip behind it, as one to a model does, or nothing, as one to a real part does. What each call
//! makes of the chip is proved of the first kind, and what each answer means is proved of both; the code is the same.
#![tactic(auto)]

mod bus;
mod driver;

pub use bus::{Bus, ModelBus, PortBus};
pub use driver::{DriverFault, ROW_BYTES, erase_block, program_byte, program_row};
