//! The TPC-A load: a bank's transfers, each one transaction on a memory, and each counted once however often power
//! fails.
//!
//! Which words the memory holds after the first transfers of a load is defined in `specs/Tpc.antt`, by adding up a
//! list. Nothing here takes memory.
#![tactic(auto)]

mod calls;
mod draw;
mod driver;
mod fault;
mod layout;
mod load;
mod load_sums;
mod places;
mod restart;
mod sums;
mod transfer;
mod trial;

pub use driver::drive;
pub use fault::DriveFault;
use fault::Fault;
pub use load::Load;
use places::{Places, Spots};
pub use sums::Sums;
pub use transfer::Transfer;
