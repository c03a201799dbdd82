//! Boards that keep the least that is asked of one, and what makes an exact board of any.
//!
//! `envy_base`'s `Board` counts exactly: an operation that succeeds raises no count of failures, and
//! one that fails raises one of them by one. A device may count otherwise: a failure that it met and
//! mended under `Ok`, or a bad operation in the very moment in which power failed. Such a device is a
//! `LooseBoard`, and `StrictBoard` makes a `Board` of it, whose counts are those of the answers that it gave:
//! never more than the device counts itself. Everything that is proved of boards holds of it.
#![tactic(auto)]

mod loose_board;
mod maker;
mod strict_board;

pub use loose_board::{LooseBench, LooseBoard, LooseMaker};
pub use maker::StrictMaker;
pub use strict_board::StrictBoard;
