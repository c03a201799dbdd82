//! The frames of SRAM that hold pages, first in first out.
//!
//! A page that is written goes into a frame, which becomes the newest; the oldest is the first to be
//! programmed into flash and given back. After a restart the order is that of the pages' numbers.
#![tactic(auto)]

mod entry;
mod frames;
mod free;
mod held;
mod home;
mod laws;
mod ring;
mod table;

pub use frames::Frames;
pub use held::Held;
pub use home::default_home;
pub use laws::{
    giving_back_keeps_the_agreement, pages_elsewhere_keep_the_agreement,
    places_tell_the_held_frames, taking_keeps_the_agreement,
};
