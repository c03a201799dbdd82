//! The pool of erased flash rows: how far each segment is filled, how many of its rows are kept, and
//! which segment stands at each position.
//!
//! The map in SRAM holds all of it. A `Space` keeps it beside the map, so that rows are claimed and
//! victims found without a look at the map, and `rebuild` reads it anew after a failure of power.
#![tactic(auto)]

mod bits;
mod bounds;
mod claim;
mod fill_laws;
mod flags;
mod laws;
mod nodes;
mod order;
mod rebuild;
mod reserve;
mod row_notes;
mod scores;
mod space;
mod winners;

pub use fill_laws::{an_emptied_segment_is_erased, no_row_is_claimed_twice};
pub use laws::{notes_follow_a_page, notes_follow_a_place};
pub use row_notes::notes_follow_a_row;
pub use space::Space;
