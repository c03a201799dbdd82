//! The SRAM map: which word of a board's SRAM holds which field, and a reader and a writer of each.
//!
//! A writer is exactly one `put`, which changes its field alone. Where power fails in it, the field is
//! as before or as written.
#![tactic(auto)]

mod blank_map;
mod code;
mod frame;
mod half;
mod header;
mod jobs;
mod page;
pub mod probe;
mod region;
mod row;
mod segment;
mod slots;

pub use blank_map::{
    clear_places, clear_undos, set_magic, set_reserves, set_size, set_sums, set_version,
};
pub use code::{decode_job, decode_place, decode_slot, decode_undo};
pub use frame::{frame_word, set_frame_word, write_frame};
pub use header::{MAGIC, is_formatted, kept_shape, version};
pub use jobs::{job, set_job};
pub use page::{place, set_place, set_undo, undo};
pub use region::words;
pub use row::{back, origin, set_back, set_origin};
pub use segment::{fill, segment_at, set_fill, set_segment_at, set_wear, wear};
pub use slots::{set_slot, slot};
