//! One relocation of a segment into the spare, a step at a time.
//!
//! The job stands in SRAM, and any call of a host may come between two steps. So each step looks at the
//! map for what is left to be done, and leaves every word of the array as it was, wherever power fails.
#![tactic(auto)]

mod job_end;
mod laws;
mod notes;
mod reloc;
mod row_copy;
mod row_move;
mod row_switch;
mod settle;
mod step;

pub use laws::{a_cleaning_leaves_room, writes_keep_the_plan};
pub use reloc::Reloc;
pub use step::Phase;
