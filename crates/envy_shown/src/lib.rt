//! What the board of a memory holds, in numbers, for those who draw it
#![tactic(auto)]

mod contents;
mod places;
mod shapes;

pub use places::{job_in, page_in, position_in, row_in, segment_in};
pub use shapes::{EnvyJob, EnvyPage, EnvyRow, EnvySegment};
