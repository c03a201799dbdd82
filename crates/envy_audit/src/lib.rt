//! The audit of a board: whether it is formatted and sound, and if not, which point of soundness is the
//! first that fails.
//!
//! The points are asked in their order, each over the map as it stands, whatever words it holds. A point
//! may rest on the earlier ones. The tables that it needs are taken once and filled again for each point.
#![tactic(auto)]

mod audit;
mod copies;
mod jobs;
mod kept;
mod laws;
mod map_fields;
mod segments;
mod sequence;
mod tables;
mod undos;
mod verdict;

pub use audit::{Audit, NoMemory};
pub use laws::{a_board_has_one_verdict, the_points_are_soundness};
pub use verdict::{Rule, Verdict};
