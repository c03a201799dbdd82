//! A board as bytes: its image is written to a sink, and read from a source into another board.
//!
//! `write_segments` writes the segments of a board as lines of comma-separated values, for those who study wear and cleaning.
#![tactic(auto)]

mod installation;
mod laws;
mod line;
mod reader;
mod segment_lines;
mod writer;

pub use envy_audit::{Audit, NoMemory, Rule, Verdict};
pub use installation::{InFault, install};
pub use laws::bytes_begin_with_one_image;
pub use reader::{HeadFault, read_head};
pub use segment_lines::write_segments;
pub use writer::{OutFault, head_size, write_image};
