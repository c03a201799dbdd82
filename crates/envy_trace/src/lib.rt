//! The trace of a memory: its lines, the replies to them, and their texts.
//!
//! A line is a command word and numbers, with blanks between them. What a line says is defined in
//! `specs/Grammar.antt`, how it is written in `specs/Spelling.antt`.
//!
//! A memory that is kept in a file has the lines of one array, without the three that make power or a flash operation
//! fail, and the line `sync` (`specs/Keep.antt`). What a memory says of its work is the cost of cleaning and the line
//! `stat` (`specs/Stat.antt`). Text goes into a buffer of fixed size, so nothing here takes memory.
#![tactic(auto)]

mod bounds;
mod command;
mod fault;
mod fields;
mod keep_laws;
mod keep_line;
mod keep_reply;
mod laws;
mod line;
mod mirror_line;
mod mirror_reply;
mod numbers;
mod read;
mod reply;
mod stat;
mod text;
mod write;

pub use bounds::Bounds;
pub use fault::LineFault;
pub use fields::{next_field, split_command};
pub use keep_laws::keep_grammar_holds_both_ways;
pub use keep_line::{KeepLine, read_keep_line};
pub use keep_reply::{KeepReply, keep_text};
pub use laws::{grammar_holds_both_ways, mirror_grammar_holds_both_ways};
pub use line::Line;
pub use mirror_line::{MirrorLine, read_mirror_line};
pub use mirror_reply::{MirrorReply, mirror_text};
pub use numbers::{no_number, one_number, read_number, three_numbers, two_numbers};
pub use read::read_line;
pub use reply::Reply;
pub use stat::{cost, stat_text};
pub use text::{push_number, push_text};
pub use write::{line_text, reply_text};
