//! The words of the command line.
//!
//! Which words are understood, and which command they name, is defined in `specs/Words.antt`.
#![tactic(auto)]

mod command;
mod keep;
mod laws;
mod options;
mod read;
mod values;
mod word;

pub use command::{Command, WordsFault};
pub use keep::{KeepOptions, KeepWords, Sizes, read_keep};
pub use laws::{the_area_is_asked_to_fit, words_name_commands};
pub use read::{USUAL_ROWS, read_words, rule_within};
