//! A slow machine that answers the commands of a memory over a plain array of words.
//!
//! It has no board: no flash, no frames, no cleaning. What it answers is what a memory is to answer.
#![tactic(auto)]

mod plain;
mod refusal;
mod saved_word;

pub use plain::Plain;
pub use refusal::Refusal;
