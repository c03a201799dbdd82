//! The plain array of words that a memory stands for, and a memory of words with one transaction at a time.
//!
//! An array has words, and 64 slots of which each is closed, or open with a list of saved words. Its steps say what a memory
//! answers to a command, and what becomes of it.
#![tactic(auto)]

mod area;
mod counts;
mod laws;
mod words;

pub use area::Area;
pub use counts::Counts;
pub use laws::{
    restart_keeps_the_array, step_gives_one_answer, step_keeps_the_array, zeros_are_an_array,
};
pub use words::{KeyPlace, Words};
