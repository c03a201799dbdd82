//! The calls of a memory for callers that know numbers alone: a place that may hold a memory, and one number for
//! each answer.
//!
//! Each call says all that the call of `Memory` says, and that its number stands for the answer.
#![tactic(auto)]

mod attachment;
mod background;
mod bulk;
mod code;
mod counters;
mod faults;
mod laws;
mod loads;
mod map_head;
mod reserves;
mod setup;
mod slot_view;
mod stores;
mod transactions;

pub use attachment::{attach, refusal};
pub use background::tick;
pub use bulk::{read, store_run, write};
pub use code::Code;
pub use counters::{EnvyCounts, counts};
pub use faults::format_answer;
pub use laws::no_two_answers_share_a_number;
pub use loads::{load, look};
pub use map_head::shape;
pub use reserves::worn;
pub use setup::{EnvySetup, checked_setup};
pub use slot_view::view;
pub use stores::{put, store};
pub use transactions::{abort, begin, commit};
