//! What a memory is made with, and the choice of the position that a page is written to.
#![tactic(auto)]

mod choice;
mod chooser;
mod chooser_parts;
mod class;
mod counted;
mod fraction;
mod heats;
mod laws;
mod lifetime;
mod lifetime_laws;
mod lives;
mod rows;
mod setup;

pub use choice::Choice;
pub use chooser::Chooser;
pub use chooser_parts::nearer;
pub use class::Class;
pub use counted::Rows;
pub use laws::{
    a_choice_has_rows, greedy_looks_at_all_positions, heats_count_flushes, notes_keep_the_sizes,
    rows_leave_one_choice,
};
pub use lifetime::Lifetime;
pub use lifetime_laws::{
    a_lifetime_choice_has_rows, rows_leave_one_lifetime_choice, some_lifetime_rule_applies,
};
pub use setup::{Policy, Setup, SetupFault, Victims};
