//! When a sound board stands for a plain array, and that what a transaction does to the one is what it does to the other.
#![tactic(auto)]

mod transactions;

pub use transactions::{
    a_commit_is_that_of_the_array, a_slot_opens_as_in_the_array, an_abort_is_that_of_the_array,
    owners_are_those_of_the_array, puts_are_those_of_the_array,
};
