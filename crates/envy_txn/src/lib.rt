//! The pages that open transactions own, and what the end of a transaction does to them.
//!
//! A page belongs to the transaction that put into it first, until that ends. Its undo in the map then
//! names the words of before, and a restart goes by it. An `Owned` keeps the same beside the map, in the
//! order in which the pages came to be owned.
#![tactic(auto)]

mod chain;
mod entry;
mod laws;
mod ledger;
mod owned;
mod pair;
mod release;
mod restore;
mod search;
mod settlement;
mod undos;

pub use laws::{
    a_slot_that_is_unused_owns_nothing, an_end_names_no_row_anew, owners_are_counted, owners_stay,
};
pub use owned::Owned;
pub use pair::Pair;
pub use settlement::settle;
