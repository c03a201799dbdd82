//! A memory in a file is made, or taken up again.
//!
//! `plan` says by the first bytes of a file what it holds, and which setup a memory in it has; `begin` makes or opens the
//! journal and the memory. `begin_again` trusts nothing that the file holds: a board on which its operations were done anew
//! is audited before a memory is attached.
#![tactic(auto)]

mod file_contents;
mod found_journal;
mod memory;
mod new_memory;
mod open_fault;
mod refusal;

pub use file_contents::{FileContents, plan};
pub use found_journal::begin_again;
pub use memory::begin;
pub use new_memory::begin_new;
pub use open_fault::OpenFault;
