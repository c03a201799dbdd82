//! A memory that outlives the machine: from a sync that returned Ok on, whatever a crash of the machine leaves at any
//! moment, inside calls too, opens as the array of that sync or of a later one.
//!
//! `Kept` is a journaled board whose notes tell what is on the disk: of its last two syncs that succeeded, when they were, which
//! bytes they brought there, and how many calls on a second file had failed before. No call of a memory changes them. So
//! whoever has a memory over a kept board knows by its notes that its last sync is one that he has seen, and with it what each
//! crash since then leaves.
//!
//! `calls_keep_the_last_sync` and `a_sync_is_the_last` say how the notes go on from call to call. `device` says, at each
//! exit of each call, what a crash has left since that sync, or since the one before. `a_file_opens_as_one_board` says that a
//! board that is opened from such a file has the words that the memory had, as a restart finds them, and that a memory may be
//! attached to it.
#![tactic(auto)]

mod kept;
mod laws;
mod light;
mod survival;

pub use kept::Kept;
pub use laws::{a_file_opens_as_one_board, a_sync_is_the_last, calls_keep_the_last_sync};
pub use survival::{close, device};
