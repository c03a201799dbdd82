//! A file of the host as a device: it is locked, read whole when it is opened, and written and synced by calls of the
//! kit's `std::fs`. A second file, whose name is that of the first with `.envy-new` after it, is made beside it, locked,
//! written, synced and given the first one's name, and then the folder is synced.
//!
//! No contract can say what a real file holds: `envy_device` defines it by the record of the calls that were made. What is
//! trusted here: that each method of `HostCalls` makes the calls that it notes (read `host.rt` and `folder.rt` for it),
//! that nobody else writes either file or gives their names to others between a look at a name and the call after it, and that the kernel and the disk keep to `specs/Calls.antt` of
//! `envy_device`: among that, that a rename leaves the name with either file, whole, and once the folder is synced with the
//! second.
//!
//! A file that has bytes and doesn't begin as a journal does isn't read further, and nothing is made beside it. One of which
//! the opening cuts off what may be a sync (`HostCalls::cut`) is copied before the first call that changes it, so one that is
//! refused isn't copied.
//!
//! What is read when a file is opened is written anew, through the second file, before anything else is done to it. After a
//! write that failed the system reports that once, to one process, and from then on takes what it holds for written: the
//! next process would read what the disk hasn't, and its own syncs would not write that again. What was written anew is on
//! the disk as any second file is. If no second file takes the file's place, as that of a bind mount, it is trusted that what
//! was read after a sync is on the disk (`HostCalls::is_believed`). What isn't a journal isn't written at all.
//!
//! A lock is held on the file that has the name, at each moment: the second file is locked before it gets the name, and
//! the first let go after that. A process that opened the first before, and locks it then, finds that the name isn't its
//! file's any more, and says that it is in use.
#![tactic(auto)]

mod backup;
mod descriptors;
mod folder;
mod host;
mod opened_file;
#[cfg(test)]
mod pieces;
#[cfg(test)]
mod tests;

pub use folder::{Folder, Names};
pub use host::{HostCalls, HostFile};
pub use opened_file::{OpenFault, open};
