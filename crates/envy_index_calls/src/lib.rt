//! The calls of an ordered map in the array of a memory, for callers that know numbers alone: a place that may hold a
//! memory over any board, and one number for each answer.
//!
//! Each call of a map over the whole array is one transaction of the memory, and says all that the call of the tree says.
//! The calls whose names begin with `map` are of maps in ranges of the array, which are changed within one transaction of
//! several maps.
#![tactic(auto)]

mod attempts;
mod changes;
mod checks;
mod creation;
mod edits;
mod loading;
mod loads;
mod lookups;
mod pair_buffer;
mod pairs;
mod ranges;
mod scans;
mod transactions;
mod views;
mod words;

pub use changes::{insert, remove};
pub use checks::map_check;
pub use creation::{MAP_MARK, create};
pub use edits::{map_create, map_insert, map_remove};
pub use loads::map_load;
pub use lookups::{above, count, get, last, next};
pub use pairs::{EnvyOld, EnvyPair};
pub use ranges::EnvyMap;
pub use scans::{scan, scan_down};
pub use transactions::{map_abort, map_begin, map_commit};
pub use views::{map_count, map_get, map_scan, map_scan_down};
pub use words::MOST_MAP_PAGES;
