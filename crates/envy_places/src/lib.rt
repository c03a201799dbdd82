//! A place for a memory, over one of three boards: what a memory stands over is said once, when it is opened.
//!
//! The choice stands above the memory and not below it. What brings a board to a disk, and what makes its power fail, are
//! calls of a memory over a board that can do so; regions can do neither. So each call looks once at what its memory stands
//! over, and no device operation does.
#![tactic(auto)]

mod bulk;
mod calls;
mod code;
mod disk;
mod each;
mod failures;
mod index_calls;
mod laws;
mod map_calls;
mod place;

pub use bulk::{read, store_run, view, write};
pub use calls::{abort, begin, commit, counts, load, look, put, store, tick, worn};
pub use code::PlaceCode;
pub use disk::{compact, powered, sync};
pub use failures::{arm_bad, arm_cut, cut_now, lives, refusal, revive};
pub use index_calls::{
    index_above, index_count, index_create, index_get, index_insert, index_last, index_next,
    index_remove, index_scan, index_scan_down,
};
pub use laws::no_two_answers_share_a_number;
pub use map_calls::{
    map_abort, map_begin, map_check, map_commit, map_count, map_create, map_get, map_insert,
    map_load, map_remove, map_scan, map_scan_down,
};
pub use place::{MemoryPlace, is_open};
