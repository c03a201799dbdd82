//! A view of a range of words, which is a memory of words too: so one array holds several maps, and
//! plain words beside them.
//!
//! A range is so many words from an address on, both multiples of a page's words. Whatever is done
//! through a view, the words outside its range stay as they were. Ranges that don't overlap hold what
//! doesn't touch.
#![tactic(auto)]

mod laws;
mod within;

pub use laws::{
    calls_leave_what_is_outside, ranges_apart_never_touch, work_leaves_what_is_outside,
};
pub use within::Within;
