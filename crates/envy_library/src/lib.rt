//! A memory for programs in C or Rust: a plain array of words, with transactions and maps. What it stands over is said when
//! it is opened: a file that outlives the machine, regions of memory that the program gives, or a board that can be made to
//! fail.
//!
//! Each export says what the call of the place says, by the number of its answer. `c/envy.h` says beside each of them what
//! its caller promises.
#![tactic(auto)]

mod bulk;
mod calls;
mod failures;
mod handle;
mod images;
mod index_calls;
mod map_calls;
mod openings;
mod picture;
mod regions;
mod sizes;
mod sync;

pub use handle::Envy;
pub use regions::{EnvyRows, EnvyWords};
