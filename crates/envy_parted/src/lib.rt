//! A memory over a flash part that is mapped into memory, for programs in C or Rust, with SRAM in memory of theirs.
//!
//! Each export says what the call of the memory says, by the number of its answer. `c/envy_parted.h` says
//! beside each of them what its caller promises. Orders go out through two functions of C, which `c/envy_part.c`
//! serves over callbacks; nothing is believed of them, since each order is looked at.
#![tactic(auto)]

mod attachment;
mod calls;
mod code;
mod handle;
mod laws;
mod openings;
mod part_sizes;
mod regions;

pub use code::PartCode;
pub use handle::EnvyParted;
pub use laws::no_two_answers_share_a_number;
pub use part_sizes::EnvyPartSizes;
pub use regions::{EnvyMap, EnvyWords};
