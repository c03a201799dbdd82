//! What opens the place of a memory: over regions that a program gives, in a file that it serves, or over a board in
//! memory that can be made to fail.
//!
//! Each opening takes a place that holds no memory, whatever it was for, and leaves it as it was unless a memory was made.
#![tactic(auto)]

mod cursor;
mod files;
mod image_boards;
mod images;
mod laws;
mod place;
mod regions;
mod simulated;
mod sizes;

pub use files::open_file;
pub use image_boards::read_shape;
pub use images::{image_size, save};
pub use laws::calls_of_a_map_keep_the_last_sync;
pub use place::{Place, close, empty, faultless};
pub use regions::{attach_regions, format_regions};
pub use simulated::{format_simulated, restore_simulated};
pub use sizes::{EnvySizes, board_size, region_sizes};
