//! What a formatted board is: when it is sound, which words it stands for, and what each kind of write
//! keeps of them.
//!
//! Power fails only inside a device operation, so it is enough to know one thing of each kind of write:
//! from a sound board on which its condition holds it leaves a sound board, and changes no words but
//! those that its contract names, wherever power fails. Each call makes one kind of write and has
//! its law as its contract. A condition that may be known only of a board with power is asked for only
//! where there is power.
#![tactic(auto)]

mod arrangement;
mod claim;
mod erase;
mod format;
mod frame;
mod job;
mod laws;
mod lay;
mod page_place;
mod page_undo;
mod position;
mod program;
mod retirement;
mod rows;
mod separation;
mod slots;
mod version;

pub use claim::{claim_back, note_origin, raise_fill};
pub use erase::{empty_spare, erase_counted, raise_wear};
pub use format::{format_board, format_board_1};
pub use frame::{change_frame_word, move_to_frame, write_free_frame};
pub use job::{begin_copy, begin_erase, begin_switch, change_job, end_job};
pub use laws::{
    enough_rows_are_left, kept_rows_are_filled, kept_rows_are_those_that_pages_name,
    kept_rows_change_with_a_page, kept_rows_stay_under_an_unused_slot,
};
pub use page_place::{move_place, restore_place, switch_place};
pub use page_undo::{clear_settled_undo, move_undo, own_page, switch_undo};
pub use position::{a_board_has_one_spare, change_position, replace_segment};
pub use program::program_row;
pub use retirement::{close_spare, retire_spare};
pub use rows::{Kept, program_counted, row_owner, words_of_row};
pub use separation::place_and_undo_stay_parted;
pub use slots::{commit_slot, set_unused_slot};
pub use version::upgrade;
