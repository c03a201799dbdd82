//! What a memory does below its calls: rows are claimed for pages that leave their frames, segments are cleaned,
//! pages come into frames, and background steps are made. No array is spoken of, only the words of a board.
#![tactic(auto)]

mod beside;
mod claim;
mod cleaner;
mod did;
mod first_put;
mod flush;
mod homes;
mod job_rest;
mod jobs;
mod page;
mod page_fill;
mod parts;
mod recovery;
mod row_copy;
mod rows;
mod shadow;
mod slots;
mod store;
mod tick;

pub use did::Did;
pub use first_put::put_first;
pub use page::word;
pub use parts::Parts;
pub use recovery::{rebuild, restart};
pub use slots::{abort_pages, commit_pages, first_vacant, is_open, open_slot};
pub use store::store_word;
pub use tick::tick_ruled;
