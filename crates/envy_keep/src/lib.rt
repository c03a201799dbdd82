//! A trace over a memory that is kept in a file: each line is answered as over any board, and at a line `sync` all that
//! was done is brought to the disk.
//!
//! `Keeping` is the service. What it did since it began says which array the memory stands for, and which one each crash
//! of the machine leaves: that of the last line that was answered `synced`.
#![tactic(auto)]

mod answer;
mod conclusion;
mod end_text;
mod file_trace;
mod kept_service;
mod line;
mod reply_buffer;

pub use conclusion::{KeepEnded, serve_kept};
pub use end_text::keep_end_text;
pub use file_trace::keep;
pub use kept_service::Keeping;
pub use reply_buffer::ReplyBuffer;
