//! The top of eNVy: a trace of loads, stores and failures of power, answered over a board, with the
//! theorem that its answers are those of a plain array of words.
#![tactic(auto)]

mod answers;
mod attachment;
mod audit_run;
mod commands;
mod ended;
mod endings;
mod gen_run;
mod image_input;
mod index_answers;
mod index_lines;
mod index_machine;
mod index_run;
mod laws;
mod map_run;
mod mirror_run;
mod plain_run;
mod power_lines;
mod preparation;
mod report;
mod restart;
mod resume_run;
mod save_run;
mod tpca_run;
mod trace_machine;

pub use answers::{BoardRequest, answer, arm};
pub use commands::run;
pub use ended::{Ended, end_text};
pub use laws::memory_and_plain_machine_write_alike;
