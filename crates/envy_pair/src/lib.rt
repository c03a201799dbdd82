//! A mirrored pair of memories that answers the lines of a trace: its answers are those of one array while one board
//! is good.
//!
//! What the lines may answer is defined in `specs/MirrorRun.antt`, without boards; what both boards' counts say of it
//! in `specs/Bills.antt`.
#![tactic(auto)]

mod answers;
mod mirror_service;
mod power_line;
mod recovery;

pub use mirror_service::MirrorService;
