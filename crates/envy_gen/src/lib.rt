//! Generated traces: lines of a trace that are drawn from a number, so that a long trace need not be kept.
//!
//! Which line a draw gives is defined in `specs/Traces.antt`. Nothing here takes memory.
#![tactic(auto)]

mod draws;
mod laws;
mod mix;
mod trace;

pub use laws::generated_traces_read_back;
pub use mix::{Mix, Skew};
pub use trace::generate;
