//! Streams of bytes: a source and a sink, one of each in memory, the lines of a source, and a piece
//! that is written whole.
//!
//! `BufferedSource` and `BufferedSink` stand over others and hold bytes back, so that the system is asked seldom.
#![tactic(auto)]

mod buffered_sink;
mod buffered_source;
mod lines;
mod plan;
mod sink;
mod source;

pub use buffered_sink::BufferedSink;
pub use buffered_source::BufferedSource;
pub use lines::{Lines, Next, ReadOutcome};
pub use sink::{MemSink, NoMemory, Sink, write_all};
pub use source::{Failed, MemSource, Source};

/// How many bytes are held at most, and asked for at once.
pub const HELD: usize = 65_536;
