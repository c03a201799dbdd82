ghost use Rattle.std.specs.Prelude.{◌≡◌, ◌≤◌, List, []};
ghost use Rattle.envy_serve.specs.Ends.{Serves, IsAtStart, most_bytes};
ghost use Rattle.envy_serve.specs.Streams.{streams_of};
ghost use Rattle.envy_serve.specs.Turns.{Turn};
ghost use Rattle.envy_serve.specs.Concludes.{Closes, Concludes};

use crate::next_line::{NoLine, fetch};
use crate::{LineOutcome, Service};
use arrayvec::ArrayVec;
use envy_io::{Failed, Lines, Sink, Source};
use envy_trace::LineFault;

/// The bytes taken at most.
pub const MOST_BYTES: u64 = 1_099_511_627_776;

/// How serving a trace ends.
#[derive(Clone, Copy, Debug, PartialEq, Eq)]
pub enum End {
    /// The source was read to its end, and all was done and written.
    Done,
    /// The source failed.
    ReadFault,
    /// The sink failed at a reply.
    WriteFault,
    /// The sink failed behind all replies.
    FlushFault,
    /// The next line is refused.
    Refused(LineFault),
    /// Power didn't return.
    Dead,
    /// The source has more bytes than may be taken.
    TooLong,
}

/// How a trace was served.
#[derive(Drop)]
pub struct Served {
    /// How it ended.
    pub end: End,
    /// The lines that were accepted.
    pub lines: u64,
    /// The bytes taken from the source.
    pub taken: u64,
}

/// Writes what stands behind all replies, and flushes the sink.
fn close<V: Service, K: Sink>(service: &V, sink: &mut K) -> Result<(), Failed>
    ensures { Closes (V.tail service.now) result (K.drain sink.old) (K.drain sink.new) }
{
    service.close(sink)?;
    sink.flush()
}

/// How serving ends where no further line comes. Behind the last line of a source that was read to its end stands what the
/// service writes behind all replies, and the sink is flushed.
pub fn conclude<V: Service, K: Sink>(service: &V, stop: NoLine, sink: &mut K) -> End
    ensures { Concludes stop result (V.tail service.now) (K.drain sink.old) (K.drain sink.new) }
{
    match stop {
        NoLine::Finished => match close(service, sink) {
            Ok(()) => End::Done,
            Err(Failed) => End::FlushFault,
        },
        NoLine::Refused(fault) => End::Refused(fault),
        NoLine::Failed => End::ReadFault,
        NoLine::Spent => End::TooLong,
    }
}

/// How a trace was served, where serving ends with so many lines accepted.
fn stopped(end: End, lines: u64, reader: &Lines) -> Served
    ensures { result ≡ record { end = end; lines = lines; taken = reader.now.taken } }
{
    Served {
        end,
        lines,
        taken: reader.taken(),
    }
}

/// Does the lines of the source one after another. The reader may have taken bytes that stood before the
/// first line.
pub fn serve<V: Service, S: Source, K: Sink>(
    service: &mut V,
    source: &mut S,
    sink: &mut K,
    reader: Lines,
) -> Served
    requires begun { (start : V.Start) × V.Did start service.old [] }
    requires reader { IsAtStart reader (S.feed source.old) }
    ensures serves { (start : V.Start) → V.Did start service.old []
        → (turns : List (Turn V.Line V.Reply))
        × Serves result.end result.lines result.taken V.grammar reader.taken (V.Did start service.new)
        (V.Died start service.new) (V.tail service.new) turns
        (streams_of (S.feed source.old) (S.feed source.new) (K.drain sink.old) (K.drain sink.new)) }
    ensures few { result.lines ≤ result.taken }
    ensures read { result.taken ≤ most_bytes }
{
    let mut reader = reader;
    let mut text = ArrayVec::new();
    for told in 0..MOST_BYTES + 1 {
        let line = match fetch::<V, S>(source, &mut reader, &mut text) {
            Ok(line) => line,
            Err(stop) => return stopped(conclude(service, stop, sink), told, &reader),
        };
        match service.obey(&line, sink) {
            LineOutcome::Done => {}
            LineOutcome::WriteFault => return stopped(End::WriteFault, told + 1, &reader),
            LineOutcome::Dead => return stopped(End::Dead, told + 1, &reader),
        }
    }
    unreachable!()
}
