ghost use Rattle.std.specs.Prelude.{◌≡◌, ◌≤◌, [], IsTrue};
ghost use Rattle.envy_begun.specs.Beginning.{HasStopped};
ghost use Rattle.envy_keep.specs.Ending.{Concludes, KeepsServed};
ghost use Rattle.envy_keep.specs.Since.{KeptSince, Start};
ghost use Rattle.envy_run.specs.Outcome.{why_of};
ghost use Rattle.envy_serve.specs.declared.server.End.TheVariants.{Done as EndDone};
ghost use Rattle.envy_serve.specs.Ends.{most_bytes};
ghost use Rattle.envy_serve.specs.Streams.{streams_of};

use crate::kept_service::Keeping;
use crate::reply_buffer::ReplyBuffer;
use envy_base::Off;
use envy_device::Replaceable;
use envy_io::{Lines, Sink, Source};
use envy_journal::Steady;
use envy_memory::Memory;
use envy_serve::{End, MOST_BYTES, serve};
use envy_synced::{Kept, close};

/// What serving a kept memory's trace says at its end.
#[derive(Drop)]
pub struct KeepEnded<D> {
    /// 0 done, and all of it on the disk; 3 read fault; 4 write fault; 5 line refused; 6 the file failed, or came to the end
    /// of its range; 9 trace too long.
    pub status: u8,
    /// Which fault the refused line has; else 0.
    pub why: u8,
    /// Lines that the grammar accepted.
    pub lines: u64,
    /// Bytes taken from the source.
    pub taken: u64,
    /// The byte at which a damaged file breaks off; else 0.
    pub place: u64,
    /// The file.
    pub device: D,
    /// How many bytes of operations were held back from it.
    pub held: usize,
}

// The status behind the last line, and one sync more.
fn last_sync<B: Steady, D: Replaceable>(memory: &mut Memory<Kept<B, D>>) -> u8
    requires { IsTrue memory.old.chart.on }
    ensures { Concludes EndDone result memory.old memory.new }
{
    match memory.sync() {
        Ok(()) => 0,
        Err(Off) => 6,
    }
}

// The status of an end, and its second number. Where all lines were done a sync comes first.
fn conclude<B: Steady, D: Replaceable>(memory: &mut Memory<Kept<B, D>>, end: End) -> (u8, u8)
    requires { end ≡ EndDone → IsTrue memory.old.chart.on }
    ensures status { Concludes end result.0 memory.old memory.new }
    ensures why { result.1 ≡ why_of end }
{
    match end {
        End::Done => (last_sync(memory), 0),
        End::ReadFault => (3, 0),
        End::WriteFault | End::FlushFault => (4, 0),
        End::Refused(fault) => (5, fault.number()),
        End::Dead => (6, 0),
        End::TooLong => (9, 0),
    }
}

/// Does the lines of the source in order, with each reply written before the next line is read. Whatever the status, the
/// file opens from a crash at any moment since the last line that was answered `synced` as the array of that line, or of
/// a later one; at status 0 as that of the last line.
pub fn serve_kept<S: Source, K: Sink, B: Steady + Drop, D: Replaceable>(
    memory: Memory<Kept<B, D>>,
    source: &mut S,
    sink: &mut K,
) -> KeepEnded<D>
    requires begun { (start : Start) × KeptSince start memory [] }
    ensures served { (start : Start) → KeptSince start memory []
        → KeepsServed start.array start.memory start.memory.chart.shape
        result.status result.why result.lines result.taken
        (D.left_since result.device) (D.moment result.device)
        (streams_of (S.feed source.old) (S.feed source.new) (K.drain sink.old) (K.drain sink.new)) }
    // power is off only where the file failed, or came to the end of its range
    ensures stopped { result.status ≡ 6 → HasStopped D.seen D.has_failed result.held result.device }
    ensures few { result.lines ≤ result.taken }
    ensures read { result.taken ≤ most_bytes }
{
    let mut keeping = Keeping {
        memory,
        buffer: ReplyBuffer::new(),
    };
    let served = serve(&mut keeping, source, sink, Lines::new(MOST_BYTES));
    let Keeping {
        mut memory,
        buffer: _,
    } = keeping;
    let (status, why) = conclude(&mut memory, served.end);
    let (device, held) = close(memory);
    KeepEnded {
        status,
        why,
        lines: served.lines,
        taken: served.taken,
        place: 0,
        device,
        held,
    }
}
