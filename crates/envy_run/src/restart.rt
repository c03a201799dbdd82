ghost use Rattle.std.specs.Prelude.{◌≡◌, [], ◌∷◌, ◌++◌, false};
ghost use Rattle.envy_io.specs.Lines.{newline};
ghost use Rattle.envy_io.specs.Streams.{WritesAll};
ghost use Rattle.envy_trace.specs.Replies.{reply_bytes};
ghost use Rattle.envy_run.specs.Restarts.{Restarts, Recovers};

use arrayvec::ArrayVec;
use envy_base::Bench;
use envy_io::{Failed, Sink, write_all};
use envy_memory::{Memory, ReviveFault};
use envy_serve::LineOutcome;
use envy_trace::{Reply, reply_text};

/// Where replies are built, one after another, for as long as a run lasts.
#[derive(Drop)]
pub struct ReplyBuffer {
    pub(crate) piece: ArrayVec<u8, 512>,
}

impl ReplyBuffer {
    pub fn new() -> ReplyBuffer {
        ReplyBuffer {
            piece: ArrayVec::new(),
        }
    }
}

/// Writes a reply and its newline as one piece.
#[inline(always)]
pub fn write_reply<K: Sink>(
    sink: &mut K,
    reply: &Reply,
    buffer: &mut ReplyBuffer,
) -> Result<(), Failed>
    ensures { WritesAll (K.drain sink.old) (reply_bytes reply.now ++ newline ∷ []) result (K.drain sink.new) }
{
    let piece = &mut buffer.piece;
    piece.clear();
    reply_text(reply, piece);
    piece.push(b'\n');
    write_all(sink, piece.as_slice())
}

/// Asks for power until the memory is back. Answers false where power doesn't return.
pub fn restart<B: Bench>(memory: &mut Memory<B>) -> bool
    requires { memory.old.chart.on ≡ false }
    ensures { Restarts result memory.old memory.new }
{
    loop {
        match memory.revive() {
            Ok(()) => return true,
            Err(ReviveFault::Dead) => return false,
            Err(ReviveFault::Off) => {}
        }
    }
}

/// After a failure of power, whose own reply was written or not: asks for power, and tells its return.
pub fn recover<K: Sink, B: Bench>(
    memory: &mut Memory<B>,
    sink: &mut K,
    wrote: Result<(), Failed>,
    buffer: &mut ReplyBuffer,
) -> LineOutcome
    requires { memory.old.chart.on ≡ false }
    ensures { Recovers wrote result memory.old memory.new (K.drain sink.old) (K.drain sink.new) }
{
    if !restart(memory) {
        return LineOutcome::Dead;
    }
    match wrote {
        Ok(()) => {}
        Err(Failed) => return LineOutcome::WriteFault,
    }
    match write_reply(sink, &Reply::Restarted, buffer) {
        Ok(()) => LineOutcome::Done,
        Err(Failed) => LineOutcome::WriteFault,
    }
}
