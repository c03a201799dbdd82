ghost use Rattle.std.specs.Prelude.{◌≡◌, [], ◌∷◌, ◌++◌};
ghost use Rattle.envy_io.specs.Lines.{newline};
ghost use Rattle.envy_io.specs.Streams.{WritesAll};
ghost use Rattle.envy_pair.specs.Restarting.{IsFallen, Restarts, Recovers};
ghost use Rattle.envy_trace.specs.Mirror.{mirror_bytes};

use arrayvec::ArrayVec;
use envy_base::Bench;
use envy_io::{Failed, Sink, write_all};
use envy_memory::ReviveFault;
use envy_mirror::Mirror;
use envy_serve::LineOutcome;
use envy_trace::{MirrorReply, Reply, mirror_text};

/// Where replies are built, one after another, for as long as a run lasts.
#[derive(Drop)]
pub struct PairBuffer {
    piece: ArrayVec<u8, 512>,
}

impl PairBuffer {
    pub fn new() -> PairBuffer {
        PairBuffer {
            piece: ArrayVec::new(),
        }
    }
}

/// Writes a reply and its newline as one piece.
pub fn write_mirror_reply<K: Sink>(
    sink: &mut K,
    reply: &MirrorReply,
    buffer: &mut PairBuffer,
) -> Result<(), Failed>
    ensures { WritesAll (K.drain sink.old) (mirror_bytes reply.now ++ newline ∷ []) result (K.drain sink.new) }
{
    let piece = &mut buffer.piece;
    piece.clear();
    mirror_text(reply, piece);
    piece.push(b'\n');
    write_all(sink, piece.as_slice())
}

/// Asks for power of the side that was Good last, until it is back. Answers false where power doesn't return.
fn restart<A: Bench, B: Bench>(mirror: &mut Mirror<A, B>) -> bool
    requires { IsFallen mirror.old }
    ensures { Restarts result mirror.old mirror.new }
{
    loop {
        match mirror.revive() {
            Ok(()) => return true,
            Err(ReviveFault::Dead) => return false,
            Err(ReviveFault::Off) => {}
        }
    }
}

/// After a failure of both sides, whose own reply was written or not: asks for power, and tells its return.
pub fn recover<K: Sink, A: Bench, B: Bench>(
    mirror: &mut Mirror<A, B>,
    sink: &mut K,
    wrote: Result<(), Failed>,
    buffer: &mut PairBuffer,
) -> LineOutcome
    requires { IsFallen mirror.old }
    ensures { Recovers wrote result mirror.old mirror.new (K.drain sink.old) (K.drain sink.new) }
{
    if !restart(mirror) {
        return LineOutcome::Dead;
    }
    match wrote {
        Ok(()) => {}
        Err(Failed) => return LineOutcome::WriteFault,
    }
    match write_mirror_reply(sink, &MirrorReply::Array(Reply::Restarted), buffer) {
        Ok(()) => LineOutcome::Done,
        Err(Failed) => LineOutcome::WriteFault,
    }
}
