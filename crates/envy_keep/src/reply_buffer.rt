ghost use Rattle.std.specs.Prelude.{◌≡◌, [], ◌∷◌, ◌++◌};
ghost use Rattle.envy_io.specs.Lines.{newline};
ghost use Rattle.envy_io.specs.Streams.{WritesAll};
ghost use Rattle.envy_trace.specs.Keep.{keep_bytes};

use arrayvec::ArrayVec;
use envy_io::{Failed, Sink, write_all};
use envy_trace::{KeepReply, keep_text};

/// Where replies are built, one after another, for as long as a trace lasts.
#[derive(Drop)]
pub struct ReplyBuffer {
    piece: ArrayVec<u8, 512>,
}

impl ReplyBuffer {
    pub fn new() -> ReplyBuffer {
        ReplyBuffer {
            piece: ArrayVec::new(),
        }
    }
}

/// Writes a reply and its newline as one piece.
#[inline(always)]
pub(crate) fn write_keep_reply<K: Sink>(
    sink: &mut K,
    reply: &KeepReply,
    buffer: &mut ReplyBuffer,
) -> Result<(), Failed>
    ensures { WritesAll (K.drain sink.old) (keep_bytes reply.now ++ newline ∷ []) result (K.drain sink.new) }
{
    let piece = &mut buffer.piece;
    piece.clear();
    keep_text(reply, piece);
    piece.push(b'\n');
    write_all(sink, piece.as_slice())
}
