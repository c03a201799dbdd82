//! One line of a trace with its replies.

ghost use Rattle.std.specs.Prelude.{◌≡◌, ◌<◌, ◌||◌, ℕ};
ghost use Rattle.envy_mirror.specs.Pair.{IsPair, Pair, is_good};
ghost use Rattle.envy_pair.specs.Hearing.{Hears};
ghost use Rattle.envy_pair.specs.Serving.{Known, Serves, ObeysMirror};
ghost use Rattle.envy_trace.specs.declared.line.Line.TheVariants.{Power};
ghost use Rattle.envy_trace.specs.Mirror.{IsMirrorLine};
ghost use Rattle.envy_trace.specs.declared.mirror_line.MirrorLine.{MirrorLine};
ghost use Rattle.envy_trace.specs.declared.mirror_line.MirrorLine.TheVariants.{Array as OfArray};

use crate::recovery::{PairBuffer, recover, write_mirror_reply};
use envy_base::Bench;
use envy_io::{Failed, Sink};
use envy_mirror::Mirror;
use envy_serve::LineOutcome;
use envy_trace::MirrorReply;

/// Whether some side is Good.
fn has_good<A: Bench, B: Bench>(mirror: &Mirror<A, B>) -> bool
    ensures good { result ≡ (is_good mirror.now.first || is_good mirror.now.second) }
    ensures pair { IsPair mirror.now }
{
    mirror.good(0) || mirror.good(1)
}

/// Cuts the power of the chosen side by hand. Power is asked for where no side is Good then.
pub fn obey_power<K: Sink, A: Bench, B: Bench>(
    mirror: &mut Mirror<A, B>,
    side: u8,
    sink: &mut K,
    buffer: &mut PairBuffer,
) -> LineOutcome
    requires { side < 2 }
    ensures { (k : Known) → Serves k mirror.old
        → ObeysMirror k (OfArray Power) result mirror.old side mirror.new side (K.drain sink.old) (K.drain sink.new) }
{
    mirror.cut_now(side);
    if !has_good(mirror) {
        return recover(mirror, sink, Ok(()), buffer);
    }
    match write_mirror_reply(sink, &MirrorReply::Gone, buffer) {
        Ok(()) => LineOutcome::Done,
        Err(Failed) => LineOutcome::WriteFault,
    }
}

/// Writes the reply to a line, and asks for power where no side is Good behind it.
pub fn tell<K: Sink, A: Bench, B: Bench>(
    mirror: &mut Mirror<A, B>,
    reply: &MirrorReply,
    sink: &mut K,
    buffer: &mut PairBuffer,
) -> LineOutcome
    ensures { (k : Known) (line : MirrorLine) (before : Pair) (side chosen : ℕ) → side < 2 → IsMirrorLine line
        → Serves k before → Hears line reply.now before side mirror.old chosen
        → ObeysMirror k line result before side mirror.new chosen (K.drain sink.old) (K.drain sink.new) }
{
    let wrote = write_mirror_reply(sink, reply, buffer);
    if !has_good(mirror) {
        return recover(mirror, sink, wrote, buffer);
    }
    match wrote {
        Ok(()) => LineOutcome::Done,
        Err(Failed) => LineOutcome::WriteFault,
    }
}
