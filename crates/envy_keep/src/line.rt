ghost use Rattle.std.specs.Prelude.{IsTrue, List};
ghost use Rattle.envy_keep.specs.Answers.{AnswersKeep};
ghost use Rattle.envy_keep.specs.Since.{KeptSince, LostSince, Start};
ghost use Rattle.envy_keep.specs.Turns.{KeepTurn, keep_grammar};
ghost use Rattle.envy_trace.specs.Keep.{IsKeepLine};
ghost use Rattle.envy_trace.specs.declared.keep_line.KeepLine.{KeepLine};
ghost use Rattle.envy_memory.specs.Picture.{Picture};
ghost use Rattle.envy_serve.specs.Obeys.{Obeys};

use crate::answer::answer_kept;
use crate::reply_buffer::{ReplyBuffer, write_keep_reply};
use envy_device::Replaceable;
use envy_io::{Failed, Sink};
use envy_journal::Steady;
use envy_memory::Memory;
use envy_serve::LineOutcome;
use envy_synced::Kept;
use envy_trace::{KeepLine, KeepReply};

/// Writes the reply to a line. Where power failed in it nothing further is done.
fn tell<K: Sink, B: Steady, D: Replaceable>(
    memory: &Memory<Kept<B, D>>,
    sink: &mut K,
    reply: &KeepReply,
    buffer: &mut ReplyBuffer,
) -> LineOutcome
    ensures { (start : Start) (turns : List KeepTurn) (line : KeepLine) (before : Picture)
        → KeptSince start before turns → IsKeepLine line → AnswersKeep line reply.now before memory.now
        → Obeys result keep_grammar (KeptSince start memory.now) (LostSince start memory.now) turns line
        (K.drain sink.old) (K.drain sink.new) }
{
    let wrote = write_keep_reply(sink, reply, buffer);
    if !memory.powered() {
        return LineOutcome::Dead;
    }
    memory.invariant_holds();
    match wrote {
        Ok(()) => LineOutcome::Done,
        Err(Failed) => LineOutcome::WriteFault,
    }
}

/// Does a line, with its reply.
pub(crate) fn obey_line<K: Sink, B: Steady, D: Replaceable>(
    memory: &mut Memory<Kept<B, D>>,
    sink: &mut K,
    line: &KeepLine,
    buffer: &mut ReplyBuffer,
) -> LineOutcome
    requires on { IsTrue memory.old.chart.on }
    requires ranges { IsKeepLine line.now }
    ensures { (start : Start) (turns : List KeepTurn) → KeptSince start memory.old turns
        → Obeys result keep_grammar (KeptSince start memory.new) (LostSince start memory.new) turns line.now
        (K.drain sink.old) (K.drain sink.new) }
{
    match answer_kept(memory, line) {
        Ok(reply) => tell(memory, sink, &reply, buffer),
        // it is empty: no line of this grammar cuts power or plans a failure
        Err(_) => LineOutcome::Done,
    }
}
