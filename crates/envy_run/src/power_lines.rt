ghost use Rattle.std.specs.Prelude.{◌≡◌, IsTrue, List};
ghost use Rattle.envy_run.specs.Turns.{TraceTurn};
ghost use Rattle.envy_array.specs.Array.{Array};
ghost use Rattle.envy_run.specs.Hits.{MayTell};
ghost use Rattle.envy_meaning.specs.Stands.{Stands};
ghost use Rattle.envy_trace.specs.declared.line.Line.TheVariants.{Power};
ghost use Rattle.envy_memory.specs.Picture.{Picture};
ghost use Rattle.envy_run.specs.Obeys.{LineAnswers, ObeysLine};
ghost use Rattle.envy_trace.specs.declared.line.Line.{Line};

use crate::restart::{ReplyBuffer, recover, write_reply};
use envy_base::Bench;
use envy_io::{Failed, Sink};
use envy_memory::Memory;
use envy_serve::LineOutcome;
use envy_trace::Reply;

/// Cuts power by hand and asks for it.
pub fn obey_power<K: Sink, B: Bench>(
    memory: &mut Memory<B>,
    sink: &mut K,
    buffer: &mut ReplyBuffer,
) -> LineOutcome
    requires { IsTrue memory.old.chart.on }
    ensures { (earlier : List TraceTurn) (m : Array) → Stands memory.old.chart m
        → ObeysLine (MayTell memory.old.chart.shape.entries earlier) m Power result memory.old memory.new
        (K.drain sink.old) (K.drain sink.new) }
{
    memory.cut_now();
    recover(memory, sink, Ok(()), buffer)
}

/// Writes the reply of a call, and asks for power where that call lost it.
pub fn tell<K: Sink, B: Bench>(
    memory: &mut Memory<B>,
    sink: &mut K,
    reply: &Reply,
    buffer: &mut ReplyBuffer,
) -> LineOutcome
    ensures { (line : Line) (earlier : List TraceTurn) (m : Array) (before : Picture) → Stands before.chart m
        → LineAnswers (MayTell before.chart.shape.entries earlier) m line reply.now before memory.old
        → ObeysLine (MayTell before.chart.shape.entries earlier) m line result before memory.new (K.drain sink.old)
        (K.drain sink.new) }
{
    let wrote = write_reply(sink, reply, buffer);
    if !memory.powered() {
        return recover(memory, sink, wrote, buffer);
    }
    match wrote {
        Ok(()) => LineOutcome::Done,
        Err(Failed) => LineOutcome::WriteFault,
    }
}
