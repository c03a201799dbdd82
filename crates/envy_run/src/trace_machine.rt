//! A memory that answers the lines of a trace.

ghost use Rattle.std.specs.Prelude.{◌≡◌, ℕ, List, [], IfOk, IsTrue};
ghost use Rattle.envy_array.specs.Array.{Array};
ghost use Rattle.envy_run.specs.Hits.{MayTell};
ghost use Rattle.envy_meaning.specs.Stands.{Stands};
ghost use Rattle.envy_run.specs.Obeys.{ObeysLine};
ghost use Rattle.envy_run.specs.Tells.{CanTell};
ghost use Rattle.envy_run.specs.Turns.{TraceTurn};
ghost use Rattle.envy_trace.specs.Grammar.{line_of};
ghost use Rattle.envy_serve.specs.Grammar.{IsSaid};

use crate::answers::{BoardRequest, answer, arm};
use crate::power_lines::{obey_power, tell};
use crate::restart::ReplyBuffer;
use envy_base::Bench;
use envy_io::{Failed, Sink};
use envy_memory::Memory;
use envy_serve::{LineOutcome, Service};
use envy_trace::{Line, LineFault, Reply, grammar_holds_both_ways, read_line};

/// A memory, and what it was when the trace began.
pub struct Tracing<B: Bench> {
    pub memory: Memory<B>,
    pub buffer: ReplyBuffer,
}

/// Reads a line.
pub fn read_any(bytes: &[u8]) -> Result<Line, LineFault>
    ensures { result ≡ line_of bytes.now }
{
    read_line(bytes)
}

impl<B: Bench> Service for Tracing<B> {
    ghost use Rattle.std.specs.Prelude.{IsTrue, [], length, ◌<◌};
    ghost use Rattle.envy_run.specs.Tracing.{Start, TracedSince, DiedSince, long_any, on_since};
    ghost use Rattle.envy_run.specs.Turns.{trace_grammar};

    type Line = Line;

    type Reply = Reply;

    ghost grammar = { trace_grammar };

    ghost Start = { Start };

    ghost Did = { λ start s turns. TracedSince start s.memory turns };

    ghost Died = { λ start s turns. DiedSince start s.memory turns };

    ghost IsReady = { λ s. IsTrue s.memory.chart.on };

    ghost tail = { λ s. [] };

    fn read(bytes: &[u8]) -> Result<Line, LineFault> {
        read_any(bytes)
    }

    fn obey<K: Sink>(&mut self, line: &Line, sink: &mut K) -> LineOutcome {
        grammar_holds_both_ways();
        match answer(&mut self.memory, line) {
            Ok(reply) => tell(&mut self.memory, sink, &reply, &mut self.buffer),
            Err(BoardRequest::Nothing) => LineOutcome::Done,
            Err(BoardRequest::Power) => obey_power(&mut self.memory, sink, &mut self.buffer),
            Err(BoardRequest::PlannedFault(plan)) => {
                let reply = arm(&mut self.memory, plan);
                tell(&mut self.memory, sink, &reply, &mut self.buffer)
            }
        }
    }

    fn close<K: Sink>(&self, _sink: &mut K) -> Result<(), Failed> {
        Ok(())
    }

    ghost long = { long_any };

    ghost stays_ready = { λ start s turns did. on_since start s.memory turns did };
}
