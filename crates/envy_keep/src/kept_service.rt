use crate::line::obey_line;
use crate::reply_buffer::ReplyBuffer;
use envy_device::{Device, Replaceable};
use envy_io::{Failed, Sink};
use envy_journal::Steady;
use envy_memory::Memory;
use envy_serve::{LineOutcome, Service};
use envy_synced::Kept;
use envy_trace::{KeepLine, KeepReply, LineFault, keep_grammar_holds_both_ways, read_keep_line};

/// A memory that is kept in a file and answers the lines of a trace.
pub struct Keeping<B: Steady, D: Device> {
    pub memory: Memory<Kept<B, D>>,
    pub buffer: ReplyBuffer,
}

impl<B: Steady, D: Replaceable> Service for Keeping<B, D> {
    ghost use Rattle.std.specs.Prelude.{IsTrue, [], length, ◌<◌};
    ghost use Rattle.envy_keep.specs.Since.{KeptSince, LostSince, Start, long_keep, on_since};
    ghost use Rattle.envy_keep.specs.Turns.{keep_grammar};

    type Line = KeepLine;

    type Reply = KeepReply;

    ghost grammar = { keep_grammar };

    ghost Start = { Start };

    ghost Did = { λ start s turns. KeptSince start s.memory turns };

    ghost Died = { λ start s turns. LostSince start s.memory turns };

    ghost IsReady = { λ s. IsTrue s.memory.chart.on };

    ghost tail = { λ s. [] };

    fn read(bytes: &[u8]) -> Result<KeepLine, LineFault> {
        read_keep_line(bytes)
    }

    fn obey<K: Sink>(&mut self, line: &KeepLine, sink: &mut K) -> LineOutcome {
        keep_grammar_holds_both_ways();
        obey_line(&mut self.memory, sink, line, &mut self.buffer)
    }

    fn close<K: Sink>(&self, _sink: &mut K) -> Result<(), Failed> {
        Ok(())
    }

    ghost long = { long_keep };

    ghost stays_ready = { λ start s turns did. on_since start s.memory turns did };
}
