//! An index that answers the lines of a trace.

ghost use Rattle.std.specs.Prelude.{◌≡◌};
ghost use Rattle.envy_btree.specs.Grammar.{index_line_of};

use crate::index_lines::obey_index;
use crate::restart::ReplyBuffer;
use envy_base::Bench;
use envy_btree::{IndexLine, IndexReply, index_grammar_holds_both_ways, read_index_line};
use envy_io::{Failed, Sink};
use envy_memory::OneTx;
use envy_serve::{LineOutcome, Service};
use envy_trace::LineFault;

/// The words of a memory that hold an index.
pub struct Indexing<B: Bench> {
    pub words: OneTx<B>,
    pub buffer: ReplyBuffer,
}

impl<B: Bench> Service for Indexing<B> {
    ghost use Rattle.envy_map.specs.Fields.{Chart};
    ghost use Rattle.envy_run.specs.IndexServing.{Serving, IndexedSince, FellSince, long_index, serving_ready};
    ghost use Rattle.envy_run.specs.IndexTurns.{Pairs, index_grammar};
    ghost use Rattle.std.specs.Prelude.{[]};

    type Line = IndexLine;

    type Reply = IndexReply;

    ghost grammar = { index_grammar };

    ghost Start = { Chart };

    ghost Did = { λ start s turns. IndexedSince start s.words.memory s.words.begun turns };

    ghost Died = { λ start s turns. FellSince start s.words.memory.chart turns };

    ghost IsReady = { λ s. (es : Pairs) × Serving s.words.memory s.words.begun es };

    ghost tail = { λ s. [] };

    fn read(bytes: &[u8]) -> Result<IndexLine, LineFault> {
        read_index_line(bytes)
    }

    fn obey<K: Sink>(&mut self, line: &IndexLine, sink: &mut K) -> LineOutcome {
        index_grammar_holds_both_ways();
        obey_index(&mut self.words, sink, line, &mut self.buffer)
    }

    fn close<K: Sink>(&self, _sink: &mut K) -> Result<(), Failed> {
        Ok(())
    }

    ghost long = { long_index };

    ghost stays_ready = { λ start s turns did. serving_ready start s.words.memory s.words.begun turns did };
}
