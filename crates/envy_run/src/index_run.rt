//! A trace of an index over a fresh memory.

ghost use Rattle.std.specs.Prelude.{◌≡◌, ◌≤◌, None, Ok};
ghost use Rattle.envy_policy.specs.Setup.{checked};
ghost use Rattle.envy_run.specs.Headline.{index_task};
ghost use Rattle.envy_run.specs.Outcome.{outcome_of};
ghost use Rattle.envy_run.specs.Task.{DoesTask};
ghost use Rattle.envy_serve.specs.Ends.{most_bytes};
ghost use Rattle.envy_serve.specs.Streams.{streams_of};

use crate::endings::{Finished, finished_with};
use crate::index_machine::Indexing;
use crate::preparation::make_memory;
use crate::restart::ReplyBuffer;
use envy_args::USUAL_ROWS;
use envy_base::Maker;
use envy_io::{Lines, Sink, Source};
use envy_memory::OneTx;
use envy_policy::Setup;
use envy_serve::{MOST_BYTES, serve};
use std::alloc::Global;

/// Makes a board, formats it, and does the lines of the source in order, each as one transaction of the
/// tree, with each reply written before the next line is read.
pub fn run_index<S: Source, K: Sink, M: Maker>(
    alloc: Global,
    setup: Setup,
    lives: u32,
    source: &mut S,
    sink: &mut K,
    maker: &mut M,
) -> Finished<M::Made>
    requires rules { checked setup ≡ Ok tt }
    requires room { 32 ≤ setup.shape.shadows }
    requires size { 20 ≤ setup.shape.pages }
    requires few { setup.shape.pages ≤ USUAL_ROWS }
    ensures runs { DoesTask (index_task setup lives) (outcome_of M.Made.Board.state result)
        (streams_of (S.feed source.old) (S.feed source.new) (K.drain sink.old) (K.drain sink.new)) }
    ensures few { result.lines ≤ result.taken }
    ensures read { result.taken ≤ most_bytes }
    ensures second { result.second ≡ None }
{
    let memory = match make_memory(alloc, setup, lives, maker) {
        Ok(memory) => memory,
        Err(finished) => return finished,
    };
    let mut indexing = Indexing {
        words: OneTx::new(memory),
        buffer: ReplyBuffer::new(),
    };
    let served = serve(&mut indexing, source, sink, Lines::new(MOST_BYTES));
    let Indexing { words, buffer: _ } = indexing;
    finished_with(served, Some(words.into_memory().into_board()))
}
