//! A trace done without a reply, and the image of its board behind it.

ghost use Rattle.std.specs.Prelude.{◌≡◌, ◌≤◌, IsTrue, None, Ok};
ghost use Rattle.envy_image.specs.Image.{image_of};
ghost use Rattle.envy_policy.specs.Setup.{checked};
ghost use Rattle.envy_run.specs.Headline.{save_task};
ghost use Rattle.envy_run.specs.Outcome.{outcome_of};
ghost use Rattle.envy_run.specs.Task.{DoesTask};
ghost use Rattle.envy_run.specs.Writing.{WritesOut};
ghost use Rattle.envy_serve.specs.Ends.{most_bytes};
ghost use Rattle.envy_serve.specs.Streams.{streams_of};

use crate::commands::run_trace;
use crate::endings::{Ending, Finished, written};
use envy_base::{Board, Maker};
use envy_image::{OutFault, write_image};
use envy_io::{Failed, Sink, Source};
use envy_policy::Setup;
use envy_serve::NullSink;
use std::alloc::Global;

/// Writes the image of a board, and flushes the sink.
fn write_board<B: Board, K: Sink>(board: &B, sink: &mut K) -> Result<(), Failed>
    requires { IsTrue (B.state board.now).on }
    ensures { WritesOut (image_of (B.state board.now)) result (K.drain sink.old) (K.drain sink.new) }
{
    match write_image(board, sink) {
        Ok(()) => sink.flush(),
        Err(OutFault::Failed) => Err(Failed),
        // power is on
        Err(OutFault::Off) => unreachable!(),
    }
}

/// Does the lines of the source in order over a board that is made and formatted, with no reply written.
/// Where the trace was done to its end the image of the board is written.
pub fn run_save<S: Source, K: Sink, M: Maker>(
    alloc: Global,
    setup: Setup,
    lives: u32,
    source: &mut S,
    sink: &mut K,
    maker: &mut M,
) -> Finished<M::Made>
    requires { checked setup ≡ Ok tt }
    ensures runs { DoesTask (save_task setup lives) (outcome_of M.Made.Board.state result)
        (streams_of (S.feed source.old) (S.feed source.new) (K.drain sink.old) (K.drain sink.new)) }
    ensures few { result.lines ≤ result.taken }
    ensures read { result.taken ≤ most_bytes }
    ensures second { result.second ≡ None }
{
    let mut traced = run_trace(alloc, setup, lives, source, &mut NullSink::new(), maker);
    match traced.ending {
        Ending::Done => {}
        _ => return traced,
    }
    let wrote = match &traced.board {
        Some(board) => write_board(board, sink),
        // a trace that was done has its board
        None => unreachable!(),
    };
    traced.ending = written(wrote);
    traced
}
