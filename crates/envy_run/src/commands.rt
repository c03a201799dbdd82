ghost use Rattle.std.specs.Prelude.{◌≡◌, ◌≤◌, None, Ok};
ghost use Rattle.envy_policy.specs.Setup.{checked};
ghost use Rattle.envy_run.specs.Allowed.{IsAllowed};
ghost use Rattle.envy_run.specs.Complete.{Completes};
ghost use Rattle.envy_run.specs.Drives.{FailsAsPlanned, TellsAll};
ghost use Rattle.envy_run.specs.Headline.{Headline, run_task, command_in};
ghost use Rattle.envy_run.specs.Outcome.{outcome, outcome_of};
ghost use Rattle.envy_run.specs.Task.{DoesTask};
ghost use Rattle.envy_run.specs.Theorem.{IsAlone, Leaves, Licenses, Prints};
ghost use Rattle.envy_serve.specs.Ends.{most_bytes};
ghost use Rattle.envy_serve.specs.Streams.{streams_of};

use crate::audit_run::run_audit;
use crate::ended::Ended;
use crate::endings::{Finished, finished_with, hand_back, refused};
use crate::gen_run::run_gen;
use crate::index_run::run_index;
use crate::map_run::run_map;
use crate::mirror_run::run_mirror;
use crate::plain_run::run_plain;
use crate::preparation::make_memory;
use crate::restart::ReplyBuffer;
use crate::resume_run::{Resuming, run_resume};
use crate::save_run::run_save;
use crate::tpca_run::run_tpca;
use crate::trace_machine::Tracing;
use envy_args::{Command, read_words, the_area_is_asked_to_fit};
use envy_base::Maker;
use envy_io::{Lines, Sink, Source};
use envy_policy::Setup;
use envy_serve::{MOST_BYTES, serve};
use std::alloc::Global;

/// Makes a board, formats it, and does the lines of the source in order, with each reply written before
/// the next line is read.
pub(crate) fn run_trace<S: Source, K: Sink, M: Maker>(
    alloc: Global,
    setup: Setup,
    lives: u32,
    source: &mut S,
    sink: &mut K,
    maker: &mut M,
) -> Finished<M::Made>
    requires { checked setup ≡ Ok tt }
    ensures runs { DoesTask (run_task setup lives) (outcome_of M.Made.Board.state result)
        (streams_of (S.feed source.old) (S.feed source.new) (K.drain sink.old) (K.drain sink.new)) }
    ensures few { result.lines ≤ result.taken }
    ensures read { result.taken ≤ most_bytes }
    ensures second { result.second ≡ None }
{
    let memory = match make_memory(alloc, setup, lives, maker) {
        Ok(memory) => memory,
        Err(finished) => return finished,
    };
    let mut tracing = Tracing {
        memory,
        buffer: ReplyBuffer::new(),
    };
    let served = serve(&mut tracing, source, sink, Lines::new(MOST_BYTES));
    let Tracing { memory, buffer: _ } = tracing;
    finished_with(served, Some(memory.into_board()))
}

/// Does a command.
fn perform<S: Source, K: Sink, M: Maker>(
    alloc: Global,
    command: Command,
    source: &mut S,
    sink: &mut K,
    maker: &mut M,
) -> Finished<M::Made>
    requires { IsAllowed command }
    ensures headline { Headline (Ok command) (outcome_of M.Made.Board.state result)
        (streams_of (S.feed source.old) (S.feed source.new) (K.drain sink.old) (K.drain sink.new)) }
    ensures told { FailsAsPlanned M.Made.Board.state → TellsAll (Ok command) (outcome_of M.Made.Board.state result)
        (streams_of (S.feed source.old) (S.feed source.new) (K.drain sink.old) (K.drain sink.new)) }
    ensures few { result.lines ≤ result.taken }
    ensures read { result.taken ≤ most_bytes }
    ensures alone { IsAlone command result.second }
{
    match command {
        Command::Run { setup, lives } => run_trace(alloc, setup, lives, source, sink, maker),
        Command::Plain { setup } => run_plain(alloc, &setup, source, sink),
        Command::Gen { start, lines, mix } => run_gen(sink, start, lines, &mix),
        Command::Save { setup, lives } => run_save(alloc, setup, lives, source, sink, maker),
        Command::Audit { most } => run_audit(alloc, most, source, sink, maker),
        Command::Map { most } => run_map(alloc, most, source, sink, maker),
        Command::Index { setup, lives } => run_index(alloc, setup, lives, source, sink, maker),
        Command::Tpca {
            setup,
            lives,
            start,
            area,
            every,
        } => {
            the_area_is_asked_to_fit();
            run_tpca(alloc, setup, lives, start, &area, every, sink, maker)
        }
        Command::Mirror { setup, lives } => run_mirror(alloc, setup, lives, source, sink, maker),
        Command::Resume {
            policy,
            limit,
            mark,
            lives,
            most,
        } => {
            let words = Resuming {
                policy,
                limit,
                mark,
                lives,
                most,
            };
            run_resume(alloc, &words, source, sink, maker)
        }
    }
}

/// Does what the words say: answers the trace of the source over a board of the maker's or on a plain
/// machine, writes a generated trace, or drives a load and reports its sums.
///
/// What it prints is what an array of words answers; the board that it hands back stands for that array; the board's
/// counts license each `lost` and each `fault`; and where all goes well it is done to its end.
pub fn run<S: Source, K: Sink, M: Maker>(
    alloc: Global,
    words: &[String],
    source: &mut S,
    sink: &mut K,
    maker: &mut M,
) -> Ended<M::Made>
    ensures printed { Prints (command_in words.now) (outcome M.Made.Board.state result)
        (streams_of (S.feed source.old) (S.feed source.new) (K.drain sink.old) (K.drain sink.new)) }
    ensures board { Leaves (command_in words.now) (outcome M.Made.Board.state result)
        (streams_of (S.feed source.old) (S.feed source.new) (K.drain sink.old) (K.drain sink.new)) }
    ensures licences { Licenses (command_in words.now) (outcome M.Made.Board.state result)
        (streams_of (S.feed source.old) (S.feed source.new) (K.drain sink.old) (K.drain sink.new)) }
    ensures completes { Completes (command_in words.now) (outcome M.Made.Board.state result)
        (streams_of (S.feed source.old) (S.feed source.new) (K.drain sink.old) (K.drain sink.new)) }
    ensures told { FailsAsPlanned M.Made.Board.state
        → TellsAll (command_in words.now) (outcome M.Made.Board.state result)
        (streams_of (S.feed source.old) (S.feed source.new) (K.drain sink.old) (K.drain sink.new)) }
{
    match read_words(alloc, words) {
        Ok(command) => hand_back(perform(alloc, command, source, sink, maker)),
        Err(fault) => hand_back(refused(fault)),
    }
}
