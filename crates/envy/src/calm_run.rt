//! What the program does over the boards that it makes.

ghost use Rattle.std.specs.Prelude.{◌≡◌};
ghost use Rattle.envy_bench.specs.CalmState.{calm_state};
ghost use Rattle.envy_run.specs.Complete.{Completes};
ghost use Rattle.envy_run.specs.Drives.{TellsAll};
ghost use Rattle.envy_run.specs.Headline.{command_in};
ghost use Rattle.envy_run.specs.Outcome.{outcome};
ghost use Rattle.envy_run.specs.Theorem.{Leaves, Licenses, Prints};
ghost use Rattle.envy_serve.specs.Streams.{streams_of};

use envy_bench::{CalmBoard, CalmMaker};
use envy_io::{Sink, Source};
use envy_run::{Ended, run};
use std::alloc::Global;

/// Does what the words say, over boards of which nothing fails before a failure is planned or power is cut by hand. So a
/// report on a load tells each return of power.
pub fn run_over_calm_boards<S: Source, K: Sink>(
    alloc: Global,
    words: &[String],
    source: &mut S,
    sink: &mut K,
) -> Ended<CalmBoard>
    ensures printed { Prints (command_in words.now) (outcome calm_state result)
        (streams_of (S.feed source.old) (S.feed source.new) (K.drain sink.old) (K.drain sink.new)) }
    ensures board { Leaves (command_in words.now) (outcome calm_state result)
        (streams_of (S.feed source.old) (S.feed source.new) (K.drain sink.old) (K.drain sink.new)) }
    ensures licences { Licenses (command_in words.now) (outcome calm_state result)
        (streams_of (S.feed source.old) (S.feed source.new) (K.drain sink.old) (K.drain sink.new)) }
    ensures completes { Completes (command_in words.now) (outcome calm_state result)
        (streams_of (S.feed source.old) (S.feed source.new) (K.drain sink.old) (K.drain sink.new)) }
    ensures told { TellsAll (command_in words.now) (outcome calm_state result)
        (streams_of (S.feed source.old) (S.feed source.new) (K.drain sink.old) (K.drain sink.new)) }
{
    run(alloc, words, source, sink, &mut CalmMaker::new())
}
