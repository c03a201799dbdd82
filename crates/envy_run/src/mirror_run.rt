//! A trace over a mirrored pair of fresh memories.

ghost use Rattle.std.specs.Prelude.{◌≡◌, ◌≤◌, None, Ok, Some};
ghost use Rattle.envy_policy.specs.Setup.{checked};
ghost use Rattle.envy_run.specs.MirrorTask.{mirror_task};
ghost use Rattle.envy_run.specs.Outcome.{outcome_of};
ghost use Rattle.envy_run.specs.Prepares.{ending_of_unready};
ghost use Rattle.envy_run.specs.Task.{DoesTask};
ghost use Rattle.envy_serve.specs.Ends.{most_bytes};
ghost use Rattle.envy_serve.specs.Streams.{streams_of};

use crate::endings::{Ending, Finished, after, unserved};
use crate::preparation::{Unready, prepare, why_unready};
use envy_base::Maker;
use envy_io::{Lines, Sink, Source};
use envy_mirror::Mirror;
use envy_pair::MirrorService;
use envy_policy::Setup;
use envy_serve::{MOST_BYTES, serve};
use std::alloc::Global;

/// An end with nothing read, since there is no pair to serve.
fn unmirrored<B>(unready: Unready, first: B, second: B) -> Finished<B>
    ensures { result
        ≡ record {
          ending = ending_of_unready unready;
          lines = 0;
          taken = 0;
          board = Some first;
          second = Some
              second;
        } }
{
    Finished {
        ending: why_unready(unready),
        lines: 0,
        taken: 0,
        board: Some(first),
        second: Some(second),
    }
}

/// Makes two boards, formats both, and does the lines of the source in order on the pair, with each reply written
/// before the next line is read.
pub fn run_mirror<S: Source, K: Sink, M: Maker>(
    alloc: Global,
    setup: Setup,
    lives: u32,
    source: &mut S,
    sink: &mut K,
    maker: &mut M,
) -> Finished<M::Made>
    requires { checked setup ≡ Ok tt }
    ensures runs { DoesTask (mirror_task setup lives) (outcome_of M.Made.Board.state result)
        (streams_of (S.feed source.old) (S.feed source.new) (K.drain sink.old) (K.drain sink.new)) }
    ensures few { result.lines ≤ result.taken }
    ensures read { result.taken ≤ most_bytes }
{
    let Ok(one) = maker.make(alloc, &setup.shape, lives) else {
        return unserved(Ending::OutOfMemory, None);
    };
    let Ok(two) = maker.make(alloc, &setup.shape, lives) else {
        return unserved(Ending::OutOfMemory, Some(one));
    };
    let first = match prepare(alloc, one, setup) {
        Ok(memory) => memory,
        Err((one, unready)) => return unmirrored(unready, one, two),
    };
    let second = match prepare(alloc, two, setup) {
        Ok(memory) => memory,
        Err((two, unready)) => return unmirrored(unready, first.into_board(), two),
    };
    let mirror = match Mirror::new(alloc, first, second) {
        Ok(mirror) => mirror,
        Err((first, second, _)) => {
            return unmirrored(Unready::Memory, first.into_board(), second.into_board());
        }
    };
    let mut pairing = MirrorService::new(mirror);
    let served = serve(&mut pairing, source, sink, Lines::new(MOST_BYTES));
    let (one, two) = pairing.into_mirror().into_boards();
    Finished {
        ending: after(served.end),
        lines: served.lines,
        taken: served.taken,
        board: Some(one),
        second: Some(two),
    }
}
