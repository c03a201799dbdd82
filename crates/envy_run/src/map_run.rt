//! The segments of an image as all that a run tells.

ghost use Rattle.std.specs.Prelude.{◌≡◌, ◌≤◌, ℕ, List, None, IsTrue};
ghost use Rattle.envy_audit.specs.Judging.{Judges};
ghost use Rattle.envy_map.specs.Fields.{chart};
ghost use Rattle.envy_run.specs.Audits.{IsMap, judging};
ghost use Rattle.envy_run.specs.Meaning.{Does};
ghost use Rattle.envy_run.specs.Outcome.{outcome_of};
ghost use Rattle.envy_run.specs.Writing.{WritesOut};
ghost use Rattle.envy_serve.specs.Ends.{most_bytes};
ghost use Rattle.envy_serve.specs.Streams.{streams_of};

use crate::audit_run::{AUDIT_LIVES, write_verdict};
use crate::endings::{Finished, stopped_at, written};
use crate::image_input::{Refusal, is_too_large, refused, take_head, take_image};
use envy_base::{Board, Maker};
use envy_image::{Verdict, write_segments};
use envy_io::{Failed, Lines, Sink, Source};
use envy_serve::MOST_BYTES;
use envy_space::Space;
use std::alloc::Global;

/// Writes the segments of a sound board, and flushes the sink.
fn write_sound<B: Board, K: Sink>(board: &B, space: &mut Space, sink: &mut K) -> Result<(), Failed>
    requires on { IsTrue (B.state board.now).on }
    requires sound { Judges Verdict.Sound (chart (B.state board.now)) }
    requires shape { space.old.shape ≡ (B.state board.now).shape }
    ensures { (text : List ℕ) × IsMap Verdict.Sound (chart (B.state board.now)) text
        × WritesOut text result (K.drain sink.old) (K.drain sink.new) }
{
    let Ok(()) = space.rebuild(board) else {
        unreachable!();
    };
    write_segments(board, space, sink)?;
    sink.flush()
}

/// Writes the segments of a board, or else why it isn't sound, and flushes the sink.
fn write_map<B: Board, K: Sink>(
    board: &B,
    verdict: Verdict,
    space: &mut Space,
    sink: &mut K,
) -> Result<(), Failed>
    requires on { IsTrue (B.state board.now).on }
    requires judged { Judges verdict (chart (B.state board.now)) }
    requires shape { space.old.shape ≡ (B.state board.now).shape }
    ensures { (text : List ℕ) × IsMap verdict (chart (B.state board.now)) text
        × WritesOut text result (K.drain sink.old) (K.drain sink.new) }
{
    match verdict {
        Verdict::Sound => write_sound(board, space, sink),
        Verdict::Unformatted | Verdict::Broken(_) => write_verdict(verdict, sink),
    }
}

/// Reads the image that the source begins with, and writes a line for each of its segments; where it isn't sound the
/// verdict on it. No byte behind it is read.
pub fn run_map<S: Source, K: Sink, M: Maker>(
    alloc: Global,
    most: u32,
    source: &mut S,
    sink: &mut K,
    maker: &mut M,
) -> Finished<M::Made>
    ensures maps { Does (judging most IsMap) (outcome_of M.Made.Board.state result)
        (streams_of (S.feed source.old) (S.feed source.new) (K.drain sink.old) (K.drain sink.new)) }
    ensures few { result.lines ≤ result.taken }
    ensures read { result.taken ≤ most_bytes }
    ensures second { result.second ≡ None }
{
    let mut lines = Lines::new(MOST_BYTES);
    let shape = match take_head(&mut lines, source) {
        Ok(shape) => shape,
        Err(refusal) => return refused(refusal, lines.taken(), None),
    };
    if is_too_large(&shape, most) {
        return refused(Refusal::Misshapen, lines.taken(), None);
    }
    // the shape was checked
    if shape.check().is_err() {
        unreachable!();
    }
    let Ok(mut space) = Space::new(alloc, &shape) else {
        return refused(Refusal::Memory, lines.taken(), None);
    };
    match take_image(alloc, &shape, AUDIT_LIVES, &mut lines, source, maker) {
        Ok((board, verdict)) => {
            let ending = written(write_map(&board, verdict, &mut space, sink));
            stopped_at(ending, lines.taken(), Some(board))
        }
        Err((board, refusal)) => refused(refusal, lines.taken(), board),
    }
}
