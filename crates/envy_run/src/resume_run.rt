//! A trace that stands behind an image, over a board that the image is installed on.

ghost use Rattle.std.specs.Prelude.{◌≡◌, ◌≤◌, None, Ok};
ghost use Rattle.envy_audit.specs.Judging.{Judges};
ghost use Rattle.envy_audit.specs.declared.verdict.Verdict.TheVariants.{Sound};
ghost use Rattle.envy_base.specs.declared.shape.Shape.{Shape};
ghost use Rattle.envy_image.specs.Image.{image_of};
ghost use Rattle.envy_io.specs.Streams.{Feed};
ghost use Rattle.envy_map.specs.Fields.{chart};
ghost use Rattle.envy_policy.specs.Setup.{checked};
ghost use Rattle.envy_policy.specs.declared.setup.Setup.{Setup};
ghost use Rattle.envy_run.specs.Loading.{HasTaken, IsInstalled};
ghost use Rattle.envy_run.specs.Meaning.{Does};
ghost use Rattle.envy_run.specs.Outcome.{outcome_of};
ghost use Rattle.envy_run.specs.Resumes.{resume_task, resuming, setup_found};
ghost use Rattle.envy_run.specs.Task.{DoesTask};
ghost use Rattle.envy_serve.specs.Ends.{most_bytes};
ghost use Rattle.envy_serve.specs.Streams.{streams_of};

use crate::attachment::{Unattached, attach};
use crate::endings::{Ending, Finished, ImageFault, finished_with, stopped_at};
use crate::image_input::{Refusal, is_too_large, refused, take_head, take_image};
use crate::restart::ReplyBuffer;
use crate::trace_machine::Tracing;
use envy_base::{Bench, Maker, Shape};
use envy_image::Verdict;
use envy_io::{Lines, Sink, Source};
use envy_policy::{Policy, Setup};
use envy_serve::{MOST_BYTES, serve};
use std::alloc::Global;

/// What the words say of a memory whose shape an image has.
#[derive(Clone, Copy, Debug, PartialEq, Eq)]
pub struct Resuming {
    pub policy: Policy,
    pub limit: u64,
    /// Of None the image's number of frames stands.
    pub mark: Option<u32>,
    pub lives: u32,
    /// The most rows that the image may have.
    pub most: u32,
}

/// The setup over a board of this shape.
fn setup_over(shape: &Shape, words: &Resuming) -> Setup
    ensures { result ≡ setup_found words.now.policy words.now.limit words.now.mark shape.now }
{
    Setup {
        shape: *shape,
        policy: words.policy,
        limit: words.limit,
        mark: words.mark.unwrap_or(shape.frames),
    }
}

/// Answers the trace behind an image over the board that it was installed on.
fn serve_image<B: Bench, S: Source, K: Sink>(
    alloc: Global,
    board: B,
    setup: Setup,
    lines: Lines,
    source: &mut S,
    sink: &mut K,
) -> Finished<B>
    requires installed { IsInstalled setup.shape (B.state board).given (B.state board) }
    requires sound { Judges Sound (chart (B.state board)) }
    requires setup { checked setup ≡ Ok tt }
    requires taken { (from : Feed) × HasTaken (image_of (B.state board)) from lines (S.feed source.old) }
    ensures does { DoesTask (resume_task (B.state board) setup (B.state board).given) (outcome_of B.Board.state result)
        (streams_of (S.feed source.old) (S.feed source.new) (K.drain sink.old) (K.drain sink.new)) }
    ensures few { result.lines ≤ result.taken }
    ensures read { result.taken ≤ most_bytes }
    ensures second { result.second ≡ None }
{
    let taken = lines.taken();
    let memory = match attach(alloc, board, setup) {
        Ok(memory) => memory,
        Err((board, Unattached::Memory)) => {
            return stopped_at(Ending::OutOfMemory, taken, Some(board));
        }
        Err((board, Unattached::Dead)) => {
            return stopped_at(Ending::PowerLost, taken, Some(board));
        }
    };
    let mut tracing = Tracing {
        memory,
        buffer: ReplyBuffer::new(),
    };
    let served = serve(&mut tracing, source, sink, lines);
    let Tracing { memory, buffer: _ } = tracing;
    finished_with(served, Some(memory.into_board()))
}

/// Reads the image that the source begins with, installs and audits it, and does the lines behind it in order, with
/// each reply written before the next line is read.
pub fn run_resume<S: Source, K: Sink, M: Maker>(
    alloc: Global,
    words: &Resuming,
    source: &mut S,
    sink: &mut K,
    maker: &mut M,
) -> Finished<M::Made>
    ensures resumes { Does (resuming words.now.most (setup_found words.now.policy words.now.limit words.now.mark) words.now.lives)
        (outcome_of M.Made.Board.state result)
        (streams_of (S.feed source.old) (S.feed source.new) (K.drain sink.old) (K.drain sink.new)) }
    ensures few { result.lines ≤ result.taken }
    ensures read { result.taken ≤ most_bytes }
    ensures second { result.second ≡ None }
{
    let mut lines = Lines::new(MOST_BYTES);
    let shape = match take_head(&mut lines, source) {
        Ok(shape) => shape,
        Err(refusal) => return refused(refusal, lines.taken(), None),
    };
    if is_too_large(&shape, words.most) {
        return refused(Refusal::Misshapen, lines.taken(), None);
    }
    let setup = setup_over(&shape, words);
    if setup.check().is_err() {
        let ending = Ending::ImageRefused(ImageFault::Unruly);
        return stopped_at(ending, lines.taken(), None);
    }
    match take_image(alloc, &shape, words.lives, &mut lines, source, maker) {
        Ok((board, verdict)) => match verdict {
            Verdict::Sound => serve_image(alloc, board, setup, lines, source, sink),
            _ => {
                let ending = Ending::ImageRefused(ImageFault::Unsound);
                stopped_at(ending, lines.taken(), Some(board))
            }
        },
        Err((board, refusal)) => refused(refusal, lines.taken(), board),
    }
}
