//! An image that the source begins with, on a new board.

ghost use Rattle.std.specs.Prelude.{◌≡◌, ◌*◌, ◌<◌, ◌≤◌, ⊤, MatchBool, MatchResult, Ok};
ghost use Rattle.std.specs.Option.{option_map};
ghost use Rattle.envy_base.specs.Shape.{checked};
ghost use Rattle.envy_image.specs.Image.{head_of};
ghost use Rattle.envy_image.specs.Installing.{HasReadHead};
ghost use Rattle.envy_io.specs.Streams.{Feed};
ghost use Rattle.envy_run.specs.Loading.{HasTaken, TakesHead, Loaded, Unloaded, untouched, ending_for};

use crate::endings::{Ending, Finished, ImageFault, stopped_at};
use envy_base::{Maker, Shape};
use envy_image::{Audit, HeadFault, InFault, Verdict, install, read_head};
use envy_io::{Lines, Source};
use std::alloc::Global;

/// Why there is no board that holds an image.
#[derive(Clone, Copy, Debug, PartialEq, Eq)]
pub enum Refusal {
    /// The source failed within the image.
    Failed,
    /// Memory ran out.
    Memory,
    /// The source ended within the image.
    Early,
    /// It doesn't begin with the mark.
    Unmarked,
    /// Its shape doesn't check.
    Misshapen,
    /// Power or a flash operation failed in installing.
    Upset,
}

/// The ending for a reason.
fn ending(refusal: Refusal) -> Ending
    ensures { result ≡ ending_for refusal }
{
    match refusal {
        Refusal::Failed => Ending::ReadFault,
        Refusal::Memory => Ending::OutOfMemory,
        Refusal::Early => Ending::ImageRefused(ImageFault::Early),
        Refusal::Unmarked => Ending::ImageRefused(ImageFault::Unmarked),
        Refusal::Misshapen => Ending::ImageRefused(ImageFault::Misshapen),
        Refusal::Upset => Ending::NotInstalled,
    }
}

/// The end where there is no board that holds an image.
pub(crate) fn refused<B>(refusal: Refusal, taken: u64, board: Option<B>) -> Finished<B>
    ensures { result ≡ record { ending = ending_for refusal; lines = 0; taken = taken; board = board; second = None } }
{
    stopped_at(ending(refusal), taken, board)
}

/// Reads the head of the image that the source begins with.
pub(crate) fn take_head<S: Source>(lines: &mut Lines, source: &mut S) -> Result<Shape, Refusal>
    requires { lines.old ≡ untouched }
    ensures { TakesHead (S.feed source.old) result lines.new (S.feed source.new) }
{
    match read_head(lines, source) {
        Ok(shape) => Ok(shape),
        Err(HeadFault::Short) => Err(Refusal::Early),
        Err(HeadFault::Mark) => Err(Refusal::Unmarked),
        Err(HeadFault::Shape(_)) => Err(Refusal::Misshapen),
        Err(HeadFault::Failed) => Err(Refusal::Failed),
        // a head is far shorter than what may be taken
        Err(HeadFault::Spent) => unreachable!(),
    }
}

/// Whether a board of this shape has more rows than so many.
pub(crate) fn is_too_large(shape: &Shape, most: u32) -> bool
    requires { checked shape.now ≡ Ok tt }
    ensures { MatchBool result (most < shape.now.segments * shape.now.rows) (shape.now.segments * shape.now.rows ≤ most) }
{
    shape.segments as u64 * shape.rows as u64 > most as u64
}

/// Makes a board of the shape that was read, installs on it the image behind the head, and judges it.
pub(crate) fn take_image<S: Source, M: Maker>(
    alloc: Global,
    shape: &Shape,
    lives: u32,
    lines: &mut Lines,
    source: &mut S,
    maker: &mut M,
) -> Result<(M::Made, Verdict), (Option<M::Made>, Refusal)>
    requires shape { checked shape.now ≡ Ok tt }
    requires head { HasReadHead shape.now lines.old (S.feed source.old) }
    requires taken { (from : Feed) × HasTaken (head_of shape.now) from lines.old (S.feed source.old) }
    ensures { (from : Feed) → HasTaken (head_of shape.now) from lines.old (S.feed source.old)
        → MatchResult result
        (λ loaded. Loaded shape.now lives from (M.Made.Board.state loaded.0) loaded.1 lines.new (S.feed source.new))
        (λ e. Unloaded shape.now lives from (option_map M.Made.Board.state e.0) e.1 lines.new (S.feed source.new)) }
{
    // the shape was checked
    if shape.check().is_err() {
        unreachable!();
    }
    let Ok(mut board) = maker.make(alloc, shape, lives) else {
        return Err((None, Refusal::Memory));
    };
    let Ok(mut audit) = Audit::new(alloc, shape) else {
        return Err((Some(board), Refusal::Memory));
    };
    match install(&mut board, lines, source) {
        Ok(()) => {}
        Err(InFault::Short) => return Err((Some(board), Refusal::Early)),
        Err(InFault::Upset) => return Err((Some(board), Refusal::Upset)),
        Err(InFault::Failed) => return Err((Some(board), Refusal::Failed)),
        // an image is far shorter than what may be taken
        Err(InFault::Spent) => unreachable!(),
    }
    let Ok(verdict) = audit.check(&board) else {
        // power is on where the image was installed
        unreachable!()
    };
    Ok((board, verdict))
}
