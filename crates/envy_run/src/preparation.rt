ghost use Rattle.std.specs.Prelude.{◌≡◌, IsTrue, MatchResult, Ok};
ghost use Rattle.envy_map.specs.Fields.{chart};
ghost use Rattle.envy_policy.specs.Setup.{checked};
ghost use Rattle.envy_run.specs.Outcome.{outcome_of};
ghost use Rattle.envy_run.specs.Prepares.{IsBegun, IsReady, NoneBegun, Unprepared, ending_of_unready};

use crate::endings::{Ending, Finished, unserved};
use envy_base::{Bench, Maker};
use envy_memory::{FormatFault, Memory};
use envy_policy::Setup;
use std::alloc::Global;

/// Why there is no memory to serve.
#[derive(Clone, Copy, Debug, PartialEq, Eq)]
pub enum Unready {
    /// Memory ran out.
    Memory,
    /// More erases failed in formatting than there are positions in reserve.
    Bad,
    /// Power failed in formatting and didn't return.
    Dead,
}

/// Formats a board. Where power fails meanwhile it is asked for, and the board is formatted again.
pub fn prepare<B: Bench>(alloc: Global, board: B, setup: Setup) -> Result<Memory<B>, (B, Unready)>
    requires on { IsTrue (B.state board).on }
    requires setup { checked setup ≡ Ok tt }
    requires shape { (B.state board).shape ≡ setup.shape }
    ensures { MatchResult result
        (λ memory. IsReady (chart (B.state board)) setup memory)
        (λ e. Unprepared e.1 (chart (B.state board)) (chart (B.state e.0))) }
{
    let mut board = board;
    loop {
        match Memory::format(alloc, board, setup) {
            Ok(memory) => return Ok(memory),
            Err((back, FormatFault::Off)) => board = back,
            Err((back, FormatFault::Bad)) => return Err((back, Unready::Bad)),
            Err((back, _)) => return Err((back, Unready::Memory)),
        }
        if !board.power_on() {
            return Err((board, Unready::Dead));
        }
    }
}

/// How a run without a memory ends.
pub(crate) fn why_unready(unready: Unready) -> Ending
    ensures { result ≡ ending_of_unready unready }
{
    match unready {
        Unready::Memory => Ending::OutOfMemory,
        Unready::Bad => Ending::FlashFailed,
        Unready::Dead => Ending::PowerLost,
    }
}

/// Makes a board and formats it. Where no memory begins on it, answers how the run ends.
pub(crate) fn make_memory<M: Maker>(
    alloc: Global,
    setup: Setup,
    lives: u32,
    maker: &mut M,
) -> Result<Memory<M::Made>, Finished<M::Made>>
    requires { checked setup ≡ Ok tt }
    ensures { MatchResult result
        (λ memory. IsBegun setup lives memory)
        (λ finished. NoneBegun setup lives (outcome_of M.Made.Board.state finished)) }
{
    let Ok(board) = maker.make(alloc, &setup.shape, lives) else {
        return Err(unserved(Ending::OutOfMemory, None));
    };
    match prepare(alloc, board, setup) {
        Ok(memory) => Ok(memory),
        Err((board, unready)) => Err(unserved(why_unready(unready), Some(board))),
    }
}
