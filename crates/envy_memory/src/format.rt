ghost use Rattle.std.specs.Prelude.{◌≡◌, IsNone, OnOk, MatchOption, MatchResult};
ghost use Rattle.envy_base.specs.Shape.{version_of};
ghost use Rattle.envy_map.specs.Fields.{chart};
ghost use Rattle.envy_soundness.specs.Formatting.{AreErasedOnce, Formats};
ghost use Rattle.envy_soundness.specs.Same.{Counted};
ghost use Rattle.envy_policy.specs.Setup.{IsSetup};
ghost use Rattle.envy_engine.specs.Agreement.{Fits, Ready};
ghost use Rattle.envy_memory.specs.Formats.{MayFormat, Makes, CountsFormat, Refuses};
ghost use Rattle.envy_memory.specs.Making.{StartsAnew};

use crate::faults::FormatFault;
use crate::memory::{Memory, SLOTS};
use crate::new_parts::make_parts;
use envy_base::{Board, Trouble};
use envy_engine::{Parts, rebuild};
use envy_policy::Setup;
use envy_soundness::format_board;
use std::alloc::Global;

/// The first reason not to begin to format a board, but for want of memory.
fn refusal<B: Board>(board: &B, setup: &Setup) -> Option<FormatFault>
    ensures reason { MatchOption result (MayFormat (B.state board.now) setup.now) (λ fault.
        Refuses (B.state board.now) setup.now fault (B.state board.now)) }
    ensures sizes { IsNone result → IsSetup setup.now }
{
    if !board.powered() {
        return Some(FormatFault::Off);
    }
    if let Err(fault) = setup.check() {
        return Some(FormatFault::Setup(fault));
    }
    if board.shape() != setup.shape {
        return Some(FormatFault::OtherShape);
    }
    None
}

/// Formats a board, and reads the parts from it: which segments were set aside is known by the board alone.
fn lay_out<B: Board>(board: &mut B, parts: &mut Parts) -> Result<(), Trouble>
    requires fits { Fits (B.state board.old).shape parts.old }
    ensures formats { Formats (version_of (B.state board.old).shape) (B.state board.old) result (B.state board.new) }
    ensures shape { (B.state board.new).shape ≡ (B.state board.old).shape }
    ensures erases { OnOk result (AreErasedOnce (B.state board.old).shape.segments (B.state board.old).erases
        (B.state board.new).erases) }
    ensures counts { Counted 0 (B.state board.old).shape.segments (chart (B.state board.old))
        (chart (B.state board.new)) }
    ensures ready { OnOk result (Ready (chart (B.state board.new)) parts.new) }
    ensures starts { OnOk result (StartsAnew parts.old (chart (B.state board.new)) parts.new) }
{
    match format_board(board) {
        Ok(()) => {}
        Err(trouble) => return Err(trouble),
    }
    rebuild(board, parts)?;
    Ok(())
}

impl<B: Board> Memory<B> {
    /// A memory of zeros over a board, which is formatted. Segments whose erase is bad are set aside, as many as there
    /// are positions in reserve.
    ///
    /// # Errors
    ///
    /// The board comes back with the first reason that holds, in the order of `FormatFault`.
    pub fn format(alloc: Global, mut board: B, setup: Setup) -> Result<Memory<B>, (B, FormatFault)>
        ensures made { MatchResult result (λ memory. Makes (B.state board) setup memory) (λ e.
            Refuses (B.state board) setup e.1 (B.state e.0)) }
        ensures counts { MatchResult result (λ memory. CountsFormat (chart (B.state board)) memory.chart) (λ e.
            CountsFormat (chart (B.state board)) (chart (B.state e.0))) }
    {
        if let Some(fault) = refusal(&board, &setup) {
            return Err((board, fault));
        }
        let Ok((mut parts, owned)) = make_parts(alloc, &setup) else {
            return Err((board, FormatFault::Memory));
        };
        match lay_out(&mut board, &mut parts) {
            Ok(()) => Ok(Memory {
                board,
                parts,
                owned,
                limit: setup.limit,
                mark: setup.mark,
                quiet: 0,
                shut_from: SLOTS,
            }),
            Err(Trouble::Off) => Err((board, FormatFault::Off)),
            Err(Trouble::Bad) => Err((board, FormatFault::Bad)),
        }
    }
}
