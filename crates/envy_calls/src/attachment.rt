ghost use Rattle.std.specs.Prelude.{◌≡◌, false, MatchOption, MatchResult};
ghost use Rattle.envy_map.specs.Fields.{chart};
ghost use Rattle.envy_memory.specs.Attaching.{Attaches};
ghost use Rattle.envy_calls.specs.Making.{Declined, Forbids, IsWhole};

use crate::code::Code;
use envy_audit::{Audit, Verdict};
use envy_base::{Board, Off};
use envy_map::{is_formatted, kept_shape, version};
use envy_memory::{AttachFault, Memory};
use envy_policy::Setup;
use std::alloc::Global;

/// Why a board may not be taken up by this setup, if it may not.
pub fn refusal<B: Board>(alloc: Global, board: &B, setup: &Setup) -> Result<Option<Code>, Off>
    ensures { MatchResult result
        (λ found. MatchOption found (IsWhole (chart (B.state board.now)) setup.now) (λ code.
        Forbids code (chart (B.state board.now)) setup.now))
        (λ _. (B.state board.now).on ≡ false) }
{
    let formatted = is_formatted(board)?;
    if !formatted {
        return Ok(Some(Code::Unformatted));
    }
    if version(board)? == 1 {
        return Ok(Some(Code::Older));
    }
    if kept_shape(board)? != setup.shape {
        return Ok(Some(Code::OtherShape));
    }
    let Ok(mut audit) = Audit::new(alloc, &board.shape()) else {
        return Ok(Some(Code::NoMemory));
    };
    Ok(match audit.check(board)? {
        Verdict::Sound => None,
        Verdict::Unformatted => Some(Code::Unformatted),
        Verdict::Broken(rule) => Some(Code::Broken(rule)),
    })
}

/// A memory over a board that holds one in the setup's shape and its newest version, and is sound. It trusts nothing
/// that the board holds.
///
/// # Errors
///
/// The board comes back as it was, but that power may have failed. The code says what was found: `Off`,
/// `Unformatted`, `Older`, `OtherShape`, `Broken`, or `NoMemory`.
pub fn attach<B: Board>(alloc: Global, board: B, setup: Setup) -> Result<Memory<B>, (B, Code)>
    ensures { MatchResult result
        (λ memory. IsWhole (chart (B.state board)) setup × Attaches (chart (B.state board)) setup memory)
        (λ e. Declined e.1 (B.state board) setup (B.state e.0)) }
{
    match refusal(alloc, &board, &setup) {
        Ok(None) => {}
        Ok(Some(code)) => return Err((board, code)),
        Err(_) => return Err((board, Code::Off)),
    }
    match Memory::attach(alloc, board, setup) {
        Ok(memory) => Ok(memory),
        Err((board, fault)) => {
            let code = match fault {
                AttachFault::Off => Code::Off,
                AttachFault::Setup(rule) => Code::Setup(rule),
                AttachFault::NotFormatted => Code::Unformatted,
                AttachFault::OtherShape { kept: _ } => Code::OtherShape,
                AttachFault::Memory => Code::NoMemory,
            };
            Err((board, code))
        }
    }
}
