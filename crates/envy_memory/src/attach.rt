ghost use Rattle.std.specs.Prelude.{◌≡◌, false, IsTrue, IsNone, OnOk, OnErr, MatchOption, MatchResult};
ghost use Rattle.envy_base.specs.Shape.{version_of};
ghost use Rattle.envy_map.specs.Fields.{chart, IsFormatted};
ghost use Rattle.envy_soundness.specs.Same.{Kept};
ghost use Rattle.envy_soundness.specs.Sound.{IsSound};
ghost use Rattle.envy_soundness.specs.Words.{live, durable};
ghost use Rattle.envy_policy.specs.Setup.{IsSetup};
ghost use Rattle.envy_engine.specs.Agreement.{Fits, Ready};
ghost use Rattle.envy_engine.specs.Restarts.{IsSettled};
ghost use Rattle.envy_memory.specs.Attaching.{IsAttachable, MayAttach, Raises, IsTakenUp, Attaches, Declines};
ghost use Rattle.envy_memory.specs.Making.{StartsAnew};

use crate::faults::AttachFault;
use crate::memory::{Memory, SLOTS};
use crate::new_parts::make_parts;
use envy_base::{Board, Off};
use envy_engine::{Parts, restart};
use envy_map::{is_formatted, kept_shape, version};
use envy_policy::Setup;
use envy_soundness::upgrade;
use std::alloc::Global;

/// The first reason not to attach a memory to a board, but for want of memory.
fn refusal<B: Board>(board: &B, setup: &Setup) -> Option<AttachFault>
    ensures reason { MatchOption result (MayAttach (chart (B.state board.now)) setup.now) (λ fault.
        Declines (B.state board.now) setup.now fault (B.state board.now)) }
    ensures sizes { IsNone result → IsSetup setup.now }
{
    if !board.powered() {
        return Some(AttachFault::Off);
    }
    if let Err(fault) = setup.check() {
        return Some(AttachFault::Setup(fault));
    }
    let Ok(formatted) = is_formatted(board) else {
        return Some(AttachFault::Off);
    };
    if !formatted {
        return Some(AttachFault::NotFormatted);
    }
    let Ok(kept) = kept_shape(board) else {
        return Some(AttachFault::Off);
    };
    if kept != setup.shape {
        return Some(AttachFault::OtherShape { kept });
    }
    None
}

/// Makes the map of a formatted board one of its shape's version.
fn raise_version<B: Board>(board: &mut B) -> Result<(), Off>
    requires sound { IsSound (chart (B.state board.old)) }
    requires formatted { IsFormatted (chart (B.state board.old)).fields }
    ensures kept { Kept (chart (B.state board.old)) (chart (B.state board.new)) }
    ensures version { OnOk result ((chart (B.state board.new)).fields.version
        ≡ version_of (B.state board.new).shape) }
    ensures raises { OnOk result (Raises (chart (B.state board.old)) (chart (B.state board.new))) }
    ensures on { OnOk result (IsTrue (B.state board.new).on) }
    ensures off { OnErr result ((B.state board.new).on ≡ false) }
{
    if version(board)? != 1 {
        return Ok(());
    }
    upgrade(board)
}

/// Takes a formatted board up after power came: one of version 1 gets version 2, what transactions and a job left open
/// is settled, and the parts are read.
fn take_up<B: Board>(board: &mut B, parts: &mut Parts) -> Result<(), Off>
    requires sound { IsSound (chart (B.state board.old)) }
    requires formatted { IsFormatted (chart (B.state board.old)).fields }
    requires fits { Fits (B.state board.old).shape parts.old }
    ensures kept { Kept (chart (B.state board.old)) (chart (B.state board.new)) }
    ensures live { OnOk result (live (chart (B.state board.new)) ≡ durable (chart (B.state board.old))) }
    ensures version { OnOk result ((chart (B.state board.new)).fields.version
        ≡ version_of (B.state board.new).shape) }
    ensures settled { OnOk result (IsSettled (chart (B.state board.new))) }
    ensures taken { OnOk result (IsTakenUp (chart (B.state board.old)) (chart (B.state board.new))) }
    ensures ready { OnOk result (Ready (chart (B.state board.new)) parts.new) }
    ensures starts { OnOk result (StartsAnew parts.old (chart (B.state board.new)) parts.new) }
    ensures off { OnErr result ((B.state board.new).on ≡ false) }
{
    raise_version(board)?;
    restart(board, parts)
}

impl<B: Board> Memory<B> {
    /// A memory over a board that was formatted before, in any version. Transactions that were open are put
    /// back.
    ///
    /// # Errors
    ///
    /// The board comes back with the first reason that holds, in the order of `AttachFault`. A restart of it finds
    /// the same words as before.
    pub fn attach(alloc: Global, mut board: B, setup: Setup) -> Result<Memory<B>, (B, AttachFault)>
        requires { IsAttachable (chart (B.state board)) }
        ensures { MatchResult result (λ memory. Attaches (chart (B.state board)) setup memory) (λ e.
            Declines (B.state board) setup e.1 (B.state e.0)) }
    {
        if let Some(fault) = refusal(&board, &setup) {
            return Err((board, fault));
        }
        let Ok((mut parts, owned)) = make_parts(alloc, &setup) else {
            return Err((board, AttachFault::Memory));
        };
        match take_up(&mut board, &mut parts) {
            Ok(()) => Ok(Memory {
                board,
                parts,
                owned,
                limit: setup.limit,
                mark: setup.mark,
                quiet: 0,
                shut_from: SLOTS,
            }),
            Err(_) => Err((board, AttachFault::Off)),
        }
    }
}
