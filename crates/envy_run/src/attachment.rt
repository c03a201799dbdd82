ghost use Rattle.std.specs.Prelude.{◌≡◌, MatchResult, Ok};
ghost use Rattle.envy_soundness.specs.Sound.{IsSound};
ghost use Rattle.envy_map.specs.Fields.{chart, IsFormatted};
ghost use Rattle.envy_policy.specs.Setup.{checked};
ghost use Rattle.envy_run.specs.Attached.{IsAttached, Unattaches};

use envy_base::Bench;
use envy_memory::{AttachFault, Memory};
use envy_policy::Setup;
use std::alloc::Global;

/// Why no memory is attached.
#[derive(Clone, Copy, Debug, PartialEq, Eq)]
pub enum Unattached {
    /// Memory ran out.
    Memory,
    /// Power failed in attaching and didn't return.
    Dead,
}

/// Attaches a memory to a sound board. Where power fails meanwhile it is asked for, and the memory is attached
/// again.
pub fn attach<B: Bench>(alloc: Global, board: B, setup: Setup) -> Result<Memory<B>, (B, Unattached)>
    requires formatted { IsFormatted (chart (B.state board)).fields }
    requires sound { IsSound (chart (B.state board)) }
    requires setup { checked setup ≡ Ok tt }
    requires shape { (B.state board).shape ≡ setup.shape }
    ensures { MatchResult result
        (λ memory. IsAttached (chart (B.state board)) setup memory)
        (λ e. Unattaches e.1 (chart (B.state board)) (chart (B.state e.0))) }
{
    let mut board = board;
    loop {
        match Memory::attach(alloc, board, setup) {
            Ok(memory) => return Ok(memory),
            Err((back, fault)) => match fault {
                AttachFault::Off => board = back,
                AttachFault::Memory => return Err((back, Unattached::Memory)),
                // the board is formatted in the shape of the setup, which checks
                _ => unreachable!(),
            },
        }
        if !board.power_on() {
            return Err((board, Unattached::Dead));
        }
    }
}
