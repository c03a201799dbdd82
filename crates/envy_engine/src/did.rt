ghost use Rattle.envy_engine.specs.Steps.{did_of};
ghost use Rattle.std.specs.Prelude.{◌≡◌};

use envy_reloc::Phase;

/// What a tick did.
#[derive(Clone, Copy, Debug, PartialEq, Eq)]
pub enum Did {
    /// Nothing was to be done.
    Idle,
    /// The oldest held page was programmed into flash.
    Flushed,
    /// A relocation was begun.
    Began,
    /// A kept row went to the neighbour partition.
    Moved,
    /// A kept row was copied to the spare.
    Copied,
    /// References were switched to the copies.
    Switched,
    /// The spare took its position.
    Placed,
    /// The spare was erased.
    Erased,
}

/// What a tick did that made this step.
pub fn named(phase: Phase) -> Did
    ensures { result ≡ did_of phase }
{
    match phase {
        Phase::Moved => Did::Moved,
        Phase::Copied => Did::Copied,
        Phase::Switched => Did::Switched,
        Phase::Placed => Did::Placed,
        Phase::Erased => Did::Erased,
    }
}
