ghost use Rattle.std.specs.Prelude.{◌≡◌};
ghost use Rattle.envy_memory.specs.Faults.{store_fault, put_fault};
ghost use Rattle.envy_memory.specs.declared.faults.BeginFault.TheVariants.{Off as BeginOff};
ghost use Rattle.envy_memory.specs.declared.faults.EndFault.TheVariants.{Off as EndOff};
ghost use Rattle.envy_memory.specs.declared.faults.LoadFault.TheVariants.{Off as LoadOff};
ghost use Rattle.envy_memory.specs.declared.faults.PutFault.TheVariants.{Off as PutOff};
ghost use Rattle.envy_memory.specs.declared.faults.ReviveFault.TheVariants.{Off as ReviveOff};
ghost use Rattle.envy_memory.specs.declared.faults.StoreFault.TheVariants.{Off as StoreOff};

use envy_base::{Off, Shape, Trouble};
use envy_policy::SetupFault;

/// Why a board wasn't formatted.
#[derive(Clone, Copy, Debug, PartialEq, Eq)]
pub enum FormatFault {
    /// Power is off.
    Off,
    /// The setup breaks this rule.
    Setup(SetupFault),
    /// The board's shape isn't the setup's.
    OtherShape,
    /// Memory ran out. The board is untouched.
    Memory,
    /// More erases failed than there are positions in reserve. The board isn't formatted.
    Bad,
}

/// Why no memory was attached to a board.
#[derive(Clone, Copy, Debug, PartialEq, Eq)]
pub enum AttachFault {
    /// Power is off; where it failed in this call, a restart finds the same words as before.
    Off,
    /// The setup breaks this rule.
    Setup(SetupFault),
    /// The board holds no formatted map.
    NotFormatted,
    /// The shape that the map keeps isn't the setup's.
    OtherShape { kept: Shape },
    /// Memory ran out. The board is untouched.
    Memory,
}

/// Why a load or a look has no word.
#[derive(Clone, Copy, Debug, PartialEq, Eq)]
pub enum LoadFault {
    /// Power is off.
    Off,
    /// The address lies past the last page.
    Range,
}

/// Why a store wasn't done.
#[derive(Clone, Copy, Debug, PartialEq, Eq)]
pub enum StoreFault {
    /// Power is off; where it failed in this call, the word is stored or not.
    Off,
    /// The address lies past the last page.
    Range,
    /// The transaction of this slot owns the page.
    Held(u8),
    /// A flash operation failed. The array is as before.
    Bad,
}

/// Why no slot was opened.
#[derive(Clone, Copy, Debug, PartialEq, Eq)]
pub enum BeginFault {
    /// Power is off; where it failed in this call, a slot may be open, of which a restart knows nothing.
    Off,
    /// All 64 slots are open.
    Busy,
}

/// Why a word wasn't put.
#[derive(Clone, Copy, Debug, PartialEq, Eq)]
pub enum PutFault {
    /// Power is off. A restart takes the word back.
    Off,
    /// The address lies past the last page.
    Range,
    /// No such slot is open.
    Closed,
    /// The transaction of another slot owns the page.
    Held(u8),
    /// The page has no owner, and no more pages may be owned.
    Full,
    /// A flash operation failed. The array and the page's owner are as before.
    Bad,
}

/// Why a slot wasn't closed.
#[derive(Clone, Copy, Debug, PartialEq, Eq)]
pub enum EndFault {
    /// Power is off; where it failed in this call, the command was done or not.
    Off,
    /// No such slot is open.
    Closed,
}

/// Why a memory isn't back.
#[derive(Clone, Copy, Debug, PartialEq, Eq)]
pub enum ReviveFault {
    /// Power doesn't return: the board has no lives left.
    Dead,
    /// Power returned, and failed again.
    Off,
}

impl From<Off> for LoadFault {
    ghost from_gives = { λ _ e. e ≡ LoadOff };

    fn from(_: Off) -> Self {
        LoadFault::Off
    }
}

impl From<Off> for StoreFault {
    ghost from_gives = { λ _ e. e ≡ StoreOff };

    fn from(_: Off) -> Self {
        StoreFault::Off
    }
}

impl From<Trouble> for StoreFault {
    ghost from_gives = { λ t e. e ≡ store_fault t };

    fn from(trouble: Trouble) -> Self {
        match trouble {
            Trouble::Off => StoreFault::Off,
            Trouble::Bad => StoreFault::Bad,
        }
    }
}

impl From<Off> for BeginFault {
    ghost from_gives = { λ _ e. e ≡ BeginOff };

    fn from(_: Off) -> Self {
        BeginFault::Off
    }
}

impl From<Off> for PutFault {
    ghost from_gives = { λ _ e. e ≡ PutOff };

    fn from(_: Off) -> Self {
        PutFault::Off
    }
}

impl From<Trouble> for PutFault {
    ghost from_gives = { λ t e. e ≡ put_fault t };

    fn from(trouble: Trouble) -> Self {
        match trouble {
            Trouble::Off => PutFault::Off,
            Trouble::Bad => PutFault::Bad,
        }
    }
}

impl From<Off> for EndFault {
    ghost from_gives = { λ _ e. e ≡ EndOff };

    fn from(_: Off) -> Self {
        EndFault::Off
    }
}

impl From<Off> for ReviveFault {
    ghost from_gives = { λ _ e. e ≡ ReviveOff };

    fn from(_: Off) -> Self {
        ReviveFault::Off
    }
}
