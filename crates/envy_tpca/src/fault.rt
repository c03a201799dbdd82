ghost use Rattle.std.specs.Prelude.{◌≡◌};

use envy_memory::{BeginFault, EndFault, LoadFault, PutFault};

/// Why a load wasn't driven to its end.
#[derive(Clone, Copy, Debug, PartialEq, Eq)]
pub enum DriveFault {
    /// Power failed and doesn't return.
    Dead,
    /// A flash operation failed.
    Bad,
}

/// Why a transfer stops.
#[derive(Clone, Copy, Debug, PartialEq, Eq)]
pub enum Fault {
    /// Power is off.
    Off,
    /// A flash operation failed.
    Bad,
    /// The memory refuses a command. It never does.
    Refused,
}

impl From<LoadFault> for Fault {
    ghost use Rattle.envy_tpca.specs.Stops.{load_stop};

    ghost from_gives = { λ f e. e ≡ load_stop f };

    fn from(fault: LoadFault) -> Self {
        match fault {
            LoadFault::Off => Fault::Off,
            LoadFault::Range => Fault::Refused,
        }
    }
}

impl From<BeginFault> for Fault {
    ghost use Rattle.envy_tpca.specs.Stops.{begin_stop};

    ghost from_gives = { λ f e. e ≡ begin_stop f };

    fn from(fault: BeginFault) -> Self {
        match fault {
            BeginFault::Off => Fault::Off,
            BeginFault::Busy => Fault::Refused,
        }
    }
}

impl From<PutFault> for Fault {
    ghost use Rattle.envy_tpca.specs.Stops.{put_stop};

    ghost from_gives = { λ f e. e ≡ put_stop f };

    fn from(fault: PutFault) -> Self {
        match fault {
            PutFault::Off => Fault::Off,
            PutFault::Bad => Fault::Bad,
            PutFault::Range | PutFault::Closed | PutFault::Held(_) | PutFault::Full =>
                Fault::Refused,
        }
    }
}

impl From<EndFault> for Fault {
    ghost use Rattle.envy_tpca.specs.Stops.{end_stop};

    ghost from_gives = { λ f e. e ≡ end_stop f };

    fn from(fault: EndFault) -> Self {
        match fault {
            EndFault::Off => Fault::Off,
            EndFault::Closed => Fault::Refused,
        }
    }
}
