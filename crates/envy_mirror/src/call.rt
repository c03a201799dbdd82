ghost use Rattle.std.specs.Prelude.{◌≡◌};
ghost use Rattle.envy_array.specs.Step.{Command};
ghost use Rattle.envy_memory.specs.Picture.{Picture};
ghost use Rattle.envy_mirror.specs.Asking.{Asks, is_moving};
ghost use Rattle.envy_mirror.specs.Replies.{Reply, Off, kind_of, written_by};

use envy_base::Bench;
use envy_memory::Memory;

/// Of what kind an answer is.
#[derive(Clone, Copy, Debug, PartialEq, Eq)]
pub enum Kind {
    /// Power is off.
    Off,
    /// A flash operation failed.
    Bad,
    /// The array refuses the command.
    Refused,
    /// The command was done.
    Accepted,
}

/// A call of a memory that each Good side makes.
pub trait Call {
    type Told: Drop;

    /// The command of the plain array.
    ghost command: { Self → Command };

    /// What an answer means.
    ghost reply: { Self.Told → Reply };

    /// What else is said of a call, by what it told.
    ghost Does: { Self → Self.Told → Picture → Picture → Type 0 };

    /// Makes the call.
    fn make<B: Bench>(&self, memory: &mut Memory<B>) -> Self::Told
        ensures asks { Asks (command self.now) (reply result) memory.old memory.new }
        ensures does { Does self.now result memory.old memory.new };

    /// Whether a side lags behind that fails in it where the other doesn't.
    fn is_moving(&self) -> bool
        ensures { result ≡ is_moving (command self.now) };

    /// The page that it writes to.
    fn page(&self) -> Option<u32>
        ensures { result ≡ written_by (command self.now) };

    /// Of what kind an answer is.
    fn kind(told: &Self::Told) -> Kind
        ensures { result ≡ kind_of (reply told.now) };

    /// The answer where no side has power.
    fn off() -> Self::Told
        ensures { reply result ≡ Off };
}
