ghost use Rattle.std.specs.Prelude.{◌≡◌, ◌<◌, IfSome};
ghost use Rattle.std.specs.Option.{option_copied};
ghost use Rattle.envy_policy.specs.Deciding.{Nearer};
ghost use Rattle.envy_policy.specs.History.{IsHistory};

use crate::{Chooser, Lifetime, Policy};

impl Chooser {
    /// How a position is chosen.
    pub fn policy(&self) -> Policy
        ensures { result ≡ self.now.policy }
    {
        self.policy
    }

    /// What is noted of the lives of the pages' copies, under `Lifetime` alone.
    pub fn lives(&self) -> Option<&Lifetime>
        ensures lives { option_copied result ≡ self.now.lives }
        ensures whole { IsHistory self.now }
    {
        self.lives.as_ref()
    }
}

/// Of a partition below this one and one above it the nearer, and the one below where both are as near.
pub fn nearer(own: u32, below: Option<u32>, above: Option<u32>) -> Option<u32>
    requires below { IfSome below (λ g. g < own) }
    requires above { IfSome above (λ g. own < g) }
    ensures { Nearer own below above result }
{
    match (below, above) {
        (Some(lower), Some(higher)) if higher - own < own - lower => Some(higher),
        (Some(lower), _) => Some(lower),
        (None, higher) => higher,
    }
}
