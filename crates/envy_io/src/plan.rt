ghost use Rattle.std.specs.Prelude.{◌≡◌, MatchResult};
ghost use Rattle.envy_io.specs.Streams.{up};
ghost use Rattle.envy_io.specs.InMemory.{IsToFail};

use crate::Failed;

/// Which calls fail, and how many came and failed so far.
#[derive(Drop)]
pub struct Plan {
    /// The numbers of the calls that fail, where the first call is number 1.
    pub fails: Vec<u64>,
    pub calls: u64,
    pub faults: u64,
}

impl Plan {
    pub fn new(fails: Vec<u64>) -> Plan
        ensures { result ≡ record { fails = fails; calls = 0; faults = 0 } }
    {
        Plan {
            fails,
            calls: 0,
            faults: 0,
        }
    }

    /// Counts a call, which fails where it is planned.
    #[tactic(auto, unfolding(crate::specs::Streams::up))]
    pub fn call(&mut self) -> Result<(), Failed>
        ensures { MatchResult result
            (λ _. ¬ IsToFail self.old.fails.items self.old.calls
            × (self.new ≡ record self.old { calls = up self.old.calls }))
            (λ _. IsToFail self.old.fails.items self.old.calls
            × (self.new ≡ record self.old { calls = up self.old.calls; faults = up self.old.faults })) }
    {
        self.calls = self.calls.saturating_add(1);
        if self.fails.contains(&self.calls) {
            return Err(self.fault());
        }
        Ok(())
    }

    /// Counts the failure of a call that was counted.
    #[tactic(auto, unfolding(crate::specs::Streams::up))]
    pub fn fault(&mut self) -> Failed
        ensures { self.new ≡ record self.old { faults = up self.old.faults } }
    {
        self.faults = self.faults.saturating_add(1);
        Failed
    }
}
