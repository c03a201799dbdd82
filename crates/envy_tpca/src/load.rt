ghost use Rattle.std.specs.Prelude.{◌≡◌, ◌+◌, ◌*◌, ◌^◌, ◌<◌, ◌≤◌};
ghost use Rattle.envy_tpca.specs.Load.{seeded, next_transfer};

use crate::Transfer;
use crate::draw::drawn;
use envy_base::MOST_WORDS;
use rand_core::SeedableRng;
use rand_core::utils::NextWord;
use rand_pcg::Lcg128Xsl64;
use std::marker::Model;

/// Gives transfers, drawn from a number.
#[derive(Drop)]
pub struct Load {
    words: Lcg128Xsl64,
    branches: u32,
    accounts: u32,
}

impl Model for Load {
    ghost use Rattle.envy_tpca.specs.Load.{Draws, IsLoad};

    ghost Value = { Draws };

    ghost view = { λ a. record { branches = a.branches; accounts = a.accounts; words = a.words } };

    ghost invariant = { λ a. IsLoad a.branches a.accounts };
}

impl Load {
    /// A load between so many branches, with so many accounts each, whose draws begin with the number `start`.
    #[tactic(auto, unfolding(crate::specs::Load::seeded))]
    pub fn new(start: u64, branches: u32, accounts: u32) -> Load
        requires branches { 1 ≤ branches }
        requires accounts { 1 ≤ accounts }
        requires few { branches * (accounts + 11) < MOST_WORDS }
        ensures { result ≡ record { branches = branches; accounts = accounts; words = seeded start } }
    {
        Load {
            words: Lcg128Xsl64::seed_from_u64(start),
            branches,
            accounts,
        }
    }

    /// Draws the next transfer.
    #[tactic(auto, unfolding(crate::specs::Load::next_transfer))]
    pub fn next(&mut self) -> Transfer
        ensures { (result, self.new) ≡ next_transfer self.old }
    {
        let x = self.words.next_word();
        let y = self.words.next_word();
        let z = self.words.next_word();
        drawn(self.branches, self.accounts, x, y, z)
    }
}
