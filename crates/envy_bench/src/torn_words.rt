ghost use Rattle.std.specs.Prelude.{◌≡◌};
ghost use Rattle.rand_core.specs.Stream.{next_u64};
ghost use Rattle.envy_bench.specs.Draws.{seeded, next_word, answers};

use rand_core::{SeedableRng, utils};
use rand_pcg::Lcg64Xsh32;
use std::marker::Model;

/// The words that a cut or bad flash operation leaves: those of PCG32 (XSH RR 64/32; O'Neill, "PCG: a family of
/// simple fast space-efficient statistically good algorithms for random number generation", 2014) from a number.
#[derive(Drop)]
pub struct Torn {
    generator: Lcg64Xsh32,
}

impl Model for Torn {
    ghost use Rattle.rand_pcg.specs.Lcg.{Lcg};

    ghost Value = { Lcg };

    ghost view = { λ t. t.generator };
}

impl Torn {
    /// The words of the number `g`.
    #[tactic(auto, unfolding(crate::specs::Draws::seeded))]
    pub fn new(g: u64) -> Torn
        ensures { result ≡ seeded g }
    {
        Torn {
            generator: Lcg64Xsh32::seed_from_u64(g),
        }
    }

    /// The next word.
    #[tactic(auto, unfolding(crate::specs::Draws::next_word))]
    pub fn next(&mut self) -> u64
        ensures word { (result, self.new) ≡ next_word self.old }
        // It is what the generator answers to `next_u64`.
        ensures answer { (result, answers self.new) ≡ next_u64 (answers self.old) }
    {
        utils::next_u64_via_u32(&mut self.generator)
    }
}
