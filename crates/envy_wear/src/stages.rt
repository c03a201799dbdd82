ghost use Rattle.std.specs.Prelude.{◌≡◌, ◌↔◌, ◌<◌, ℕ, [], IsTrue, IsNone, IfSome, All, length, drop, slice_get};
ghost use Rattle.envy_wear.specs.Swaps.{stages_of};

use crate::swap::Swap;
use std::marker::Model;

/// The stages of a swap that are left: the positions to be relocated, in turn. A swap is three relocations
/// through the spare, of the worn position, of the young one, and of the worn one again.
#[derive(Drop)]
pub struct Stages {
    swap: Swap,
    left: u8,
}

impl Model for Stages {
    ghost use Rattle.std.specs.Prelude.{List, ℕ, ◌≤◌};
    ghost use Rattle.envy_wear.specs.Swaps.{last_stages};

    ghost Value = { List ℕ };

    ghost view = { λ a. last_stages a.swap a.left };

    ghost invariant = { λ a. a.left ≤ 3 };
}

impl Stages {
    /// No stage is left.
    pub fn new() -> Stages
        ensures { result ≡ [] }
    {
        Stages {
            swap: Swap { worn: 0, young: 0 },
            left: 0,
        }
    }

    /// All stages of a swap are left. They are positions where those of the swap are.
    pub fn start(&mut self, swap: Swap)
        ensures stages { self.new ≡ stages_of swap }
        ensures below { (n : ℕ) → swap.worn < n → swap.young < n → All (λ k. k < n) self.new }
    {
        self.swap = swap;
        self.left = 3;
    }

    /// The next stage, which is no longer left, or `None` where none was.
    pub fn next(&mut self) -> Option<u32>
        ensures first { result ≡ slice_get self.old 0 }
        ensures rest { self.new ≡ drop 1 self.old }
        ensures none { IsNone result ↔ (self.old ≡ []) }
        ensures below { (n : ℕ) → All (λ k. k < n) self.old → IfSome result (λ k. k < n) × All (λ k. k < n) self.new }
    {
        if self.left == 0 {
            return None;
        }
        self.left -= 1;
        if self.left == 1 {
            return Some(self.swap.young);
        }
        Some(self.swap.worn)
    }

    /// The stages that are left are dropped.
    pub fn clear(&mut self)
        ensures { self.new ≡ [] }
    {
        self.left = 0;
    }

    /// Whether a stage is left.
    pub fn pending(&self) -> bool
        ensures { IsTrue result ↔ (0 < length self.now) }
    {
        self.left > 0
    }
}
