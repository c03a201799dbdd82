ghost use Rattle.std.specs.Prelude.{◌≡◌, ℕ, ◌<◌, ◌≤◌, length, slice_index, MatchOption};
ghost use Rattle.envy_policy.specs.Lifetime.{RowCounts, IsLowest};

use crate::rows::first_with;

/// The numbers of free, of dead and of kept rows at each position, asked one by one. Positions are
/// numbered from 0.
pub trait Rows {
    ghost counts: { Self → RowCounts };

    /// How many rows of a position are free.
    fn free(&self, position: u32) -> u32
        requires { position < length (counts self.now).free }
        ensures { result ≡ slice_index (counts self.now).free position };

    /// How many rows of a position are dead.
    fn dead(&self, position: u32) -> u32
        requires { position < length (counts self.now).dead }
        ensures { result ≡ slice_index (counts self.now).dead position };

    /// How many rows of a position are kept.
    fn kept(&self, position: u32) -> u32
        requires { position < length (counts self.now).kept }
        ensures { result ≡ slice_index (counts self.now).kept position };

    /// The lowest position from `start` on that has a free row.
    fn first_free(&self, start: u32) -> Option<u32>
        ensures { MatchOption result
            ((k : ℕ) → start ≤ k → slice_index (counts self.now).free k ≡ 0)
            (IsLowest (λ k. (start ≤ k) × (0 < slice_index (counts self.now).free k))) };
}

/// Rows by lists of their numbers at each position.
#[derive(Clone, Copy)]
pub(crate) struct Listed<'a> {
    pub(crate) free: &'a [u32],
    pub(crate) dead: &'a [u32],
    pub(crate) kept: &'a [u32],
    ghost few: { length free.now ≤ 4095 },
}

impl<'a> Rows for Listed<'a> {
    ghost counts = { λ a. record { free = a.free.now; dead = a.dead.now; kept = a.kept.now } };

    fn free(&self, position: u32) -> u32 {
        self.free[position as usize]
    }

    fn dead(&self, position: u32) -> u32 {
        self.dead[position as usize]
    }

    fn kept(&self, position: u32) -> u32 {
        self.kept[position as usize]
    }

    fn first_free(&self, start: u32) -> Option<u32> {
        let end = self.free.len() as u32;
        first_with(self.free, start, end)
    }
}
