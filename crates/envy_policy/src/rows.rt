ghost use Rattle.std.specs.Prelude.{◌≡◌, ℕ, ◌<◌, ◌≤◌, length, slice_index, MatchOption};
ghost use Rattle.envy_policy.specs.Choice.{IsMost};

/// The lowest position from `first` to below `end` whose number isn't 0.
pub fn first_with(rows: &[u32], first: u32, end: u32) -> Option<u32>
    requires { end ≤ length rows.now }
    ensures { MatchOption result
        ((k : ℕ) → first ≤ k → k < end → slice_index rows.now k ≡ 0)
        (λ p. (first ≤ p) × (p < end) × (0 < slice_index rows.now p)
        × ((k : ℕ) → first ≤ k → k < p → slice_index rows.now k ≡ 0)) }
{
    for i in first..end {
        if rows[i as usize] != 0 {
            return Some(i);
        }
    }
    None
}

/// The position from `first` to below `end` whose number is the greatest, the lowest of several.
pub fn most(rows: &[u32], first: u32, end: u32) -> u32
    requires some { first < end }
    requires within { end ≤ length rows.now }
    ensures { IsMost (λ k. (first ≤ k) × (k < end)) (slice_index rows.now) result }
{
    let mut best = first;
    for i in first + 1..end {
        if rows[i as usize] > rows[best as usize] {
            best = i;
        }
    }
    best
}
