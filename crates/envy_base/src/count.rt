ghost use Rattle.std.specs.Prelude.{◌≡◌};
ghost use Rattle.envy_base.specs.Counting.{up};

/// A count after one more: it stops at `2^64 - 1`.
#[tactic(auto, unfolding(crate::specs::Counting::up))]
pub fn more(count: u64) -> u64
    ensures { result ≡ up count }
{
    count.saturating_add(1)
}
