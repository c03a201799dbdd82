ghost use Rattle.std.specs.Prelude.{◌≤◌};
ghost use Rattle.envy_btree.specs.Nodes.{Ranks};

/// How many of the keys are at most this one. They rise.
pub(crate) fn rank(keys: &[u64], key: u64) -> usize
    ensures { Ranks key keys.now result }
{
    for (i, k) in keys.iter().enumerate() {
        if key < *k {
            return i;
        }
    }
    keys.len()
}
