ghost use Rattle.std.specs.Prelude.{◌≡◌};
ghost use Rattle.envy_btree.specs.Depths.{most_levels};

// The numbers of the head, of pieces and of nodes.

/// The fewest words that may stand for a map.
pub(crate) const LEAST_WORDS: u32 = 640;

/// How many words the head has, and each piece after it.
pub(crate) const PIECE_WORDS: u32 = 64;

/// Where a node's keys begin among its words.
pub(crate) const KEYS: u32 = 1;

/// Where its values or children begin.
pub(crate) const SLOTS: u32 = 32;

/// A node's first word, `2 * n` or `2 * n + 1` of at most 31 keys, is below this.
pub(crate) const HEAD_LIMIT: u64 = 64;

/// The most keys of a node.
pub const MOST_KEYS: usize = 31;

/// The fewest keys of a node that isn't the root.
pub const LEAST_KEYS: usize = 15;

/// The most levels of nodes in `2^29` words.
pub(crate) const LEVELS: u32 = 7;

// So many words hold no tree with six levels of inner nodes.
const FIVE_LEVELS: u32 = 1 << 25;

/// The most levels of inner nodes in so many words, of at most `2^29`.
pub(crate) fn most_levels(words: u32) -> u32
    ensures { result ≡ most_levels words }
{
    if words > FIVE_LEVELS { 6 } else { 5 }
}
