// The numbers of the head, of pieces and of nodes.

/// The fewest words that may stand for a map.
pub(crate) const LEAST_WORDS: u32 = 640;

/// How many words the head has, and each piece after it.
pub(crate) const PIECE_WORDS: u32 = 64;

/// Where a node's keys begin among its words.
pub(crate) const KEYS: u32 = 1;

/// Where its values or children begin.
pub(crate) const SLOTS: u32 = 32;

/// A node's first word is below this.
pub(crate) const HEAD_LIMIT: u64 = 64;

/// The fewest keys of a node that is not the root.
pub(crate) const FEWEST_KEYS: u32 = 15;

/// The most levels of nodes in `2^29` words.
pub(crate) const LEVELS: u32 = 7;

/// The most pairs for each piece, and for how many pieces there are none.
pub(crate) const PIECE_PAIRS: u64 = 14;

pub(crate) const SPARE_PIECES: u64 = 8;
