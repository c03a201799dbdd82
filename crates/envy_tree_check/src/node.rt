ghost use Rattle.std.specs.Prelude.{◌≡◌, ◌≢◌, ℕ, ◌+◌, ◌*◌, ◌/◌, ◌%◌, ◌<◌, ◌≤◌, List, length, slice_index, nat_lt, IfOk, IfErr, IsTrue};
ghost use Rattle.envy_heap.specs.Pieces.{at, head, one};
ghost use Rattle.envy_btree.specs.Looking.{Looks};
ghost use Rattle.envy_tree_check.specs.Faults.{Sickens, fewest_keys};
ghost use Rattle.envy_tree_check.specs.Grown.{AreMarked, Powers};

use crate::fault::MapFault;
use crate::sizes::{FEWEST_KEYS, HEAD_LIMIT, PIECE_WORDS};
use envy_array::Words;

/// A node that is to be checked: its piece, whether it is the root, how many levels are under it, and its keys are to
/// be from `low` to `top`.
#[derive(Clone, Copy)]
pub(crate) struct Spot {
    pub(crate) piece: u32,
    pub(crate) root: bool,
    pub(crate) levels: u32,
    pub(crate) low: u64,
    pub(crate) top: u64,
}

/// How many keys a node has, whose first word is as its place asks, and which isn't free.
pub(crate) fn count_of<W: Words>(words: &mut W, marks: &[u64], spot: Spot) -> Result<u32, MapFault>
    requires within { at spot.piece 63 < length (W.sheet words.old).words }
    requires long { length marks.now ≡ 64 }
    ensures looks { Looks (W.sheet words.old) (W.sheet words.new) }
    ensures power { Powers (W.sheet words.old).words result (W.sheet words.new) }
    ensures head { IfOk result (λ n. slice_index (W.sheet words.old).words (head spot.piece) ≡ 2 * n + one (nat_lt 0 spot.levels)) }
    ensures most { IfOk result (λ n. n ≤ 31) }
    ensures least { IfOk result (λ n. fewest_keys spot.root (one (nat_lt 0 spot.levels)) ≤ n) }
    ensures unmarked { IfOk result (λ n. slice_index marks.now (slice_index (W.sheet words.old).words (head spot.piece)) ≢ spot.piece + 1) }
    ensures sickens { (free : List ℕ) → AreMarked (W.sheet words.old).words free marks.now → IfErr result (λ e.
        Sickens (W.sheet words.old).words free spot.root spot.low (spot.top + 1) spot.levels spot.piece e) }
{
    let word = words.load(PIECE_WORDS + PIECE_WORDS * spot.piece)?;
    if word >= HEAD_LIMIT {
        return Err(MapFault::Head);
    }
    let kind = kind_of(spot.levels);
    if word % 2 != kind {
        return Err(MapFault::Level);
    }
    let count = (word / 2) as u32;
    let least = fewest_of(spot.root, spot.levels);
    if count < least {
        return Err(MapFault::Few);
    }
    let mark = u64::from(spot.piece) + 1;
    let found = marks[word as usize];
    if found == mark {
        return Err(MapFault::Freed);
    }
    Ok(count)
}

// 0 for a leaf, 1 for an inner node.
fn kind_of(levels: u32) -> u64
    ensures { result ≡ one (nat_lt 0 levels) }
{
    if levels > 0 { 1 } else { 0 }
}

// The fewest keys of a node.
fn fewest_of(root: bool, levels: u32) -> u32
    ensures { result ≡ fewest_keys root (one (nat_lt 0 levels)) }
{
    if !root {
        return FEWEST_KEYS;
    }
    if levels > 0 { 1 } else { 0 }
}
