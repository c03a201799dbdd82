ghost use Rattle.std.specs.Prelude.{◌≡◌, ℕ, List, ◌+◌, ◌*◌, ◌^◌, ◌<◌, ◌≤◌, length, slice_index, slice_set, true, OnOk, IsTrue};
ghost use Rattle.envy_array.specs.Words.{Spends, Works, Fails};
ghost use Rattle.envy_heap.specs.Pieces.{IsHeap, Freed, handed};
ghost use Rattle.envy_btree.specs.Pairs.{without};
ghost use Rattle.envy_btree.specs.Depths.{IsShallow};
ghost use Rattle.envy_btree.specs.Index.{IsPlanted};
ghost use Rattle.envy_btree.specs.Shrinking.{next_root};

use crate::node::{Node, write_node};
use crate::removal_path::remove_under;
use envy_array::Words;
use envy_base::Trouble;
use envy_heap::give;

// Gives back the piece of a root with no key. Its one child is the root then, or there is none.
fn uncrown<W: Words>(words: &mut W, piece: u32, node: &Node) -> Result<(), Trouble>
    requires begun { IsTrue (W.sheet words.old).started }
    requires room { length (W.sheet words.old).pages + 3 ≤ (W.sheet words.old).room }
    requires heap { (free : List ℕ) × IsHeap (W.sheet words.old).words free
        × (handed (W.sheet words.old).words free piece ≡ 1) }
    requires child { node.now.inner ≡ true → 1 ≤ length node.now.slots.items }
    requires fits { slice_index node.now.slots.items 0 < 2 ^ 32 }
    ensures works { Works 3 (W.sheet words.old) (W.sheet words.new) }
    ensures spends { Spends 3 (W.sheet words.old) (W.sheet words.new) }
    ensures fails { Fails (W.sheet words.old) result (W.sheet words.new) }
    ensures uncrowned { (free : List ℕ) → IsHeap (W.sheet words.old).words free
        → handed (W.sheet words.old).words free piece ≡ 1
        → OnOk result ((mid : List ℕ) × Freed piece (W.sheet words.old).words mid free
        × ((W.sheet words.new).words ≡ slice_set mid 0 (next_root node.now.inner node.now.slots.items))) }
{
    let root = root_after(node);
    give(words, piece)?;
    words.put(0, root)
}

// word 0 of the head once a root with no key is gone
fn root_after(node: &Node) -> u64
    requires child { node.now.inner ≡ true → 1 ≤ length node.now.slots.items }
    requires fits { slice_index node.now.slots.items 0 < 2 ^ 32 }
    ensures { result ≡ next_root node.now.inner node.now.slots.items }
{
    if node.inner { node.slot(0) + 1 } else { 0 }
}

/// Takes a key out of the tree of the whole, which may lose its root. It has at most so many levels of inner nodes.
pub(crate) fn remove_at_root<W: Words>(words: &mut W, level: u32, key: u64) -> Result<(), Trouble>
    requires begun { IsTrue (W.sheet words.old).started }
    requires room { length (W.sheet words.old).pages + (4 * level + 3) ≤ (W.sheet words.old).room }
    requires levels { IsShallow (W.sheet words.old).words level }
    requires map { (es : List (ℕ × ℕ)) × IsPlanted (W.sheet words.old).words es }
    ensures works { Works (4 * level + 3) (W.sheet words.old) (W.sheet words.new) }
    ensures spends { Spends (192 * level + 128) (W.sheet words.old) (W.sheet words.new) }
    ensures fails { Fails (W.sheet words.old) result (W.sheet words.new) }
    ensures planted { (es : List (ℕ × ℕ)) → IsPlanted (W.sheet words.old).words es
        → OnOk result (IsPlanted (W.sheet words.new).words (without key es)
        × (slice_index (W.sheet words.new).words 3 ≡ slice_index (W.sheet words.old).words 3)) }
{
    let root = words.load(0)?;
    if root == 0 {
        return Ok(());
    }
    let piece = (root - 1) as u32;
    let Some(node) = remove_under(words, piece, level, key)? else {
        return Ok(());
    };
    if node.keys.len() > 0 {
        return write_node(words, piece, node.inner, &node.keys, &node.slots);
    }
    uncrown(words, piece, &node)
}
