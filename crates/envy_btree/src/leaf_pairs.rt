ghost use Rattle.std.specs.Prelude.{◌≡◌, ℕ, List, ◌+◌, ◌-◌, ◌<◌, ◌≤◌, length, IfOk, IsTrue, false};
ghost use Rattle.envy_array.specs.Words.{Spends, Works, Fails, has};
ghost use Rattle.envy_heap.specs.Pieces.{IsHeap, spare};
ghost use Rattle.envy_btree.specs.Bulk.{Leafed};
ghost use Rattle.envy_btree.specs.Tree.{keys_of, values_of};

use crate::node::{Node, write_node};
use crate::sizes::{LEAST_KEYS, MOST_KEYS};
use arrayvec::ArrayVec;
use envy_array::Words;
use envy_base::Trouble;
use envy_heap::take;

/// How many of the pairs that are left a load puts into its next leaf: as many as it may, or else so many that the leaf
/// after it has enough.
pub fn leaf_size(left: usize) -> usize
    requires { 1 ≤ left }
    ensures some { 1 ≤ result }
    ensures few { result ≤ 31 }
    ensures within { result ≤ left }
    ensures enough { result < left → 15 ≤ result }
    ensures rest { result < left → 15 ≤ left - result }
{
    if left <= MOST_KEYS {
        left
    } else if left < MOST_KEYS + LEAST_KEYS {
        left / 2
    } else {
        MOST_KEYS
    }
}

/// A leaf of these pairs.
pub(crate) fn leaf_of(pairs: &[(u64, u64)]) -> Node
    requires { length pairs.now ≤ 31 }
    ensures kind { result.inner ≡ false }
    ensures keys { result.keys.items ≡ keys_of pairs.now }
    ensures values { result.slots.items ≡ values_of pairs.now }
{
    let mut keys = ArrayVec::new();
    let mut slots = ArrayVec::new();
    for i in 0..pairs.len() {
        let (key, value) = pairs[i];
        keys.push(key);
        slots.push(value);
    }
    Node {
        inner: false,
        keys,
        slots,
    }
}

/// Writes a leaf of these pairs into a piece that it takes, and answers the piece.
pub(crate) fn add_leaf<W: Words>(words: &mut W, pairs: &[(u64, u64)]) -> Result<u32, Trouble>
    requires begun { IsTrue (W.sheet words.old).started }
    requires head { IsTrue (has (W.sheet words.old).pages 0) }
    requires room { length (W.sheet words.old).pages + 2 ≤ (W.sheet words.old).room }
    requires heap { (free : List ℕ) × IsHeap (W.sheet words.old).words free
        × (1 ≤ spare (W.sheet words.old).words free) }
    requires few { length pairs.now ≤ 31 }
    ensures works { Works 2 (W.sheet words.old) (W.sheet words.new) }
    ensures spends { Spends 65 (W.sheet words.old) (W.sheet words.new) }
    ensures fails { Fails (W.sheet words.old) result (W.sheet words.new) }
    ensures leafed { (free : List ℕ) → IsHeap (W.sheet words.old).words free
        → IfOk result (λ piece. Leafed (W.sheet words.old).words (W.sheet words.new).words free piece pairs.now) }
{
    let Some(piece) = take(words)? else {
        unreachable!();
    };
    let leaf = leaf_of(pairs);
    write_node(words, piece, false, &leaf.keys, &leaf.slots)?;
    Ok(piece)
}
