ghost use Rattle.std.specs.Prelude.{◌≡◌, ◌≢◌, ℕ, List, ◌+◌, ◌-◌, ◌<◌, ◌≤◌, length, IsTrue, IfOk};
ghost use Rattle.envy_array.specs.Words.{Spends, Works, Fails, has};
ghost use Rattle.envy_heap.specs.Pieces.{IsHeap, handed, spare, at, one};
ghost use Rattle.envy_btree.specs.Nodes.{Halves};
ghost use Rattle.envy_btree.specs.Changes.{Saved};

use crate::node::{Node, kind_of, write_node};
use envy_array::Words;
use envy_base::Trouble;
use envy_heap::take;

/// Writes a node back. One with too many keys becomes two, and the answer is the key between them and
/// the piece of the second.
pub(crate) fn save<W: Words>(
    words: &mut W,
    piece: u32,
    node: &Node,
) -> Result<Option<(u64, u32)>, Trouble>
    requires begun { IsTrue (W.sheet words.old).started }
    requires within { at piece 63 < length (W.sheet words.old).words }
    requires head { IsTrue (has (W.sheet words.old).pages 0) }
    requires room { length (W.sheet words.old).pages + 4 ≤ (W.sheet words.old).room }
    requires heap { (free : List ℕ) × IsHeap (W.sheet words.old).words free
        × (handed (W.sheet words.old).words free piece ≡ 1) × (1 ≤ spare (W.sheet words.old).words free) }
    requires keys { length node.now.keys.items ≤ 46 }
    requires slots { length node.now.slots.items ≡ length node.now.keys.items + one node.now.inner }
    ensures works { Works 4 (W.sheet words.old) (W.sheet words.new) }
    ensures spends { Spends 129 (W.sheet words.old) (W.sheet words.new) }
    ensures fails { Fails (W.sheet words.old) result (W.sheet words.new) }
    ensures saved { (free : List ℕ) → IsHeap (W.sheet words.old).words free
        → handed (W.sheet words.old).words free piece ≡ 1
        → Saved (W.sheet words.old).words free piece node.now.inner node.now.keys.items node.now.slots.items result
        (W.sheet words.new).words }
{
    if node.keys.len() <= 31 {
        write_node(words, piece, node.inner, &node.keys, &node.slots)?;
        return Ok(None);
    }
    let Some(second) = take(words)? else {
        unreachable!();
    };
    let middle = write_halves(words, piece, second, node)?;
    Ok(Some((middle, second)))
}

/// Writes a node as two, and answers the key between them.
pub(crate) fn write_halves<W: Words>(
    words: &mut W,
    first: u32,
    second: u32,
    node: &Node,
) -> Result<u64, Trouble>
    requires begun { IsTrue (W.sheet words.old).started }
    requires first_within { at first 63 < length (W.sheet words.old).words }
    requires second_within { at second 63 < length (W.sheet words.old).words }
    requires room { length (W.sheet words.old).pages + 4 ≤ (W.sheet words.old).room }
    requires many { 32 ≤ length node.now.keys.items }
    requires few { length node.now.keys.items ≤ 46 }
    requires slots { length node.now.slots.items ≡ length node.now.keys.items + one node.now.inner }
    ensures works { Works 4 (W.sheet words.old) (W.sheet words.new) }
    ensures spends { Spends 128 (W.sheet words.old) (W.sheet words.new) }
    ensures fails { Fails (W.sheet words.old) result (W.sheet words.new) }
    ensures halves { IfOk result (λ key.
        Halves (W.sheet words.old).words (W.sheet words.new).words first second
        (one node.now.inner) key node.now.keys.items node.now.slots.items) }
{
    let keys = node.keys.as_slice();
    let half = node.slots.len() / 2;
    let middle = half - kind_of(node.inner) as usize;
    let (front_slots, rear_slots) = node.slots.as_slice().split_at(half);
    let (_, rear_keys) = keys.split_at(half);
    write_node(words, second, node.inner, rear_keys, rear_slots)?;
    let (front_keys, _) = keys.split_at(middle);
    write_node(words, first, node.inner, front_keys, front_slots)?;
    Ok(keys[middle])
}
