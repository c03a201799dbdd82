ghost use Rattle.std.specs.Prelude.{◌≡◌, ◌≢◌, ℕ, List, Bool, ◌+◌, ◌*◌, ◌<◌, ◌≤◌, ◌++◌, length, slice_index, OnOk, IsTrue, true, false};
ghost use Rattle.envy_array.specs.Words.{Spends, Works, Fails};
ghost use Rattle.envy_heap.specs.Pieces.{IsHeap, handed, at, one};
ghost use Rattle.envy_btree.specs.Tree.{Shows};
ghost use Rattle.envy_btree.specs.Changes.{joined_keys, Beside, HasPair, IsShort, Mended};

use crate::halves::write_halves;
use crate::node::{Node, read_node, write_node};
use envy_array::Words;
use envy_base::Trouble;
use envy_heap::give;

// Appends a node to one before it. An inner node has the key between them too.
fn join(front: &mut Node, middle: u64, rear: &Node)
    requires kind { front.old.inner ≡ rear.now.inner }
    requires keys { length front.old.keys.items + length rear.now.keys.items ≤ 45 }
    requires front_slots { length front.old.slots.items ≡ length front.old.keys.items + one front.old.inner }
    requires rear_slots { length rear.now.slots.items ≡ length rear.now.keys.items + one rear.now.inner }
    ensures kind { front.new.inner ≡ front.old.inner }
    ensures few { length front.new.keys.items ≤ length front.old.keys.items + length rear.now.keys.items + 1 }
    ensures long { length front.new.slots.items ≡ length front.new.keys.items + one front.new.inner }
    ensures keys { front.new.keys.items ≡ joined_keys front.old.inner front.old.keys.items middle rear.now.keys.items }
    ensures slots { front.new.slots.items ≡ front.old.slots.items ++ rear.now.slots.items }
{
    if front.inner {
        front.keys.push(middle);
    }
    front.keys.try_extend_from_slice(&rear.keys).unwrap();
    front.slots.try_extend_from_slice(&rear.slots).unwrap();
}

// Writes children `j` and `j + 1` of an inner node, which are in hand as one: as one, and the piece of
// the second is given back, or as two where they have too many keys for one.
fn write_pair<W: Words>(
    words: &mut W,
    node: &mut Node,
    j: usize,
    joined: &Node,
) -> Result<(), Trouble>
    requires begun { IsTrue (W.sheet words.old).started }
    requires room { length (W.sheet words.old).pages + 4 ≤ (W.sheet words.old).room }
    requires children { HasPair (W.sheet words.old).words j node.old.keys.items node.old.slots.items }
    requires keys { length joined.now.keys.items ≤ 46 }
    requires slots { length joined.now.slots.items ≡ length joined.now.keys.items + one joined.now.inner }

    ensures works { Works 4 (W.sheet words.old) (W.sheet words.new) }
    ensures spends { Spends 128 (W.sheet words.old) (W.sheet words.new) }
    ensures fails { Fails (W.sheet words.old) result (W.sheet words.new) }
    ensures kind { node.new.inner ≡ node.old.inner }
    ensures few { length node.new.keys.items ≤ length node.old.keys.items }
    ensures long { length node.new.slots.items ≡ length node.new.keys.items + 1 }
    ensures mended { (free : List ℕ) → IsHeap (W.sheet words.old).words free
        → OnOk result
        (Mended (W.sheet words.old).words (W.sheet words.new).words free j node.old.keys.items node.old.slots.items
        joined.now.inner joined.now.keys.items joined.now.slots.items node.new.keys.items node.new.slots.items) }
{
    let first = node.slot(j) as u32;
    let second = node.slot(j + 1) as u32;
    if joined.keys.len() > 31 {
        let middle = write_halves(words, first, second, joined)?;
        node.set_key(j, middle);
        return Ok(());
    }
    write_node(words, first, joined.inner, &joined.keys, &joined.slots)?;
    give(words, second)?;
    node.keys.remove(j);
    node.slots.remove(j + 1);
    Ok(())
}

/// Settles child `j + 1` of an inner node, which is in hand and short, with the child before it.
pub(crate) fn mend_with_front<W: Words>(
    words: &mut W,
    node: &mut Node,
    j: usize,
    child: &Node,
) -> Result<(), Trouble>
    requires begun { IsTrue (W.sheet words.old).started }
    requires room { length (W.sheet words.old).pages + 4 ≤ (W.sheet words.old).room }
    requires children { HasPair (W.sheet words.old).words j node.old.keys.items node.old.slots.items }
    requires short { IsShort (W.sheet words.old).words (slice_index node.old.slots.items j) child.now.inner
        child.now.keys.items child.now.slots.items }

    ensures works { Works 4 (W.sheet words.old) (W.sheet words.new) }
    ensures spends { Spends 128 (W.sheet words.old) (W.sheet words.new) }
    ensures fails { Fails (W.sheet words.old) result (W.sheet words.new) }
    ensures kind { node.new.inner ≡ node.old.inner }
    ensures few { length node.new.keys.items ≤ length node.old.keys.items }
    ensures long { length node.new.slots.items ≡ length node.new.keys.items + 1 }
    ensures mended { (free : List ℕ) → IsHeap (W.sheet words.old).words free
        → (b : Beside (W.sheet words.old).words (slice_index node.old.slots.items j) child.now.inner)
        → OnOk result
        (Mended (W.sheet words.old).words (W.sheet words.new).words free j node.old.keys.items node.old.slots.items
        child.now.inner (joined_keys child.now.inner b.keys (slice_index node.old.keys.items j) child.now.keys.items)
        (b.slots ++ child.now.slots.items) node.new.keys.items node.new.slots.items) }
{
    let mut front = read_node(words, node.slot(j) as u32)?;
    join(&mut front, node.key(j), child);
    write_pair(words, node, j, &front)
}

/// Settles child `j` of an inner node, which is in hand and short, with the child after it.
pub(crate) fn mend_with_rear<W: Words>(
    words: &mut W,
    node: &mut Node,
    j: usize,
    child: &mut Node,
) -> Result<(), Trouble>
    requires begun { IsTrue (W.sheet words.old).started }
    requires room { length (W.sheet words.old).pages + 4 ≤ (W.sheet words.old).room }
    requires children { HasPair (W.sheet words.old).words j node.old.keys.items node.old.slots.items }
    requires short { IsShort (W.sheet words.old).words (slice_index node.old.slots.items (j + 1)) child.old.inner
        child.old.keys.items child.old.slots.items }

    ensures works { Works 4 (W.sheet words.old) (W.sheet words.new) }
    ensures spends { Spends 128 (W.sheet words.old) (W.sheet words.new) }
    ensures fails { Fails (W.sheet words.old) result (W.sheet words.new) }
    ensures kind { node.new.inner ≡ node.old.inner }
    ensures few { length node.new.keys.items ≤ length node.old.keys.items }
    ensures long { length node.new.slots.items ≡ length node.new.keys.items + 1 }
    ensures mended { (free : List ℕ) → IsHeap (W.sheet words.old).words free
        → (b : Beside (W.sheet words.old).words (slice_index node.old.slots.items (j + 1)) child.old.inner)
        → OnOk result
        (Mended (W.sheet words.old).words (W.sheet words.new).words free j node.old.keys.items node.old.slots.items
        child.old.inner (joined_keys child.old.inner child.old.keys.items (slice_index node.old.keys.items j) b.keys)
        (child.old.slots.items ++ b.slots) node.new.keys.items node.new.slots.items) }
{
    let rear = read_node(words, node.slot(j + 1) as u32)?;
    join(child, node.key(j), &rear);
    write_pair(words, node, j, child)
}
