ghost use Rattle.std.specs.Prelude.{◌≡◌, ℕ, List, ◌+◌, ◌-◌, ◌*◌, ◌<◌, ◌≤◌, ◌++◌, length, slice_index, IfOk, IfSome, OnOk, None, IsTrue, true, false};
ghost use Rattle.envy_array.specs.Words.{Spends, Works, Fails};
ghost use Rattle.envy_heap.specs.Pieces.{IsHeap, head, at, one};
ghost use Rattle.envy_btree.specs.Nodes.{Ranks};
ghost use Rattle.envy_btree.specs.Changes.{Rests, Beside, HasPair, IsShort, joined_keys};
ghost use Rattle.envy_btree.specs.Shrinking.{Back, LosesPair, MendedBack, Shrinks};
ghost use Rattle.envy_btree.specs.Spots.{keys_at};

use crate::gap::narrow;
use crate::node::{Node, drop_pair, read_node, write_node};
use crate::rebalance::{mend_with_front, mend_with_rear};
use crate::spot::{ends_at, seek};
use envy_array::Words;
use envy_base::Trouble;

// Writes a node back, or leaves it in hand where it is short.
fn put_back<W: Words>(words: &mut W, piece: u32, node: Node) -> Result<Option<Node>, Trouble>
    requires begun { IsTrue (W.sheet words.old).started }
    requires within { at piece 63 < length (W.sheet words.old).words }
    requires room { length (W.sheet words.old).pages + 2 ≤ (W.sheet words.old).room }
    requires few { length node.keys.items ≤ 31 }
    requires slots { length node.slots.items ≤ 32 }
    ensures works { Works 2 (W.sheet words.old) (W.sheet words.new) }
    ensures spends { Spends 64 (W.sheet words.old) (W.sheet words.new) }
    ensures fails { Fails (W.sheet words.old) result (W.sheet words.new) }
    ensures hand { IfOk result (λ r. IfSome r (λ _. Works 0 (W.sheet words.old) (W.sheet words.new))) }
    ensures back { IfOk result (λ r.
        Back (W.sheet words.old).words (W.sheet words.new).words piece node.inner node.keys.items node.slots.items r) }
{
    if node.keys.len() < 15 {
        return Ok(Some(node));
    }
    write_node(words, piece, node.inner, &node.keys, &node.slots)?;
    Ok(None)
}

// Takes a key out of a leaf that isn't short then.
fn thin_leaf<W: Words>(
    words: &mut W,
    piece: u32,
    keys: u32,
    place: u32,
    key: u64,
) -> Result<(), Trouble>
    requires begun { IsTrue (W.sheet words.old).started }
    requires within { at piece 63 < length (W.sheet words.old).words }
    requires room { length (W.sheet words.old).pages + 2 ≤ (W.sheet words.old).room }
    requires leaf { slice_index (W.sheet words.old).words (head piece) ≡ 2 * keys }
    requires many { 16 ≤ keys }
    requires few { keys ≤ 31 }
    requires place { Ranks key (keys_at (W.sheet words.old).words piece) place }
    ensures works { Works 2 (W.sheet words.old) (W.sheet words.new) }
    ensures spends { Spends 64 (W.sheet words.old) (W.sheet words.new) }
    ensures fails { Fails (W.sheet words.old) result (W.sheet words.new) }
    ensures back { LosesPair (W.sheet words.old).words piece key
        (λ keys slots. OnOk result (Back (W.sheet words.old).words (W.sheet words.new).words piece false keys slots None)) }
{
    if !ends_at(words, piece, place, key)? {
        return Ok(());
    }
    narrow(words, piece, false, keys, place - 1, place - 1)
}

// Takes a key out of a leaf of so many keys.
fn shrink_leaf<W: Words>(
    words: &mut W,
    piece: u32,
    keys: u32,
    place: u32,
    key: u64,
) -> Result<Option<Node>, Trouble>
    requires begun { IsTrue (W.sheet words.old).started }
    requires within { at piece 63 < length (W.sheet words.old).words }
    requires room { length (W.sheet words.old).pages + 2 ≤ (W.sheet words.old).room }
    requires leaf { slice_index (W.sheet words.old).words (head piece) ≡ 2 * keys }
    requires few { keys ≤ 31 }
    requires place { Ranks key (keys_at (W.sheet words.old).words piece) place }
    ensures works { Works 2 (W.sheet words.old) (W.sheet words.new) }
    ensures spends { Spends 64 (W.sheet words.old) (W.sheet words.new) }
    ensures fails { Fails (W.sheet words.old) result (W.sheet words.new) }
    ensures hand { IfOk result (λ r. IfSome r (λ _. Works 0 (W.sheet words.old) (W.sheet words.new))) }
    ensures back { LosesPair (W.sheet words.old).words piece key
        (λ keys slots. IfOk result (λ r.
        Back (W.sheet words.old).words (W.sheet words.new).words piece false keys slots r)) }
{
    if keys > 15 {
        thin_leaf(words, piece, keys, place, key)?;
        return Ok(None);
    }
    let mut node = read_node(words, piece)?;
    drop_pair(&mut node, place as usize, key);
    put_back(words, piece, node)
}

// Settles child `j + 1` of an inner node, which is in hand and short, with the child before it.
fn shrink_with_front<W: Words>(
    words: &mut W,
    piece: u32,
    mut node: Node,
    j: usize,
    child: Node,
) -> Result<Option<Node>, Trouble>
    requires begun { IsTrue (W.sheet words.old).started }
    requires within { at piece 63 < length (W.sheet words.old).words }
    requires room { length (W.sheet words.old).pages + 6 ≤ (W.sheet words.old).room }
    requires inner { node.inner ≡ true }
    requires children { HasPair (W.sheet words.old).words j node.keys.items node.slots.items }
    requires short { IsShort (W.sheet words.old).words (slice_index node.slots.items j) child.inner
        child.keys.items child.slots.items }

    ensures works { Works 6 (W.sheet words.old) (W.sheet words.new) }
    ensures spends { Spends 192 (W.sheet words.old) (W.sheet words.new) }
    ensures fails { Fails (W.sheet words.old) result (W.sheet words.new) }
    ensures hand { IfOk result (λ r. IfSome r (λ _. Works 4 (W.sheet words.old) (W.sheet words.new))) }
    ensures mended { (free : List ℕ) → IsHeap (W.sheet words.old).words free
        → (b : Beside (W.sheet words.old).words (slice_index node.slots.items j) child.inner)
        → IfOk result (λ r.
        MendedBack (W.sheet words.old).words (W.sheet words.new).words free piece j node.keys.items node.slots.items
        child.inner (joined_keys child.inner b.keys (slice_index node.keys.items j) child.keys.items)
        (b.slots ++ child.slots.items) r) }
{
    mend_with_front(words, &mut node, j, &child)?;
    put_back(words, piece, node)
}

// Settles child `j` of an inner node, which is in hand and short, with the child after it.
fn shrink_with_rear<W: Words>(
    words: &mut W,
    piece: u32,
    mut node: Node,
    j: usize,
    mut child: Node,
) -> Result<Option<Node>, Trouble>
    requires begun { IsTrue (W.sheet words.old).started }
    requires within { at piece 63 < length (W.sheet words.old).words }
    requires room { length (W.sheet words.old).pages + 6 ≤ (W.sheet words.old).room }
    requires inner { node.inner ≡ true }
    requires children { HasPair (W.sheet words.old).words j node.keys.items node.slots.items }
    requires short { IsShort (W.sheet words.old).words (slice_index node.slots.items (j + 1)) child.inner
        child.keys.items child.slots.items }

    ensures works { Works 6 (W.sheet words.old) (W.sheet words.new) }
    ensures spends { Spends 192 (W.sheet words.old) (W.sheet words.new) }
    ensures fails { Fails (W.sheet words.old) result (W.sheet words.new) }
    ensures hand { IfOk result (λ r. IfSome r (λ _. Works 4 (W.sheet words.old) (W.sheet words.new))) }
    ensures mended { (free : List ℕ) → IsHeap (W.sheet words.old).words free
        → (b : Beside (W.sheet words.old).words (slice_index node.slots.items (j + 1)) child.inner)
        → IfOk result (λ r.
        MendedBack (W.sheet words.old).words (W.sheet words.new).words free piece j node.keys.items node.slots.items
        child.inner (joined_keys child.inner child.keys.items (slice_index node.keys.items j) b.keys)
        (child.slots.items ++ b.slots) r) }
{
    mend_with_rear(words, &mut node, j, &mut child)?;
    put_back(words, piece, node)
}

/// Takes a key out of the tree under this piece. Where its root is short then, it isn't written: the
/// answer is that node, for the caller to settle.
pub(crate) fn remove_under<W: Words>(
    words: &mut W,
    piece: u32,
    level: u32,
    key: u64,
) -> Result<Option<Node>, Trouble>
    requires begun { IsTrue (W.sheet words.old).started }
    requires room { length (W.sheet words.old).pages + (4 * level + 2) ≤ (W.sheet words.old).room }
    requires rests { Rests (W.sheet words.old).words piece level }
    ensures works { Works (4 * level + 2) (W.sheet words.old) (W.sheet words.new) }
    ensures spends { Spends (192 * level + 64) (W.sheet words.old) (W.sheet words.new) }
    ensures fails { Fails (W.sheet words.old) result (W.sheet words.new) }
    ensures hand { IfOk result (λ r. IfSome r (λ _. Works (4 * level) (W.sheet words.old) (W.sheet words.new))) }
    ensures shrinks { (t : Rests (W.sheet words.old).words piece level)
        → IfOk result (λ r. Shrinks (W.sheet words.old).words (W.sheet words.new).words piece level key t r) }
{
    let spot = seek(words, piece, key)?;
    if !spot.inner {
        return shrink_leaf(words, piece, spot.keys, spot.place, key);
    }
    let child = words.load(64 + 64 * piece + 32 + spot.place)? as u32;
    let Some(short) = remove_under(words, child, level - 1, key)? else {
        return Ok(None);
    };
    let node = read_node(words, piece)?;
    if spot.place > 0 {
        return shrink_with_front(words, piece, node, spot.place as usize - 1, short);
    }
    shrink_with_rear(words, piece, node, 0, short)
}
