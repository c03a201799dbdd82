ghost use Rattle.std.specs.Prelude.{◌≡◌, ◌+◌, ◌*◌, ◌<◌, ◌≤◌, length, slice_index, IfOk, IsTrue};
ghost use Rattle.envy_array.specs.Words.{Spends, Works, Fails, has};
ghost use Rattle.envy_heap.specs.Pieces.{head, at};
ghost use Rattle.envy_btree.specs.Nodes.{Ranks};
ghost use Rattle.envy_btree.specs.Changes.{Ready, Way, Grows, SetsPair, GetsChild};
ghost use Rattle.envy_btree.specs.Spots.{keys_at};

use crate::gap::widen;
use crate::halves::save;
use crate::node::{read_node, set_pair};
use crate::spot::{ends_at, seek};
use envy_array::Words;
use envy_base::Trouble;

// Sets the value of a key in a full leaf, which may part in two.
fn grow_full_leaf<W: Words>(
    words: &mut W,
    piece: u32,
    place: u32,
    key: u64,
    value: u64,
) -> Result<Option<(u64, u32)>, Trouble>
    requires begun { IsTrue (W.sheet words.old).started }
    requires within { at piece 63 < length (W.sheet words.old).words }
    requires head { IsTrue (has (W.sheet words.old).pages 0) }
    requires room { length (W.sheet words.old).pages + 4 ≤ (W.sheet words.old).room }
    requires heap { Ready (W.sheet words.old).words piece }
    requires full { slice_index (W.sheet words.old).words (head piece) ≡ 62 }
    requires place { Ranks key (keys_at (W.sheet words.old).words piece) place }
    ensures works { Works 4 (W.sheet words.old) (W.sheet words.new) }
    ensures spends { Spends 129 (W.sheet words.old) (W.sheet words.new) }
    ensures fails { Fails (W.sheet words.old) result (W.sheet words.new) }
    ensures saved { SetsPair (W.sheet words.old).words piece key value result (W.sheet words.new).words }
{
    let mut node = read_node(words, piece)?;
    set_pair(&mut node, place as usize, key, value);
    save(words, piece, &node)
}

// Sets the value of a key at its place in a leaf of so many keys.
fn grow_leaf<W: Words>(
    words: &mut W,
    piece: u32,
    keys: u32,
    place: u32,
    key: u64,
    value: u64,
) -> Result<Option<(u64, u32)>, Trouble>
    requires begun { IsTrue (W.sheet words.old).started }
    requires within { at piece 63 < length (W.sheet words.old).words }
    requires head { IsTrue (has (W.sheet words.old).pages 0) }
    requires room { length (W.sheet words.old).pages + 4 ≤ (W.sheet words.old).room }
    requires heap { Ready (W.sheet words.old).words piece }
    requires leaf { slice_index (W.sheet words.old).words (head piece) ≡ 2 * keys }
    requires few { keys ≤ 31 }
    requires place { Ranks key (keys_at (W.sheet words.old).words piece) place }
    ensures works { Works 4 (W.sheet words.old) (W.sheet words.new) }
    ensures spends { Spends 129 (W.sheet words.old) (W.sheet words.new) }
    ensures fails { Fails (W.sheet words.old) result (W.sheet words.new) }
    ensures saved { SetsPair (W.sheet words.old).words piece key value result (W.sheet words.new).words }
{
    if ends_at(words, piece, place, key)? {
        words.put(64 + 64 * piece + 31 + place, value)?;
        return Ok(None);
    }
    if keys == 31 {
        return grow_full_leaf(words, piece, place, key, value);
    }
    widen(words, piece, false, keys, place, key, place, value)?;
    Ok(None)
}

// Gives a full inner node a child more, so that it parts in two.
fn grow_full_node<W: Words>(
    words: &mut W,
    piece: u32,
    place: u32,
    middle: u64,
    second: u32,
) -> Result<Option<(u64, u32)>, Trouble>
    requires begun { IsTrue (W.sheet words.old).started }
    requires within { at piece 63 < length (W.sheet words.old).words }
    requires head { IsTrue (has (W.sheet words.old).pages 0) }
    requires room { length (W.sheet words.old).pages + 4 ≤ (W.sheet words.old).room }
    requires heap { Ready (W.sheet words.old).words piece }
    requires full { slice_index (W.sheet words.old).words (head piece) ≡ 63 }
    requires place { place ≤ 31 }
    ensures works { Works 4 (W.sheet words.old) (W.sheet words.new) }
    ensures spends { Spends 129 (W.sheet words.old) (W.sheet words.new) }
    ensures fails { Fails (W.sheet words.old) result (W.sheet words.new) }
    ensures saved { GetsChild (W.sheet words.old).words piece place middle second result (W.sheet words.new).words }
{
    let mut node = read_node(words, piece)?;
    node.keys.insert(place as usize, middle);
    node.slots.insert(place as usize + 1, second as u64);
    save(words, piece, &node)
}

/// Gives an inner node of so many keys a child more, after the one at this place.
pub(crate) fn grow_node<W: Words>(
    words: &mut W,
    piece: u32,
    keys: u32,
    place: u32,
    middle: u64,
    second: u32,
) -> Result<Option<(u64, u32)>, Trouble>
    requires begun { IsTrue (W.sheet words.old).started }
    requires within { at piece 63 < length (W.sheet words.old).words }
    requires head { IsTrue (has (W.sheet words.old).pages 0) }
    requires room { length (W.sheet words.old).pages + 4 ≤ (W.sheet words.old).room }
    requires heap { Ready (W.sheet words.old).words piece }
    requires inner { slice_index (W.sheet words.old).words (head piece) ≡ 2 * keys + 1 }
    requires few { keys ≤ 31 }
    requires place { place ≤ keys }
    ensures works { Works 4 (W.sheet words.old) (W.sheet words.new) }
    ensures spends { Spends 129 (W.sheet words.old) (W.sheet words.new) }
    ensures fails { Fails (W.sheet words.old) result (W.sheet words.new) }
    ensures saved { GetsChild (W.sheet words.old).words piece place middle second result (W.sheet words.new).words }
{
    if keys == 31 {
        return grow_full_node(words, piece, place, middle, second);
    }
    widen(
        words,
        piece,
        true,
        keys,
        place,
        middle,
        place + 1,
        u64::from(second),
    )?;
    Ok(None)
}

/// Sets the value of a key in the tree under this piece. Where it parts in two, the answer is the key
/// between them and the piece of the second.
pub(crate) fn insert_under<W: Words>(
    words: &mut W,
    piece: u32,
    level: u32,
    key: u64,
    value: u64,
) -> Result<Option<(u64, u32)>, Trouble>
    requires begun { IsTrue (W.sheet words.old).started }
    requires head { IsTrue (has (W.sheet words.old).pages 0) }
    requires room { length (W.sheet words.old).pages + (4 * level + 4) ≤ (W.sheet words.old).room }
    requires way { Way (W.sheet words.old).words piece level key }
    ensures works { Works (4 * level + 4) (W.sheet words.old) (W.sheet words.new) }
    ensures spends { Spends (129 * level + 129) (W.sheet words.old) (W.sheet words.new) }
    ensures fails { Fails (W.sheet words.old) result (W.sheet words.new) }
    ensures grows { (way : Way (W.sheet words.old).words piece level key)
        → IfOk result (λ r.
        Grows (W.sheet words.old).words (W.sheet words.new).words piece level key value way.rests r) }
{
    let spot = seek(words, piece, key)?;
    if !spot.inner {
        return grow_leaf(words, piece, spot.keys, spot.place, key, value);
    }
    let child = words.load(64 + 64 * piece + 32 + spot.place)? as u32;
    let Some((middle, second)) = insert_under(words, child, level - 1, key, value)? else {
        return Ok(None);
    };
    grow_node(words, piece, spot.keys, spot.place, middle, second)
}
