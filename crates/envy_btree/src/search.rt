ghost use Rattle.std.specs.Prelude.{◌≡◌, ◌+◌, ◌<◌, ◌≤◌, ◌^◌, ℕ, List, length, slice_index, IfOk, OnOk, MatchResult, IsTrue, false};
ghost use Rattle.envy_array.specs.Words.{Spends, Works};
ghost use Rattle.envy_heap.specs.Pieces.{head, at};
ghost use Rattle.envy_btree.specs.Pairs.{assoc};
ghost use Rattle.envy_btree.specs.Tree.{pairs_of};
ghost use Rattle.envy_btree.specs.Index.{IsIndex};
ghost use Rattle.envy_btree.specs.Changes.{Rests};
ghost use Rattle.envy_btree.specs.Depths.{IsDeep, most_levels};
ghost use Rattle.envy_btree.specs.Spots.{ValueAt, keys_at, slots_at};

use crate::spot::{ends_at, seek};
use envy_array::Words;
use envy_base::Off;

/// What a change knows before it puts a word: the value of its key, and how many levels of inner nodes there are.
#[derive(Clone, Copy)]
pub(crate) struct Found {
    pub(crate) value: Option<u64>,
    pub(crate) depth: u32,
}

/// The value of a key in a leaf, at its place.
fn value_at<W: Words>(words: &mut W, piece: u32, place: u32, key: u64) -> Result<Option<u64>, Off>
    requires within { at piece 63 < length (W.sheet words.old).words }
    requires few { slice_index (W.sheet words.old).words (head piece) < 64 }
    requires place { place ≤ length (keys_at (W.sheet words.old).words piece) }
    ensures works { Works 0 (W.sheet words.old) (W.sheet words.new) }
    ensures spends { Spends 0 (W.sheet words.old) (W.sheet words.new) }
    ensures value { IfOk result (λ v. ValueAt (keys_at (W.sheet words.old).words piece)
        (slots_at (W.sheet words.old).words piece) place key v) }
    ensures same { OnOk result ((W.sheet words.new).words ≡ (W.sheet words.old).words) }
    ensures power { MatchResult result (λ _. IsTrue (W.sheet words.old).on → IsTrue (W.sheet words.new).on)
        (λ _. (W.sheet words.new).on ≡ false) }
{
    if !ends_at(words, piece, place, key)? {
        return Ok(None);
    }
    let value = words.load(64 + 64 * piece + 31 + place)?;
    Ok(Some(value))
}

/// The value of a key in the tree whose root is this piece, and how many levels of inner nodes it has.
fn locate<W: Words>(words: &mut W, piece: u32, level: u32, key: u64) -> Result<Found, Off>
    requires rests { Rests (W.sheet words.old).words piece level }
    ensures works { Works 0 (W.sheet words.old) (W.sheet words.new) }
    ensures spends { Spends 0 (W.sheet words.old) (W.sheet words.new) }
    ensures value { (t : Rests (W.sheet words.old).words piece level)
        → IfOk result (λ x. x.value ≡ assoc key (pairs_of t.depth t.tree)) }
    ensures depth { (t : Rests (W.sheet words.old).words piece level) → IfOk result (λ x. x.depth ≡ t.depth) }
    ensures same { OnOk result ((W.sheet words.new).words ≡ (W.sheet words.old).words) }
    ensures power { MatchResult result (λ _. IsTrue (W.sheet words.new).on) (λ _. (W.sheet words.new).on ≡ false) }
{
    let spot = seek(words, piece, key)?;
    if !spot.inner {
        let value = value_at(words, piece, spot.place, key)?;
        return Ok(Found { value, depth: 0 });
    }
    let child = words.load(64 + 64 * piece + 32 + spot.place)? as u32;
    let found = locate(words, child, level - 1, key)?;
    Ok(Found {
        value: found.value,
        depth: found.depth + 1,
    })
}

/// The value of a key in the map, and how many levels of inner nodes its tree has. On each level the keys of one node
/// are halved.
pub(crate) fn look_up<W: Words>(words: &mut W, key: u64) -> Result<Found, Off>
    requires size { length (W.sheet words.old).words ≤ 2 ^ 29 }
    requires map { (es : List (ℕ × ℕ)) × IsIndex (W.sheet words.old).words es }
    ensures works { Works 0 (W.sheet words.old) (W.sheet words.new) }
    ensures spends { Spends 0 (W.sheet words.old) (W.sheet words.new) }
    ensures value { (es : List (ℕ × ℕ)) → IsIndex (W.sheet words.old).words es
        → IfOk result (λ x. x.value ≡ assoc key es) }
    ensures depth { IfOk result (λ x. IsDeep (W.sheet words.old).words x.depth) }
    ensures few { IfOk result (λ x. x.depth ≤ most_levels (length (W.sheet words.old).words)) }
    ensures same { OnOk result ((W.sheet words.new).words ≡ (W.sheet words.old).words) }
    ensures power { MatchResult result (λ _. IsTrue (W.sheet words.new).on) (λ _. (W.sheet words.new).on ≡ false) }
{
    let root = words.load(0)?;
    if root == 0 {
        return Ok(Found {
            value: None,
            depth: 0,
        });
    }
    let piece = (root - 1) as u32;
    locate(words, piece, 6, key)
}
