ghost use Rattle.std.specs.Prelude.{◌≡◌, ◌≤◌, ◌<◌, ◌+◌, ◌^◌, ℕ, List, false, length, IsTrue, MatchResult, IfOk};
ghost use Rattle.envy_array.specs.Words.{Spends, Works};
ghost use Rattle.envy_heap.specs.Pieces.{at};
ghost use Rattle.envy_btree.specs.Answers.{Gets};
ghost use Rattle.envy_btree.specs.Index.{IsIndex};
ghost use Rattle.envy_btree.specs.Looking.{IsLeaf, Looks, Powers, Sees};
ghost use Rattle.envy_btree.specs.Pairs.{assoc};

use crate::fault::LookFault;
use crate::leaf::{Leaf, leaf_for};
use crate::place::place_of;
use crate::sizes::{KEYS, PIECE_WORDS, SLOTS};
use envy_array::Words;
use envy_base::Off;

/// The value of a key in the map, as the words stand: if a transaction is open, with what it put. On each level the
/// keys of one node are halved. `Broken` comes only if the words stand for no map.
pub fn get<W: Words>(words: &mut W, key: u64) -> Result<Option<u64>, LookFault>
    requires size { length (W.sheet words.old).words ≤ 2 ^ 29 }
    ensures works { Works 0 (W.sheet words.old) (W.sheet words.new) }
    ensures spends { Spends 0 (W.sheet words.old) (W.sheet words.new) }
    ensures same { IsTrue (W.sheet words.new).on → (W.sheet words.new).words ≡ (W.sheet words.old).words }
    ensures shut { (W.sheet words.old).started ≡ false → (W.sheet words.new).started ≡ false }
    ensures power { Powers result (W.sheet words.new) }
    ensures gets { (es : List (ℕ × ℕ)) → IsIndex (W.sheet words.old).words es
        → Gets key es (W.sheet words.old) result (W.sheet words.new) }
{
    let Some(leaf) = leaf_for(words, key)? else {
        return Ok(None);
    };
    let value = value_in(words, leaf, key)?;
    Ok(value)
}

// The value of a key in the leaf to which it belongs.
fn value_in<W: Words>(words: &mut W, leaf: Leaf, key: u64) -> Result<Option<u64>, Off>
    requires on { IsTrue (W.sheet words.old).on }
    requires within { at leaf.spot.piece 63 < length (W.sheet words.old).words }
    requires few { leaf.count ≤ 31 }
    requires above { leaf.spot.low ≤ key }
    requires below { key ≤ leaf.spot.top }
    ensures looks { Looks (W.sheet words.old) (W.sheet words.new) }
    ensures power { MatchResult result (λ _. IsTrue (W.sheet words.new).on) (λ _. (W.sheet words.new).on ≡ false) }
    ensures gets { (es : List (ℕ × ℕ))
        → IsLeaf (W.sheet words.old).words es leaf.spot.piece leaf.count leaf.spot.low leaf.spot.top
        → IfOk result (λ value. value ≡ assoc key es) }
{
    let node = PIECE_WORDS + PIECE_WORDS * leaf.spot.piece;
    let place = place_of(
        words,
        node + KEYS,
        leaf.count,
        key,
        leaf.spot.low,
        leaf.spot.top,
    )?;
    if place.index == 0 || place.low != key {
        return Ok(None);
    }
    let value = words.load(node + SLOTS + (place.index - 1))?;
    Ok(Some(value))
}
