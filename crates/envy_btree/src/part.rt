ghost use Rattle.std.specs.Prelude.{◌≡◌, ◌≤◌, ◌<◌, ◌+◌, ◌-◌, ◌++◌, ℕ, List, false, length, drop, take, IsTrue, MatchResult, IfOk};
ghost use Rattle.envy_heap.specs.Pieces.{at};
ghost use Rattle.envy_btree.specs.declared.way.Way.TheVariants.{Up, Down};
ghost use Rattle.envy_btree.specs.Looking.{
  IsLeaf,
  Looks,
  first_of,
  left_after,
  left_by,
  pair_at,
  pairs_after,
  pairs_by,
  place_by,
};
ghost use Rattle.envy_btree.specs.Pairs.{Below};
ghost use Rattle.envy_btree.specs.Nearest.{From};
ghost use Rattle.envy_btree.specs.Tree.{Rising, window, keys_of};

use crate::leaf::Leaf;
use crate::place::place_of;
use crate::sizes::{KEYS, PIECE_WORDS};
use crate::way::Way;
use envy_array::Words;
use envy_base::Off;

/// The pairs of a leaf that lie on a way from a key on: `count` from `place` on, or before it, and the key at which
/// the way goes on in another leaf, if it does.
#[derive(Clone, Copy)]
pub(crate) struct Part {
    pub(crate) place: u32,
    pub(crate) count: u32,
    pub(crate) next: Option<u64>,
}

/// The part of the leaf to which a key belongs.
pub(crate) fn part_of<W: Words>(words: &mut W, leaf: Leaf, way: Way, key: u64) -> Result<Part, Off>
    requires on { IsTrue (W.sheet words.old).on }
    requires within { at leaf.spot.piece 63 < length (W.sheet words.old).words }
    requires few { leaf.count ≤ 31 }
    requires above { leaf.spot.low ≤ key }
    requires below { key ≤ leaf.spot.top }
    ensures looks { Looks (W.sheet words.old) (W.sheet words.new) }
    ensures power { MatchResult result (λ _. IsTrue (W.sheet words.new).on) (λ _. (W.sheet words.new).on ≡ false) }
    ensures places { IfOk result (λ x. (x.place ≤ 31) × (x.count ≤ 31) × ((j : ℕ) → j < x.count → place_by way x.place j < 31)) }
    ensures goes { IfOk result (λ x. left_after way x.next < left_by way key) }
    ensures pairs { (es : List (ℕ × ℕ))
        → IsLeaf (W.sheet words.old).words es leaf.spot.piece leaf.count leaf.spot.low leaf.spot.top
        → IfOk result (λ x. pairs_by way key es ≡ first_of (λ j.
        pair_at (W.sheet words.old).words leaf.spot.piece (place_by way x.place j)) x.count
        ++ pairs_after way x.next es) }
{
    match way {
        Way::Up => part_up(words, leaf, key),
        Way::Down => part_down(words, leaf, key),
    }
}

// The pairs from a key on.
fn part_up<W: Words>(words: &mut W, leaf: Leaf, key: u64) -> Result<Part, Off>
    requires on { IsTrue (W.sheet words.old).on }
    requires within { at leaf.spot.piece 63 < length (W.sheet words.old).words }
    requires few { leaf.count ≤ 31 }
    requires above { leaf.spot.low ≤ key }
    requires below { key ≤ leaf.spot.top }
    ensures looks { Looks (W.sheet words.old) (W.sheet words.new) }
    ensures power { MatchResult result (λ _. IsTrue (W.sheet words.new).on) (λ _. (W.sheet words.new).on ≡ false) }
    ensures places { IfOk result (λ x. (x.place ≤ 31) × (x.count ≤ 31) × ((j : ℕ) → j < x.count → x.place + j < 31)) }
    ensures goes { IfOk result (λ x. left_after Up x.next < left_by Up key) }
    ensures pairs { (es : List (ℕ × ℕ))
        → IsLeaf (W.sheet words.old).words es leaf.spot.piece leaf.count leaf.spot.low leaf.spot.top
        → IfOk result (λ x. pairs_by Up key es ≡ first_of (λ j.
        pair_at (W.sheet words.old).words leaf.spot.piece (x.place + j)) x.count ++ pairs_after Up x.next es) }
{
    let place = place_from(words, leaf, key)?;
    Ok(Part {
        place,
        count: leaf.count - place,
        next: leaf.spot.top.checked_add(1),
    })
}

// How many keys of the leaf are below a key. That of another leaf on the way is at most the first, which is asked
// first.
fn place_from<W: Words>(words: &mut W, leaf: Leaf, key: u64) -> Result<u32, Off>
    requires on { IsTrue (W.sheet words.old).on }
    requires within { at leaf.spot.piece 63 < length (W.sheet words.old).words }
    requires few { leaf.count ≤ 31 }
    requires above { leaf.spot.low ≤ key }
    requires below { key ≤ leaf.spot.top }
    ensures looks { Looks (W.sheet words.old) (W.sheet words.new) }
    ensures power { MatchResult result (λ _. IsTrue (W.sheet words.new).on) (λ _. (W.sheet words.new).on ≡ false) }
    ensures within { IfOk result (λ i. i ≤ leaf.count) }
    ensures pairs { (low high : ℕ) (es : List (ℕ × ℕ)) → Rising low high es
        → keys_of es ≡ window (W.sheet words.old).words (at leaf.spot.piece 1) leaf.count
        → IfOk result (λ i. Below key (take i es) × From key (drop i es)) }
{
    if leaf.count == 0 {
        return Ok(0);
    }
    let first = words.load(PIECE_WORDS + PIECE_WORDS * leaf.spot.piece + KEYS)?;
    if first >= key {
        return Ok(0);
    }
    place_below(words, leaf, key)
}

// The same by halving.
fn place_below<W: Words>(words: &mut W, leaf: Leaf, key: u64) -> Result<u32, Off>
    requires on { IsTrue (W.sheet words.old).on }
    requires within { at leaf.spot.piece 63 < length (W.sheet words.old).words }
    requires few { leaf.count ≤ 31 }
    requires above { leaf.spot.low ≤ key }
    requires below { key ≤ leaf.spot.top }
    ensures looks { Looks (W.sheet words.old) (W.sheet words.new) }
    ensures power { MatchResult result (λ _. IsTrue (W.sheet words.new).on) (λ _. (W.sheet words.new).on ≡ false) }
    ensures within { IfOk result (λ i. i ≤ leaf.count) }
    ensures pairs { (low high : ℕ) (es : List (ℕ × ℕ)) → Rising low high es
        → keys_of es ≡ window (W.sheet words.old).words (at leaf.spot.piece 1) leaf.count
        → IfOk result (λ i. Below key (take i es) × From key (drop i es)) }
{
    let keys = PIECE_WORDS + PIECE_WORDS * leaf.spot.piece + KEYS;
    let place = place_of(words, keys, leaf.count, key, leaf.spot.low, leaf.spot.top)?;
    if place.index > 0 && place.low == key {
        return Ok(place.index - 1);
    }
    Ok(place.index)
}

// The pairs up to a key, the last first.
fn part_down<W: Words>(words: &mut W, leaf: Leaf, key: u64) -> Result<Part, Off>
    requires on { IsTrue (W.sheet words.old).on }
    requires within { at leaf.spot.piece 63 < length (W.sheet words.old).words }
    requires few { leaf.count ≤ 31 }
    requires above { leaf.spot.low ≤ key }
    requires below { key ≤ leaf.spot.top }
    ensures looks { Looks (W.sheet words.old) (W.sheet words.new) }
    ensures power { MatchResult result (λ _. IsTrue (W.sheet words.new).on) (λ _. (W.sheet words.new).on ≡ false) }
    ensures places { IfOk result (λ x. (x.place ≤ 31) × (x.count ≤ 31) × ((j : ℕ) → j < x.count → x.place - 1 - j < 31)) }
    ensures goes { IfOk result (λ x. left_after Down x.next < left_by Down key) }
    ensures pairs { (es : List (ℕ × ℕ))
        → IsLeaf (W.sheet words.old).words es leaf.spot.piece leaf.count leaf.spot.low leaf.spot.top
        → IfOk result (λ x. pairs_by Down key es ≡ first_of (λ j.
        pair_at (W.sheet words.old).words leaf.spot.piece (x.place - 1 - j)) x.count ++ pairs_after Down x.next es) }
{
    let keys = PIECE_WORDS + PIECE_WORDS * leaf.spot.piece + KEYS;
    let place = place_of(words, keys, leaf.count, key, leaf.spot.low, leaf.spot.top)?;
    Ok(Part {
        place: place.index,
        count: place.index,
        next: leaf.spot.low.checked_sub(1),
    })
}
