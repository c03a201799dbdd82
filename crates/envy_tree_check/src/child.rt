ghost use Rattle.std.specs.Prelude.{◌≡◌, ℕ, ◌+◌, ◌*◌, ◌<◌, ◌≤◌, List, length, slice_index, false, IfOk, IfErr, IsTrue, MatchResult};
ghost use Rattle.envy_heap.specs.Pieces.{at, head};
ghost use Rattle.envy_btree.specs.Looking.{Looks};
ghost use Rattle.envy_btree.specs.Rules.{key_at, key_count, slot_at};
ghost use Rattle.envy_tree_check.specs.Bounds.{high_at, low_at};
ghost use Rattle.envy_tree_check.specs.Faults.{Sickens};
ghost use Rattle.envy_tree_check.specs.Grown.{Powers};

use crate::fault::MapFault;
use crate::node::Spot;
use crate::sizes::{KEYS, PIECE_WORDS, SLOTS};
use envy_array::Words;
use envy_base::Off;

/// Child j of an inner node with so many keys, of which none is 0.
pub(crate) fn child_of<W: Words>(
    words: &mut W,
    used: u32,
    spot: Spot,
    count: u32,
    j: u32,
) -> Result<Spot, MapFault>
    requires on { IsTrue (W.sheet words.old).on }
    requires used { used ≡ slice_index (W.sheet words.old).words 2 }
    requires within { at spot.piece 63 < length (W.sheet words.old).words }
    requires levels { 1 ≤ spot.levels }
    requires head { slice_index (W.sheet words.old).words (head spot.piece) ≡ 2 * count + 1 }
    requires most { count ≤ 31 }
    requires place { j ≤ count }
    requires above { (i : ℕ) → i < count → 1 ≤ key_at (W.sheet words.old).words spot.piece i }
    ensures looks { Looks (W.sheet words.old) (W.sheet words.new) }
    ensures power { Powers (W.sheet words.old).words result (W.sheet words.new) }
    ensures piece { IfOk result (λ x. (x.piece ≡ slot_at (W.sheet words.old).words spot.piece j) × (x.piece < used)) }
    ensures kind { IfOk result (λ x. (x.root ≡ false) × (x.levels + 1 ≡ spot.levels)) }
    ensures low { IfOk result (λ x. x.low ≡ low_at (W.sheet words.old).words spot.low spot.piece j) }
    ensures high { IfOk result (λ x. x.top + 1 ≡ high_at (W.sheet words.old).words (spot.top + 1) spot.piece j) }
    ensures sickens { (free : List ℕ) → IfErr result (λ e.
        Sickens (W.sheet words.old).words free spot.root spot.low (spot.top + 1) spot.levels spot.piece e) }
{
    let child = words.load(PIECE_WORDS + PIECE_WORDS * spot.piece + SLOTS + j)?;
    let limit = u64::from(used);
    if child >= limit {
        return Err(MapFault::Node);
    }
    let low = low_of(words, spot, j)?;
    let top = top_of(words, spot, count, j)?;
    Ok(Spot {
        piece: child as u32,
        root: false,
        levels: spot.levels - 1,
        low,
        top,
    })
}

// The least key that child j may have.
fn low_of<W: Words>(words: &mut W, spot: Spot, j: u32) -> Result<u64, Off>
    requires on { IsTrue (W.sheet words.old).on }
    requires within { at spot.piece 63 < length (W.sheet words.old).words }
    requires place { j ≤ 31 }
    ensures looks { Looks (W.sheet words.old) (W.sheet words.new) }
    ensures power { MatchResult result (λ _. IsTrue (W.sheet words.new).on) (λ _. (W.sheet words.new).on ≡ false) }
    ensures low { IfOk result (λ x. x ≡ low_at (W.sheet words.old).words spot.low spot.piece j) }
{
    if j == 0 {
        return Ok(spot.low);
    }
    let key = words.load(PIECE_WORDS + PIECE_WORDS * spot.piece + KEYS + (j - 1))?;
    Ok(key)
}

// The greatest.
fn top_of<W: Words>(words: &mut W, spot: Spot, count: u32, j: u32) -> Result<u64, Off>
    requires on { IsTrue (W.sheet words.old).on }
    requires within { at spot.piece 63 < length (W.sheet words.old).words }
    requires keys { key_count (W.sheet words.old).words spot.piece ≡ count }
    requires most { count ≤ 31 }
    requires place { j ≤ count }
    requires above { (i : ℕ) → i < count → 1 ≤ key_at (W.sheet words.old).words spot.piece i }
    ensures looks { Looks (W.sheet words.old) (W.sheet words.new) }
    ensures power { MatchResult result (λ _. IsTrue (W.sheet words.new).on) (λ _. (W.sheet words.new).on ≡ false) }
    ensures high { IfOk result (λ x. x + 1 ≡ high_at (W.sheet words.old).words (spot.top + 1) spot.piece j) }
{
    if j == count {
        return Ok(spot.top);
    }
    let key = words.load(PIECE_WORDS + PIECE_WORDS * spot.piece + KEYS + j)?;
    Ok(key - 1)
}
