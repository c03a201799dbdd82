ghost use Rattle.std.specs.Prelude.{◌≡◌, ◌+◌, ◌-◌, ◌*◌, ◌/◌, ◌%◌, ◌==◌, ◌^◌, ◌<◌, ◌≤◌, ℕ, List, [], length, slice_index, IfOk, IfErr, IfSome, IsTrue, MatchOption};
ghost use Rattle.envy_heap.specs.Pieces.{head, at};
ghost use Rattle.envy_btree.specs.declared.fault.LookFault.TheVariants.{Broken};
ghost use Rattle.envy_btree.specs.Index.{IsIndex};
ghost use Rattle.envy_btree.specs.Looking.{IsLeaf, IsUnder, Looks, Powers, Sees};

use crate::fault::LookFault;
use crate::place::place_of;
use crate::sizes::{HEAD_LIMIT, KEYS, LEAST_WORDS, LEVELS, PIECE_WORDS, SLOTS};
use envy_array::{KeyPlace, Words};

/// A node, and the numbers from `low` to `top`: other nodes of its level have no keys of these under them.
#[derive(Clone, Copy)]
pub(crate) struct Spot {
    pub(crate) piece: u32,
    pub(crate) low: u64,
    pub(crate) top: u64,
}

/// A leaf: where it is, and how many pairs it has.
#[derive(Clone, Copy)]
pub(crate) struct Leaf {
    pub(crate) spot: Spot,
    pub(crate) count: u32,
}

/// What the first word of a node says.
#[derive(Clone, Copy)]
struct Head {
    inner: bool,
    count: u32,
}

/// The leaf to which a key belongs, or none if the words have no root. Whatever they are, each node is looked at
/// before it is used.
pub(crate) fn leaf_for<W: Words>(words: &mut W, key: u64) -> Result<Option<Leaf>, LookFault>
    requires size { length (W.sheet words.old).words ≤ 2 ^ 29 }
    ensures looks { Looks (W.sheet words.old) (W.sheet words.new) }
    ensures power { Powers result (W.sheet words.new) }
    ensures around { IfOk result (λ r. IfSome r (λ x. (x.spot.low ≤ key) × (key ≤ x.spot.top))) }
    ensures within { IfOk result (λ r. IfSome r (λ x.
        (at x.spot.piece 63 < length (W.sheet words.old).words) × (x.count ≤ 31))) }
    ensures sees { (es : List (ℕ × ℕ)) → IsIndex (W.sheet words.old).words es → Sees (λ r. MatchOption r (es ≡ [])
        (λ x. IsLeaf (W.sheet words.old).words es x.spot.piece x.count x.spot.low x.spot.top)) result }
{
    if words.size() < LEAST_WORDS {
        return Err(LookFault::Broken);
    }
    let root = words.load(0)?;
    if root == 0 {
        return Ok(None);
    }
    let piece = piece_in(words.size(), root - 1)?;
    let leaf = leaf_under(words, piece, key)?;
    Ok(Some(leaf))
}

// The leaf to which a key belongs, of the tree whose root is this piece.
fn leaf_under<W: Words>(words: &mut W, root: u32, key: u64) -> Result<Leaf, LookFault>
    requires on { IsTrue (W.sheet words.old).on }
    requires within { at root 63 < length (W.sheet words.old).words }
    ensures looks { Looks (W.sheet words.old) (W.sheet words.new) }
    ensures power { Powers result (W.sheet words.new) }
    ensures around { IfOk result (λ x. (x.spot.low ≤ key) × (key ≤ x.spot.top)) }
    ensures within { IfOk result (λ x. (at x.spot.piece 63 < length (W.sheet words.old).words) × (x.count ≤ 31)) }
    ensures sees { (es : List (ℕ × ℕ)) → IsUnder (W.sheet words.old).words es root 0 (2 ^ 64 - 1) 0 → Sees (λ x.
        IsLeaf (W.sheet words.old).words es x.spot.piece x.count x.spot.low x.spot.top) result }
{
    let mut spot = Spot {
        piece: root,
        low: 0,
        top: u64::MAX,
    };
    for _level in 0..LEVELS {
        let head = head_of(words, spot.piece)?;
        if !head.inner {
            return Ok(Leaf {
                spot,
                count: head.count,
            });
        }
        spot = child_of(words, spot, head.count, key)?;
    }
    Err(LookFault::Broken)
}

// The first word of a node, which has at most 31 keys.
fn head_of<W: Words>(words: &mut W, piece: u32) -> Result<Head, LookFault>
    requires within { at piece 63 < length (W.sheet words.old).words }
    ensures looks { Looks (W.sheet words.old) (W.sheet words.new) }
    ensures power { Powers result (W.sheet words.new) }
    ensures lit { IfErr result (λ e. e ≡ Broken → IsTrue (W.sheet words.new).on) }
    ensures head { IfOk result (λ x. (x.inner ≡ (slice_index (W.sheet words.old).words (head piece) % 2 == 1))
        × (x.count ≡ slice_index (W.sheet words.old).words (head piece) / 2) × (x.count ≤ 31)) }
    ensures broken { IfErr result (λ e. e ≡ Broken → 64 ≤ slice_index (W.sheet words.old).words (head piece)) }
{
    let word = words.load(PIECE_WORDS + PIECE_WORDS * piece)?;
    if word >= HEAD_LIMIT {
        return Err(LookFault::Broken);
    }
    Ok(Head {
        inner: word % 2 == 1,
        count: (word / 2) as u32,
    })
}

// The child to which a key belongs, of an inner node with so many keys.
fn child_of<W: Words>(words: &mut W, spot: Spot, count: u32, key: u64) -> Result<Spot, LookFault>
    requires on { IsTrue (W.sheet words.old).on }
    requires within { at spot.piece 63 < length (W.sheet words.old).words }
    requires few { count ≤ 31 }
    requires above { spot.low ≤ key }
    requires below { key ≤ spot.top }
    ensures looks { Looks (W.sheet words.old) (W.sheet words.new) }
    ensures power { Powers result (W.sheet words.new) }
    ensures lit { IfErr result (λ e. e ≡ Broken → IsTrue (W.sheet words.new).on) }
    ensures around { IfOk result (λ x. (x.low ≤ key) × (key ≤ x.top)) }
    ensures within { IfOk result (λ x. at x.piece 63 < length (W.sheet words.old).words) }
    ensures sees { (es : List (ℕ × ℕ)) (levels : ℕ)
        → IsUnder (W.sheet words.old).words es spot.piece spot.low spot.top levels
        → slice_index (W.sheet words.old).words (head spot.piece) ≡ 2 * count + 1
        → Sees (λ x. IsUnder (W.sheet words.old).words es x.piece x.low x.top (levels + 1)) result }
{
    let node = PIECE_WORDS + PIECE_WORDS * spot.piece;
    let KeyPlace { index, low, top } = place_of(
        words,
        node + KEYS,
        count,
        key,
        spot.low,
        spot.top,
    )?;
    let child = words.load(node + SLOTS + index)?;
    let piece = piece_in(words.size(), child)?;
    Ok(Spot { piece, low, top })
}

// The piece of this number, if there are so many.
fn piece_in(size: u32, piece: u64) -> Result<u32, LookFault>
    requires { 64 ≤ size }
    ensures ok { IfOk result (λ p. (p ≡ piece) × (at p 63 < size)) }
    ensures err { IfErr result (λ e. (e ≡ Broken) × (size ≤ at piece 63)) }
{
    if piece >= u64::from((size - PIECE_WORDS) / PIECE_WORDS) {
        return Err(LookFault::Broken);
    }
    Ok(piece as u32)
}
