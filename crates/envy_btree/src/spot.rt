ghost use Rattle.std.specs.Prelude.{◌≡◌, ◌+◌, ◌-◌, ◌<◌, ◌≤◌, ◌/◌, ◌%◌, length, slice_index, IfOk, OnOk, MatchResult, IsTrue, false};
ghost use Rattle.envy_array.specs.Words.{Spends, Works};
ghost use Rattle.envy_base.specs.declared.page.TheConstants.{PAGE_WORDS};
ghost use Rattle.envy_heap.specs.Pieces.{head, at};
ghost use Rattle.envy_btree.specs.Tree.{window};
ghost use Rattle.envy_btree.specs.Nodes.{Ranks};
ghost use Rattle.envy_btree.specs.Spots.{Climbs, IsSpot, EndsAt, keys_at};

use envy_array::Words;
use envy_base::Off;

/// Where a key belongs in a node: of how many keys, which are at most the key up to this place.
#[derive(Clone, Copy)]
pub(crate) struct Spot {
    pub(crate) inner: bool,
    pub(crate) keys: u32,
    pub(crate) place: u32,
}

/// How many of the `n` words from `a` on, which rise, are at most this key. They lie in one page.
pub(crate) fn rank_from<W: Words>(words: &mut W, a: u32, n: u32, key: u64) -> Result<u32, Off>
    requires within { a + n ≤ length (W.sheet words.old).words }
    requires page { a % PAGE_WORDS + n ≤ PAGE_WORDS }
    requires rise { Climbs (W.sheet words.old).words a n }
    ensures works { Works 0 (W.sheet words.old) (W.sheet words.new) }
    ensures spends { Spends 0 (W.sheet words.old) (W.sheet words.new) }
    ensures rank { IfOk result (λ i. Ranks key (window (W.sheet words.old).words a n) i) }
    ensures same { OnOk result ((W.sheet words.new).words ≡ (W.sheet words.old).words) }
    ensures power { MatchResult result (λ _. IsTrue (W.sheet words.old).on → IsTrue (W.sheet words.new).on)
        (λ _. (W.sheet words.new).on ≡ false) }
{
    let place = words.search(a, n, key, 0, u64::MAX)?;
    Ok(place.index)
}

/// Where a key belongs in the node in a piece.
pub(crate) fn seek<W: Words>(words: &mut W, piece: u32, key: u64) -> Result<Spot, Off>
    requires within { at piece 63 < length (W.sheet words.old).words }
    requires few { slice_index (W.sheet words.old).words (head piece) < 64 }
    requires rise { Climbs (W.sheet words.old).words (at piece 1)
        (slice_index (W.sheet words.old).words (head piece) / 2) }
    ensures works { Works 0 (W.sheet words.old) (W.sheet words.new) }
    ensures spends { Spends 0 (W.sheet words.old) (W.sheet words.new) }
    ensures spot { IfOk result (λ s. IsSpot (W.sheet words.old).words piece key s.inner s.keys s.place) }
    ensures same { OnOk result ((W.sheet words.new).words ≡ (W.sheet words.old).words) }
    ensures power { MatchResult result (λ _. IsTrue (W.sheet words.new).on) (λ _. (W.sheet words.new).on ≡ false) }
{
    let count = words.load(64 + 64 * piece)?;
    let keys = (count / 2) as u32;
    let place = rank_from(words, 64 + 64 * piece + 1, keys, key)?;
    Ok(Spot {
        inner: count % 2 == 1,
        keys,
        place,
    })
}

/// Whether the node in a piece has a key at its place, which is at most the number of its keys.
pub(crate) fn ends_at<W: Words>(
    words: &mut W,
    piece: u32,
    place: u32,
    key: u64,
) -> Result<bool, Off>
    requires within { at piece 63 < length (W.sheet words.old).words }
    requires few { slice_index (W.sheet words.old).words (head piece) < 64 }
    requires place { place ≤ length (keys_at (W.sheet words.old).words piece) }
    ensures works { Works 0 (W.sheet words.old) (W.sheet words.new) }
    ensures spends { Spends 0 (W.sheet words.old) (W.sheet words.new) }
    ensures ends { IfOk result (λ b. EndsAt (keys_at (W.sheet words.old).words piece) place key b) }
    ensures same { OnOk result ((W.sheet words.new).words ≡ (W.sheet words.old).words) }
    ensures power { MatchResult result (λ _. IsTrue (W.sheet words.old).on → IsTrue (W.sheet words.new).on)
        (λ _. (W.sheet words.new).on ≡ false) }
{
    if place == 0 {
        return Ok(false);
    }
    let last = words.load(64 + 64 * piece + place)?;
    Ok(last == key)
}
