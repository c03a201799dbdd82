ghost use Rattle.std.specs.Prelude.{◌≡◌, ◌+◌, ◌*◌, ◌++◌, ◌≤◌, ◌^◌, ℕ, List, false, length, slice_index, IsTrue, OnOk};
ghost use Rattle.envy_array.specs.Words.{Keeps, Spends, Works, Fails, has};
ghost use Rattle.envy_btree.specs.Answers.{Settles, insert_puts};
ghost use Rattle.envy_btree.specs.Bulk.{MayFollow};
ghost use Rattle.envy_btree.specs.Depths.{IsShallow, insertion_pages, most_levels};
ghost use Rattle.envy_btree.specs.Index.{IsIndex, IsPlanted, most_pairs};

use crate::appending::append_under;
use crate::ends::close;
use crate::fault::TreeFault;
use crate::leaf_pairs::leaf_of;
use crate::new_root::crown;
use crate::sizes::most_levels;
use envy_array::Words;
use envy_base::Trouble;

/// Puts pairs from a key on after all others in the tree of the whole, as a leaf of their own. The tree may get a
/// new root. It has at most so many levels of inner nodes.
fn append_at_root<W: Words>(
    words: &mut W,
    level: u32,
    key: u64,
    pairs: &[(u64, u64)],
) -> Result<(), Trouble>
    requires begun { IsTrue (W.sheet words.old).started }
    requires head { IsTrue (has (W.sheet words.old).pages 0) }
    requires room { length (W.sheet words.old).pages + (4 * level + 6) ≤ (W.sheet words.old).room }
    requires levels { IsShallow (W.sheet words.old).words level }
    requires few { level ≤ 6 }
    requires most { length pairs.now ≤ 31 }
    requires map { (es : List (ℕ × ℕ)) × IsPlanted (W.sheet words.old).words es
        × (length es ≤ most_pairs (W.sheet words.old).words)
        × MayFollow (W.sheet words.old).words key pairs.now es }
    ensures works { Works (4 * level + 6) (W.sheet words.old) (W.sheet words.new) }
    ensures spends { Spends (129 * level + 195) (W.sheet words.old) (W.sheet words.new) }
    ensures fails { Fails (W.sheet words.old) result (W.sheet words.new) }
    ensures planted { (es : List (ℕ × ℕ)) → IsPlanted (W.sheet words.old).words es
        → length es ≤ most_pairs (W.sheet words.old).words
        → MayFollow (W.sheet words.old).words key pairs.now es
        → OnOk result (IsPlanted (W.sheet words.new).words (es ++ pairs.now)
        × (slice_index (W.sheet words.new).words 3 ≡ slice_index (W.sheet words.old).words 3)) }
{
    let root = words.load(0)?;
    if root == 0 {
        let leaf = leaf_of(pairs);
        return crown(words, false, &leaf.keys, &leaf.slots);
    }
    let piece = (root - 1) as u32;
    let Some((middle, second)) = append_under(words, piece, level, key, pairs)? else {
        return Ok(());
    };
    crown(words, true, &[middle], &[piece as u64, second as u64])
}

/// Puts pairs from a key on after all others within an open transaction, as a leaf of their own. There are so many
/// pairs from then on: their number is put first, so the page of the head is among those put.
fn append_inside<W: Words>(
    words: &mut W,
    level: u32,
    key: u64,
    pairs: &[(u64, u64)],
    count: u64,
) -> Result<(), Trouble>
    requires begun { IsTrue (W.sheet words.old).started }
    requires room { length (W.sheet words.old).pages + insertion_pages level ≤ (W.sheet words.old).room }
    requires levels { IsShallow (W.sheet words.old).words level }
    requires few { level ≤ 6 }
    requires most { length pairs.now ≤ 31 }
    requires map { (es : List (ℕ × ℕ)) × IsPlanted (W.sheet words.old).words es
        × (length es ≤ most_pairs (W.sheet words.old).words)
        × MayFollow (W.sheet words.old).words key pairs.now es }
    ensures works { Works (insertion_pages level) (W.sheet words.old) (W.sheet words.new) }
    ensures spends { Spends (129 * level + 196) (W.sheet words.old) (W.sheet words.new) }
    ensures fails { Fails (W.sheet words.old) result (W.sheet words.new) }
    ensures planted { (es : List (ℕ × ℕ)) → IsPlanted (W.sheet words.old).words es
        → length es ≤ most_pairs (W.sheet words.old).words
        → MayFollow (W.sheet words.old).words key pairs.now es
        → OnOk result (IsPlanted (W.sheet words.new).words (es ++ pairs.now)
        × (slice_index (W.sheet words.new).words 3 ≡ count)) }
{
    words.put(3, count)?;
    append_at_root(words, level, key, pairs)
}

/// Puts at most 31 pairs after all others, as a leaf of their own, in one transaction. They rise from `key` on, which is
/// above each key of the map. `count` is how many pairs there are from then on. If the map has others, both they and
/// the new ones are at least 15. It puts no more, and in no more pages, than an [`insert`](crate::insert).
///
/// # Errors
///
/// `Off`: power failed, and the map has all of the new pairs or none. `Bad`: a flash operation failed, and the map is as
/// before. It is never `Full`.
pub fn append<W: Words>(
    words: &mut W,
    key: u64,
    pairs: &[(u64, u64)],
    count: u64,
) -> Result<(), TreeFault>
    requires shut { (W.sheet words.old).started ≡ false }
    requires room { insertion_pages (most_levels (length (W.sheet words.old).words)) ≤ (W.sheet words.old).room }
    requires size { length (W.sheet words.old).words ≤ 2 ^ 29 }
    requires most { length pairs.now ≤ 31 }
    requires map { (es : List (ℕ × ℕ)) × IsIndex (W.sheet words.old).words es
        × MayFollow (W.sheet words.old).words key pairs.now es }
    ensures keeps { Keeps (W.sheet words.old) (W.sheet words.new) }
    ensures spends { Spends (insert_puts (length (W.sheet words.old).words)) (W.sheet words.old) (W.sheet words.new) }
    ensures shut { (W.sheet words.new).started ≡ false }
    ensures settles { (es : List (ℕ × ℕ)) → IsIndex (W.sheet words.old).words es
        → MayFollow (W.sheet words.old).words key pairs.now es
        → count ≡ length (es ++ pairs.now) → count ≤ most_pairs (W.sheet words.old).words
        → Settles es (es ++ pairs.now) (W.sheet words.old) result (W.sheet words.new) }
{
    let level = most_levels(words.size());
    words.start()?;
    let done = append_inside(words, level, key, pairs, count);
    close(words, done)
}
