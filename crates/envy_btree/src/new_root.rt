ghost use Rattle.std.specs.Prelude.{◌≡◌, ℕ, List, ◌+◌, ◌*◌, ◌^◌, ◌<◌, ◌≤◌, [], ◌∷◌, length, slice_index, OnOk, IsTrue};
ghost use Rattle.envy_array.specs.Words.{Spends, Works, Fails, has};
ghost use Rattle.envy_heap.specs.Pieces.{IsHeap, spare, one};
ghost use Rattle.envy_btree.specs.Pairs.{with_pair};
ghost use Rattle.envy_btree.specs.Index.{IsPlanted, most_pairs};
ghost use Rattle.envy_btree.specs.Changes.{Crowned};
ghost use Rattle.envy_btree.specs.Depths.{IsShallow};

use crate::insertion_path::insert_under;
use crate::node::write_node;
use envy_array::Words;
use envy_base::Trouble;
use envy_heap::take;

/// Makes a node of these keys and slots the root.
pub(crate) fn crown<W: Words>(
    words: &mut W,
    inner: bool,
    keys: &[u64],
    slots: &[u64],
) -> Result<(), Trouble>
    requires begun { IsTrue (W.sheet words.old).started }
    requires head { IsTrue (has (W.sheet words.old).pages 0) }
    requires room { length (W.sheet words.old).pages + 2 ≤ (W.sheet words.old).room }
    requires heap { (free : List ℕ) × IsHeap (W.sheet words.old).words free
        × (1 ≤ spare (W.sheet words.old).words free) }
    requires keys { length keys.now ≤ 31 }
    requires slots { length slots.now ≤ 32 }
    ensures works { Works 2 (W.sheet words.old) (W.sheet words.new) }
    ensures spends { Spends 66 (W.sheet words.old) (W.sheet words.new) }
    ensures fails { Fails (W.sheet words.old) result (W.sheet words.new) }
    ensures crowned { (free : List ℕ) → IsHeap (W.sheet words.old).words free
        → OnOk result
        (Crowned (W.sheet words.old).words (W.sheet words.new).words free (one inner) keys.now slots.now) }
{
    let Some(piece) = take(words)? else {
        unreachable!();
    };
    write_node(words, piece, inner, keys, slots)?;
    words.put(0, piece as u64 + 1)
}

/// Sets the value of a key in the tree of the whole, which may get a new root. It has at most so many levels of inner
/// nodes.
pub(crate) fn insert_at_root<W: Words>(
    words: &mut W,
    level: u32,
    key: u64,
    value: u64,
) -> Result<(), Trouble>
    requires begun { IsTrue (W.sheet words.old).started }
    requires head { IsTrue (has (W.sheet words.old).pages 0) }
    requires room { length (W.sheet words.old).pages + (4 * level + 6) ≤ (W.sheet words.old).room }
    requires levels { IsShallow (W.sheet words.old).words level }
    requires few { level ≤ 6 }
    requires map { (es : List (ℕ × ℕ)) × IsPlanted (W.sheet words.old).words es
        × (length es ≤ most_pairs (W.sheet words.old).words) }
    ensures works { Works (4 * level + 6) (W.sheet words.old) (W.sheet words.new) }
    ensures spends { Spends (129 * level + 195) (W.sheet words.old) (W.sheet words.new) }
    ensures fails { Fails (W.sheet words.old) result (W.sheet words.new) }
    ensures planted { (es : List (ℕ × ℕ)) → IsPlanted (W.sheet words.old).words es
        → length es ≤ most_pairs (W.sheet words.old).words
        → OnOk result (IsPlanted (W.sheet words.new).words (with_pair key value es)
        × (slice_index (W.sheet words.new).words 3 ≡ slice_index (W.sheet words.old).words 3)) }
{
    let root = words.load(0)?;
    if root == 0 {
        return crown(words, false, &[key], &[value]);
    }
    let piece = (root - 1) as u32;
    let Some((middle, second)) = insert_under(words, piece, level, key, value)? else {
        return Ok(());
    };
    crown(words, true, &[middle], &[piece as u64, second as u64])
}
