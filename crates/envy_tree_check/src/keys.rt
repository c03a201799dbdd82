ghost use Rattle.std.specs.Prelude.{◌≡◌, ◌⊎◌, ℕ, ◌+◌, ◌*◌, ◌<◌, ◌≤◌, List, length, slice_index, nat_lt, false, IfErr, OnOk, IsTrue};
ghost use Rattle.envy_heap.specs.Pieces.{at, head, one};
ghost use Rattle.envy_btree.specs.Looking.{Looks};
ghost use Rattle.envy_btree.specs.Rules.{key_at};
ghost use Rattle.envy_tree_check.specs.Bounds.{floor_at};
ghost use Rattle.envy_tree_check.specs.Faults.{Sickens};
ghost use Rattle.envy_tree_check.specs.Grown.{Powers};

use crate::fault::MapFault;
use crate::node::Spot;
use crate::sizes::{KEYS, PIECE_WORDS};
use envy_array::Words;

/// Whether the keys of a node rise within its bounds, of which there are `count`.
pub(crate) fn check_keys<W: Words>(words: &mut W, spot: Spot, count: u32) -> Result<(), MapFault>
    requires on { IsTrue (W.sheet words.old).on }
    requires within { at spot.piece 63 < length (W.sheet words.old).words }
    requires most { count ≤ 31 }
    requires head { slice_index (W.sheet words.old).words (head spot.piece) ≡ 2 * count + one (nat_lt 0 spot.levels) }
    ensures looks { Looks (W.sheet words.old) (W.sheet words.new) }
    ensures power { Powers (W.sheet words.old).words result (W.sheet words.new) }
    ensures order { OnOk result ((i : ℕ) → i < count
        → (floor_at (W.sheet words.old).words spot.low spot.piece i ≤ key_at (W.sheet words.old).words spot.piece i)
        × (key_at (W.sheet words.old).words spot.piece i < spot.top + 1)) }
    ensures sickens { (free : List ℕ) → IfErr result (λ e.
        Sickens (W.sheet words.old).words free spot.root spot.low (spot.top + 1) spot.levels spot.piece e) }
{
    let mut before = spot.low;
    let mut strict = spot.levels > 0;
    for i in 0..count {
        let key = words.load(PIECE_WORDS + PIECE_WORDS * spot.piece + KEYS + i)?;
        if !is_next(before, strict, spot.top, key) {
            return Err(MapFault::Keys);
        }
        before = key;
        strict = true;
    }
    Ok(())
}

// Whether a key may be next after a number, or be that number where it isn't to be above it.
fn is_next(before: u64, strict: bool, top: u64, key: u64) -> bool
    ensures yes { IsTrue result → (before + one strict ≤ key) × (key < top + 1) }
    ensures no { result ≡ false → (key < before + one strict) ⊎ (top + 1 ≤ key) }
{
    if key > top {
        return false;
    }
    if strict { before < key } else { before <= key }
}
