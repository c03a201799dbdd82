ghost use Rattle.std.specs.Prelude.{◌≡◌, ℕ, ◌+◌, ◌<◌, ◌≤◌, List, length, slice_index, IfOk, IfErr, IsTrue};
ghost use Rattle.envy_heap.specs.Pieces.{pieces};
ghost use Rattle.envy_btree.specs.Looking.{Looks};
ghost use Rattle.envy_tree_check.specs.Faults.{Ails};
ghost use Rattle.envy_tree_check.specs.Grown.{AreLevels, Powers};

use crate::fault::MapFault;
use crate::sizes::{LEVELS, PIECE_WORDS, SLOTS};
use envy_array::Words;

/// How many levels of inner nodes are above the first leaf.
pub(crate) fn levels_of<W: Words>(words: &mut W, used: u32, root: u32) -> Result<u32, MapFault>
    requires size { 640 ≤ length (W.sheet words.old).words }
    requires on { IsTrue (W.sheet words.old).on }
    requires used { used ≡ slice_index (W.sheet words.old).words 2 }
    requires most { used ≤ pieces (W.sheet words.old).words }
    requires below { root < used }
    ensures looks { Looks (W.sheet words.old) (W.sheet words.new) }
    ensures power { Powers (W.sheet words.old).words result (W.sheet words.new) }
    ensures levels { IfOk result (λ n. AreLevels (W.sheet words.old).words root n) }
    ensures ails { (free : List ℕ) → IfErr result (λ e. Ails (W.sheet words.old).words free root e) }
{
    let limit = u64::from(used);
    let mut piece = root;
    for level in 0..LEVELS {
        let word = words.load(PIECE_WORDS + PIECE_WORDS * piece)?;
        if word % 2 == 0 {
            return Ok(level);
        }
        let child = words.load(PIECE_WORDS + PIECE_WORDS * piece + SLOTS)?;
        if child >= limit {
            return Err(MapFault::Node);
        }
        piece = child as u32;
    }
    Err(MapFault::Deep)
}
