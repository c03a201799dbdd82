ghost use Rattle.std.specs.Prelude.{◌≡◌, ◌≢◌, ℕ, ◌+◌, ◌^◌, ◌<◌, ◌≤◌, List, length, slice_index, IfOk, IfErr, OnOk, IsTrue};
ghost use Rattle.envy_heap.specs.Pieces.{IsHeap, pieces};
ghost use Rattle.envy_btree.specs.Index.{IsIndex, most_pairs};
ghost use Rattle.envy_btree.specs.Looking.{Looks};
ghost use Rattle.envy_tree_check.specs.declared.fault.MapFault.TheVariants.{Off as MapOff};
ghost use Rattle.envy_tree_check.specs.Faults.{Causes};
ghost use Rattle.envy_tree_check.specs.Grown.{AreMarked, IsSeen, Powers};

use crate::fault::MapFault;
use crate::free::free_of;
use crate::levels::levels_of;
use crate::node::Spot;
use crate::sizes::{LEAST_WORDS, PIECE_PAIRS, PIECE_WORDS, SPARE_PIECES};
use crate::tree::{Tally, check_under};
use envy_array::Words;

/// Whether the words stand for a map, whatever they are.
///
/// # Errors
///
/// The first rule that they break; or `Off`.
pub fn check<W: Words>(words: &mut W) -> Result<(), MapFault>
    requires size { length (W.sheet words.old).words ≤ 2 ^ 29 }
    ensures looks { Looks (W.sheet words.old) (W.sheet words.new) }
    ensures power { Powers (W.sheet words.old).words result (W.sheet words.new) }
    ensures stands { OnOk result ((es : List (ℕ × ℕ)) × IsIndex (W.sheet words.old).words es) }
    ensures causes { IfErr result (λ e. Causes (W.sheet words.old).words e) }
    ensures none { IfErr result (λ e. e ≢ MapOff → (es : List (ℕ × ℕ)) → IsIndex (W.sheet words.old).words es → ⊥) }
{
    let size = words.size();
    if size < LEAST_WORDS {
        return Err(MapFault::Short);
    }
    let pieces = u64::from((size - PIECE_WORDS) / PIECE_WORDS);
    let used = words.load(2)?;
    if used > pieces {
        return Err(MapFault::Used);
    }
    let count = words.load(3)?;
    let most = PIECE_PAIRS * (pieces - SPARE_PIECES);
    if count > most {
        return Err(MapFault::Many);
    }
    let mut marks = [0; 64];
    let free = free_of(words, used as u32, &mut marks)?;
    let tally = check_tree(words, used as u32, &marks)?;
    let handed = used - u64::from(free);
    if tally.nodes != handed {
        return Err(MapFault::Lost);
    }
    if tally.pairs != count {
        return Err(MapFault::Count);
    }
    Ok(())
}

// Checks the tree, if there is one, and counts its nodes and pairs.
fn check_tree<W: Words>(words: &mut W, used: u32, marks: &[u64]) -> Result<Tally, MapFault>
    requires size { 640 ≤ length (W.sheet words.old).words }
    requires used { used ≡ slice_index (W.sheet words.old).words 2 }
    requires most { used ≤ pieces (W.sheet words.old).words }
    requires long { length marks.now ≡ 64 }
    ensures looks { Looks (W.sheet words.old) (W.sheet words.new) }
    ensures power { Powers (W.sheet words.old).words result (W.sheet words.new) }
    ensures seen { (free : List ℕ) → IsHeap (W.sheet words.old).words free
        → AreMarked (W.sheet words.old).words free marks.now
        → IfOk result (λ x. IsSeen (W.sheet words.old).words free x.nodes x.pairs) }
    ensures causes { (free : List ℕ) → IsHeap (W.sheet words.old).words free
        → AreMarked (W.sheet words.old).words free marks.now
        → IfErr result (λ e. Causes (W.sheet words.old).words e) }
{
    let last = u64::from(used);
    let root = words.load(0)?;
    if root == 0 {
        return Ok(Tally { nodes: 0, pairs: 0 });
    }
    if root > last {
        return Err(MapFault::Node);
    }
    let piece = (root - 1) as u32;
    let levels = levels_of(words, used, piece)?;
    let spot = Spot {
        piece,
        root: true,
        levels,
        low: 0,
        top: u64::MAX,
    };
    check_under(words, used, marks, spot, Tally { nodes: 0, pairs: 0 })
}
