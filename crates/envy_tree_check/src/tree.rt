ghost use Rattle.std.specs.Prelude.{◌≡◌, ℕ, ◌+◌, ◌<◌, ◌≤◌, List, length, slice_index, IfOk, IfErr, OnOk, IsTrue};
ghost use Rattle.envy_heap.specs.Pieces.{IsHeap, pieces};
ghost use Rattle.envy_btree.specs.Looking.{Looks};
ghost use Rattle.envy_btree.specs.Rules.{pairs_under};
ghost use Rattle.envy_tree_check.specs.Faults.{Sickens};
ghost use Rattle.envy_tree_check.specs.Grown.{AreMarked, Grows, Powers, capped, nodes_under};

use crate::child::child_of;
use crate::fault::MapFault;
use crate::keys::check_keys;
use crate::node::{Spot, count_of};
use envy_array::Words;

/// How many nodes and pairs were seen. The counts stop at the top.
#[derive(Clone, Copy)]
pub(crate) struct Tally {
    pub(crate) nodes: u64,
    pub(crate) pairs: u64,
}

impl Tally {
    // With one node more.
    fn with_node(self) -> Tally
        ensures nodes { result.nodes ≡ capped (self.nodes + 1) }
        ensures pairs { result.pairs ≡ capped self.pairs }
    {
        Tally {
            nodes: self.nodes.saturating_add(1),
            pairs: self.pairs,
        }
    }

    // With the pairs of a leaf more.
    fn with_pairs(self, count: u32) -> Tally
        ensures nodes { result.nodes ≡ self.nodes }
        ensures pairs { result.pairs ≡ capped (self.pairs + count) }
    {
        Tally {
            nodes: self.nodes,
            pairs: self.pairs.saturating_add(u64::from(count)),
        }
    }
}

/// Checks the tree under a node, and counts its nodes and pairs.
pub(crate) fn check_under<W: Words>(
    words: &mut W,
    used: u32,
    marks: &[u64],
    spot: Spot,
    tally: Tally,
) -> Result<Tally, MapFault>
    requires size { 640 ≤ length (W.sheet words.old).words }
    requires used { used ≡ slice_index (W.sheet words.old).words 2 }
    requires most { used ≤ pieces (W.sheet words.old).words }
    requires long { length marks.now ≡ 64 }
    requires below { spot.piece < used }
    requires first { IsTrue spot.root → spot.low ≡ 0 }
    ensures looks { Looks (W.sheet words.old) (W.sheet words.new) }
    ensures power { Powers (W.sheet words.old).words result (W.sheet words.new) }
    ensures grows { (free : List ℕ) → IsHeap (W.sheet words.old).words free
        → AreMarked (W.sheet words.old).words free marks.now
        → OnOk result (Grows (W.sheet words.old).words free spot.root spot.low (spot.top + 1) spot.levels spot.piece) }
    ensures nodes { IfOk result (λ x. x.nodes ≡ capped (tally.nodes + nodes_under spot.levels (W.sheet words.old).words spot.piece)) }
    ensures pairs { IfOk result (λ x. x.pairs ≡ capped (tally.pairs + pairs_under spot.levels (W.sheet words.old).words spot.piece)) }
    ensures sickens { (free : List ℕ) → AreMarked (W.sheet words.old).words free marks.now → IfErr result (λ e.
        Sickens (W.sheet words.old).words free spot.root spot.low (spot.top + 1) spot.levels spot.piece e) }
{
    let count = count_of(words, marks, spot)?;
    check_keys(words, spot, count)?;
    let mut total = tally.with_node();
    if spot.levels == 0 {
        return Ok(total.with_pairs(count));
    }
    for j in 0..count + 1 {
        let child = child_of(words, used, spot, count, j)?;
        total = check_under(words, used, marks, child, total)?;
    }
    Ok(total)
}
