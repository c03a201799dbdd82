ghost use Rattle.std.specs.Prelude.{◌≡◌, ℕ, ◌+◌, ◌<◌, ◌≤◌, List, length, slice_index, IfOk, IfErr, IsTrue};
ghost use Rattle.envy_heap.specs.Pieces.{IsHeap, head, pieces};
ghost use Rattle.envy_btree.specs.Looking.{Looks};
ghost use Rattle.envy_tree_check.specs.Faults.{Causes};
ghost use Rattle.envy_tree_check.specs.Grown.{AreMarked, Powers, marked};

use crate::fault::MapFault;
use crate::sizes::{HEAD_LIMIT, PIECE_WORDS};
use envy_array::Words;

/// How many pieces are free, of those that were ever handed out. Those whose first word could be a node's are marked,
/// each at the place of its first word.
pub(crate) fn free_of<W: Words>(
    words: &mut W,
    used: u32,
    marks: &mut [u64],
) -> Result<u32, MapFault>
    requires size { 640 ≤ length (W.sheet words.old).words }
    requires used { used ≡ slice_index (W.sheet words.old).words 2 }
    requires most { used ≤ pieces (W.sheet words.old).words }
    requires long { length marks.old ≡ 64 }
    requires blank { (i : ℕ) → slice_index marks.old i ≡ 0 }
    ensures looks { Looks (W.sheet words.old) (W.sheet words.new) }
    ensures power { Powers (W.sheet words.old).words result (W.sheet words.new) }
    ensures free { IfOk result (λ n. (free : List ℕ) × IsHeap (W.sheet words.old).words free × (length free ≡ n)
        × AreMarked (W.sheet words.old).words free marks.new) }
    ensures causes { IfErr result (λ e. Causes (W.sheet words.old).words e) }
{
    let last = u64::from(used);
    let mut link = words.load(1)?;
    for free in 0..used + 1 {
        if link == 0 {
            return Ok(free);
        }
        if link > last {
            return Err(MapFault::FreeList);
        }
        let next = words.load(PIECE_WORDS + PIECE_WORDS * (link as u32 - 1))?;
        mark(marks, next, link);
        link = next;
    }
    Err(MapFault::FreeList)
}

// A mark at the place of a word, if there is one.
fn mark(marks: &mut [u64], word: u64, link: u64)
    requires { length marks.old ≡ 64 }
    ensures { marks.new ≡ marked word link marks.old }
{
    if word < HEAD_LIMIT {
        marks[word as usize] = link;
    }
}
