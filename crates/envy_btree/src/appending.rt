ghost use Rattle.std.specs.Prelude.{◌≡◌, ◌+◌, ◌*◌, ◌≤◌, ℕ, List, length, slice_index, IfOk, IsTrue, OnOk};
ghost use Rattle.envy_array.specs.Words.{Spends, Works, Fails, has};
ghost use Rattle.envy_btree.specs.Bulk.{Brim, Follows, MayFollow, with_pairs};
ghost use Rattle.envy_btree.specs.Depths.{IsShallow};
ghost use Rattle.envy_btree.specs.Index.{IsPlanted, most_pairs};

use crate::insertion_path::grow_node;
use crate::leaf_pairs::{add_leaf, leaf_of};
use crate::new_root::crown;
use crate::spot::seek;
use envy_array::Words;
use envy_base::Trouble;

/// Puts pairs from a key on after all others in the tree under this piece, as a leaf of their own. If the tree parts
/// in two, the answer is the key between them and the piece of the second.
pub(crate) fn append_under<W: Words>(
    words: &mut W,
    piece: u32,
    level: u32,
    key: u64,
    pairs: &[(u64, u64)],
) -> Result<Option<(u64, u32)>, Trouble>
    requires begun { IsTrue (W.sheet words.old).started }
    requires head { IsTrue (has (W.sheet words.old).pages 0) }
    requires room { length (W.sheet words.old).pages + (4 * level + 4) ≤ (W.sheet words.old).room }
    requires many { 15 ≤ length pairs.now }
    requires few { length pairs.now ≤ 31 }
    requires brim { Brim (W.sheet words.old).words piece level key pairs.now }
    ensures works { Works (4 * level + 4) (W.sheet words.old) (W.sheet words.new) }
    ensures spends { Spends (129 * level + 129) (W.sheet words.old) (W.sheet words.new) }
    ensures fails { Fails (W.sheet words.old) result (W.sheet words.new) }
    ensures follows { (brim : Brim (W.sheet words.old).words piece level key pairs.now)
        → IfOk result (λ r.
        Follows (W.sheet words.old).words (W.sheet words.new).words piece level key pairs.now brim.way.rests r) }
{
    let spot = seek(words, piece, key)?;
    if !spot.inner {
        let second = add_leaf(words, pairs)?;
        return Ok(Some((key, second)));
    }
    let child = words.load(64 + 64 * piece + 32 + spot.place)? as u32;
    let Some((middle, second)) = append_under(words, child, level - 1, key, pairs)? else {
        return Ok(None);
    };
    grow_node(words, piece, spot.keys, spot.place, middle, second)
}
