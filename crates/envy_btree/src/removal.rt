ghost use Rattle.std.specs.Prelude.{◌≡◌, ℕ, List, ◌+◌, ◌*◌, ◌^◌, ◌<◌, ◌≤◌, length, slice_index, false, OnOk, IsTrue};
ghost use Rattle.envy_array.specs.Words.{Spends, Works, Keeps, Fails};
ghost use Rattle.envy_btree.specs.Pairs.{without};
ghost use Rattle.envy_btree.specs.Index.{IsPlanted, IsIndex, most_pairs};
ghost use Rattle.envy_btree.specs.Depths.{IsShallow, most_levels, removal_pages};
ghost use Rattle.envy_btree.specs.Answers.{removal_puts, Removes, Settles};

use crate::drop_root::remove_at_root;
use crate::ends::close;
use crate::fault::TreeFault;
use crate::search::look_up;
use crate::sizes::most_levels;
use envy_array::Words;
use envy_base::Trouble;

/// Takes a key out of the map, and answers its value. It is one transaction. In up to `2^25`
/// words it makes at most 1,089 puts, in at most 24 pages, and else 1,281 in 28; it needs no more room. If
/// the map doesn't have the key there is none. It is never `Full`.
pub fn remove<W: Words>(words: &mut W, key: u64) -> Result<Option<u64>, TreeFault>
    requires shut { (W.sheet words.old).started ≡ false }
    requires room { removal_pages (most_levels (length (W.sheet words.old).words)) ≤ (W.sheet words.old).room }
    requires size { length (W.sheet words.old).words ≤ 2 ^ 29 }
    requires map { (es : List (ℕ × ℕ)) × IsIndex (W.sheet words.old).words es }
    ensures keeps { Keeps (W.sheet words.old) (W.sheet words.new) }
    ensures spends { Spends (removal_puts (length (W.sheet words.old).words)) (W.sheet words.old) (W.sheet words.new) }
    ensures shut { (W.sheet words.new).started ≡ false }
    ensures removes { (es : List (ℕ × ℕ)) → IsIndex (W.sheet words.old).words es
        → Removes key es (W.sheet words.old) result (W.sheet words.new) }
{
    let was = look_up(words, key)?;
    let Some(value) = was.value else {
        return Ok(None);
    };
    let pairs = words.load(3)?;
    match remove_alone(words, key, pairs - 1) {
        Ok(()) => Ok(Some(value)),
        Err(fault) => Err(fault),
    }
}

// Takes a key out of the map, as a transaction of its own. There are so many pairs from then on.
fn remove_alone<W: Words>(words: &mut W, key: u64, pairs: u64) -> Result<(), TreeFault>
    requires shut { (W.sheet words.old).started ≡ false }
    requires room { removal_pages (most_levels (length (W.sheet words.old).words)) ≤ (W.sheet words.old).room }
    requires size { length (W.sheet words.old).words ≤ 2 ^ 29 }
    requires map { (es : List (ℕ × ℕ)) × IsIndex (W.sheet words.old).words es }
    ensures keeps { Keeps (W.sheet words.old) (W.sheet words.new) }
    ensures spends { Spends (removal_puts (length (W.sheet words.old).words)) (W.sheet words.old) (W.sheet words.new) }
    ensures shut { (W.sheet words.new).started ≡ false }
    ensures settles { (es : List (ℕ × ℕ)) → IsIndex (W.sheet words.old).words es → pairs ≡ length (without key es)
        → pairs ≤ most_pairs (W.sheet words.old).words
        → Settles es (without key es) (W.sheet words.old) result (W.sheet words.new) }
{
    let level = most_levels(words.size());
    words.start()?;
    let done = remove_inside(words, level, key, pairs);
    close(words, done)
}

/// Takes a key out of the map within an open transaction, in a tree with at most so many levels of inner nodes.
pub(crate) fn remove_inside<W: Words>(
    words: &mut W,
    level: u32,
    key: u64,
    pairs: u64,
) -> Result<(), Trouble>
    requires begun { IsTrue (W.sheet words.old).started }
    requires room { length (W.sheet words.old).pages + removal_pages level ≤ (W.sheet words.old).room }
    requires levels { IsShallow (W.sheet words.old).words level }
    requires map { (es : List (ℕ × ℕ)) × IsPlanted (W.sheet words.old).words es }
    ensures works { Works (removal_pages level) (W.sheet words.old) (W.sheet words.new) }
    ensures spends { Spends (192 * level + 129) (W.sheet words.old) (W.sheet words.new) }
    ensures fails { Fails (W.sheet words.old) result (W.sheet words.new) }
    ensures planted { (es : List (ℕ × ℕ)) → IsPlanted (W.sheet words.old).words es
        → OnOk result (IsPlanted (W.sheet words.new).words (without key es)
        × (slice_index (W.sheet words.new).words 3 ≡ pairs)) }
{
    words.put(3, pairs)?;
    remove_at_root(words, level, key)
}
