ghost use Rattle.std.specs.Prelude.{◌≡◌, ℕ, List, ◌+◌, ◌^◌, ◌≤◌, length, IsTrue, None, Ok};
ghost use Rattle.envy_array.specs.Words.{Spends, Works};
ghost use Rattle.envy_btree.specs.Depths.{IsDeep, dropping_puts, insertion_pages, insertion_puts, removal_pages};
ghost use Rattle.envy_btree.specs.Index.{IsIndex};
ghost use Rattle.envy_btree.specs.Within.{InsertsWithin, RemovesWithin};

use crate::fault::ChangeFault;
use crate::insertion::{count_with, insert_inside, most_pairs};
use crate::removal::remove_inside;
use crate::search::look_up;
use envy_array::Words;
use envy_base::Trouble;

/// Sets the value of a key within the open transaction, and answers the old one. The transaction may put words in
/// `left` pages more; where the tree is so deep that this may be too few, the change is refused as `Room`. A new key
/// is refused as `Full` as by [`insert`](crate::insert). A change that is refused puts nothing. The transaction stays
/// open: after `Bad` nothing is said of the words until it is undone.
pub fn insert_within<W: Words>(
    words: &mut W,
    key: u64,
    value: u64,
    left: u32,
) -> Result<Option<u64>, ChangeFault>
    requires begun { IsTrue (W.sheet words.old).started }
    requires room { length (W.sheet words.old).pages + left ≤ (W.sheet words.old).room }
    requires size { length (W.sheet words.old).words ≤ 2 ^ 29 }
    requires map { (es : List (ℕ × ℕ)) × IsIndex (W.sheet words.old).words es }
    ensures works { Works left (W.sheet words.old) (W.sheet words.new) }
    ensures pages { (depth : ℕ) → IsDeep (W.sheet words.old).words depth
        → Works (insertion_pages depth) (W.sheet words.old) (W.sheet words.new) }
    ensures spends { Spends (insertion_puts (length (W.sheet words.old).words)) (W.sheet words.old) (W.sheet words.new) }
    ensures inserts { (es : List (ℕ × ℕ)) → IsIndex (W.sheet words.old).words es
        → InsertsWithin key value es insertion_pages left (W.sheet words.old) result (W.sheet words.new) }
{
    let was = look_up(words, key)?;
    let before = words.load(3)?;
    let pairs = count_with(was.value, before);
    if pairs > most_pairs(words.size()) {
        return Err(ChangeFault::Full);
    }
    if left < most_insertion_pages(was.depth) {
        return Err(ChangeFault::Room);
    }
    match insert_inside(words, was.depth, key, value, pairs) {
        Ok(()) => Ok(was.value),
        Err(Trouble::Off) => Err(ChangeFault::Off),
        Err(Trouble::Bad) => Err(ChangeFault::Bad),
    }
}

/// Takes a key out of the map within the open transaction, and answers its value. It is refused as `Room` as by
/// [`insert_within`], and is never `Full`; where the map doesn't have the key nothing is put.
pub fn remove_within<W: Words>(
    words: &mut W,
    key: u64,
    left: u32,
) -> Result<Option<u64>, ChangeFault>
    requires begun { IsTrue (W.sheet words.old).started }
    requires room { length (W.sheet words.old).pages + left ≤ (W.sheet words.old).room }
    requires size { length (W.sheet words.old).words ≤ 2 ^ 29 }
    requires map { (es : List (ℕ × ℕ)) × IsIndex (W.sheet words.old).words es }
    ensures works { Works left (W.sheet words.old) (W.sheet words.new) }
    ensures pages { (depth : ℕ) → IsDeep (W.sheet words.old).words depth
        → Works (removal_pages depth) (W.sheet words.old) (W.sheet words.new) }
    ensures spends { Spends (dropping_puts (length (W.sheet words.old).words)) (W.sheet words.old) (W.sheet words.new) }
    ensures absent { result ≡ Ok None → (W.sheet words.new).words ≡ (W.sheet words.old).words }
    ensures removes { (es : List (ℕ × ℕ)) → IsIndex (W.sheet words.old).words es
        → RemovesWithin key es removal_pages left (W.sheet words.old) result (W.sheet words.new) }
{
    let was = look_up(words, key)?;
    let Some(value) = was.value else {
        return Ok(None);
    };
    if left < most_removal_pages(was.depth) {
        return Err(ChangeFault::Room);
    }
    let pairs = words.load(3)?;
    match remove_inside(words, was.depth, key, pairs - 1) {
        Ok(()) => Ok(Some(value)),
        Err(Trouble::Off) => Err(ChangeFault::Off),
        Err(Trouble::Bad) => Err(ChangeFault::Bad),
    }
}

// the most pages in which an insertion puts words, and a removal, under so many levels of inner nodes
fn most_insertion_pages(depth: u32) -> u32
    requires { depth ≤ 6 }
    ensures { result ≡ insertion_pages depth }
{
    4 * depth + 7
}

fn most_removal_pages(depth: u32) -> u32
    requires { depth ≤ 6 }
    ensures { result ≡ removal_pages depth }
{
    4 * depth + 4
}
