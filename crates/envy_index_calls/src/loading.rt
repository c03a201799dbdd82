// A bulk load of a map, leaf by leaf, each of which is one transaction.
ghost use Rattle.std.specs.Prelude.{◌≡◌, ◌+◌, ◌<◌, ◌≤◌, ◌^◌, [], false, length, slice_index, take, drop, IsTrue};
ghost use Rattle.envy_array.specs.Words.{Keeps, Spends};
ghost use Rattle.envy_btree.specs.Answers.{insert_puts};
ghost use Rattle.envy_btree.specs.Depths.{insertion_pages, most_levels};
ghost use Rattle.envy_btree.specs.Index.{IsIndex, most_pairs};
ghost use Rattle.envy_btree.specs.Tree.{Rising};
ghost use Rattle.envy_index_calls.specs.Loading.{IsLoaded, Loads, LoadsLeaf, LoadsNew, leaf_puts, load_puts};
ghost use Rattle.envy_index_calls.specs.Scanned.{pairs_in};

use crate::creation::mark_alone;
use crate::pairs::EnvyPair;
use envy_array::Words;
use envy_base::Trouble;
use envy_btree::{MOST_KEYS, TreeFault, append, leaf_size};

// Copies the pairs from a place on.
fn copy_part(pairs: &[EnvyPair], done: usize, part: &mut [(u64, u64)])
    requires { done + length part.old ≤ length pairs.now }
    ensures { part.new ≡ take (length part.old) (drop done (pairs_in pairs.now)) }
{
    for i in 0..part.len() {
        let pair = pairs[done + i];
        part[i] = (pair.key, pair.value);
    }
}

// Puts the pairs of one leaf more into a map, which has the first so many. The answer is how many it has then.
fn load_leaf<W: Words>(words: &mut W, pairs: &[EnvyPair], done: usize) -> Result<usize, TreeFault>
    requires shut { (W.sheet words.old).started ≡ false }
    requires room { insertion_pages (most_levels (length (W.sheet words.old).words)) ≤ (W.sheet words.old).room }
    requires size { length (W.sheet words.old).words ≤ 2 ^ 29 }
    requires loaded { IsLoaded (W.sheet words.old).words (pairs_in pairs.now) done }
    requires more { done < length pairs.now }
    requires rising { Rising 0 (2 ^ 64) (pairs_in pairs.now) }
    requires few { length pairs.now ≤ most_pairs (W.sheet words.old).words }
    ensures keeps { Keeps (W.sheet words.old) (W.sheet words.new) }
    ensures spends { Spends (insert_puts (length (W.sheet words.old).words)) (W.sheet words.old) (W.sheet words.new) }
    ensures shut { (W.sheet words.new).started ≡ false }
    ensures loads { LoadsLeaf (pairs_in pairs.now) done (W.sheet words.old) result (W.sheet words.new) }
{
    let count = leaf_size(pairs.len() - done);
    let mut buffer = [(0, 0); MOST_KEYS];
    let part = &mut buffer[..count];
    copy_part(pairs, done, part);
    let end = done + count;
    match append(words, pairs[done].key, part, end as u64) {
        Ok(()) => Ok(end),
        Err(fault) => Err(fault),
    }
}

// Puts pairs into a map that has none and no root.
fn load_leaves<W: Words>(words: &mut W, pairs: &[EnvyPair]) -> Result<(), TreeFault>
    requires on { IsTrue (W.sheet words.old).on }
    requires shut { (W.sheet words.old).started ≡ false }
    requires room { insertion_pages (most_levels (length (W.sheet words.old).words)) ≤ (W.sheet words.old).room }
    requires size { length (W.sheet words.old).words ≤ 2 ^ 29 }
    requires map { IsIndex (W.sheet words.old).words [] }
    requires root { slice_index (W.sheet words.old).words 0 ≡ 0 }
    requires rising { Rising 0 (2 ^ 64) (pairs_in pairs.now) }
    requires few { length pairs.now ≤ most_pairs (W.sheet words.old).words }
    ensures keeps { Keeps (W.sheet words.old) (W.sheet words.new) }
    ensures spends { Spends (leaf_puts (length (W.sheet words.old).words) (length pairs.now))
        (W.sheet words.old) (W.sheet words.new) }
    ensures shut { (W.sheet words.new).started ≡ false }
    ensures loads { Loads (pairs_in pairs.now) (W.sheet words.old) result (W.sheet words.new) }
{
    let mut done = 0;
    while done < pairs.len() {
        done = load_leaf(words, pairs, done)?;
    }
    Ok(())
}

/// Makes a map of these pairs, which rise, whatever the words are. A first transaction makes a map of none, and each
/// leaf is a further one.
pub(crate) fn load_new<W: Words>(words: &mut W, pairs: &[EnvyPair]) -> Result<(), TreeFault>
    requires shut { (W.sheet words.old).started ≡ false }
    requires room { insertion_pages (most_levels (length (W.sheet words.old).words)) ≤ (W.sheet words.old).room }
    requires least { 640 ≤ length (W.sheet words.old).words }
    requires size { length (W.sheet words.old).words ≤ 2 ^ 29 }
    requires rising { Rising 0 (2 ^ 64) (pairs_in pairs.now) }
    requires few { length pairs.now ≤ most_pairs (W.sheet words.old).words }
    ensures keeps { Keeps (W.sheet words.old) (W.sheet words.new) }
    ensures spends { Spends (load_puts (length (W.sheet words.old).words) (length pairs.now))
        (W.sheet words.old) (W.sheet words.new) }
    ensures shut { (W.sheet words.new).started ≡ false }
    ensures loads { LoadsNew (pairs_in pairs.now) (W.sheet words.old) result (W.sheet words.new) }
{
    match mark_alone(words) {
        Ok(()) => load_leaves(words, pairs),
        Err(Trouble::Off) => Err(TreeFault::Off),
        Err(Trouble::Bad) => Err(TreeFault::Bad),
    }
}
