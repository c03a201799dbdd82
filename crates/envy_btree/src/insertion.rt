ghost use Rattle.std.specs.Prelude.{◌≡◌, ◌≢◌, ℕ, List, ◌+◌, ◌-◌, ◌*◌, ◌/◌, ◌^◌, ◌<◌, ◌≤◌, length, slice_index, false, OnOk, MatchOption, IsTrue};
ghost use Rattle.envy_array.specs.Words.{Spends, Works, Keeps, Fails};
ghost use Rattle.envy_btree.specs.Pairs.{with_pair};
ghost use Rattle.envy_btree.specs.Index.{IsPlanted, IsIndex, most_pairs};
ghost use Rattle.envy_btree.specs.Depths.{IsShallow, insertion_pages, most_levels};
ghost use Rattle.envy_btree.specs.Answers.{insert_puts, Inserts, Settles};

use crate::ends::close;
use crate::fault::TreeFault;
use crate::new_root::insert_at_root;
use crate::search::look_up;
use crate::sizes::most_levels;
use envy_array::Words;
use envy_base::Trouble;

/// Sets the value of a key, and answers the old one. A new key is refused as `Full` where the map has
/// `14 * (q - 8)` pairs, with `q` pieces in all. It is one transaction. In up to `2^25`
/// words it makes at most 841 puts, in at most 27 pages, and else 970 in 31: it needs no more room.
pub fn insert<W: Words>(words: &mut W, key: u64, value: u64) -> Result<Option<u64>, TreeFault>
    requires shut { (W.sheet words.old).started ≡ false }
    requires room { insertion_pages (most_levels (length (W.sheet words.old).words)) ≤ (W.sheet words.old).room }
    requires size { length (W.sheet words.old).words ≤ 2 ^ 29 }
    requires map { (es : List (ℕ × ℕ)) × IsIndex (W.sheet words.old).words es }
    ensures keeps { Keeps (W.sheet words.old) (W.sheet words.new) }
    ensures spends { Spends (insert_puts (length (W.sheet words.old).words)) (W.sheet words.old) (W.sheet words.new) }
    ensures shut { (W.sheet words.new).started ≡ false }
    ensures inserts { (es : List (ℕ × ℕ)) → IsIndex (W.sheet words.old).words es
        → Inserts key value es (W.sheet words.old) result (W.sheet words.new) }
{
    let was = look_up(words, key)?;
    let before = words.load(3)?;
    let pairs = count_with(was.value, before);
    if pairs > most_pairs(words.size()) {
        return Err(TreeFault::Full);
    }
    match insert_alone(words, key, value, pairs) {
        Ok(()) => Ok(was.value),
        Err(fault) => Err(fault),
    }
}

/// The most pairs of a map in so many words.
pub fn most_pairs(size: u32) -> u64
    requires { 640 ≤ size }
    ensures { result ≡ 14 * ((size - 64) / 64 - 8) }
{
    14 * u64::from((size - 64) / 64 - 8)
}

/// How many pairs there are once the key has a value.
pub(crate) fn count_with(was: Option<u64>, pairs: u64) -> u64
    requires { pairs < 2 ^ 32 }
    ensures { MatchOption was (result ≡ pairs + 1) (λ _. result ≡ pairs) }
{
    match was {
        None => pairs + 1,
        Some(_) => pairs,
    }
}

// Sets the value of a key, as a transaction of its own. There are so many pairs from then on.
fn insert_alone<W: Words>(words: &mut W, key: u64, value: u64, pairs: u64) -> Result<(), TreeFault>
    requires shut { (W.sheet words.old).started ≡ false }
    requires room { insertion_pages (most_levels (length (W.sheet words.old).words)) ≤ (W.sheet words.old).room }
    requires size { length (W.sheet words.old).words ≤ 2 ^ 29 }
    requires map { (es : List (ℕ × ℕ)) × IsIndex (W.sheet words.old).words es }
    ensures keeps { Keeps (W.sheet words.old) (W.sheet words.new) }
    ensures spends { Spends (insert_puts (length (W.sheet words.old).words)) (W.sheet words.old) (W.sheet words.new) }
    ensures shut { (W.sheet words.new).started ≡ false }
    ensures settles { (es : List (ℕ × ℕ)) → IsIndex (W.sheet words.old).words es
        → pairs ≡ length (with_pair key value es) → pairs ≤ most_pairs (W.sheet words.old).words
        → Settles es (with_pair key value es) (W.sheet words.old) result (W.sheet words.new) }
{
    let level = most_levels(words.size());
    words.start()?;
    let done = insert_inside(words, level, key, value, pairs);
    close(words, done)
}

/// Sets the value of a key within an open transaction, in a tree with at most so many levels of inner nodes. The number
/// of pairs is put first: the page of the head is then among those put, whoever changes it later.
pub(crate) fn insert_inside<W: Words>(
    words: &mut W,
    level: u32,
    key: u64,
    value: u64,
    pairs: u64,
) -> Result<(), Trouble>
    requires begun { IsTrue (W.sheet words.old).started }
    requires room { length (W.sheet words.old).pages + insertion_pages level ≤ (W.sheet words.old).room }
    requires levels { IsShallow (W.sheet words.old).words level }
    requires few { level ≤ 6 }
    requires map { (es : List (ℕ × ℕ)) × IsPlanted (W.sheet words.old).words es
        × (length es ≤ most_pairs (W.sheet words.old).words) }
    ensures works { Works (insertion_pages level) (W.sheet words.old) (W.sheet words.new) }
    ensures spends { Spends (129 * level + 196) (W.sheet words.old) (W.sheet words.new) }
    ensures fails { Fails (W.sheet words.old) result (W.sheet words.new) }
    ensures planted { (es : List (ℕ × ℕ)) → IsPlanted (W.sheet words.old).words es
        → length es ≤ most_pairs (W.sheet words.old).words
        → OnOk result (IsPlanted (W.sheet words.new).words (with_pair key value es)
        × (slice_index (W.sheet words.new).words 3 ≡ pairs)) }
{
    words.put(3, pairs)?;
    insert_at_root(words, level, key, value)
}
