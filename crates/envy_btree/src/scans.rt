ghost use Rattle.std.specs.Prelude.{◌≡◌, ◌≤◌, ◌+◌, ◌^◌, ℕ, List, length, IsTrue, IfOk, drop, IfSome, Some, false};
ghost use Rattle.envy_array.specs.Words.{Spends, Works};
ghost use Rattle.envy_btree.specs.Answers.{Answers, Counts, Finds, IsWritten};
ghost use Rattle.envy_btree.specs.Index.{IsIndex};
ghost use Rattle.envy_btree.specs.Looking.{Looks, Powers, Sees, pairs_by};
ghost use Rattle.envy_btree.specs.Nearest.{IsLeastFrom, IsGreatestTo, pairs_from, pairs_to};

use crate::fault::LookFault;
use crate::sizes::LEAST_WORDS;
use crate::turn::{Turn, take_turn};
use crate::way::Way;
use envy_array::Words;

/// Writes the pairs of the map from a key on, by rising key, into `out`: as many as it has room for, or all, and
/// answers how many. The rest of `out` stays; after an error nothing is said of it. A leaf is searched for once.
/// After fewer than `out` has room for there are no more. The map is as the words stand: if a transaction is open,
/// with what it put. `Broken` comes only if the words stand for no map.
pub fn scan<W: Words>(words: &mut W, key: u64, out: &mut [(u64, u64)]) -> Result<usize, LookFault>
    requires size { length (W.sheet words.old).words ≤ 2 ^ 29 }
    ensures works { Works 0 (W.sheet words.old) (W.sheet words.new) }
    ensures spends { Spends 0 (W.sheet words.old) (W.sheet words.new) }
    ensures same { IsTrue (W.sheet words.new).on → (W.sheet words.new).words ≡ (W.sheet words.old).words }
    ensures shut { (W.sheet words.old).started ≡ false → (W.sheet words.new).started ≡ false }
    ensures power { Powers result (W.sheet words.new) }
    ensures few { IfOk result (λ n. n ≤ length out.old) }
    ensures rest { IfOk result (λ n. drop n out.new ≡ drop n out.old) }
    ensures scans { (es : List (ℕ × ℕ)) → IsIndex (W.sheet words.old).words es → Answers (λ n.
        IsWritten (pairs_from key es) out.old out.new n) es (W.sheet words.old) result (W.sheet words.new) }
{
    walk(words, Way::Up, key, out)
}

/// The same of the pairs up to a key, by falling key.
pub fn scan_down<W: Words>(
    words: &mut W,
    key: u64,
    out: &mut [(u64, u64)],
) -> Result<usize, LookFault>
    requires size { length (W.sheet words.old).words ≤ 2 ^ 29 }
    ensures works { Works 0 (W.sheet words.old) (W.sheet words.new) }
    ensures spends { Spends 0 (W.sheet words.old) (W.sheet words.new) }
    ensures same { IsTrue (W.sheet words.new).on → (W.sheet words.new).words ≡ (W.sheet words.old).words }
    ensures shut { (W.sheet words.old).started ≡ false → (W.sheet words.new).started ≡ false }
    ensures power { Powers result (W.sheet words.new) }
    ensures few { IfOk result (λ n. n ≤ length out.old) }
    ensures rest { IfOk result (λ n. drop n out.new ≡ drop n out.old) }
    ensures scans { (es : List (ℕ × ℕ)) → IsIndex (W.sheet words.old).words es → Answers (λ n.
        IsWritten (pairs_to key es) out.old out.new n) es (W.sheet words.old) result (W.sheet words.new) }
{
    walk(words, Way::Down, key, out)
}

/// A [`scan`] on one way or the other: it goes leaf by leaf, until there is no more room or no more pair.
pub fn walk<W: Words>(
    words: &mut W,
    way: Way,
    key: u64,
    out: &mut [(u64, u64)],
) -> Result<usize, LookFault>
    requires size { length (W.sheet words.old).words ≤ 2 ^ 29 }
    ensures looks { Looks (W.sheet words.old) (W.sheet words.new) }
    ensures power { Powers result (W.sheet words.new) }
    ensures few { IfOk result (λ n. n ≤ length out.old) }
    ensures rest { IfOk result (λ n. drop n out.new ≡ drop n out.old) }
    ensures scans { (es : List (ℕ × ℕ)) → IsIndex (W.sheet words.old).words es → Sees (λ n.
        IsWritten (pairs_by way key es) out.old out.new n) result }
{
    let mut now = Turn {
        filled: 0,
        next: Some(key),
    };
    while let Some(key) = now.next {
        now = take_turn(words, way, key, out, now.filled)?;
    }
    Ok(now.filled)
}

/// The pair of the map with the least key that is at least `key`, or none. It is the first of a [`scan`].
pub fn next<W: Words>(words: &mut W, key: u64) -> Result<Option<(u64, u64)>, LookFault>
    requires size { length (W.sheet words.old).words ≤ 2 ^ 29 }
    ensures works { Works 0 (W.sheet words.old) (W.sheet words.new) }
    ensures spends { Spends 0 (W.sheet words.old) (W.sheet words.new) }
    ensures same { IsTrue (W.sheet words.new).on → (W.sheet words.new).words ≡ (W.sheet words.old).words }
    ensures shut { (W.sheet words.old).started ≡ false → (W.sheet words.new).started ≡ false }
    ensures power { Powers result (W.sheet words.new) }
    ensures finds { (es : List (ℕ × ℕ)) → IsIndex (W.sheet words.old).words es
        → Finds (IsLeastFrom key es) es (W.sheet words.old) result (W.sheet words.new) }
{
    let mut pair = [(0, 0)];
    let count = scan(words, key, &mut pair)?;
    Ok(if count == 0 { None } else { Some(pair[0]) })
}

/// The pair of the map with the least key above `key`, or none. A loop that begins with [`next`] and goes on with
/// this call at each key that it was answered sees every pair once, by rising key.
pub fn next_above<W: Words>(words: &mut W, key: u64) -> Result<Option<(u64, u64)>, LookFault>
    requires size { length (W.sheet words.old).words ≤ 2 ^ 29 }
    ensures works { Works 0 (W.sheet words.old) (W.sheet words.new) }
    ensures spends { Spends 0 (W.sheet words.old) (W.sheet words.new) }
    ensures same { IsTrue (W.sheet words.new).on → (W.sheet words.new).words ≡ (W.sheet words.old).words }
    ensures shut { (W.sheet words.old).started ≡ false → (W.sheet words.new).started ≡ false }
    ensures power { Powers result (W.sheet words.new) }
    ensures finds { (es : List (ℕ × ℕ)) → IsIndex (W.sheet words.old).words es
        → Finds (IsLeastFrom (key + 1) es) es (W.sheet words.old) result (W.sheet words.new) }
{
    match key.checked_add(1) {
        Some(above) => next(words, above),
        None => nothing_above(words),
    }
}

// No key is above the greatest number. Without power that isn't answered.
fn nothing_above<W: Words>(words: &mut W) -> Result<Option<(u64, u64)>, LookFault>
    ensures works { Works 0 (W.sheet words.old) (W.sheet words.new) }
    ensures spends { Spends 0 (W.sheet words.old) (W.sheet words.new) }
    ensures same { IsTrue (W.sheet words.new).on → (W.sheet words.new).words ≡ (W.sheet words.old).words }
    ensures shut { (W.sheet words.old).started ≡ false → (W.sheet words.new).started ≡ false }
    ensures power { Powers result (W.sheet words.new) }
    ensures finds { (es : List (ℕ × ℕ)) → IsIndex (W.sheet words.old).words es
        → Finds (IsLeastFrom (2 ^ 64) es) es (W.sheet words.old) result (W.sheet words.new) }
{
    let _pairs = count(words)?;
    Ok(None)
}

/// The pair of the map with the greatest key that is at most `key`, or none. It is the first of a [`scan_down`].
pub fn last<W: Words>(words: &mut W, key: u64) -> Result<Option<(u64, u64)>, LookFault>
    requires size { length (W.sheet words.old).words ≤ 2 ^ 29 }
    ensures works { Works 0 (W.sheet words.old) (W.sheet words.new) }
    ensures spends { Spends 0 (W.sheet words.old) (W.sheet words.new) }
    ensures same { IsTrue (W.sheet words.new).on → (W.sheet words.new).words ≡ (W.sheet words.old).words }
    ensures shut { (W.sheet words.old).started ≡ false → (W.sheet words.new).started ≡ false }
    ensures power { Powers result (W.sheet words.new) }
    ensures finds { (es : List (ℕ × ℕ)) → IsIndex (W.sheet words.old).words es
        → Finds (IsGreatestTo key es) es (W.sheet words.old) result (W.sheet words.new) }
{
    let mut pair = [(0, 0)];
    let count = scan_down(words, key, &mut pair)?;
    Ok(if count == 0 { None } else { Some(pair[0]) })
}

/// How many pairs the map has. No node is read.
pub fn count<W: Words>(words: &mut W) -> Result<u64, LookFault>
    ensures works { Works 0 (W.sheet words.old) (W.sheet words.new) }
    ensures spends { Spends 0 (W.sheet words.old) (W.sheet words.new) }
    ensures same { IsTrue (W.sheet words.new).on → (W.sheet words.new).words ≡ (W.sheet words.old).words }
    ensures shut { (W.sheet words.old).started ≡ false → (W.sheet words.new).started ≡ false }
    ensures power { Powers result (W.sheet words.new) }
    ensures counts { (es : List (ℕ × ℕ)) → IsIndex (W.sheet words.old).words es
        → Counts es (W.sheet words.old) result (W.sheet words.new) }
{
    if words.size() < LEAST_WORDS {
        return Err(LookFault::Broken);
    }
    let pairs = words.load(3)?;
    Ok(pairs)
}
