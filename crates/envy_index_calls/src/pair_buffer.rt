// Pairs of a map in an array of C's.
ghost use Rattle.std.specs.Prelude.{◌≡◌, ◌≤◌, ◌+◌, ◌-◌, ◌^◌, ◌++◌, ℕ, List, length, take, drop, IfOk};
ghost use Rattle.envy_btree.specs.Answers.{IsWritten};
ghost use Rattle.envy_btree.specs.Index.{IsIndex};
ghost use Rattle.envy_btree.specs.Looking.{IsShown, Looks, Powers, Sees, pairs_by};
ghost use Rattle.envy_index_calls.specs.Scanned.{IsAfter, left_to, pairs_in};

use crate::pairs::EnvyPair;
use envy_array::Words;
use envy_btree::{LookFault, Way, walk};

// So many pairs of a scan are copied at a time.
const PART_PAIRS: usize = 64;

// Where a scan stands: how many pairs are written, and the key at which it goes on, if it does.
#[derive(Clone, Copy)]
struct Turn {
    filled: usize,
    next: Option<u64>,
}

/// Writes the pairs of the map on a way from a key on into an array of C's: as many as it has room for, or all. The
/// rest of the array stays.
pub(crate) fn fill<W: Words>(
    words: &mut W,
    way: Way,
    key: u64,
    out: &mut [EnvyPair],
) -> Result<usize, LookFault>
    requires size { length (W.sheet words.old).words ≤ 2 ^ 29 }
    ensures looks { Looks (W.sheet words.old) (W.sheet words.new) }
    ensures power { Powers result (W.sheet words.new) }
    ensures few { IfOk result (λ n. n ≤ length out.old) }
    ensures rest { IfOk result (λ n. drop n (pairs_in out.new) ≡ drop n (pairs_in out.old)) }
    ensures scans { (es : List (ℕ × ℕ)) → IsIndex (W.sheet words.old).words es → Sees (λ n.
        IsWritten (pairs_by way key es) (pairs_in out.old) (pairs_in out.new) n) result }
{
    let mut now = Turn {
        filled: 0,
        next: Some(key),
    };
    while let Some(key) = now.next {
        now = fill_part(words, way, key, out, now.filled)?;
    }
    Ok(now.filled)
}

// One part of a scan: pairs from a key on are written after those that are, as many as there is room for.
fn fill_part<W: Words>(
    words: &mut W,
    way: Way,
    key: u64,
    out: &mut [EnvyPair],
    filled: usize,
) -> Result<Turn, LookFault>
    requires size { length (W.sheet words.old).words ≤ 2 ^ 29 }
    requires room { filled ≤ length out.old }
    ensures looks { Looks (W.sheet words.old) (W.sheet words.new) }
    ensures power { Powers result (W.sheet words.new) }
    ensures rest { IfOk result (λ x. (filled ≤ x.filled) × (x.filled ≤ length out.old)
        × (drop x.filled (pairs_in out.new) ≡ drop x.filled (pairs_in out.old))) }
    ensures goes { IfOk result (λ x. left_to x.next (length out.old - x.filled) ≤ length out.old - filled) }
    ensures shown { (es : List (ℕ × ℕ)) → IsIndex (W.sheet words.old).words es → Sees (λ x.
        IsShown way es (take filled (pairs_in out.old) ++ pairs_by way key es) x.filled x.next (pairs_in out.new)) result }
{
    let mut pairs = [(0, 0); PART_PAIRS];
    let room = PART_PAIRS.min(out.len() - filled);
    let part = &mut pairs[..room];
    let count = walk(words, way, key, part)?;
    copy(&part[..count], out, filled);
    let filled = filled + count;
    if count < room || filled == out.len() {
        return Ok(Turn { filled, next: None });
    }
    let next = key_after(way, part[count - 1].0);
    Ok(Turn { filled, next })
}

// Copies pairs into an array, from a place on.
fn copy(pairs: &[(u64, u64)], out: &mut [EnvyPair], filled: usize)
    requires { filled + length pairs.now ≤ length out.old }
    ensures list { take (filled + length pairs.now) (pairs_in out.new) ≡ take filled (pairs_in out.old) ++ pairs.now }
    ensures rest { drop (filled + length pairs.now) (pairs_in out.new)
        ≡ drop (filled + length pairs.now) (pairs_in out.old) }
{
    for i in 0..pairs.len() {
        let (key, value) = pairs[i];
        out[filled + i] = EnvyPair { key, value };
    }
}

// The key that is next on a way, if there is one.
fn key_after(way: Way, key: u64) -> Option<u64>
    ensures { IsAfter way key result }
{
    match way {
        Way::Up => key.checked_add(1),
        Way::Down => key.checked_sub(1),
    }
}
