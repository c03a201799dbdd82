ghost use Rattle.std.specs.Prelude.{◌≡◌, ◌⊎◌, ◌≤◌, ◌<◌, ◌+◌, ◌^◌, ◌++◌, ℕ, List, false, length, take, drop, IsTrue, MatchResult, IfOk, OnOk};
ghost use Rattle.envy_heap.specs.Pieces.{at};
ghost use Rattle.envy_btree.specs.Index.{IsIndex};
ghost use Rattle.envy_btree.specs.Looking.{
  IsShown,
  Looks,
  Powers,
  Sees,
  first_of,
  left_after,
  left_by,
  pair_at,
  pairs_by,
  place_by,
};

use crate::fault::LookFault;
use crate::leaf::leaf_for;
use crate::part::{Part, part_of};
use crate::sizes::{KEYS, MOST_KEYS, PIECE_WORDS, SLOTS};
use crate::way::Way;
use envy_array::Words;
use envy_base::Off;

/// Where a scan stands: how many pairs are written, and the key at which it goes on, if it does.
#[derive(Clone, Copy)]
pub(crate) struct Turn {
    pub(crate) filled: usize,
    pub(crate) next: Option<u64>,
}

/// One leaf of a scan: its pairs on this way from a key on are written after those that are, as many as there is
/// room for.
pub(crate) fn take_turn<W: Words>(
    words: &mut W,
    way: Way,
    key: u64,
    out: &mut [(u64, u64)],
    filled: usize,
) -> Result<Turn, LookFault>
    requires size { length (W.sheet words.old).words ≤ 2 ^ 29 }
    requires room { filled ≤ length out.old }
    ensures looks { Looks (W.sheet words.old) (W.sheet words.new) }
    ensures power { Powers result (W.sheet words.new) }
    ensures rest { IfOk result (λ x. (x.filled ≤ length out.old)
        × (drop x.filled out.new ≡ drop x.filled out.old) × (filled ≤ x.filled)) }
    ensures goes { IfOk result (λ x. left_after way x.next < left_by way key) }
    ensures shown { (es : List (ℕ × ℕ)) → IsIndex (W.sheet words.old).words es → Sees (λ x.
        IsShown way es (take filled out.old ++ pairs_by way key es) x.filled x.next out.new) result }
{
    let Some(leaf) = leaf_for(words, key)? else {
        return Ok(Turn { filled, next: None });
    };
    let part = part_of(words, leaf, way, key)?;
    let count = count_within(part, out.len() - filled);
    write_pairs(words, leaf.spot.piece, way, part.place, count, out, filled)?;
    let filled = filled + count as usize;
    if filled < out.len() {
        return Ok(Turn {
            filled,
            next: part.next,
        });
    }
    Ok(Turn { filled, next: None })
}

// how many of its pairs there is room for
fn count_within(part: Part, room: usize) -> u32
    ensures few { result ≤ part.count }
    ensures within { result ≤ room }
    ensures most { (result ≡ part.count) ⊎ (result ≡ room) }
{
    if room < part.count as usize {
        room as u32
    } else {
        part.count
    }
}

// Writes pairs of a leaf from one place on, on this way.
fn write_pairs<W: Words>(
    words: &mut W,
    piece: u32,
    way: Way,
    place: u32,
    count: u32,
    out: &mut [(u64, u64)],
    filled: usize,
) -> Result<(), Off>
    requires on { IsTrue (W.sheet words.old).on }
    requires within { at piece 63 < length (W.sheet words.old).words }
    requires low { place ≤ 31 }
    requires few { count ≤ 31 }
    requires places { (j : ℕ) → j < count → place_by way place j < 31 }
    requires room { filled + count ≤ length out.old }
    ensures looks { Looks (W.sheet words.old) (W.sheet words.new) }
    ensures power { MatchResult result (λ _. IsTrue (W.sheet words.new).on) (λ _. (W.sheet words.new).on ≡ false) }
    ensures list { OnOk result (take (filled + count) out.new
        ≡ take filled out.old ++ first_of (λ j. pair_at (W.sheet words.old).words piece (place_by way place j)) count) }
    ensures rest { OnOk result (drop (filled + count) out.new ≡ drop (filled + count) out.old) }
{
    let node = PIECE_WORDS + PIECE_WORDS * piece;
    let mut keys = [0; MOST_KEYS];
    let mut values = [0; MOST_KEYS];
    words.load_run(node + KEYS, &mut keys)?;
    words.load_run(node + SLOTS, &mut values)?;
    for j in 0..count {
        let i = place_at(way, place, j) as usize;
        out[filled + j as usize] = (keys[i], values[i]);
    }
    Ok(())
}

// a place on the way
fn place_at(way: Way, place: u32, j: u32) -> u32
    requires { place + j < 2 ^ 32 }
    ensures { result ≡ place_by way place j }
{
    match way {
        Way::Up => place + j,
        Way::Down => place.saturating_sub(1).saturating_sub(j),
    }
}
