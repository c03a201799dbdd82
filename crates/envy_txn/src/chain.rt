ghost use Rattle.std.specs.Prelude.{◌≡◌, ℕ, ◌^◌, ◌<◌, ◌≤◌, length, map, slice_index, slice_set, vec_capacity};
ghost use Rattle.envy_txn.specs.Entries.{IsChained, end_of, own_of, pairs_in};

use crate::entry::Entry;
use crate::pair::Pair;

/// How many slots a number of 8 bits may name.
pub const SLOT_NUMBERS: usize = 256;

/// No slot has an entry that owns.
pub fn no_chains() -> [u32; SLOT_NUMBERS]
    ensures none { (t : ℕ) → slice_index result t ≡ 0 }
    ensures long { length result ≡ 256 }
{
    [0; SLOT_NUMBERS]
}

/// Lists the pairs of a slot in order of owning.
pub fn list_chain(entries: &[Entry], newest: &[u32; SLOT_NUMBERS], t: u8, list: &mut Vec<Pair>)
    requires chained { IsChained entries.now newest.now }
    requires fits { length (pairs_in entries.now) ≤ vec_capacity list.old }
    ensures pairs { list.new.items ≡ own_of t (pairs_in entries.now) }
    ensures capacity { vec_capacity list.old ≤ vec_capacity list.new }
{
    list.clear();
    let mut at = newest[t as usize] as usize;
    while at != 0 {
        let entry = entries[at - 1];
        list.push_reserved(entry.pair);
        at = entry.older as usize;
    }
    list.reverse();
}

/// Lets the entries of a slot own no more, and tells how many they were.
pub fn end_chain(entries: &mut [Entry], newest: &mut [u32; SLOT_NUMBERS], t: u8) -> u32
    requires chained { IsChained entries.old newest.old }
    requires few { length entries.old < 2 ^ 32 }
    ensures entries { entries.new ≡ map (end_of t) entries.old }
    ensures newest { newest.new ≡ slice_set newest.old t 0 }
    ensures count { result ≡ length (own_of t (pairs_in entries.old)) }
{
    let mut at = newest[t as usize] as usize;
    let mut ended = 0;
    while at != 0 {
        let i = at - 1;
        at = entries[i].older as usize;
        entries[i].live = false;
        ended += 1;
    }
    newest[t as usize] = 0;
    ended
}
