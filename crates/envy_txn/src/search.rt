ghost use Rattle.std.specs.Prelude.{◌≡◌, ◌≢◌, ℕ, ◌<◌, ◌≤◌, true, length, slice_set, slice_index_or, vec_capacity};
ghost use Rattle.envy_txn.specs.declared.entry.Entry.{Entry as AnEntry};
ghost use Rattle.envy_txn.specs.Entries.{pairs_in};
ghost use Rattle.envy_txn.specs.Owners.{owner_of};

use crate::entry::Entry;
use crate::pair::Pair;

/// The slot that owns a page, of entries of which only the one at this place may be the page's.
pub fn owner_at(entries: &[Entry], place: u32, page: u32) -> Option<u8>
    requires { (i : ℕ) (d : AnEntry) → i < length entries.now → (slice_index_or entries.now i d).live ≡ true
        → (slice_index_or entries.now i d).pair.page ≡ page → i ≡ place }
    ensures { result ≡ owner_of (pairs_in entries.now) page }
{
    if (place as usize) < entries.len() {
        let entry = entries[place as usize];
        if entry.live && entry.pair.page == page {
            return Some(entry.pair.slot);
        }
    }
    None
}

/// The slot that owns a page, of all entries.
pub fn owner_among(entries: &[Entry], page: u32) -> Option<u8>
    ensures { result ≡ owner_of (pairs_in entries.now) page }
{
    for entry in entries {
        if entry.live && entry.pair.page == page {
            return Some(entry.pair.slot);
        }
    }
    None
}

/// Lists the pairs of the entries that own.
pub fn list_live(entries: &[Entry], list: &mut Vec<Pair>)
    requires fits { length (pairs_in entries.now) ≤ vec_capacity list.old }
    ensures pairs { list.new.items ≡ pairs_in entries.now }
    ensures capacity { vec_capacity list.old ≤ vec_capacity list.new }
{
    list.clear();
    for entry in entries {
        if entry.live {
            list.push_reserved(entry.pair);
        }
    }
}

/// Notes the place of the entry of a page, where places are noted of it.
pub fn note(places: &mut [u32], page: u32, place: u32)
    ensures { places.new ≡ slice_set places.old page place }
{
    if (page as usize) < places.len() {
        places[page as usize] = place;
    }
}
