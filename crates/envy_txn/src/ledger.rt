ghost use Rattle.std.specs.Prelude.{◌≡◌, ◌+◌, ◌^◌, ◌<◌, ◌≤◌, IsTrue, ◌↔◌, [], ◌∷◌, ◌++◌, length, vec_capacity, None, IfOk};
ghost use Rattle.std.specs.List.{AllPairs};
ghost use Rattle.envy_txn.specs.Entries.{own_of};
ghost use Rattle.envy_txn.specs.Owners.{AreApart, owner_of, others_of};

use crate::chain::{SLOT_NUMBERS, end_chain, list_chain, no_chains};
use crate::entry::Entry;
use crate::pair::Pair;
use crate::search::{list_live, note, owner_among, owner_at};
use envy_base::NoMemory;
use std::alloc::Global;
use std::marker::Model;

/// Entries in order of owning, of which each slot's are chained from the newest to the oldest, and where
/// the entry of each page stands.
///
/// An entry that owns no more stays until the ledger is packed or no page is owned: so a page gets its owner,
/// and a slot lets go of its pages, with no other entry touched.
#[derive(Drop)]
pub struct Ledger {
    entries: Vec<Entry>,
    /// One past the place of each slot's newest entry that owns, or 0.
    newest: [u32; SLOT_NUMBERS],
    /// The place of the entry of each page that is owned. Of any other page it may be any number.
    places: Vec<u32>,
    /// How many entries own.
    count: u32,
    room: u32,
}

impl Model for Ledger {
    ghost use Rattle.std.specs.Prelude.{length, vec_capacity};
    ghost use Rattle.envy_txn.specs.Entries.{Book, IsLedger, pairs_in};

    ghost Value = { Book };

    ghost view = { λ a. record { pairs = pairs_in a.entries.items; used = length a.entries.items; room = a.room } };

    ghost invariant = { λ a. IsLedger a.entries.items a.newest a.places.items a.count a.room (vec_capacity a.entries) };
}

impl Ledger {
    /// No page is owned. Pages below `pages` are found by their place, and others are searched for.
    pub fn new(alloc: Global, room: u32, pages: u32) -> Result<Ledger, NoMemory>
        ensures { IfOk result (λ ledger. ledger ≡ record { pairs = []; used = 0; room = room }) }
    {
        let entries = Vec::with_capacity(alloc, room as usize)?;
        let places = vec![in alloc; 0; pages as usize]?;
        Ok(Ledger {
            entries,
            newest: no_chains(),
            places,
            count: 0,
            room,
        })
    }

    /// How many pages are owned.
    pub fn count(&self) -> u32
        ensures { result ≡ length self.now.pairs }
    {
        self.count
    }

    /// Whether entries fit in until so many pages are owned.
    fn has_room(&self, limit: u32) -> bool
        ensures { IsTrue result ↔ (self.now.used + limit ≤ length self.now.pairs + self.now.room) }
    {
        self.entries.len() + limit as usize <= self.count as usize + self.room as usize
    }

    /// The slot that owns a page, or `None` where none does.
    pub fn owner(&self, page: u32) -> Option<u8>
        ensures { result ≡ owner_of self.now.pairs page }
    {
        if (page as usize) < self.places.len() {
            return owner_at(&self.entries, self.places[page as usize], page);
        }
        owner_among(&self.entries, page)
    }

    /// A page is owned that wasn't.
    #[inline(always)]
    pub fn append(&mut self, pair: Pair)
        requires room { self.old.used < self.old.room }
        requires free { owner_of self.old.pairs pair.page ≡ None }
        ensures { self.new ≡ record self.old { pairs = self.old.pairs ++ pair ∷ []; used = self.old.used + 1 } }
    {
        let place = self.entries.len() as u32;
        let older = self.newest[pair.slot as usize];
        self.entries.push_reserved(Entry {
            pair,
            live: true,
            older,
        });
        self.newest[pair.slot as usize] = place + 1;
        note(&mut self.places, pair.page, place);
        self.count += 1;
    }

    /// Lists the pairs of a slot in order of owning.
    #[inline(always)]
    pub fn list(&self, t: u8, list: &mut Vec<Pair>)
        requires fits { length self.now.pairs ≤ vec_capacity list.old }
        ensures pairs { list.new.items ≡ own_of t self.now.pairs }
        ensures capacity { vec_capacity list.old ≤ vec_capacity list.new }
    {
        list_chain(&self.entries, &self.newest, t, list);
    }

    /// The slot owns no page any more.
    pub fn leave(&mut self, t: u8)
        ensures { self.new ≡ record self.old { pairs = others_of t self.old.pairs } }
    {
        let ended = end_chain(&mut self.entries, &mut self.newest, t);
        self.count -= ended;
    }

    /// Has entries stand from the front again, where no page is owned.
    #[inline(always)]
    pub fn rewind(&mut self)
        ensures { self.new ≡ record self.old { used = self.new.used } }
    {
        if self.count == 0 {
            self.clear_ended();
        }
    }

    /// Leaves out all entries, of which none owns.
    fn clear_ended(&mut self)
        requires none { self.old.pairs ≡ [] }
        ensures { self.new ≡ record self.old { used = 0 } }
    {
        self.entries.clear();
    }

    /// No page is owned any more.
    pub fn clear(&mut self)
        ensures { self.new ≡ record self.old { pairs = []; used = 0 } }
    {
        self.entries.clear();
        self.newest = no_chains();
        self.count = 0;
    }

    /// Makes room for entries until so many pages are owned. The list is lent for it.
    ///
    /// With room for twice as many entries as there may be pairs this goes over all of them only once more
    /// of them have ended than there may be pairs, so an entry costs it a constant time in the mean.
    #[inline(always)]
    pub fn make_room(&mut self, limit: u32, list: &mut Vec<Pair>)
        requires apart { AllPairs AreApart self.old.pairs }
        requires few { length self.old.pairs ≤ limit }
        requires limit { limit ≤ self.old.room }
        requires fits { length self.old.pairs ≤ vec_capacity list.old }
        ensures room { self.new.used + limit ≤ length self.new.pairs + self.new.room }
        ensures pairs { self.new ≡ record self.old { used = self.new.used } }
        ensures capacity { vec_capacity list.old ≤ vec_capacity list.new }
    {
        if !self.has_room(limit) {
            self.pack(list);
        }
    }

    /// Leaves out the entries that own no more.
    #[inline(never)]
    fn pack(&mut self, list: &mut Vec<Pair>)
        requires apart { AllPairs AreApart self.old.pairs }
        requires few { length self.old.pairs ≤ self.old.room }
        requires fits { length self.old.pairs ≤ vec_capacity list.old }
        ensures packed { self.new ≡ record self.old { used = length self.old.pairs } }
        ensures capacity { vec_capacity list.old ≤ vec_capacity list.new }
    {
        self.list_all(list);
        self.refill(list);
    }

    /// These pairs alone stand in the ledger.
    fn refill(&mut self, pairs: &[Pair])
        requires apart { AllPairs AreApart pairs.now }
        requires few { length pairs.now ≤ self.old.room }
        ensures { self.new ≡ record self.old { pairs = pairs.now; used = length pairs.now } }
    {
        self.clear();
        for pair in pairs {
            self.append(*pair);
        }
    }

    /// Lists all pairs in order of owning.
    fn list_all(&self, list: &mut Vec<Pair>)
        requires fits { length self.now.pairs ≤ vec_capacity list.old }
        ensures pairs { list.new.items ≡ self.now.pairs }
        ensures capacity { vec_capacity list.old ≤ vec_capacity list.new }
    {
        list_live(&self.entries, list);
    }
}
