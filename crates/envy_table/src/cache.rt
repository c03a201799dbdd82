ghost use Rattle.std.specs.Prelude.{◌≡◌, ℕ, ◌<◌, ◌≤◌, false, IsTrue, List, length, Option, None, Some, IfOk, IfNone, IfSome, OnOk, OnErr, MatchResult, slice_set};
ghost use Rattle.envy_base.specs.declared.fields.Place.{Place};
ghost use Rattle.envy_soundness.specs.Sound.{IsSound};
ghost use Rattle.envy_map.specs.Fields.{chart, place as place_of};
ghost use Rattle.envy_map.specs.Writes.{Gives};
ghost use Rattle.envy_table.specs.Agreement.{AreCurrent};
ghost use Rattle.envy_table.specs.Entries.{entry, entry_of, is_hit, counted, filled, retargeted, vacant};
ghost use Rattle.envy_table.specs.Hits.{Accesses, Rests, Empties};

use envy_base::{Board, NoMemory, Off, Place};
use envy_map::place;
use std::alloc::Global;
use std::marker::Model;

/// A cache of places of pages, which counts its hits and misses.
#[derive(Drop)]
pub struct Cache {
    entries: Vec<Option<(u32, Place)>>,
    hits: u64,
    misses: u64,
}

impl Model for Cache {
    ghost use Rattle.std.specs.Prelude.{◌<◌, ◌^◌, vec_len};
    ghost use Rattle.envy_table.specs.Entries.{Translations};

    ghost Value = { Translations };

    ghost view = { λ a. record { entries = a.entries.items; hits = a.hits; misses = a.misses } };

    ghost invariant = { λ a. (0 < vec_len a.entries) × (vec_len a.entries < 2 ^ 32) };
}

impl Cache {
    /// So many entries, none of which holds a page. No access has been counted.
    pub fn new(alloc: Global, entries: u32) -> Result<Cache, NoMemory>
        requires { 1 ≤ entries }
        ensures start { IfOk result (λ cache. cache ≡ record { entries = vacant entries; hits = 0; misses = 0 }) }
        ensures agrees { IfOk result (λ cache. (pages : ℕ) (places : List (Option Place))
            → AreCurrent pages places cache.entries) }
        ensures size { IfOk result (λ cache. length cache.entries ≡ entries) }
    {
        Ok(Cache {
            entries: vec![in alloc; None; entries as usize]?,
            hits: 0,
            misses: 0,
        })
    }

    /// The place of a page, from the page's entry where that holds it, else from the table. The entry holds
    /// the page afterwards. `Off` where power is off, and then no access is counted.
    #[tactic(auto, unfolding(envy_base::specs::Counting::up))]
    #[inline(always)]
    pub fn translate<B: Board>(&mut self, board: &B, page: u32) -> Result<Place, Off>
        requires page { page < (B.state board.now).shape.pages }
        requires sound { IsTrue (B.state board.now).on → IsSound (chart (B.state board.now)) }
        requires agrees { IsTrue (B.state board.now).on
            → AreCurrent (B.state board.now).shape.pages (chart (B.state board.now)).fields.places self.old.entries }
        ensures place { Gives (chart (B.state board.now)) (place_of (chart (B.state board.now)).fields page) result }
        ensures counts { MatchResult result
            (λ x. self.new ≡ record (counted self.old page) { entries = filled self.old.entries page x })
            (λ _. self.new ≡ self.old) }
        ensures accesses { OnOk result (Accesses page self.old self.new) }
        ensures rests { OnErr result (Rests self.old self.new) }
        ensures agrees { IsTrue (B.state board.now).on
            → AreCurrent (B.state board.now).shape.pages (chart (B.state board.now)).fields.places self.new.entries }
        ensures size { length self.new.entries ≡ length self.old.entries }
    {
        if !board.powered() {
            return Err(Off);
        }
        if let Some(kept) = self.kept(page) {
            self.hits = self.hits.saturating_add(1);
            return Ok(kept);
        }
        let found = place(board, page)?;
        self.misses = self.misses.saturating_add(1);
        self.fill(page, found);
        Ok(found)
    }

    /// The page has another place in the table now, so its entry keeps that one where it holds the page.
    pub fn retarget(&mut self, page: u32, place: Place)
        ensures becomes { self.new ≡ record self.old { entries = retargeted self.old.entries page place } }
        ensures rests { Rests self.old self.new }
        ensures agrees { (pages : ℕ) (places : List (Option Place)) → AreCurrent pages places self.old.entries
            → AreCurrent pages (slice_set places page (Some place)) self.new.entries }
        ensures size { length self.new.entries ≡ length self.old.entries }
    {
        if self.kept(page).is_some() {
            self.fill(page, place);
        }
    }

    /// No entry holds a page any more. The counts stay.
    pub fn empty(&mut self)
        ensures becomes { self.new ≡ record self.old { entries = vacant (length self.old.entries) } }
        ensures empties { Empties self.old self.new }
        ensures agrees { (pages : ℕ) (places : List (Option Place)) → AreCurrent pages places self.new.entries }
        ensures size { length self.new.entries ≡ length self.old.entries }
    {
        self.entries.fill(None);
    }

    /// How many accesses were to a page that its entry held.
    pub fn hits(&self) -> u64
        ensures { result ≡ self.now.hits }
    {
        self.hits
    }

    /// How many accesses were to a page that its entry didn't hold.
    pub fn misses(&self) -> u64
        ensures { result ≡ self.now.misses }
    {
        self.misses
    }

    // The place kept for a page, where its entry holds the page.
    fn kept(&self, page: u32) -> Option<Place>
        ensures hit { IfSome result (λ x. entry self.now.entries (entry_of self.now.entries page) ≡ Some (page, x)) }
        ensures miss { IfNone result (is_hit self.now.entries page ≡ false) }
        ensures some { 0 < length self.now.entries }
    {
        match self.entries[self.entry_of(page)] {
            Some((held, place)) if held == page => Some(place),
            _ => None,
        }
    }

    // Lets the page's entry hold it.
    fn fill(&mut self, page: u32, place: Place)
        ensures { self.new ≡ record self.old { entries = filled self.old.entries page place } }
    {
        let entry = self.entry_of(page);
        self.entries[entry] = Some((page, place));
    }

    // The number of the page's entry. A division of 32 bits is a third of one of 64.
    #[inline(always)]
    fn entry_of(&self, page: u32) -> usize
        ensures entry { result ≡ entry_of self.now.entries page }
        ensures within { result < length self.now.entries }
    {
        (page % self.entries.len() as u32) as usize
    }
}
