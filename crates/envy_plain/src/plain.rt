ghost use Rattle.std.specs.Prelude.{◌≡◌, ◌≢◌, ◌*◌, ◌<◌, ◌≤◌, length, slice_index, MatchResult, MatchBool, IfOk, Some, None, not, position, replicate};
ghost use Rattle.envy_array.specs.Array.{Saved, page_of, slot_of, owner, saving, with_slot, stored, restarted, zeros};
ghost use Rattle.envy_base.specs.Shape.{IsShape};
ghost use Rattle.envy_array.specs.Step.{Step, MayOwn, Load, Look, Store, Begin, Put, Commit, Abort, Word, Started, Done};
ghost use Rattle.envy_plain.specs.Refusals.{answer_of};

use crate::refusal::Refusal;
use crate::saved_word::{SavedWord, forget, release, restore, word_before};
use envy_base::{NoMemory, PAGE_WORDS, Shape};
use std::alloc::Global;
use std::marker::Model;

/// The transaction slots.
const SLOTS: usize = 64;

/// An array of words of 64 bits, 32 to a page, with 64 transaction slots. A page is owned by the open
/// slot that stored into it, until the slot closes.
///
/// A refused call leaves the array as it was.
#[derive(Drop)]
pub struct Plain {
    words: Vec<u64>,
    active: [bool; SLOTS],
    /// The words that the open slots have stored over, the oldest first.
    saved: Vec<SavedWord>,
    /// For each page the slot that owns it.
    owners: Vec<Option<u8>>,
    /// How many pages have an owner, and how many may have one.
    owned: u32,
    shadows: u32,
}

impl Model for Plain {
    ghost use Rattle.std.specs.Prelude.{vec_capacity};
    ghost use Rattle.envy_array.specs.Array.{Array};
    ghost use Rattle.envy_plain.specs.Fields.{array_in, IsPlain};

    ghost Value = { Array };

    ghost view = { λ a. array_in a.words.items a.active a.saved.items a.shadows };

    ghost invariant = { λ a.
        IsPlain a.words.items a.active a.saved.items a.owners.items a.owned a.shadows (vec_capacity a.saved) };
}

impl Plain {
    ghost use Rattle.envy_plain.specs.Fields.{saved_words};

    /// An array of zeros of the shape's pages, with no slot open. It takes all memory that the machine
    /// ever needs: beside the words, room to save 32 words for each page that may be owned. No other
    /// call takes any.
    pub fn new(alloc: Global, shape: &Shape) -> Result<Plain, NoMemory>
        requires { IsShape shape.now }
        ensures { IfOk result (λ plain. plain ≡ zeros shape.now.pages shape.now.shadows) }
    {
        let pages = shape.pages as usize;
        Ok(Plain {
            words: vec![in alloc; 0; PAGE_WORDS as usize * pages]?,
            active: [false; SLOTS],
            saved: Vec::with_capacity(alloc, PAGE_WORDS as usize * shape.shadows as usize)?,
            owners: unowned(alloc, pages)?,
            owned: 0,
            shadows: shape.shadows,
        })
    }

    /// The word at address `a`, with the stores of open slots. Refused as `Range`.
    pub fn load(&self, a: u32) -> Result<u64, Refusal>
        ensures { MatchResult result
            (λ w. Step self.now (Load a) (Word w) self.now)
            (λ e. Step self.now (Load a) (answer_of e) self.now) }
    {
        self.words.get(a as usize).copied().ok_or(Refusal::Range)
    }

    /// The word at address `a`, without the stores of open slots. Refused as `Range`.
    pub fn look(&self, a: u32) -> Result<u64, Refusal>
        ensures { MatchResult result
            (λ w. Step self.now (Look a) (Word w) self.now)
            (λ e. Step self.now (Look a) (answer_of e) self.now) }
    {
        let word = self.load(a)?;
        Ok(word_before(&self.saved, a).unwrap_or(word))
    }

    /// Stores `w` at address `a`, in a page that no slot owns. Refused as `Range`, or as `Held` by the
    /// slot that owns the page.
    pub fn store(&mut self, a: u32, w: u64) -> Result<(), Refusal>
        ensures { MatchResult result
            (λ _. Step self.old (Store a w) Done self.new)
            (λ e. Step self.old (Store a w) (answer_of e) self.new) }
    {
        if let Some(slot) = self.owner_at(a)? {
            return Err(Refusal::Held(slot));
        }
        self.write(a, w);
        Ok(())
    }

    /// Opens the lowest closed slot, 0 to 63, and answers it. Refused as `Busy`.
    pub fn begin(&mut self) -> Result<u8, Refusal>
        ensures { MatchResult result
            (λ t. Step self.old Begin (Started t) self.new)
            (λ e. Step self.old Begin (answer_of e) self.new) }
    {
        let Some(slot) = first_closed(&self.active) else {
            return Err(Refusal::Busy);
        };
        self.active[slot] = true;
        Ok(slot as u8)
    }

    /// Stores `w` at address `a` for the open slot `t`, which owns the page from then on. Refused as
    /// `Range`, as `Closed`, as `Held` by another slot, or as `Full`, in this order.
    pub fn put(&mut self, t: u8, a: u32, w: u64) -> Result<(), Refusal>
        ensures { MatchResult result
            (λ _. Step self.old (Put t a w) Done self.new)
            (λ e. Step self.old (Put t a w) (answer_of e) self.new) }
    {
        let owner = self.owner_at(a)?;
        if !self.is_open(t) {
            return Err(Refusal::Closed);
        }
        match owner {
            Some(slot) if slot != t => return Err(Refusal::Held(slot)),
            None if self.owned == self.shadows => return Err(Refusal::Full),
            _ => {}
        }
        self.save(t, a);
        self.write(a, w);
        Ok(())
    }

    /// Closes slot `t`, whose words stay. Refused as `Closed`.
    pub fn commit(&mut self, t: u8) -> Result<(), Refusal>
        ensures { MatchResult result
            (λ _. Step self.old (Commit t) Done self.new)
            (λ e. Step self.old (Commit t) (answer_of e) self.new) }
    {
        if !self.is_open(t) {
            return Err(Refusal::Closed);
        }
        self.close(t);
        Ok(())
    }

    /// Puts back the words that slot `t` has stored over, and closes it. Refused as `Closed`.
    pub fn abort(&mut self, t: u8) -> Result<(), Refusal>
        ensures { MatchResult result
            (λ _. Step self.old (Abort t) Done self.new)
            (λ e. Step self.old (Abort t) (answer_of e) self.new) }
    {
        if !self.is_open(t) {
            return Err(Refusal::Closed);
        }
        restore(&mut self.words, &self.saved, t);
        self.close(t);
        Ok(())
    }

    /// What a failure of power leaves: every open slot is aborted.
    pub fn power(&mut self)
        ensures { self.new ≡ restarted self.old }
    {
        // the loop begins with the invariant
        let _ = &self.words;
        for t in 0..SLOTS as u8 {
            let _ = self.abort(t);
        }
    }

    /// How many words the open slots have saved: never more than there is room for.
    pub fn saved_count(&self) -> usize
        ensures count { result ≡ saved_words self.now }
        ensures room { result ≤ PAGE_WORDS * self.now.shadows }
    {
        self.saved.len()
    }

    fn is_open(&self, t: u8) -> bool
        ensures { MatchBool result
            ((saved : Saved) × (slot_of self.now t ≡ Some saved))
            (slot_of self.now t ≡ None) }
    {
        self.active.get(t as usize).copied().unwrap_or(false)
    }

    // the slot that owns the page of an address
    fn owner_at(&self, a: u32) -> Result<Option<u8>, Refusal>
        ensures { MatchResult result
            (λ slot. (a < length self.now.words) × (slot ≡ owner self.now (page_of a)))
            (λ e. (e ≡ Refusal.Range) × (length self.now.words ≤ a)) }
    {
        self.owners
            .get((a / PAGE_WORDS) as usize)
            .copied()
            .ok_or(Refusal::Range)
    }

    fn write(&mut self, a: u32, w: u64)
        requires { a < length self.old.words }
        ensures { self.new ≡ stored self.old a w }
    {
        self.words[a as usize] = w;
    }

    // a slot's first store to an address saves the word and owns the page
    fn save(&mut self, t: u8, a: u32)
        requires in_range { a < length self.old.words }
        requires may { MayOwn self.old t (page_of a) }
        requires opened { (saved : Saved) × (slot_of self.old t ≡ Some saved) }
        ensures { (saved : Saved) → slot_of self.old t ≡ Some saved
            → self.new ≡ with_slot self.old t (Some (saving a (slice_index self.old.words a) saved)) }
    {
        if word_before(&self.saved, a).is_some() {
            return;
        }
        let word = SavedWord {
            slot: t,
            address: a,
            before: self.words[a as usize],
        };
        let Ok(()) = self.saved.push(word) else {
            unreachable!();
        };
        let page = (a / PAGE_WORDS) as usize;
        if self.owners[page].is_none() {
            self.owners[page] = Some(t);
            self.owned += 1;
        }
    }

    fn close(&mut self, t: u8)
        requires { (saved : Saved) × (slot_of self.old t ≡ Some saved) }
        ensures { self.new ≡ with_slot self.old t None }
    {
        self.owned -= release(&mut self.owners, &self.saved, t);
        forget(&mut self.saved, t);
        self.active[t as usize] = false;
    }
}

// no owner for so many pages
fn unowned(alloc: Global, pages: usize) -> Result<Vec<Option<u8>>, NoMemory>
    ensures { IfOk result (λ owners. owners.items ≡ replicate pages None) }
{
    vec![in alloc; None; pages]
}

fn first_closed(active: &[bool]) -> Option<usize>
    ensures { result ≡ position not active.now }
{
    active.iter().position(|is_open| !is_open)
}
