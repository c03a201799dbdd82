ghost use Rattle.std.specs.Prelude.{◌≡◌, ◌≢◌, ◌↔◌, ◌<◌, ◌≤◌, false, IsTrue, [], ◌∷◌, ◌++◌, length, None, Some, All, IsNone, IfOk, OnOk, OnErr};
ghost use Rattle.envy_map.specs.Codes.{IsUndo};
ghost use Rattle.envy_map.specs.Fields.{chart};
ghost use Rattle.envy_soundness.specs.Power.{power_of};
ghost use Rattle.envy_soundness.specs.Same.{SameWords};
ghost use Rattle.envy_soundness.specs.Sound.{IsSound};
ghost use Rattle.envy_txn.specs.Owners.{IsOwnership, AreOwned, owner_of, others_of};
ghost use Rattle.envy_txn.specs.Owning.{MayOwn, Owns};

use crate::ledger::Ledger;
use crate::pair::Pair;
use crate::undos::slot_in;
use envy_base::{Board, NoMemory, Off, Undo};
use envy_soundness::own_page;
use std::alloc::Global;
use std::marker::Model;

/// The pages that open transactions own, in the order in which they came to be owned.
#[derive(Drop)]
pub struct Owned {
    pub(crate) ledger: Ledger,
    /// Lent to what goes over pairs. It has room for all that there may be.
    pub(crate) list: Vec<Pair>,
    limit: u32,
}

impl Model for Owned {
    ghost use Rattle.std.specs.Prelude.{vec_capacity};
    ghost use Rattle.envy_txn.specs.Entries.{IsOwned};
    ghost use Rattle.envy_txn.specs.Owners.{Ownership};

    ghost Value = { Ownership };

    ghost view = { λ a. record { pairs = a.ledger.pairs; limit = a.limit } };

    ghost invariant = { λ a. IsOwned a.ledger a.limit (vec_capacity a.list) };
}

impl Owned {
    /// No page is owned, and so many may be. It takes all memory that is ever needed; no other call takes
    /// any. The owner of a page is searched for among all entries.
    pub fn new(alloc: Global, limit: u32) -> Result<Owned, NoMemory>
        ensures { IfOk result (λ owned. owned ≡ record { pairs = []; limit = limit }) }
    {
        Owned::of_pages(alloc, limit, 0)
    }

    /// The same, where the owner of a page below `pages` is found at once.
    pub fn of_pages(alloc: Global, limit: u32, pages: u32) -> Result<Owned, NoMemory>
        ensures { IfOk result (λ owned. owned ≡ record { pairs = []; limit = limit }) }
    {
        // Twice the limit, so that more entries end between two packings than pages may be owned. No board has so many
        // shadows that twice their number doesn't fit.
        let ledger = Ledger::new(alloc, limit.saturating_mul(2), pages)?;
        let list = Vec::with_capacity(alloc, limit as usize)?;
        Ok(Owned {
            ledger,
            list,
            limit,
        })
    }

    /// The slot of the transaction that owns a page, or `None` where none does.
    pub fn owner(&self, page: u32) -> Option<u8>
        ensures value { result ≡ owner_of self.now.pairs page }
        ensures none { IsNone result ↔ All (λ e. e.page ≢ page) self.now.pairs }
        ensures whole { IsOwnership self.now }
    {
        self.ledger.owner(page)
    }

    /// How many pages are owned.
    pub fn count(&self) -> u32
        ensures value { result ≡ length self.now.pairs }
        ensures whole { IsOwnership self.now }
    {
        self.ledger.count()
    }

    /// Whether one more page may be owned.
    pub fn room(&self) -> bool
        ensures value { IsTrue result ↔ (length self.now.pairs < self.now.limit) }
        ensures whole { IsOwnership self.now }
    {
        self.count() < self.limit
    }

    /// Gives a page to an open transaction: its undo is written, which names the words that a restart
    /// leaves of the page and goes on to leave. No word changes. Without power nothing changes.
    #[inline(always)]
    pub fn own<B: Board>(&mut self, board: &mut B, page: u32, undo: Undo) -> Result<(), Off>
        requires ready { IsTrue (B.state board.old).on → MayOwn (chart (B.state board.old)) self.old.pairs page undo }
        requires limit { self.old.limit ≤ (B.state board.old).shape.shadows }
        requires page { page < (B.state board.old).shape.pages }
        requires undo { IsUndo undo }
        requires room { length self.old.pairs < self.old.limit }
        requires free { owner_of self.old.pairs page ≡ None }

        ensures same { IsSound (chart (B.state board.old))
            → SameWords 0 0 (chart (B.state board.old)) (chart (B.state board.new)) }
        ensures idle { (B.state board.old).on ≡ false → (B.state board.new ≡ B.state board.old)
            × (self.new ≡ self.old) }
        ensures agrees { let f = (chart (B.state board.new)).fields in
            IsTrue (B.state board.new).on → AreOwned f.slots f.undos self.new.pairs }
        ensures owns { OnOk result
            (Owns page undo (chart (B.state board.old)) self.old (chart (B.state board.new)) self.new) }
        ensures unchanged { OnErr result (self.new ≡ self.old) }
        ensures power { (B.state board.new).on ≡ power_of result }
    {
        let _ = &self.ledger;
        if !board.powered() {
            return Err(Off);
        }
        let Some(slot) = slot_in(undo) else {
            unreachable!();
        };
        own_page(board, page, undo)?;
        self.add(Pair { page, slot });
        Ok(())
    }

    /// No page is owned any more.
    pub fn forget(&mut self)
        ensures { self.new ≡ record self.old { pairs = [] } }
    {
        self.ledger.clear();
    }

    /// A page is owned that wasn't.
    #[inline(always)]
    fn add(&mut self, pair: Pair)
        requires room { length self.old.pairs < self.old.limit }
        requires free { owner_of self.old.pairs pair.page ≡ None }
        ensures { self.new ≡ record self.old { pairs = self.old.pairs ++ pair ∷ [] } }
    {
        self.ledger.append(pair);
    }

    /// The slot owns no page any more.
    pub(crate) fn leave(&mut self, t: u8)
        ensures { self.new ≡ record self.old { pairs = others_of t self.old.pairs } }
    {
        self.ledger.leave(t);
        self.ledger.rewind();
        self.ledger.make_room(self.limit, &mut self.list);
    }
}
