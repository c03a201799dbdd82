ghost use Rattle.std.specs.Prelude.{◌≡◌, ◌<◌, false, IsTrue, Some, AllPairs, OnOk, OnErr};
ghost use Rattle.envy_base.specs.declared.fields.Slot.TheVariants.{Active};
ghost use Rattle.envy_map.specs.Fields.{chart, with_fields, undo as undo_of};
ghost use Rattle.envy_map.specs.Writes.{with_slot, with_undo};
ghost use Rattle.envy_soundness.specs.Power.{power_of};
ghost use Rattle.envy_soundness.specs.Same.{SameWords};
ghost use Rattle.envy_soundness.specs.Sound.{IsSound, slot_named};
ghost use Rattle.envy_txn.specs.Owners.{AreApart, AreOwned};
ghost use Rattle.envy_txn.specs.Owning.{OwnersAgree, ReleasesAll};
ghost use Rattle.envy_txn.specs.Turns.{AreNamed, Releasing, ReleasedIn, IsDroppable, dropped_pool};

use crate::owned::Owned;
use crate::pair::Pair;
use envy_base::{Board, Off, Undo};
use envy_map::undo;
use envy_soundness::clear_settled_undo;
use envy_space::Space;

impl Owned {
    /// Lets a slot that has committed go of all its pages, in the order in which it came to own them: their
    /// undos become clear, and the rows that these named are dead. No word changes. Without power nothing
    /// changes.
    ///
    /// Owners, rows and references agree with the map as if the slot were still active.
    pub fn release_all<B: Board>(
        &mut self,
        board: &mut B,
        space: &mut Space,
        t: u8,
    ) -> Result<(), Off>
        requires releasing { IsTrue (B.state board.old).on → Releasing (chart (B.state board.old)) space.old t }
        requires slot { t < 64 }
        requires owned { let f = with_slot t (Some Active) (chart (B.state board.old)).fields in
            IsTrue (B.state board.old).on → AreOwned f.slots f.undos self.old.pairs }
        requires shape { space.old.shape ≡ (B.state board.old).shape }

        ensures same { IsSound (chart (B.state board.old))
            → SameWords 0 0 (chart (B.state board.old)) (chart (B.state board.new)) }
        ensures idle { (B.state board.old).on ≡ false → (B.state board.new ≡ B.state board.old) × (self.new ≡ self.old)
            × (space.new ≡ space.old) }
        ensures releases { OnOk result
            (ReleasesAll t (chart (B.state board.old)) self.old (chart (B.state board.new)) self.new) }
        ensures agrees { IsTrue (B.state board.new).on
            → OwnersAgree (chart (B.state board.new)) self.new.pairs space.new }
        ensures unchanged { OnErr result (self.new ≡ self.old) }
        ensures shape { space.new.shape ≡ space.old.shape }
        ensures power { (B.state board.new).on ≡ power_of result }
    {
        if !board.powered() {
            return Err(Off);
        }
        self.ledger.list(t, &mut self.list);
        release_pairs(board, space, &self.list, t)?;
        self.leave(t);
        Ok(())
    }
}

/// Lets the slot go of the pages of its pairs.
fn release_pairs<B: Board>(
    board: &mut B,
    space: &mut Space,
    pairs: &[Pair],
    t: u8,
) -> Result<(), Off>
    requires releasing { Releasing (chart (B.state board.old)) space.old t }
    requires named { AreNamed t (chart (B.state board.old)).fields.undos pairs.now }
    requires apart { AllPairs AreApart pairs.now }

    ensures same { SameWords 0 0 (chart (B.state board.old)) (chart (B.state board.new)) }
    ensures releasing { OnOk result (Releasing (chart (B.state board.new)) space.new t) }
    ensures released { OnOk result (ReleasedIn pairs.now t (chart (B.state board.old)) (chart (B.state board.new))) }
    ensures shape { space.new.shape ≡ space.old.shape }
    ensures power { (B.state board.new).on ≡ power_of result }
{
    for pair in pairs {
        release_page(board, space, pair.page, t)?;
    }
    Ok(())
}

/// Clears the undo of a page of the slot, and notes that its row is dead.
fn release_page<B: Board>(board: &mut B, space: &mut Space, page: u32, t: u8) -> Result<(), Off>
    requires releasing { Releasing (chart (B.state board.old)) space.old t }
    requires page { page < (B.state board.old).shape.pages }
    requires names { slot_named (undo_of (chart (B.state board.old)).fields page) ≡ Some t }

    ensures same { SameWords 0 0 (chart (B.state board.old)) (chart (B.state board.new)) }
    ensures fields { OnOk result (chart (B.state board.new) ≡ with_fields (chart (B.state board.old))
        (with_undo page (Some Undo.Clear) (chart (B.state board.old)).fields)) }
    ensures releasing { OnOk result (Releasing (chart (B.state board.new)) space.new t) }
    ensures shape { space.new.shape ≡ space.old.shape }
    ensures power { (B.state board.new).on ≡ power_of result }
{
    let undo = undo(board, page)?;
    clear_settled_undo(board, page)?;
    note_dropped(space, undo);
    Ok(())
}

/// Notes that no page names the row of an undo that was cleared.
fn note_dropped(space: &mut Space, undo: Undo)
    requires { IsDroppable space.old undo }
    ensures { space.new ≡ dropped_pool undo space.old }
{
    if let Undo::Shadow { row, .. } = undo {
        space.note_dead(row);
    }
}
