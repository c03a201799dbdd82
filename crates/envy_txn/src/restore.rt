ghost use Rattle.std.specs.Prelude.{◌≡◌, ◌<◌, ◌==◌, ℕ, not, false, IsTrue, Some, AllPairs, Any, OnOk, OnErr};
ghost use Rattle.std.specs.List.{filter};
ghost use Rattle.envy_base.specs.declared.fields.Place.{Place as APlace};
ghost use Rattle.envy_map.specs.Fields.{chart, with_fields, undo as undo_of};
ghost use Rattle.envy_map.specs.Writes.{with_place, with_undo};
ghost use Rattle.envy_soundness.specs.Power.{power_of};
ghost use Rattle.envy_soundness.specs.Same.{SameDurable};
ghost use Rattle.envy_soundness.specs.Sound.{IsSound, slot_named};
ghost use Rattle.envy_soundness.specs.Words.{kept};
ghost use Rattle.envy_table.specs.Hits.{Rests};
ghost use Rattle.envy_txn.specs.Owners.{AreApart, AreOwned};
ghost use Rattle.envy_txn.specs.Owning.{RestoresAll, TurnsAgree};
ghost use Rattle.envy_txn.specs.Turns.{AreNamed, Restoring, RestoredIn, IsLeavable, is_among, left_pool, left_held};

use crate::owned::Owned;
use crate::pair::Pair;
use crate::undos::{place_in, put_back};
use envy_base::{Board, Off, Place, Undo};
use envy_frames::Frames;
use envy_map::{place, undo};
use envy_space::Space;
use envy_table::Cache;

impl Owned {
    /// Puts all pages of an open slot back, in the order in which it came to own them: each is again where
    /// its undo says, its undo becomes clear, its frame is given back or the row that it leaves is dead. A
    /// restart reads the same words as before at every moment, and loads do afterwards. Without power nothing
    /// changes.
    pub fn restore_all<B: Board>(
        &mut self,
        board: &mut B,
        space: &mut Space,
        frames: &mut Frames,
        cache: &mut Cache,
        t: u8,
    ) -> Result<(), Off>
        requires restoring { IsTrue (B.state board.old).on
            → Restoring (chart (B.state board.old)) space.old frames.old.held cache.old.entries t }
        requires slot { t < 64 }
        requires owned { let f = (chart (B.state board.old)).fields in
            IsTrue (B.state board.old).on → AreOwned f.slots f.undos self.old.pairs }
        requires shape { space.old.shape ≡ (B.state board.old).shape }

        ensures durable { IsSound (chart (B.state board.old))
            → SameDurable 0 0 (chart (B.state board.old)) (chart (B.state board.new)) }
        ensures idle { (B.state board.old).on ≡ false
            → (B.state board.new ≡ B.state board.old) × (self.new ≡ self.old) × (space.new ≡ space.old)
            × (frames.new ≡ frames.old) × (cache.new ≡ cache.old) }
        ensures restores { OnOk result (RestoresAll t (chart (B.state board.old)) self.old frames.old.held
            (chart (B.state board.new)) self.new frames.new.held) }
        ensures agrees { IsTrue (B.state board.new).on
            → TurnsAgree (chart (B.state board.new)) self.new.pairs space.new frames.new.held cache.new.entries }
        ensures unchanged { OnErr result (self.new ≡ self.old) }
        ensures rests { Rests cache.old cache.new }
        ensures sizes { (space.new.shape ≡ space.old.shape) × (frames.new.count ≡ frames.old.count) }
        ensures power { (B.state board.new).on ≡ power_of result }
    {
        if !board.powered() {
            return Err(Off);
        }
        self.ledger.list(t, &mut self.list);
        restore_pairs(board, space, frames, cache, &self.list, t)?;
        self.leave(t);
        Ok(())
    }
}

/// Puts the pages of the slot's pairs back.
fn restore_pairs<B: Board>(
    board: &mut B,
    space: &mut Space,
    frames: &mut Frames,
    cache: &mut Cache,
    pairs: &[Pair],
    t: u8,
) -> Result<(), Off>
    requires restoring { Restoring (chart (B.state board.old)) space.old frames.old.held cache.old.entries t }
    requires named { AreNamed t (chart (B.state board.old)).fields.undos pairs.now }
    requires apart { AllPairs AreApart pairs.now }

    ensures durable { SameDurable 0 0 (chart (B.state board.old)) (chart (B.state board.new)) }
    ensures restoring { OnOk result
        (Restoring (chart (B.state board.new)) space.new frames.new.held cache.new.entries t) }
    ensures restored { OnOk result (RestoredIn pairs.now t (chart (B.state board.old)) (chart (B.state board.new))) }
    ensures left { OnOk result (frames.new.held ≡ filter (λ h. not (is_among pairs.now t h.page)) frames.old.held) }
    ensures count { frames.new.count ≡ frames.old.count }
    ensures rests { Rests cache.old cache.new }
    ensures shape { space.new.shape ≡ space.old.shape }
    ensures power { (B.state board.new).on ≡ power_of result }
{
    for pair in pairs {
        restore_page(board, space, frames, cache, pair.page, t)?;
    }
    Ok(())
}

/// Puts a page of the slot back: it is where its undo says then, and the undo is clear.
fn restore_page<B: Board>(
    board: &mut B,
    space: &mut Space,
    frames: &mut Frames,
    cache: &mut Cache,
    page: u32,
    t: u8,
) -> Result<(), Off>
    requires restoring { Restoring (chart (B.state board.old)) space.old frames.old.held cache.old.entries t }
    requires page { page < (B.state board.old).shape.pages }
    requires names { slot_named (undo_of (chart (B.state board.old)).fields page) ≡ Some t }

    ensures durable { SameDurable 0 0 (chart (B.state board.old)) (chart (B.state board.new)) }
    ensures restoring { OnOk result
        (Restoring (chart (B.state board.new)) space.new frames.new.held cache.new.entries t) }
    ensures fields { OnOk result ((back : APlace) × (kept (chart (B.state board.old)).fields page ≡ Some back)
        × (chart (B.state board.new) ≡ with_fields (chart (B.state board.old))
        (with_undo page (Some Undo.Clear) (with_place page (Some back) (chart (B.state board.old)).fields)))) }
    ensures left { OnOk result (frames.new.held ≡ filter (λ h. not (page == h.page)) frames.old.held) }
    ensures count { frames.new.count ≡ frames.old.count }
    ensures rests { Rests cache.old cache.new }
    ensures shape { space.new.shape ≡ space.old.shape }
    ensures power { (B.state board.new).on ≡ power_of result }
{
    let now = place(board, page)?;
    let Some(back) = place_in(undo(board, page)?) else {
        unreachable!();
    };
    put_back(board, page, back)?;
    cache.retarget(page, back);
    note_left(space, now);
    leave_frame(frames, now);
    Ok(())
}

/// Notes that no page names the row that a page leaves.
fn note_left(space: &mut Space, from: Place)
    requires { IsLeavable space.old from }
    ensures { space.new ≡ left_pool from space.old }
{
    if let Place::Row(row) = from {
        space.note_dead(row);
    }
}

/// Gives back the frame that a page leaves.
fn leave_frame(frames: &mut Frames, from: Place)
    requires { (k : ℕ) → from ≡ Place.Frame k → Any (λ h. h.frame ≡ k) frames.old.held }
    ensures { frames.new ≡ record frames.old { held = left_held from frames.old.held } }
{
    if let Place::Frame(frame) = from {
        frames.give_back(frame);
    }
}
