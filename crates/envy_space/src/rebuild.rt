ghost use Rattle.std.specs.Prelude.{◌≡◌, ◌-◌, ◌<◌, ◌≤◌, ℕ, false, IsTrue, OnOk, OnErr, Some, IfOk, IfSome, ◌+◌, ◌*◌, replicate, slice_index};
ghost use Rattle.envy_map.specs.Fields.{chart, place as place_of, undo as undo_of};
ghost use Rattle.envy_soundness.specs.Power.{power_of};
ghost use Rattle.envy_soundness.specs.Words.{kept};
ghost use Rattle.envy_soundness.specs.Sound.{IsSound};
ghost use Rattle.envy_space.specs.Pool.{PoolAgrees, HasCounted, IsShadow, kept_in_first};

use crate::Space;
use envy_base::{Board, Off, Place, Slot, Undo, all_positions_of};
use envy_map::{fill, place, segment_at, slot, undo};

impl Space {
    /// Reads all numbers from the map. `Off` where power is off, and nothing changes then.
    pub fn rebuild<B: Board>(&mut self, board: &B) -> Result<(), Off>
        requires sound { IsTrue (B.state board.now).on → IsSound (chart (B.state board.now)) }
        requires shape { self.old.shape ≡ (B.state board.now).shape }
        ensures agrees { OnOk result
            (PoolAgrees (B.state board.now).shape (chart (B.state board.now)).fields self.new) }
        ensures shape { self.new.shape ≡ self.old.shape }
        ensures unchanged { OnErr result (self.new ≡ self.old) }
        ensures power { (B.state board.now).on ≡ power_of result }
    {
        if !board.powered() {
            return Err(Off);
        }
        self.clear();
        self.read_positions(board)?;
        self.read_fills(board)?;
        self.count_kept(board)
    }

    /// Puts each segment at its position.
    fn read_positions<B: Board>(&mut self, board: &B) -> Result<(), Off>
        requires sound { IsSound (chart (B.state board.now)) }
        requires shape { self.old.shape ≡ (B.state board.now).shape }

        ensures positions { OnOk result (self.new.positions ≡ (chart (B.state board.now)).fields.positions) }
        ensures shape { self.new.shape ≡ self.old.shape }
        ensures fills { self.new.fills ≡ self.old.fills }
        ensures kept { self.new.kept ≡ self.old.kept }
        ensures off { OnErr result ((B.state board.now).on ≡ false) }
    {
        for position in 0..all_positions_of(&self.shape) {
            self.stand(position, segment_at(board, position)?);
        }
        Ok(())
    }

    /// Writes the fill of each segment, of which none has a kept row.
    fn read_fills<B: Board>(&mut self, board: &B) -> Result<(), Off>
        requires sound { IsSound (chart (B.state board.now)) }
        requires shape { self.old.shape ≡ (B.state board.now).shape }
        requires none { self.old.kept ≡ replicate self.old.shape.segments 0 }

        ensures fills { OnOk result (self.new.fills ≡ (chart (B.state board.now)).fields.fills) }
        ensures shape { self.new.shape ≡ self.old.shape }
        ensures kept { self.new.kept ≡ self.old.kept }
        ensures positions { self.new.positions ≡ self.old.positions }
        ensures off { OnErr result ((B.state board.now).on ≡ false) }
    {
        for segment in 0..self.shape.segments {
            self.set_fill(segment, fill(board, segment)?);
        }
        Ok(())
    }

    /// Counts the kept rows of each segment, of which none has been counted.
    fn count_kept<B: Board>(&mut self, board: &B) -> Result<(), Off>
        requires sound { IsSound (chart (B.state board.now)) }
        requires shape { self.old.shape ≡ (B.state board.now).shape }
        requires fills { self.old.fills ≡ (chart (B.state board.now)).fields.fills }
        requires none { self.old.kept ≡ replicate self.old.shape.segments 0 }

        ensures counted { OnOk result (HasCounted (B.state board.now).shape (chart (B.state board.now)).fields
            (B.state board.now).shape.pages self.new) }
        ensures shape { self.new.shape ≡ self.old.shape }
        ensures fills { self.new.fills ≡ self.old.fills }
        ensures positions { self.new.positions ≡ self.old.positions }
        ensures off { OnErr result ((B.state board.now).on ≡ false) }
    {
        for page in 0..self.shape.pages {
            self.count_page(board, page)?;
        }
        Ok(())
    }

    /// Counts the kept rows that a page names.
    fn count_page<B: Board>(&mut self, board: &B, page: u32) -> Result<(), Off>
        requires sound { IsSound (chart (B.state board.now)) }
        requires shape { self.old.shape ≡ (B.state board.now).shape }
        requires page { page < (B.state board.now).shape.pages }
        requires counted { HasCounted (B.state board.now).shape (chart (B.state board.now)).fields page self.old }
        requires room { (s : ℕ)
            → kept_in_first (B.state board.now).shape (chart (B.state board.now)).fields (page + 1) s
            ≤ slice_index self.old.fills s }

        ensures counted { OnOk result (HasCounted (B.state board.now).shape (chart (B.state board.now)).fields
            (page + 1) self.new) }
        ensures shape { self.new.shape ≡ self.old.shape }
        ensures fills { self.new.fills ≡ self.old.fills }
        ensures positions { self.new.positions ≡ self.old.positions }
        ensures off { OnErr result ((B.state board.now).on ≡ false) }
    {
        let now = place(board, page)?;
        let shadow = shadow_of(board, page, now)?;
        if let Place::Row(row) = now {
            self.note_kept(row);
        }
        if let Some(row) = shadow {
            self.note_kept(row);
        }
        Ok(())
    }
}

/// The row that a restart reads the page in, where loads don't read it there.
fn shadow_of<B: Board>(board: &B, page: u32, now: Place) -> Result<Option<u32>, Off>
    requires sound { IsSound (chart (B.state board.now)) }
    requires page { page < (B.state board.now).shape.pages }
    requires now { place_of (chart (B.state board.now)).fields page ≡ Some now }
    ensures shadow { IfOk result (IsShadow (Some now) (kept (chart (B.state board.now)).fields page)) }
    ensures range { IfOk result (λ shadow.
        IfSome shadow (λ row. row < (B.state board.now).shape.segments * (B.state board.now).shape.rows)) }
    ensures off { OnErr result ((B.state board.now).on ≡ false) }
{
    let Undo::Shadow { slot: t, row } = undo(board, page)? else {
        return Ok(None);
    };
    if slot(board, t)? == Slot::Active && now != Place::Row(row) {
        return Ok(Some(row));
    }
    Ok(None)
}
