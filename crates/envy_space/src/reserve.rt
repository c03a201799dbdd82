ghost use Rattle.std.specs.Prelude.{◌≡◌, ◌<◌, false, ℕ, IsTrue, Some, OnOk};
ghost use Rattle.envy_base.specs.declared.fields.Job.TheVariants.{Erase};
ghost use Rattle.envy_map.specs.Fields.{chart};
ghost use Rattle.envy_soundness.specs.Power.{power_of};
ghost use Rattle.envy_soundness.specs.Same.{Same};
ghost use Rattle.envy_soundness.specs.Sound.{IsSound};
ghost use Rattle.envy_space.specs.Pool.{PoolAgrees};
ghost use Rattle.envy_space.specs.Retiring.{IsFresh, LowestFresh, RetiresTo};

use crate::Space;
use envy_base::{Board, Off, all_positions_of};
use envy_soundness::{close_spare, retire_spare};

impl Space {
    /// The lowest position in reserve of whose segment no row has been claimed, or none.
    pub fn fresh_reserve(&self) -> Option<u32>
        ensures lowest { LowestFresh self.now.shape self.now.fills self.now.positions result }
    {
        let _ = &self.shape;
        for position in self.positions()..all_positions_of(&self.shape) {
            if self.fill(self.segment_at(position)) == 0 {
                return Some(position);
            }
        }
        None
    }

    /// Retires the spare, which is to be erased and can't be: none of its rows is free any more, and it stands
    /// at a position in reserve. The fresh segment that stood there is the spare. Two puts, of which the second
    /// counts. The array stays. Without power nothing changes.
    pub fn retire<B: Board>(&mut self, board: &mut B, position: u32) -> Result<(), Off>
        requires sound { IsTrue (B.state board.old).on → IsSound (chart (B.state board.old)) }
        requires agrees { IsTrue (B.state board.old).on
            → PoolAgrees (B.state board.old).shape (chart (B.state board.old)).fields self.old }
        requires shape { self.old.shape ≡ (B.state board.old).shape }
        requires erasing { IsTrue (B.state board.old).on → (chart (B.state board.old)).fields.job ≡ Some Erase }
        requires fresh { IsFresh self.old.shape self.old.fills self.old.positions position }

        ensures same { IsSound (chart (B.state board.old))
            → Same 0 0 (chart (B.state board.old)) (chart (B.state board.new)) }
        ensures idle { (B.state board.old).on ≡ false → (B.state board.new ≡ B.state board.old)
            × (self.new ≡ self.old) }
        ensures agrees { IsTrue (B.state board.new).on
            → PoolAgrees (B.state board.new).shape (chart (B.state board.new)).fields self.new }
        ensures shape { self.new.shape ≡ self.old.shape }
        ensures retires { OnOk result ((e : ℕ)
            × RetiresTo (chart (B.state board.old)) self.old position e (chart (B.state board.new)) self.new) }
        ensures power { (B.state board.new).on ≡ power_of result }
    {
        if !board.powered() {
            return Err(Off);
        }
        self.retire_to(board, position)
    }

    // The same from a sound board.
    fn retire_to<B: Board>(&mut self, board: &mut B, position: u32) -> Result<(), Off>
        requires sound { IsSound (chart (B.state board.old)) }
        requires on { IsTrue (B.state board.old).on }
        requires agrees { PoolAgrees (B.state board.old).shape (chart (B.state board.old)).fields self.old }
        requires shape { self.old.shape ≡ (B.state board.old).shape }
        requires erasing { (chart (B.state board.old)).fields.job ≡ Some Erase }
        requires fresh { IsFresh self.old.shape self.old.fills self.old.positions position }

        ensures same { Same 0 0 (chart (B.state board.old)) (chart (B.state board.new)) }
        ensures agrees { IsTrue (B.state board.new).on
            → PoolAgrees (B.state board.new).shape (chart (B.state board.new)).fields self.new }
        ensures shape { self.new.shape ≡ self.old.shape }
        ensures retires { OnOk result ((e : ℕ)
            × RetiresTo (chart (B.state board.old)) self.old position e (chart (B.state board.new)) self.new) }
        ensures power { (B.state board.new).on ≡ power_of result }
    {
        let spare = self.spare();
        close_spare(board, spare)?;
        self.set_fill(spare, self.shape.rows);
        retire_spare(board, position, spare)?;
        self.stand(position, spare);
        Ok(())
    }
}
