ghost use Rattle.std.specs.Prelude.{◌≡◌, ◌-◌, ◌<◌, false, ℕ, IsTrue, Some, IfOk, OnOk, slice_index};
ghost use Rattle.envy_base.specs.declared.fields.Job.TheVariants.{Switch};
ghost use Rattle.envy_map.specs.Fields.{chart};
ghost use Rattle.envy_soundness.specs.Claims.{FillsRise};
ghost use Rattle.envy_soundness.specs.Jobs.{IsClear};
ghost use Rattle.envy_soundness.specs.Power.{power_of};
ghost use Rattle.envy_soundness.specs.Same.{Same};
ghost use Rattle.envy_soundness.specs.Sound.{IsSound};
ghost use Rattle.envy_space.specs.Claiming.{ClaimsRow, MayClaim};
ghost use Rattle.envy_space.specs.Pool.{PoolAgrees, Replaces};
ghost use Rattle.envy_space.specs.Rising.{Leaves, Makes, claim_in};
ghost use Rattle.envy_base.specs.Shape.{positions_of};

use crate::Space;
use envy_base::{Board, Off};
use envy_soundness::{claim_back, raise_fill, replace_segment};

impl Space {
    /// Claims the row at the fill of a segment for a page. The segment stands at a position, or is the
    /// spare that another is being copied to. The row's page is written first, so that power that fails
    /// before the fill is raised leaves the row free, and no fill is ever lowered. The array stays. Without
    /// power nothing changes.
    #[inline(always)]
    pub fn claim<B: Board>(&mut self, board: &mut B, segment: u32, page: u32) -> Result<u32, Off>
        requires ready { IsTrue (B.state board.old).on → MayClaim (chart (B.state board.old)) self.old segment }
        requires shape { self.old.shape ≡ (B.state board.old).shape }
        requires segment { segment < self.old.shape.segments }
        requires page { page < self.old.shape.pages }
        requires room { slice_index self.old.fills segment < self.old.shape.rows }

        ensures same { IsSound (chart (B.state board.old))
            → Same 0 0 (chart (B.state board.old)) (chart (B.state board.new)) }
        ensures idle { (B.state board.old).on ≡ false → (B.state board.new ≡ B.state board.old)
            × (self.new ≡ self.old) }
        ensures agrees { IsTrue (B.state board.new).on
            → PoolAgrees (B.state board.new).shape (chart (B.state board.new)).fields self.new }
        ensures shape { self.new.shape ≡ self.old.shape }
        ensures claims { IfOk result (λ row.
            ClaimsRow (chart (B.state board.old)) self.old segment page row (chart (B.state board.new)) self.new) }
        ensures rises { FillsRise (chart (B.state board.old)) (chart (B.state board.new)) }
        ensures makes { (s : ℕ)
            → Makes s (claim_in s segment result) (chart (B.state board.old)) (chart (B.state board.new)) }
        ensures power { (B.state board.new).on ≡ power_of result }
    {
        if !board.powered() {
            return Err(Off);
        }
        self.claim_row(board, segment, page)
    }

    // The same from a sound board.
    #[inline(always)]
    fn claim_row<B: Board>(&mut self, board: &mut B, segment: u32, page: u32) -> Result<u32, Off>
        requires on { IsTrue (B.state board.old).on }
        requires ready { MayClaim (chart (B.state board.old)) self.old segment }
        requires shape { self.old.shape ≡ (B.state board.old).shape }
        requires segment { segment < self.old.shape.segments }
        requires page { page < self.old.shape.pages }
        requires room { slice_index self.old.fills segment < self.old.shape.rows }

        ensures same { Same 0 0 (chart (B.state board.old)) (chart (B.state board.new)) }
        ensures agrees { IsTrue (B.state board.new).on
            → PoolAgrees (B.state board.new).shape (chart (B.state board.new)).fields self.new }
        ensures shape { self.new.shape ≡ self.old.shape }
        ensures claims { IfOk result (λ row.
            ClaimsRow (chart (B.state board.old)) self.old segment page row (chart (B.state board.new)) self.new) }
        ensures rises { FillsRise (chart (B.state board.old)) (chart (B.state board.new)) }
        ensures power { (B.state board.new).on ≡ power_of result }
    {
        let fill = self.fill(segment);
        let row = segment * board.shape().rows + fill;
        claim_back(board, row, page)?;
        raise_fill(board, segment, fill)?;
        self.set_fill(segment, fill + 1);
        Ok(row)
    }

    /// Puts the spare at a position in place of the segment there, which is the spare then. References
    /// are being switched from that segment, and none is left. The array stays. Without power nothing changes.
    pub fn replace<B: Board>(&mut self, board: &mut B, position: u32) -> Result<(), Off>
        requires sound { IsTrue (B.state board.old).on → IsSound (chart (B.state board.old)) }
        requires agrees { IsTrue (B.state board.old).on
            → PoolAgrees (B.state board.old).shape (chart (B.state board.old)).fields self.old }
        requires shape { self.old.shape ≡ (B.state board.old).shape }
        requires position { position < positions_of self.old.shape }
        requires switching { let f = (chart (B.state board.old)).fields in
            IsTrue (B.state board.old).on → f.job ≡ Some (Switch (slice_index f.positions position)) }
        requires clear { let f = (chart (B.state board.old)).fields in
            IsTrue (B.state board.old).on → IsClear (B.state board.old).shape f (slice_index f.positions position) }

        ensures same { IsSound (chart (B.state board.old))
            → Same 0 0 (chart (B.state board.old)) (chart (B.state board.new)) }
        ensures idle { (B.state board.old).on ≡ false → (B.state board.new ≡ B.state board.old)
            × (self.new ≡ self.old) }
        ensures agrees { IsTrue (B.state board.new).on
            → PoolAgrees (B.state board.new).shape (chart (B.state board.new)).fields self.new }
        ensures shape { self.new.shape ≡ self.old.shape }
        ensures replaces { OnOk result ((e : ℕ)
            × Replaces (chart (B.state board.old)) self.old position e (chart (B.state board.new)) self.new) }
        ensures leaves { (s : ℕ) → Makes s Leaves (chart (B.state board.old)) (chart (B.state board.new)) }
        ensures power { (B.state board.new).on ≡ power_of result }
    {
        if !board.powered() {
            return Err(Off);
        }
        self.replace_spare(board, position)
    }

    // The same from a sound board.
    fn replace_spare<B: Board>(&mut self, board: &mut B, position: u32) -> Result<(), Off>
        requires sound { IsSound (chart (B.state board.old)) }
        requires agrees { IsTrue (B.state board.old).on
            → PoolAgrees (B.state board.old).shape (chart (B.state board.old)).fields self.old }
        requires shape { self.old.shape ≡ (B.state board.old).shape }
        requires position { position < positions_of self.old.shape }
        requires switching { let f = (chart (B.state board.old)).fields in
            IsTrue (B.state board.old).on → f.job ≡ Some (Switch (slice_index f.positions position)) }
        requires clear { let f = (chart (B.state board.old)).fields in
            IsTrue (B.state board.old).on → IsClear (B.state board.old).shape f (slice_index f.positions position) }

        ensures same { Same 0 0 (chart (B.state board.old)) (chart (B.state board.new)) }
        ensures agrees { IsTrue (B.state board.new).on
            → PoolAgrees (B.state board.new).shape (chart (B.state board.new)).fields self.new }
        ensures shape { self.new.shape ≡ self.old.shape }
        ensures replaces { OnOk result ((e : ℕ)
            × Replaces (chart (B.state board.old)) self.old position e (chart (B.state board.new)) self.new) }
        ensures leaves { (s : ℕ) → Makes s Leaves (chart (B.state board.old)) (chart (B.state board.new)) }
        ensures power { (B.state board.new).on ≡ power_of result }
    {
        let spare = self.spare();
        replace_segment(board, position, spare)?;
        self.stand(position, spare);
        Ok(())
    }
}
