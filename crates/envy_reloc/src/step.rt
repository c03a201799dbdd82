ghost use Rattle.std.specs.Prelude.{◌≡◌, ◌<◌, ◌+◌, ◌-◌, ℕ, [], false, IsTrue, None, Some, OnOk, IfOk, IsErrOf, slice_index};
ghost use Rattle.envy_base.specs.declared.fields.Job.TheVariants.{Idle, Copy, Erase};
ghost use Rattle.envy_map.specs.Fields.{chart, with_fields};
ghost use Rattle.envy_map.specs.Writes.{with_job};
ghost use Rattle.envy_soundness.specs.Naming.{AreParted};
ghost use Rattle.envy_soundness.specs.Power.{power_after};
ghost use Rattle.envy_soundness.specs.Same.{Same};
ghost use Rattle.envy_soundness.specs.Sound.{IsSound, IsSpare};
ghost use Rattle.envy_table.specs.Agreement.{AreCurrent};
ghost use Rattle.envy_reloc.specs.Phases.{Does, SameOnce, CountsBegun, CountsApart};
ghost use Rattle.envy_reloc.specs.Effort.{programs_of, erases_of, Leaves};
ghost use Rattle.envy_reloc.specs.Keeping.{AllFollow, CopiesNext, CountsCopy, CountsMove, Fails, FailsCopy, FailsMove, IsMove, IsReady, MayStep, MovesNext, PlanFollows, Steps};
ghost use Rattle.envy_reloc.specs.Plan.{IsPlanOf};
ghost use Rattle.envy_reloc.specs.Rows.{NextKept};

use crate::Reloc;
use crate::job_end::{erase, place_spare};
use crate::row_copy::{Left, copy_row, next_kept};
use crate::row_move::{Move, move_row};
use crate::row_switch::switch_segment;
use envy_base::{Board, Job, Trouble};
use envy_map::job;
use envy_soundness::begin_erase;
use envy_space::Space;
use envy_table::Cache;

/// What a step did.
#[derive(Clone, Copy, Debug, PartialEq, Eq)]
pub enum Phase {
    /// A kept row went to the neighbour.
    Moved,
    /// A kept row was copied to the spare.
    Copied,
    /// Each reference to a copied row became one to its copy.
    Switched,
    /// The spare stands at the segment's position.
    Placed,
    /// The segment is erased, and the job is done.
    Erased,
}

impl Reloc {
    #[tactic(auto, using(crate::proofs::Counts::counts_by_copy, crate::proofs::Counts::counts_by_move, crate::proofs::Counts::counts_by_erase, crate::proofs::Counts::counts_by_none, crate::proofs::Counts::counts_by_nothing, crate::proofs::Counts::apart_by_none))]
    /// Does the next step of the job, which is at most one program or one erase beside writes of SRAM. Every
    /// word of the array stays. After a bad program the spare is to be erased, and the moves are dropped.
    pub fn step<B: Board>(
        &mut self,
        board: &mut B,
        space: &mut Space,
        cache: &mut Cache,
    ) -> Result<Phase, Trouble>
        requires ready { IsTrue (B.state board.old).on
            → MayStep (chart (B.state board.old)) space.old self.old cache.old.entries }
        requires shape { space.old.shape ≡ (B.state board.old).shape }

        ensures same { IsSound (chart (B.state board.old))
            → SameOnce (chart (B.state board.old)) (chart (B.state board.new)) }
        ensures idle { (B.state board.old).on ≡ false → (B.state board.new ≡ B.state board.old) × (self.new ≡ self.old)
            × (space.new ≡ space.old) × (cache.new ≡ cache.old) }
        ensures follow { AllFollow (chart (B.state board.old)) (chart (B.state board.new)) space.old space.new self.new
            cache.old cache.new }
        ensures power { (B.state board.new).on ≡ power_after result }

        ensures steps { IfOk result (λ phase.
            Steps (chart (B.state board.old)) self.old phase (chart (B.state board.new)) self.new) }
        ensures fails { IsErrOf result Trouble.Bad
            → Fails (chart (B.state board.old)) self.old (chart (B.state board.new)) self.new }
        ensures within { IsSound (chart (B.state board.old)) → (n e s : ℕ)
            → Leaves (chart (B.state board.old)) self.old n e s
            → Same n e (chart (B.state board.old)) (chart (B.state board.new)) }
        ensures counts { CountsBegun (chart (B.state board.old)) self.old (chart (B.state board.new)) self.new }
        ensures apart { CountsApart (chart (B.state board.old)) self.old self.new }
    {
        if !board.powered() {
            return Err(Trouble::Off);
        }
        match job(board)? {
            Job::Idle => unreachable!(),
            Job::Copy(segment) => self.go_on(board, space, cache, segment),
            Job::Switch(segment) => {
                place_spare(board, space, segment)?;
                Ok(Phase::Placed)
            }
            Job::Erase => {
                erase(board, space, &mut self.erased, &mut self.since)?;
                Ok(Phase::Erased)
            }
        }
    }

    #[tactic(auto, using(crate::proofs::Counts::counts_by_copy, crate::proofs::Counts::counts_by_move, crate::proofs::Counts::counts_by_erase, crate::proofs::Counts::counts_by_none, crate::proofs::Counts::counts_by_nothing, crate::proofs::Counts::apart_by_none))]
    // A step of a copy: a move, or a copied row, or the switch where nothing is left.
    fn go_on<B: Board>(
        &mut self,
        board: &mut B,
        space: &mut Space,
        cache: &mut Cache,
        segment: u32,
    ) -> Result<Phase, Trouble>
        requires ready { IsReady (chart (B.state board.old)) space.old self.old }
        requires cache { AreCurrent (B.state board.old).shape.pages (chart (B.state board.old)).fields.places
            cache.old.entries }
        requires copying { (chart (B.state board.old)).fields.job ≡ Some (Copy segment) }

        ensures same { Same 1 0 (chart (B.state board.old)) (chart (B.state board.new)) }
        ensures follow { AllFollow (chart (B.state board.old)) (chart (B.state board.new)) space.old space.new self.new
            cache.old cache.new }
        ensures power { (B.state board.new).on ≡ power_after result }

        ensures does { IfOk result (λ phase.
            Does (chart (B.state board.old)) self.old phase (chart (B.state board.new)) self.new) }
        ensures works { IfOk result (λ phase.
            Same (programs_of phase) (erases_of phase) (chart (B.state board.old)) (chart (B.state board.new))) }
        ensures fails { IsErrOf result Trouble.Bad
            → Fails (chart (B.state board.old)) self.old (chart (B.state board.new)) self.new }
        ensures within { (n e s : ℕ) → Leaves (chart (B.state board.old)) self.old n e s
            → Same n e (chart (B.state board.old)) (chart (B.state board.new)) }
        ensures counts { CountsBegun (chart (B.state board.old)) self.old (chart (B.state board.new)) self.new }
        ensures apart { CountsApart (chart (B.state board.old)) self.old self.new }
    {
        if let Some(next) = self.next_move(board, space, segment)? {
            self.move_next(board, space, cache, next)?;
            return Ok(Phase::Moved);
        }
        let spare = space.spare();
        match next_kept(board, segment, space.fill(segment), self.mark)? {
            Some(left) => {
                self.copy_left(board, space, spare, left)?;
                Ok(Phase::Copied)
            }
            None => {
                switch_segment(board, space, cache, segment, spare)?;
                Ok(Phase::Switched)
            }
        }
    }

    // After a bad program: the spare is to be erased, and the moves are dropped.
    fn give_up<B: Board>(&mut self, board: &mut B) -> Result<(), Trouble>
        requires sound { IsSound (chart (B.state board.old)) }
        requires on { IsTrue (B.state board.old).on }
        requires copying { (v : ℕ) × ((chart (B.state board.old)).fields.job ≡ Some (Copy v)) }
        requires parted { AreParted (chart (B.state board.old)).fields.slots (chart (B.state board.old)).fields.undos
            (chart (B.state board.old)).fields.places }

        ensures same { Same 0 0 (chart (B.state board.old)) (chart (B.state board.new)) }
        ensures fields { IsTrue (B.state board.new).on
            → chart (B.state board.new) ≡ with_fields (chart (B.state board.old))
            (with_job (Some Erase) (chart (B.state board.old)).fields) }
        ensures plan { IsTrue (B.state board.new).on
            → IsPlanOf (B.state board.new).shape (chart (B.state board.new)).fields (B.state board.new).flash self.new }
        ensures parted { IsTrue (B.state board.new).on
            → AreParted (chart (B.state board.new)).fields.slots (chart (B.state board.new)).fields.undos
            (chart (B.state board.new)).fields.places }
        ensures becomes { self.new ≡ record self.old { moves = [] } }
        ensures never { OnOk result ⊥ }
        ensures power { (B.state board.new).on ≡ power_after result }
    {
        self.moves.clear();
        begin_erase(board)?;
        Err(Trouble::Bad)
    }

    #[tactic(auto, using(envy_soundness::proofs::Sames::then_same, envy_soundness::proofs::Sames::tally_still, envy_soundness::proofs::Sames::tally_end))]
    // Copies a row. A bad program gives up the relocation.
    fn copy_left<B: Board>(
        &mut self,
        board: &mut B,
        space: &mut Space,
        spare: u32,
        left: Left,
    ) -> Result<(), Trouble>
        requires ready { IsReady (chart (B.state board.old)) space.old self.old }
        requires left { (v : ℕ) × ((chart (B.state board.old)).fields.job ≡ Some (Copy v))
            × NextKept (B.state board.old).shape (chart (B.state board.old)).fields v self.old.mark (Some left) }
        requires spare { IsSpare (B.state board.old).shape (chart (B.state board.old)).fields.positions spare }
        requires done { self.old.moves ≡ [] }

        ensures same { Same 1 0 (chart (B.state board.old)) (chart (B.state board.new)) }
        ensures follow { PlanFollows (chart (B.state board.new)) space.old space.new self.new }
        ensures power { (B.state board.new).on ≡ power_after result }

        ensures copies { OnOk result
            (CopiesNext (chart (B.state board.old)) spare left.row self.old (chart (B.state board.new)) self.new) }
        ensures fails { IsErrOf result Trouble.Bad
            → FailsCopy (chart (B.state board.old)) spare left.row self.old (chart (B.state board.new)) self.new }
        ensures places { IsTrue (B.state board.new).on
            → (chart (B.state board.new)).fields.places ≡ (chart (B.state board.old)).fields.places }
        ensures counts { CountsCopy (chart (B.state board.old)) self.old (chart (B.state board.new)) self.new }
    {
        match copy_row(board, space, &mut self.copied, spare, left) {
            Ok(()) => {
                self.mark = left.row + 1;
                Ok(())
            }
            Err(Trouble::Off) => Err(Trouble::Off),
            Err(Trouble::Bad) => self.give_up(board),
        }
    }

    #[tactic(auto, using(envy_soundness::proofs::Sames::then_same, envy_soundness::proofs::Sames::tally_still, envy_soundness::proofs::Sames::tally_end))]
    // Moves a row. A bad program gives up the relocation.
    fn move_next<B: Board>(
        &mut self,
        board: &mut B,
        space: &mut Space,
        cache: &mut Cache,
        next: Move,
    ) -> Result<(), Trouble>
        requires ready { IsReady (chart (B.state board.old)) space.old self.old }
        requires cache { AreCurrent (B.state board.old).shape.pages (chart (B.state board.old)).fields.places
            cache.old.entries }
        requires next { IsMove (chart (B.state board.old)) space.old next }

        ensures same { Same 1 0 (chart (B.state board.old)) (chart (B.state board.new)) }
        ensures follow { AllFollow (chart (B.state board.old)) (chart (B.state board.new)) space.old space.new self.new
            cache.old cache.new }
        ensures power { (B.state board.new).on ≡ power_after result }

        ensures moves { OnOk result
            (MovesNext (chart (B.state board.old)) (slice_index space.old.positions next.position) next self.old
            (chart (B.state board.new)) self.new) }
        ensures fails { IsErrOf result Trouble.Bad
            → FailsMove (chart (B.state board.old)) (slice_index space.old.positions next.position) next.kept.page
            self.old (chart (B.state board.new)) self.new }
        ensures counts { CountsMove (chart (B.state board.old)) self.old (chart (B.state board.new)) self.new }
    {
        match move_row(board, space, cache, &mut self.moved, next) {
            Ok(()) => Ok(()),
            Err(Trouble::Off) => Err(Trouble::Off),
            Err(Trouble::Bad) => self.give_up(board),
        }
    }
}
