ghost use Rattle.std.specs.Prelude.{◌≡◌, ◌<◌, ◌≤◌, ◌+◌, ◌-◌, ℕ, false, IsTrue, None, Some, OnOk, OnErr, IfOk, IsErrOf, slice_index};
ghost use Rattle.envy_base.specs.Shape.{IsShape, positions_of};
ghost use Rattle.envy_base.specs.Counting.{up, Tally};
ghost use Rattle.envy_base.specs.State.{row_of};
ghost use Rattle.envy_base.specs.declared.fields.Job.TheVariants.{Copy};
ghost use Rattle.envy_map.specs.Fields.{chart, with_fields};
ghost use Rattle.envy_soundness.specs.Same.{Same};
ghost use Rattle.envy_soundness.specs.May.{MayName};
ghost use Rattle.envy_soundness.specs.Naming.{IsNamed, with_named};
ghost use Rattle.envy_soundness.specs.Power.{power_of, power_after};
ghost use Rattle.envy_soundness.specs.Sound.{IsSound, Names};
ghost use Rattle.envy_space.specs.Pool.{PoolAgrees};
ghost use Rattle.envy_reloc.specs.Keeping.{ClaimsTarget, CopiesTo, IsKeptIn, IsMove, IsTarget, PartsAgree, PartsFollow, PoolFollows, WastesRow};
ghost use Rattle.envy_reloc.specs.Phases.{MovesRow, NextMove};
ghost use Rattle.envy_reloc.specs.Plan.{IsPlanOf};
ghost use Rattle.envy_reloc.specs.Rows.{Rooms};

use crate::Reloc;
use crate::notes::follow;
use crate::row_copy::read_row;
use envy_base::{Board, Off, PAGE_LENGTH, Place, Trouble};
use envy_soundness::{Kept, move_place, move_undo, program_counted, row_owner};
use envy_space::Space;
use envy_table::Cache;

/// A row that is to move, who keeps it, and the position that it goes to.
#[derive(Clone, Copy, Debug, PartialEq, Eq)]
pub(crate) struct Move {
    pub(crate) row: u32,
    pub(crate) kept: Kept,
    pub(crate) position: u32,
}

/// The lowest position of a run that has a free row, but for the segment that is being relocated.
fn room_between(space: &Space, segment: u32, first: u32, last: u32) -> Option<u32>
    requires order { first ≤ last }
    requires last { last < positions_of space.now.shape }
    requires shape { IsShape space.now.shape }
    ensures { Rooms space.now.shape space.now.fills space.now.positions segment first last result }
{
    for position in first..last + 1 {
        let other = space.segment_at(position);
        if other != segment && space.free(other) > 0 {
            return Some(position);
        }
    }
    None
}

impl Reloc {
    /// The first move that stays, which leaves the list with all before it. A move is dropped where its row
    /// isn't kept any more, and all are where the neighbour has no room.
    pub(crate) fn next_move<B: Board>(
        &mut self,
        board: &B,
        space: &Space,
        segment: u32,
    ) -> Result<Option<Move>, Off>
        requires sound { IsSound (chart (B.state board.now)) }
        requires on { IsTrue (B.state board.now).on }
        requires pool { PoolAgrees (B.state board.now).shape (chart (B.state board.now)).fields space.now }
        requires segment { segment < (B.state board.now).shape.segments }
        requires plan { IsPlanOf (B.state board.now).shape (chart (B.state board.now)).fields (B.state board.now).flash
            self.old }
        requires copying { (chart (B.state board.now)).fields.job ≡ Some (Copy segment) }

        ensures next { IfOk result (λ next.
            NextMove (B.state board.now).shape (chart (B.state board.now)).fields segment self.old next self.new) }
        ensures plan { OnOk result (IsPlanOf (B.state board.now).shape (chart (B.state board.now)).fields
            (B.state board.now).flash self.new) }
        ensures becomes { self.new ≡ record self.old { moves = self.new.moves } }
        ensures off { OnErr result ((B.state board.now).on ≡ false) }
    {
        let Some((first, last)) = self.aside else {
            self.moves.clear();
            return Ok(None);
        };
        let Some(position) = room_between(space, segment, first, last) else {
            self.moves.clear();
            return Ok(None);
        };
        for _turn in 0..self.moves.len() {
            let row = self.moves.remove(0);
            match row_owner(board, row)? {
                Some(kept) => {
                    return Ok(Some(Move {
                        row,
                        kept,
                        position,
                    }));
                }
                None => {}
            }
        }
        Ok(None)
    }
}

#[tactic(auto, using(envy_soundness::proofs::Sames::same_then, envy_soundness::proofs::Sames::same_within, envy_soundness::proofs::Sames::tally_still, envy_soundness::proofs::Sames::tally_then))]
/// Copies a kept row into a row that is claimed at another position, and counts the program.
fn program_move<B: Board>(
    board: &mut B,
    space: &mut Space,
    moved: &mut u64,
    row: u32,
    page: u32,
    segment: u32,
) -> Result<u32, Trouble>
    requires sound { IsSound (chart (B.state board.old)) }
    requires on { IsTrue (B.state board.old).on }
    requires pool { PoolAgrees (B.state board.old).shape (chart (B.state board.old)).fields space.old }
    requires target { IsTarget (chart (B.state board.old)) space.old segment }
    requires kept { IsKeptIn (chart (B.state board.old)) row page }

    ensures same { Same 1 0 (chart (B.state board.old)) (chart (B.state board.new)) }
    ensures follow { PoolFollows (chart (B.state board.new)) space.old space.new }
    ensures power { (B.state board.new).on ≡ power_after result }

    ensures claims { IsTrue (B.state board.new).on
        → ClaimsTarget (chart (B.state board.old)) segment page moved.old (chart (B.state board.new)) moved.new }
    ensures copy { IfOk result (CopiesTo (chart (B.state board.old)) segment row (chart (B.state board.new))) }
    ensures bad { IsErrOf result Trouble.Bad → (B.state board.new).bads ≡ up (B.state board.old).bads }
    ensures counts { Tally (B.state board.old).begun moved.old (B.state board.new).begun moved.new }
{
    let target = space.claim(board, segment, page)?;
    let mut words = [0; PAGE_LENGTH];
    read_row(board, row, &mut words)?;
    program_counted(board, target, &words, moved)?;
    Ok(target)
}

/// Lets a page name a row, which holds what another does that the page keeps.
fn name_row<B: Board>(board: &mut B, kept: Kept, row: u32, target: u32) -> Result<(), Off>
    requires sound { IsSound (chart (B.state board.old)) }
    requires on { IsTrue (B.state board.old).on }
    requires page { kept.page < (B.state board.old).shape.pages }
    requires named { IsNamed (chart (B.state board.old)).fields kept.page row kept.undo }
    requires may { MayName (B.state board.old).shape (chart (B.state board.old)).fields kept.page target }
    requires copy { row_of (B.state board.old) target ≡ row_of (B.state board.old) row }

    ensures same { Same 0 0 (chart (B.state board.old)) (chart (B.state board.new)) }
    ensures fields { OnOk result (chart (B.state board.new) ≡ with_fields (chart (B.state board.old))
        (with_named kept.page target kept.undo (chart (B.state board.old)).fields)) }
    ensures power { (B.state board.new).on ≡ power_of result }
{
    match kept.undo {
        None => move_place(board, kept.page, Place::Row(target)),
        Some(slot) => move_undo(board, kept.page, slot, target),
    }
}

/// Lets a page name a row in place of another that it keeps, and the pool and the cache follow.
fn rename<B: Board>(
    board: &mut B,
    space: &mut Space,
    cache: &mut Cache,
    row: u32,
    kept: Kept,
    target: u32,
) -> Result<(), Off>
    requires sound { IsSound (chart (B.state board.old)) }
    requires on { IsTrue (B.state board.old).on }
    requires agree { PartsAgree (chart (B.state board.old)) space.old cache.old.entries }
    requires page { kept.page < (B.state board.old).shape.pages }
    requires named { IsNamed (chart (B.state board.old)).fields kept.page row kept.undo }
    requires may { MayName (B.state board.old).shape (chart (B.state board.old)).fields kept.page target }
    requires free { (p : ℕ) → Names (chart (B.state board.old)).fields p target → ⊥ }
    requires copy { row_of (B.state board.old) target ≡ row_of (B.state board.old) row }

    ensures same { Same 0 0 (chart (B.state board.old)) (chart (B.state board.new)) }
    ensures follow { PartsFollow (chart (B.state board.new)) space.old space.new cache.old cache.new }
    ensures fields { OnOk result (chart (B.state board.new) ≡ with_fields (chart (B.state board.old))
        (with_named kept.page target kept.undo (chart (B.state board.old)).fields)) }
    ensures power { (B.state board.new).on ≡ power_of result }
{
    name_row(board, kept, row, target)?;
    follow(space, cache, row, kept, target);
    Ok(())
}

/// Moves a kept row of the segment that is being copied to another position.
pub(crate) fn move_row<B: Board>(
    board: &mut B,
    space: &mut Space,
    cache: &mut Cache,
    moved: &mut u64,
    next: Move,
) -> Result<(), Trouble>
    requires sound { IsSound (chart (B.state board.old)) }
    requires on { IsTrue (B.state board.old).on }
    requires agree { PartsAgree (chart (B.state board.old)) space.old cache.old.entries }
    requires next { IsMove (chart (B.state board.old)) space.old next }

    ensures same { Same 1 0 (chart (B.state board.old)) (chart (B.state board.new)) }
    ensures follow { PartsFollow (chart (B.state board.new)) space.old space.new cache.old cache.new }
    ensures power { (B.state board.new).on ≡ power_after result }

    ensures moves { OnOk result
        (MovesRow (chart (B.state board.old)) (slice_index space.old.positions next.position) next
        (chart (B.state board.new))) }
    ensures fails { IsErrOf result Trouble.Bad
        → WastesRow (chart (B.state board.old)) (slice_index space.old.positions next.position) next.kept.page
        (chart (B.state board.new)) }
    ensures counted { IsTrue (B.state board.new).on → moved.new ≡ up moved.old }
    ensures counts { Tally (B.state board.old).begun moved.old (B.state board.new).begun moved.new }
{
    let segment = space.segment_at(next.position);
    let target = program_move(board, space, moved, next.row, next.kept.page, segment)?;
    Ok(rename(board, space, cache, next.row, next.kept, target)?)
}
