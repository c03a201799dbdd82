ghost use Rattle.std.specs.Prelude.{◌≡◌, ◌+◌, ◌-◌, ◌/◌, ◌<◌, ◌≤◌, ℕ, false, IsTrue, [], Some, IfOk, IfSome, OnOk, OnErr, IsErrOf, length, slice_index, All};
ghost use Rattle.envy_base.specs.declared.fields.Job.TheVariants.{Idle};
ghost use Rattle.envy_map.specs.Fields.{chart};
ghost use Rattle.envy_soundness.specs.Same.{Same};
ghost use Rattle.envy_soundness.specs.Sound.{Names};
ghost use Rattle.envy_soundness.specs.Frames.{FramesStay};
ghost use Rattle.envy_engine.specs.Agreement.{Ready};
ghost use Rattle.envy_engine.specs.Budgets.{Budget};
ghost use Rattle.envy_engine.specs.Cleaning.{AreLowestKept, AreMoves, takers, BeginsClean, FinishesClean, CleansWhole, StopsWhole};
ghost use Rattle.envy_engine.specs.Steps.{Begins, CountsNone, StopsStep};
ghost use Rattle.envy_engine.specs.Leaving.{LeavesParts, KeepsFrames, CountsBad};
ghost use Rattle.envy_soundness.specs.Power.{power_of, power_after};
ghost use Rattle.envy_engine.specs.Flushing.{CleansFor, IsAtRest};
ghost use Rattle.envy_base.specs.Shape.{positions_of};

use crate::claim::claim_at;
use crate::jobs::{runs, tick_job};
use crate::parts::Parts;
use arrayvec::ArrayVec;
use envy_base::{Board, Off, Trouble};
use envy_soundness::row_owner;

/// The rows that are moved to a neighbour: the kept rows of a position with the lowest numbers, four at most.
fn kept_rows<B: Board>(board: &B, parts: &Parts, position: u32) -> Result<ArrayVec<u32, 4>, Off>
    requires ready { Ready (chart (B.state board.now)) parts.now }
    requires position { position < positions_of (B.state board.now).shape }
    ensures rows { IfOk result (λ rows.
        All (λ q. q / (B.state board.now).shape.rows ≡ slice_index parts.now.space.positions position) rows.items) }
    ensures lowest { IfOk result (λ rows.
        AreLowestKept (B.state board.now).shape (chart (B.state board.now)).fields
        (slice_index (chart (B.state board.now)).fields.positions position) rows.items) }
    ensures off { OnErr result ((B.state board.now).on ≡ false) }
{
    let segment = parts.space.segment_at(position);
    let first = segment * board.shape().rows;
    let mut rows = ArrayVec::new();
    for i in 0..parts.space.fill(segment) {
        if rows.is_full() {
            return Ok(rows);
        }
        if row_owner(board, first + i)?.is_some() {
            rows.push(first + i);
        }
    }
    Ok(rows)
}

/// The rows that a cleaning moves, and the first and last position that takes them.
#[derive(Drop)]
struct Plan {
    moves: ArrayVec<u32, 4>,
    neighbour: Option<(u32, u32)>,
}

/// What a cleaning moves, where a partition takes rows of it.
fn planned<B: Board>(
    board: &B,
    parts: &Parts,
    position: u32,
    aside: Option<u32>,
) -> Result<Plan, Off>
    requires ready { Ready (chart (B.state board.now)) parts.now }
    requires position { position < positions_of (B.state board.now).shape }
    requires aside { IfSome aside (λ g. g < length parts.now.chooser.heats) }

    ensures rows { IfOk result (λ plan.
        All (λ q. q / (B.state board.now).shape.rows ≡ slice_index parts.now.space.positions position)
        plan.moves.items) }
    ensures moves { IfOk result (λ plan.
        AreMoves (B.state board.now).shape (chart (B.state board.now)).fields position aside plan.moves.items) }
    ensures takers { IfOk result (λ plan. plan.neighbour ≡ takers parts.now.chooser aside) }
    ensures neighbour { IfOk result (λ plan. (first last : ℕ) → plan.neighbour ≡ Some (first, last) → (first ≤ last)
        × (last < positions_of (B.state board.now).shape)) }
    ensures off { OnErr result ((B.state board.now).on ≡ false) }
{
    match aside {
        None => Ok(Plan {
            moves: ArrayVec::new(),
            neighbour: None,
        }),
        Some(partition) => {
            let (first, end) = parts.chooser.bounds(partition);
            let moves = kept_rows(board, parts, position)?;
            Ok(Plan {
                moves,
                neighbour: Some((first, end - 1)),
            })
        }
    }
}

/// Begins to clean a position. Of its kept rows some are moved to the partition `aside`.
#[inline(never)]
pub fn begin_clean<B: Board>(
    board: &mut B,
    parts: &mut Parts,
    position: u32,
    aside: Option<u32>,
) -> Result<(), Off>
    requires ready { Ready (chart (B.state board.old)) parts.old }
    requires idle { (chart (B.state board.old)).fields.job ≡ Some Idle }
    requires position { position < positions_of (B.state board.old).shape }
    requires aside { IfSome aside (λ g. g < length parts.old.chooser.heats) }

    ensures same { Same 0 0 (chart (B.state board.old)) (chart (B.state board.new)) }
    ensures leaves { LeavesParts (chart (B.state board.old)) parts.old (chart (B.state board.new)) parts.new }
    ensures begins { OnOk result (Begins position (chart (B.state board.old)) (chart (B.state board.new))) }
    ensures cleans { OnOk result
        (BeginsClean position aside (chart (B.state board.old)) parts.old (chart (B.state board.new)) parts.new) }
    ensures none { CountsNone parts.old parts.new }
    ensures since { parts.new.reloc.since ≡ parts.old.reloc.since }
    ensures parts { parts.new ≡ record parts.old { chooser = parts.new.chooser; reloc = parts.new.reloc } }
    ensures power { (B.state board.new).on ≡ power_of result }
{
    let plan = planned(board, parts, position, aside)?;
    parts
        .reloc
        .begin(board, &parts.space, position, plan.moves, plan.neighbour)?;
    parts.chooser.note_clean(position);
    Ok(())
}

/// Finishes a cleaning that has just begun at a position.
fn finish_clean<B: Board>(board: &mut B, parts: &mut Parts, rows: u32) -> Result<(), Trouble>
    requires ready { Ready (chart (B.state board.old)) parts.old }
    requires budget { (n e s : ℕ) × Budget (chart (B.state board.old)) parts.old n e s × (n ≤ rows + 4) × (e ≤ 1)
        × (s ≤ rows + 7) }
    requires none { parts.old.stages ≡ [] }
    requires few { rows ≤ 65536 }

    ensures same { Same (rows + 5) 2 (chart (B.state board.old)) (chart (B.state board.new)) }
    ensures leaves { LeavesParts (chart (B.state board.old)) parts.old (chart (B.state board.new)) parts.new }
    ensures here { IsTrue (B.state board.new).on
        → FramesStay (chart (B.state board.old)).fields.places (chart (B.state board.new)).fields.places }
    ensures parts { parts.new
        ≡ record parts.old {
          space = parts.new.space;
          cache = parts.new.cache;
          reloc = parts.new.reloc;
          stages =
              parts.new.stages;
        } }
    ensures finishes { OnOk result
        (FinishesClean (chart (B.state board.old)) parts.old (chart (B.state board.new)) parts.new) }
    ensures stops { IsErrOf result Trouble.Bad
        → StopsStep (chart (B.state board.old)) parts.old (chart (B.state board.new)) parts.new }
    ensures power { (B.state board.new).on ≡ power_after result }
    ensures bad { IsErrOf result Trouble.Bad → CountsBad (chart (B.state board.old)) (chart (B.state board.new)) }
{
    for _turn in 0..rows + 8 {
        if !runs(board)? {
            return Ok(());
        }
        tick_job(board, parts)?;
    }
    unreachable!()
}

/// Relocates a position, and ends that.
fn run_clean<B: Board>(
    board: &mut B,
    parts: &mut Parts,
    position: u32,
    aside: Option<u32>,
) -> Result<(), Trouble>
    requires ready { Ready (chart (B.state board.old)) parts.old }
    requires rest { IsAtRest (chart (B.state board.old)) parts.old }
    requires position { position < positions_of (B.state board.old).shape }
    requires aside { IfSome aside (λ g. g < length parts.old.chooser.heats) }
    requires dead { (d : ℕ)
        × (d / (B.state board.old).shape.rows ≡ slice_index (chart (B.state board.old)).fields.positions position)
        × ((p : ℕ) → Names (chart (B.state board.old)).fields p d → ⊥) }

    ensures same { Same ((B.state board.old).shape.rows + 5) 2 (chart (B.state board.old)) (chart (B.state board.new)) }
    ensures leaves { LeavesParts (chart (B.state board.old)) parts.old (chart (B.state board.new)) parts.new }
    ensures here { IsTrue (B.state board.new).on
        → FramesStay (chart (B.state board.old)).fields.places (chart (B.state board.new)).fields.places }
    ensures parts { parts.new
        ≡ record parts.old {
          space = parts.new.space;
          cache = parts.new.cache;
          reloc = parts.new.reloc;
          stages =
              parts.new.stages;
          chooser = parts.new.chooser;
        } }
    ensures cleans { OnOk result
        (CleansWhole position aside (chart (B.state board.old)) parts.old (chart (B.state board.new)) parts.new) }
    ensures stops { IsErrOf result Trouble.Bad
        → StopsWhole position aside (chart (B.state board.old)) parts.old (chart (B.state board.new)) parts.new }
    ensures power { (B.state board.new).on ≡ power_after result }
{
    let rows = board.shape().rows;
    begin_clean(board, parts, position, aside)?;
    let _few = parts.reloc.left();
    finish_clean(board, parts, rows)
}

/// Cleans a position and claims a row there.
#[inline(never)]
pub fn clean<B: Board>(
    board: &mut B,
    parts: &mut Parts,
    position: u32,
    aside: Option<u32>,
    page: u32,
) -> Result<u32, Trouble>
    requires ready { Ready (chart (B.state board.old)) parts.old }
    requires rest { IsAtRest (chart (B.state board.old)) parts.old }
    requires position { position < positions_of (B.state board.old).shape }
    requires aside { IfSome aside (λ g. g < length parts.old.chooser.heats) }
    requires dead { (d : ℕ)
        × (d / (B.state board.old).shape.rows ≡ slice_index (chart (B.state board.old)).fields.positions position)
        × ((p : ℕ) → Names (chart (B.state board.old)).fields p d → ⊥) }
    requires page { page < (B.state board.old).shape.pages }

    ensures same { Same ((B.state board.old).shape.rows + 5) 2 (chart (B.state board.old)) (chart (B.state board.new)) }
    ensures leaves { LeavesParts (chart (B.state board.old)) parts.old (chart (B.state board.new)) parts.new }
    ensures keeps { KeepsFrames (chart (B.state board.old)) parts.old (chart (B.state board.new)) parts.new }
    ensures gets { IfOk result (λ row. CleansFor position aside page row
        (chart (B.state board.old)) parts.old (chart (B.state board.new)) parts.new) }
    ensures stops { IsErrOf result Trouble.Bad
        → StopsWhole position aside (chart (B.state board.old)) parts.old (chart (B.state board.new)) parts.new }
    ensures power { (B.state board.new).on ≡ power_after result }
{
    run_clean(board, parts, position, aside)?;
    Ok(claim_at(board, parts, position, page)?)
}
