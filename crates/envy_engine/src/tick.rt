ghost use Rattle.std.specs.Prelude.{◌≡◌, ◌≢◌, ◌⊎◌, ◌-◌, ◌<◌, ◌≤◌, IsTrue, [], Some, IfOk, OnOk, IsErrOf, MatchResult, slice_get, slice_index, Ok, length};
ghost use Rattle.envy_base.specs.declared.fields.Job.TheVariants.{Idle};
ghost use Rattle.envy_map.specs.Fields.{chart};
ghost use Rattle.envy_soundness.specs.Same.{Same};
ghost use Rattle.envy_policy.specs.declared.choice.Choice.TheVariants.{Free};
ghost use Rattle.envy_table.specs.Hits.{Rests};
ghost use Rattle.envy_reloc.specs.Phases.{SameOnce};
ghost use Rattle.envy_engine.specs.Agreement.{Ready, Steady};
ghost use Rattle.envy_engine.specs.Counts.{Counting};
ghost use Rattle.envy_victims.specs.Choosing.{ChoiceFor};
ghost use Rattle.envy_wear.specs.Swaps.{IsQuiet};
ghost use Rattle.envy_engine.specs.Ticks.{IsNoneDue, TicksChoice, TicksFlush, TicksSwap, TicksNone, TicksBy, TicksBad, StopsFlush, CountsTick};
ghost use Rattle.envy_engine.specs.Leaving.{LeavesParts, CountsBad};
ghost use Rattle.envy_soundness.specs.Power.{power_after};
ghost use Rattle.envy_engine.specs.Flushing.{IsAtRest};
ghost use Rattle.envy_base.specs.Shape.{positions_of};

use crate::claim::claim_at;
use crate::cleaner::begin_clean;
use crate::did::Did;
use crate::flush::flush_into;
use crate::jobs::{runs, tick_job, tick_stage};
use crate::parts::Parts;
use crate::row_copy::one_more;
use arrayvec::ArrayVec;
use envy_base::{Board, Off, Trouble};
use envy_frames::Held;
use envy_policy::Choice;
use envy_victims::choose_row;
use envy_wear::due_after;

/// Programs the oldest held page into the next free row of a position.
fn flush_at<B: Board>(
    board: &mut B,
    parts: &mut Parts,
    held: Held,
    position: u32,
) -> Result<(), Trouble>
    requires ready { Ready (chart (B.state board.old)) parts.old }
    requires rest { IsAtRest (chart (B.state board.old)) parts.old }
    requires oldest { slice_get parts.old.frames.held 0 ≡ Some held }
    requires position { position < positions_of (B.state board.old).shape }
    requires room { slice_index parts.old.space.fills (slice_index parts.old.space.positions position)
        < (B.state board.old).shape.rows }
    requires chosen { ChoiceFor parts.old.chooser parts.old.space held.home held.page (Free position) }

    ensures same { Same 1 0 (chart (B.state board.old)) (chart (B.state board.new)) }
    ensures leaves { LeavesParts (chart (B.state board.old)) parts.old (chart (B.state board.new)) parts.new }
    ensures does { OnOk result (TicksChoice (Free position) Did.Flushed (chart (B.state board.old)) parts.old
        (chart (B.state board.new)) parts.new) }
    ensures stops { IsErrOf result Trouble.Bad → StopsFlush (chart (B.state board.old)) parts.old
        (chart (B.state board.new)) parts.new × CountsBad (chart (B.state board.old)) (chart (B.state board.new)) }
    ensures stages { parts.new.stages ≡ parts.old.stages }
    ensures power { (B.state board.new).on ≡ power_after result }
{
    let row = claim_at(board, parts, position, held.page)?;
    flush_into(board, parts, held.page, held.frame, row)
}

/// The third rule: by the choice for the oldest held page it is flushed, or a cleaning begins.
pub fn tick_flush<B: Board>(board: &mut B, parts: &mut Parts) -> Result<Did, Trouble>
    requires ready { Ready (chart (B.state board.old)) parts.old }
    requires rest { IsAtRest (chart (B.state board.old)) parts.old }
    requires some { parts.old.frames.held ≢ [] }

    ensures same { Same 1 0 (chart (B.state board.old)) (chart (B.state board.new)) }
    ensures leaves { LeavesParts (chart (B.state board.old)) parts.old (chart (B.state board.new)) parts.new }
    ensures does { IfOk result
        (λ did. TicksFlush did (chart (B.state board.old)) parts.old (chart (B.state board.new)) parts.new) }
    ensures stops { IsErrOf result Trouble.Bad → StopsFlush (chart (B.state board.old)) parts.old
        (chart (B.state board.new)) parts.new × CountsBad (chart (B.state board.old)) (chart (B.state board.new)) }
    ensures power { (B.state board.new).on ≡ power_after result }
{
    let Some(held) = parts.frames.oldest() else {
        unreachable!();
    };
    match choose_row(&parts.space, &parts.chooser, held.home, held.page) {
        Choice::Free { position } => {
            flush_at(board, parts, held, position)?;
            Ok(Did::Flushed)
        }
        Choice::Clean { position, aside } => {
            begin_clean(board, parts, position, aside)?;
            Ok(Did::Began)
        }
    }
}

/// The fourth rule: a swap begins where one is due. Else nothing is done. None is due before `quiet` erases have begun
/// since the last one, and what is known of that is known anew.
pub fn tick_swap<B: Board>(
    board: &mut B,
    parts: &mut Parts,
    limit: u64,
    quiet: &mut u64,
) -> Result<Did, Trouble>
    requires ready { Ready (chart (B.state board.old)) parts.old }
    requires rest { IsAtRest (chart (B.state board.old)) parts.old }
    requires quiet { IsQuiet (B.state board.old).shape (chart (B.state board.old)).fields limit parts.old.reloc.since
        quiet.old }

    ensures same { Same 0 0 (chart (B.state board.old)) (chart (B.state board.new)) }
    ensures steady { Steady (chart (B.state board.new)) parts.new }
    ensures does { IfOk result
        (λ did. TicksSwap limit did (chart (B.state board.old)) parts.old
        (chart (B.state board.new)) parts.new ⊎ TicksNone limit did
        (chart (B.state board.old)) parts.old (chart (B.state board.new)) parts.new) }
    ensures counts { MatchResult result
        (λ _. CountsTick (chart (B.state board.old)) parts.old (chart (B.state board.new)) parts.new)
        (λ _. Counting (chart (B.state board.old)) parts.old (chart (B.state board.new)) parts.new) }
    ensures idle { IsNoneDue limit (chart (B.state board.old)) parts.old.reloc.since → result ≡ Ok Did.Idle }
    ensures never { IsErrOf result Trouble.Bad → ⊥ }
    ensures quiet { IsTrue (B.state board.new).on
        → IsQuiet (B.state board.new).shape (chart (B.state board.new)).fields limit parts.new.reloc.since quiet.new }
    ensures rests { Rests parts.old.cache parts.new.cache }
    ensures power { (B.state board.new).on ≡ power_after result }
{
    let Some(swap) = due_after(board, limit, parts.reloc.since(), quiet)? else {
        return Ok(Did::Idle);
    };
    parts
        .reloc
        .begin(board, &parts.space, swap.worn, ArrayVec::new(), None)?;
    parts.stages.start(swap);
    let _begun = parts.stages.next();
    parts.swaps = one_more(parts.swaps);
    parts.reloc.count_anew();
    Ok(Did::Began)
}

/// The first rule that applies, of a board that is so quiet.
pub fn tick_ruled<B: Board>(
    board: &mut B,
    parts: &mut Parts,
    limit: u64,
    mark: u32,
    quiet: &mut u64,
) -> Result<Did, Trouble>
    requires ready { Ready (chart (B.state board.old)) parts.old }
    requires some { 1 ≤ mark }
    requires quiet { IsQuiet (B.state board.old).shape (chart (B.state board.old)).fields limit parts.old.reloc.since
        quiet.old }

    ensures step { SameOnce (chart (B.state board.old)) (chart (B.state board.new)) }
    ensures steady { Steady (chart (B.state board.new)) parts.new }
    ensures does { IfOk result
        (λ did. TicksBy limit mark did (chart (B.state board.old)) parts.old (chart (B.state board.new)) parts.new) }
    ensures stops { IsErrOf result Trouble.Bad → TicksBad mark (chart (B.state board.old)) parts.old
        (chart (B.state board.new)) parts.new × CountsBad (chart (B.state board.old)) (chart (B.state board.new)) }
    ensures counts { MatchResult result
        (λ _. CountsTick (chart (B.state board.old)) parts.old (chart (B.state board.new)) parts.new)
        (λ _. Counting (chart (B.state board.old)) parts.old (chart (B.state board.new)) parts.new) }
    ensures idle { (chart (B.state board.old)).fields.job ≡ Some Idle → parts.old.stages ≡ []
        → length parts.old.frames.held < mark → IsNoneDue limit (chart (B.state board.old)) parts.old.reloc.since
        → result ≡ Ok Did.Idle }
    ensures quiet { IsTrue (B.state board.new).on
        → IsQuiet (B.state board.new).shape (chart (B.state board.new)).fields limit parts.new.reloc.since quiet.new }
    ensures rests { Rests parts.old.cache parts.new.cache }
    ensures power { (B.state board.new).on ≡ power_after result }
{
    if runs(board)? {
        return tick_job(board, parts);
    }
    if parts.stages.pending() {
        return tick_stage(board, parts);
    }
    if parts.frames.used() >= mark {
        return tick_flush(board, parts);
    }
    tick_swap(board, parts, limit, quiet)
}
