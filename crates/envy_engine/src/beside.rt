ghost use Rattle.std.specs.Prelude.{◌≡◌, ◌≢◌, ◌⊎◌, ◌-◌, ◌<◌, ℕ, false, Some, IfOk, IfSome, MatchOption, OnErr, slice_index, length};
ghost use Rattle.envy_base.specs.declared.fields.Job.TheVariants.{Copy, Switch};
ghost use Rattle.envy_map.specs.Fields.{chart};
ghost use Rattle.envy_soundness.specs.Sound.{IsSound};
ghost use Rattle.envy_reloc.specs.Plan.{IsFreeOf};
ghost use Rattle.envy_engine.specs.Agreement.{Ready};
ghost use Rattle.envy_engine.specs.Flushing.{GoesBeside, IsEmptied, IsLowestAvailable, IsLowestNear, IsNoneAvailable, IsNoneNear};
ghost use Rattle.envy_base.specs.Shape.{positions_of};

use crate::parts::Parts;
use envy_base::{Board, Job, Off};
use envy_map::job;
use envy_policy::Lifetime;
use envy_victims::{beside_job, free_beside};

/// The segment that is being relocated, if one is.
fn relocated<B: Board>(board: &B) -> Result<Option<u32>, Off>
    requires sound { IsSound (chart (B.state board.now)) }
    ensures others { IfOk result (λ found. (s : ℕ) → found ≢ Some s
        → IsFreeOf (chart (B.state board.now)).fields.job s) }
    ensures is { IfOk result (λ found. (s : ℕ) → found ≡ Some s → IsFreeOf (chart (B.state board.now)).fields.job s
        → ⊥) }
    ensures named { IfOk result (λ found. (s : ℕ) → found ≡ Some s
        → ((chart (B.state board.now)).fields.job ≡ Some (Copy s))
        ⊎ ((chart (B.state board.now)).fields.job ≡ Some (Switch s))) }
    ensures off { OnErr result ((B.state board.now).on ≡ false) }
{
    match job(board)? {
        Job::Copy(v) | Job::Switch(v) => Ok(Some(v)),
        _ => Ok(None),
    }
}

/// The position that the job empties, if it empties one.
fn emptied<B: Board>(board: &B, parts: &Parts) -> Result<Option<u32>, Off>
    requires ready { Ready (chart (B.state board.now)) parts.now }
    ensures emptied { IfOk result (IsEmptied (chart (B.state board.now))) }
    ensures others { IfOk result (λ found. (k : ℕ) → k < positions_of (B.state board.now).shape → found ≢ Some k
        → IsFreeOf (chart (B.state board.now)).fields.job (slice_index parts.now.space.positions k)) }
    ensures off { OnErr result ((B.state board.now).on ≡ false) }
{
    match relocated(board)? {
        Some(segment) => Ok(Some(parts.space.position_of(segment))),
        None => Ok(None),
    }
}

/// The lowest position of the home partition that has a free row which the job leaves free.
fn usable_near<B: Board>(board: &B, parts: &Parts, home: u32) -> Result<Option<u32>, Off>
    requires ready { Ready (chart (B.state board.now)) parts.now }
    requires home { home < positions_of (B.state board.now).shape }

    ensures within { IfOk result (λ found. IfSome found (λ k. k < positions_of (B.state board.now).shape)) }
    ensures room { IfOk result (λ found.
        IfSome found (λ k. slice_index parts.now.space.fills (slice_index parts.now.space.positions k)
        < (B.state board.now).shape.rows)) }
    ensures free { IfOk result (λ found.
        IfSome found (λ k. IsFreeOf (chart (B.state board.now)).fields.job (slice_index parts.now.space.positions k))) }
    ensures lowest { IfOk result (λ found.
        MatchOption found (IsNoneNear parts.now.chooser home (chart (B.state board.now))) (λ k.
        IsLowestNear parts.now.chooser home (chart (B.state board.now)) k)) }
    ensures off { OnErr result ((B.state board.now).on ≡ false) }
{
    let relocated = relocated(board)?;
    Ok(free_beside(&parts.space, &parts.chooser, home, relocated))
}

/// The position for a page beside the job, by the lives of the pages' copies.
fn usable_by_lives<B: Board>(
    board: &B,
    parts: &Parts,
    lives: &Lifetime,
    page: u32,
) -> Result<Option<u32>, Off>
    requires ready { Ready (chart (B.state board.now)) parts.now }
    requires positions { length lives.now.cleaned ≡ positions_of parts.now.space.shape }
    requires page { page < length lives.now.born }

    ensures within { IfOk result (λ found. IfSome found (λ k. k < positions_of (B.state board.now).shape)) }
    ensures room { IfOk result (λ found.
        IfSome found (λ k. slice_index parts.now.space.fills (slice_index parts.now.space.positions k)
        < (B.state board.now).shape.rows)) }
    ensures free { IfOk result (λ found.
        IfSome found (λ k. IsFreeOf (chart (B.state board.now)).fields.job (slice_index parts.now.space.positions k))) }
    ensures goes { IfOk result (GoesBeside lives.now parts.now.space page (chart (B.state board.now))) }
    ensures off { OnErr result ((B.state board.now).on ≡ false) }
{
    let emptied = emptied(board, parts)?;
    Ok(beside_job(&parts.space, lives, emptied, page))
}

/// The position for a page with this home beside the job, or none: then job and stages are finished first.
pub fn usable<B: Board>(board: &B, parts: &Parts, home: u32, page: u32) -> Result<Option<u32>, Off>
    requires ready { Ready (chart (B.state board.now)) parts.now }
    requires home { home < positions_of (B.state board.now).shape }
    requires page { page < (B.state board.now).shape.pages }

    ensures within { IfOk result (λ found. IfSome found (λ k. k < positions_of (B.state board.now).shape)) }
    ensures room { IfOk result (λ found.
        IfSome found (λ k. slice_index parts.now.space.fills (slice_index parts.now.space.positions k)
        < (B.state board.now).shape.rows)) }
    ensures free { IfOk result (λ found.
        IfSome found (λ k. IsFreeOf (chart (B.state board.now)).fields.job (slice_index parts.now.space.positions k))) }
    ensures lowest { IfOk result (λ found.
        MatchOption found (IsNoneAvailable parts.now home page (chart (B.state board.now))) (λ k.
        IsLowestAvailable parts.now home page (chart (B.state board.now)) k)) }
    ensures off { OnErr result ((B.state board.now).on ≡ false) }
{
    match parts.chooser.lives() {
        Some(lives) => usable_by_lives(board, parts, lives, page),
        None => usable_near(board, parts, home),
    }
}
