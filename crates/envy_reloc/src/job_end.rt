ghost use Rattle.std.specs.Prelude.{◌≡◌, ◌≢◌, ◌⊎◌, ◌/◌, ◌<◌, ◌-◌, ℕ, IsTrue, None, Some, OnOk, IsErrOf, length, slice_index, sum};
ghost use Rattle.envy_base.specs.Counting.{up, Tally};
ghost use Rattle.envy_base.specs.State.{row_of, IsOnes};
ghost use Rattle.envy_base.specs.declared.fields.Job.TheVariants.{Idle, Switch, Erase};
ghost use Rattle.envy_map.specs.Fields.{chart, with_fields};
ghost use Rattle.envy_map.specs.Writes.{with_fill, with_job, with_position, with_wear};
ghost use Rattle.envy_soundness.specs.Jobs.{IsClear};
ghost use Rattle.envy_soundness.specs.Power.{power_of, power_after};
ghost use Rattle.envy_soundness.specs.Same.{Same};
ghost use Rattle.envy_soundness.specs.Sound.{IsSound, IsPlaced, IsSpare};
ghost use Rattle.envy_space.specs.Pool.{PoolAgrees};
ghost use Rattle.envy_space.specs.Retiring.{LowestFresh};
ghost use Rattle.envy_reloc.specs.Keeping.{PoolFollows};
ghost use Rattle.envy_reloc.specs.Phases.{Empties, Retires};
ghost use Rattle.envy_base.specs.Shape.{positions_of};

use envy_base::{Board, Off, Trouble};
use envy_soundness::{begin_erase, empty_spare, end_job, erase_counted};
use envy_space::Space;

/// Puts the spare in place of the segment that was switched, which is to be erased then.
pub(crate) fn place_spare<B: Board>(
    board: &mut B,
    space: &mut Space,
    segment: u32,
) -> Result<(), Off>
    requires sound { IsSound (chart (B.state board.old)) }
    requires on { IsTrue (B.state board.old).on }
    requires pool { PoolAgrees (B.state board.old).shape (chart (B.state board.old)).fields space.old }
    requires switching { (chart (B.state board.old)).fields.job ≡ Some (Switch segment) }
    requires placed { IsPlaced (B.state board.old).shape (chart (B.state board.old)).fields.positions segment }
    requires clear { IsClear (B.state board.old).shape (chart (B.state board.old)).fields segment }

    ensures same { Same 0 0 (chart (B.state board.old)) (chart (B.state board.new)) }
    ensures pool { IsTrue (B.state board.new).on
        → PoolAgrees (B.state board.new).shape (chart (B.state board.new)).fields space.new }
    ensures shape { space.new.shape ≡ space.old.shape }
    ensures places { OnOk result ((k e : ℕ) × (k < positions_of (B.state board.old).shape)
        × (slice_index (chart (B.state board.old)).fields.positions k ≡ segment)
        × IsSpare (B.state board.old).shape (chart (B.state board.old)).fields.positions e
        × (chart (B.state board.new) ≡ with_fields (chart (B.state board.old))
        (with_job (Some Erase) (with_position k e (chart (B.state board.old)).fields)))) }
    ensures power { (B.state board.new).on ≡ power_of result }
{
    let position = space.position_of(segment);
    space.replace(board, position)?;
    begin_erase(board)
}

/// Empties the spare, which was erased, and ends the job.
fn empty<B: Board>(board: &mut B, space: &mut Space, spare: u32) -> Result<(), Off>
    requires sound { IsSound (chart (B.state board.old)) }
    requires on { IsTrue (B.state board.old).on }
    requires pool { PoolAgrees (B.state board.old).shape (chart (B.state board.old)).fields space.old }
    requires erasing { (chart (B.state board.old)).fields.job ≡ Some Erase }
    requires spare { IsSpare (B.state board.old).shape (chart (B.state board.old)).fields.positions spare }
    requires erased { (q : ℕ) → q < length (B.state board.old).flash → q / (B.state board.old).shape.rows ≡ spare
        → IsOnes (row_of (B.state board.old) q) }

    ensures same { Same 0 0 (chart (B.state board.old)) (chart (B.state board.new)) }
    ensures follow { PoolFollows (chart (B.state board.new)) space.old space.new }
    ensures power { (B.state board.new).on ≡ power_of result }
    ensures empties { OnOk result (chart (B.state board.new) ≡ with_fields (chart (B.state board.old))
        (with_job (Some Idle) (with_fill spare 0 (chart (B.state board.old)).fields))) }
{
    empty_spare(board, spare)?;
    space.note_erased(spare);
    end_job(board)?;
    Ok(())
}

/// Retires the spare, whose erase was bad, to the lowest position in reserve that is fresh, and ends the job. Where
/// none is fresh nothing changes.
fn retire<B: Board>(board: &mut B, space: &mut Space) -> Result<(), Trouble>
    requires sound { IsSound (chart (B.state board.old)) }
    requires on { IsTrue (B.state board.old).on }
    requires pool { PoolAgrees (B.state board.old).shape (chart (B.state board.old)).fields space.old }
    requires erasing { (chart (B.state board.old)).fields.job ≡ Some Erase }

    ensures same { Same 0 0 (chart (B.state board.old)) (chart (B.state board.new)) }
    ensures follow { PoolFollows (chart (B.state board.new)) space.old space.new }
    ensures power { (B.state board.new).on ≡ power_after result }
    ensures retires { OnOk result ((k e : ℕ)
        × IsSpare (B.state board.old).shape (chart (B.state board.old)).fields.positions e
        × LowestFresh (B.state board.old).shape (chart (B.state board.old)).fields.fills
        (chart (B.state board.old)).fields.positions (Some k)
        × (chart (B.state board.new) ≡ with_fields (chart (B.state board.old)) (with_job (Some Idle)
        (with_position k e (with_fill e (B.state board.old).shape.rows (chart (B.state board.old)).fields))))) }
    ensures none { IsErrOf result Trouble.Bad → (B.state board.new ≡ B.state board.old)
        × LowestFresh (B.state board.old).shape (chart (B.state board.old)).fields.fills
        (chart (B.state board.old)).fields.positions None }
{
    let Some(position) = space.fresh_reserve() else {
        return Err(Trouble::Bad);
    };
    space.retire(board, position)?;
    end_job(board)?;
    Ok(())
}

/// Erases the spare, or retires it where its erase is bad and a position in reserve is fresh. Either ends the job.
pub(crate) fn erase<B: Board>(
    board: &mut B,
    space: &mut Space,
    erased: &mut u64,
    since: &mut u64,
) -> Result<(), Trouble>
    requires sound { IsSound (chart (B.state board.old)) }
    requires on { IsTrue (B.state board.old).on }
    requires pool { PoolAgrees (B.state board.old).shape (chart (B.state board.old)).fields space.old }
    requires erasing { (chart (B.state board.old)).fields.job ≡ Some Erase }

    ensures same { Same 0 1 (chart (B.state board.old)) (chart (B.state board.new)) }
    ensures follow { PoolFollows (chart (B.state board.new)) space.old space.new }
    ensures power { (B.state board.new).on ≡ power_after result }

    ensures counted { IsTrue (B.state board.new).on → (erased.new ≡ up erased.old) × (since.new ≡ up since.old) }
    ensures counts { Tally (sum (B.state board.old).erases) erased.old (sum (B.state board.new).erases) erased.new
        × Tally (sum (B.state board.old).erases) since.old (sum (B.state board.new).erases) since.new }
    ensures ends { OnOk result ((e : ℕ)
        × IsSpare (B.state board.old).shape (chart (B.state board.old)).fields.positions e
        × (Empties (chart (B.state board.old)) e (chart (B.state board.new))
        ⊎ Retires (chart (B.state board.old)) e (chart (B.state board.new)))) }
    ensures spoilt { IsErrOf result Trouble.Bad → (e : ℕ)
        × IsSpare (B.state board.old).shape (chart (B.state board.old)).fields.positions e
        × LowestFresh (B.state board.old).shape (chart (B.state board.old)).fields.fills
        (chart (B.state board.old)).fields.positions None
        × ((chart (B.state board.new)).fields
        ≡ with_wear e (up (slice_index (chart (B.state board.old)).fields.wears e)) (chart (B.state board.old)).fields)
        × ((r : ℕ) → r / (B.state board.old).shape.rows ≢ e
        → row_of (B.state board.new) r ≡ row_of (B.state board.old) r) }
    ensures bad { IsErrOf result Trouble.Bad → (B.state board.new).bads ≡ up (B.state board.old).bads }
{
    let spare = space.spare();
    match erase_counted(board, spare, erased, since) {
        Ok(()) => {
            empty(board, space, spare)?;
            Ok(())
        }
        Err(Trouble::Bad) => retire(board, space),
        Err(Trouble::Off) => Err(Trouble::Off),
    }
}
