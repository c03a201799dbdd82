ghost use Rattle.std.specs.Prelude.{◌≡◌, ◌*◌, ◌<◌, ◌+◌, ◌-◌, false, IsTrue, None, Some, OnOk, OnErr, IfOk, IsErrOf, slice_index};
ghost use Rattle.envy_base.specs.Counting.{up, Tally};
ghost use Rattle.envy_base.specs.State.{row_of};
ghost use Rattle.envy_base.specs.declared.fields.Job.TheVariants.{Copy};
ghost use Rattle.envy_map.specs.Fields.{chart};
ghost use Rattle.envy_soundness.specs.Power.{power_of, power_after};
ghost use Rattle.envy_soundness.specs.Same.{Same};
ghost use Rattle.envy_soundness.specs.Sound.{IsSound};
ghost use Rattle.envy_space.specs.Pool.{PoolAgrees};
ghost use Rattle.envy_reloc.specs.Keeping.{ClaimsCopy, MayCopy, PoolFollows};
ghost use Rattle.envy_reloc.specs.Rows.{NextKept};

use envy_base::{Board, Off, PAGE_LENGTH, PAGE_WORDS, Page, Trouble};
use envy_soundness::{note_origin, program_counted, row_owner};
use envy_space::Space;

/// A kept row that the spare has no copy of, and the page that keeps it.
#[derive(Clone, Copy, Debug, PartialEq, Eq)]
pub(crate) struct Left {
    pub(crate) row: u32,
    pub(crate) page: u32,
}

/// The lowest kept row of a segment from the mark upward, where so many rows of it are claimed. A row that
/// a call of a host let go of is passed over.
pub(crate) fn next_kept<B: Board>(
    board: &B,
    segment: u32,
    claimed: u32,
    mark: u32,
) -> Result<Option<Left>, Off>
    requires sound { IsSound (chart (B.state board.now)) }
    requires segment { segment < (B.state board.now).shape.segments }
    requires claimed { slice_index (chart (B.state board.now)).fields.fills segment ≡ claimed }
    ensures next { IfOk result (λ left.
        NextKept (B.state board.now).shape (chart (B.state board.now)).fields segment mark left) }
    ensures off { OnErr result ((B.state board.now).on ≡ false) }
{
    let first = segment * board.shape().rows;
    for row in first.max(mark)..first + claimed {
        if let Some(kept) = row_owner(board, row)? {
            return Ok(Some(Left {
                row,
                page: kept.page,
            }));
        }
    }
    Ok(None)
}

/// Reads the 32 words of a row into `words`.
pub(crate) fn read_row<B: Board>(board: &B, row: u32, words: &mut Page) -> Result<(), Off>
    requires { row < (B.state board.now).shape.segments * (B.state board.now).shape.rows }
    ensures words { OnOk result (words.new ≡ row_of (B.state board.now) row) }
    ensures power { (B.state board.now).on ≡ power_of result }
{
    if !board.powered() {
        return Err(Off);
    }
    for i in 0..PAGE_WORDS {
        words[i as usize] = board.read(row, i)?;
    }
    Ok(())
}

#[tactic(auto, using(envy_soundness::proofs::Sames::same_then, envy_soundness::proofs::Sames::same_within, envy_soundness::proofs::Sames::tally_still, envy_soundness::proofs::Sames::tally_then))]
/// Copies a row of the segment that is being copied to the spare.
pub(crate) fn copy_row<B: Board>(
    board: &mut B,
    space: &mut Space,
    copied: &mut u64,
    spare: u32,
    left: Left,
) -> Result<(), Trouble>
    requires sound { IsSound (chart (B.state board.old)) }
    requires on { IsTrue (B.state board.old).on }
    requires pool { PoolAgrees (B.state board.old).shape (chart (B.state board.old)).fields space.old }
    requires copy { MayCopy (chart (B.state board.old)) spare left }

    ensures same { Same 1 0 (chart (B.state board.old)) (chart (B.state board.new)) }
    ensures follow { PoolFollows (chart (B.state board.new)) space.old space.new }
    ensures power { (B.state board.new).on ≡ power_after result }

    ensures claims { IsTrue (B.state board.new).on
        → ClaimsCopy (chart (B.state board.old)) spare left.row copied.old (chart (B.state board.new)) copied.new }
    ensures copy { let target = spare * (B.state board.old).shape.rows + slice_index
        (chart (B.state board.old)).fields.fills spare in
        OnOk result (row_of (B.state board.new) target ≡ row_of (B.state board.old) left.row) }
    ensures bad { IsErrOf result Trouble.Bad → (B.state board.new).bads ≡ up (B.state board.old).bads }
    ensures counts { Tally (B.state board.old).begun copied.old (B.state board.new).begun copied.new }
{
    let filled = space.fill(spare);
    note_origin(board, filled, left.row)?;
    let target = space.claim(board, spare, left.page)?;
    let mut words = [0; PAGE_LENGTH];
    read_row(board, left.row, &mut words)?;
    program_counted(board, target, &words, copied)
}
