ghost use Rattle.std.specs.Prelude.{◌≡◌, ◌*◌, ◌+◌, ◌<◌, ℕ, OnOk, IsErrOf, slice_index};
ghost use Rattle.envy_base.specs.Counting.{up};
ghost use Rattle.envy_base.specs.State.{row_of};
ghost use Rattle.envy_map.specs.Fields.{chart};
ghost use Rattle.envy_soundness.specs.Same.{Same};
ghost use Rattle.envy_engine.specs.Agreement.{Ready};
ghost use Rattle.envy_engine.specs.Flushing.{IsFresh, ProgramsOnly};
ghost use Rattle.envy_engine.specs.Leaving.{LeavesParts};
ghost use Rattle.envy_soundness.specs.Power.{power_after};

use crate::page::read_words;
use crate::parts::Parts;
use envy_base::{Board, PAGE_LENGTH, PAGE_WORDS, Place, Trouble};
use envy_soundness::program_counted;

/// A count after one more, which stops at the top.
#[tactic(auto, unfolding(envy_base::specs::Counting::up))]
pub fn one_more(count: u64) -> u64
    ensures { result ≡ up count }
{
    count.saturating_add(1)
}

/// Programs a claimed row with the words of a frame, and counts it. Nothing else changes.
#[inline(always)]
pub fn copy_row<B: Board>(
    board: &mut B,
    parts: &mut Parts,
    page: u32,
    frame: u32,
    row: u32,
) -> Result<(), Trouble>
    requires ready { Ready (chart (B.state board.old)) parts.old }
    requires frame { frame < (B.state board.old).shape.frames }
    requires fresh { IsFresh (chart (B.state board.old)) page row }

    ensures same { Same 1 0 (chart (B.state board.old)) (chart (B.state board.new)) }
    ensures leaves { LeavesParts (chart (B.state board.old)) parts.old (chart (B.state board.new)) parts.new }
    ensures only { ProgramsOnly row (chart (B.state board.old)) (chart (B.state board.new)) }
    ensures copy { OnOk result ((j : ℕ) → j < PAGE_WORDS
        → slice_index (row_of (B.state board.new) row) j ≡ slice_index (chart (B.state board.old)).fields.frames
        (PAGE_WORDS * frame + j)) }
    ensures parts { parts.new ≡ record parts.old { flushes = up parts.old.flushes } }
    ensures power { (B.state board.new).on ≡ power_after result }
    ensures bad { IsErrOf result Trouble.Bad → (B.state board.new).bads ≡ up (B.state board.old).bads }
{
    let mut words = [0; PAGE_LENGTH];
    read_words(board, Place::Frame(frame), &mut words)?;
    program_counted(board, row, &words, &mut parts.flushes)
}
