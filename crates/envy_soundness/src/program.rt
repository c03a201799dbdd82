ghost use Rattle.std.specs.Prelude.{◌≡◌, ◌≢◌, ℕ, ◌*◌, ◌<◌, IsTrue, IsErrOf, OnOk};
ghost use Rattle.envy_base.specs.Counting.{up};
ghost use Rattle.envy_base.specs.State.{Programs, IsOnes, row_of};
ghost use Rattle.envy_map.specs.Fields.{chart};
ghost use Rattle.envy_soundness.specs.Claims.{MayProgram};
ghost use Rattle.envy_soundness.specs.Power.{power_after};
ghost use Rattle.envy_soundness.specs.Same.{Same};
ghost use Rattle.envy_soundness.specs.Sound.{IsSound};

use envy_base::{Board, Page, Trouble};

/// Programs a row that is claimed and that no page names. An erased row holds the page then. Where the
/// program fails, or power does, the row may hold anything; the array stays as it is all the same.
pub fn program_row<B: Board>(board: &mut B, row: u32, page: &Page) -> Result<(), Trouble>
    requires sound { IsSound (chart (B.state board.old)) }
    requires row { row < (B.state board.old).shape.segments * (B.state board.old).shape.rows }
    requires may { IsTrue (B.state board.old).on
        → MayProgram (B.state board.old).shape (chart (B.state board.old)).fields row }

    ensures same { Same 1 0 (chart (B.state board.old)) (chart (B.state board.new)) }
    ensures fields { (chart (B.state board.new)).fields ≡ (chart (B.state board.old)).fields }
    ensures programs { Programs (B.state board.old) row page.now result (B.state board.new) }
    ensures written { OnOk result (IsOnes (row_of (B.state board.old) row)
        → row_of (B.state board.new) row ≡ page.now) }
    ensures others { (q : ℕ) → q ≢ row → row_of (B.state board.new) q ≡ row_of (B.state board.old) q }
    ensures power { (B.state board.new).on ≡ power_after result }
    ensures bad { IsErrOf result Trouble.Bad → (B.state board.new).bads ≡ up (B.state board.old).bads }
{
    board.program(row, page)
}
