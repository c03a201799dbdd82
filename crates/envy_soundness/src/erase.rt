ghost use Rattle.std.specs.Prelude.{◌≡◌, ◌≢◌, ◌/◌, ◌<◌, ℕ, IsTrue, List, [], Some, OnOk, IsErrOf, slice_index, slice_index_or, slice_set, sum};
ghost use Rattle.envy_base.specs.Counting.{up, Tally};
ghost use Rattle.envy_base.specs.State.{Only, IsOnes};
ghost use Rattle.envy_base.specs.declared.fields.Job.TheVariants.{Erase};
ghost use Rattle.envy_map.specs.Fields.{chart, with_fields};
ghost use Rattle.envy_map.specs.Writes.{Writes, with_wear, with_fill};
ghost use Rattle.envy_soundness.specs.Power.{power_of, power_after};
ghost use Rattle.envy_soundness.specs.Sound.{IsSound, IsSpare};
ghost use Rattle.envy_soundness.specs.Same.{Same, Stays};

use envy_base::{Board, Off, Trouble};
use envy_map::{set_fill, set_wear, wear};

/// A count after one more, which stops at the top.
#[tactic(auto, unfolding(envy_base::specs::Counting::up))]
pub(crate) fn one_more(count: u64) -> u64
    ensures { result ≡ up count }
{
    count.saturating_add(1)
}

/// Raises the wear word of a segment by one. At the top it stays. The array stays, but the word is ahead
/// of the segment's erases until an erase follows.
pub fn raise_wear<B: Board>(board: &mut B, segment: u32) -> Result<(), Off>
    requires sound { IsSound (chart (B.state board.old)) }
    requires segment { segment < (B.state board.old).shape.segments }
    ensures stays { Stays 0 0 (chart (B.state board.old)) (chart (B.state board.new)) }
    ensures writes { Writes (with_wear segment (up (slice_index (chart (B.state board.old)).fields.wears segment)))
        (chart (B.state board.old)) result (chart (B.state board.new)) }
    ensures power { (B.state board.new).on ≡ power_of result }
{
    let worn = wear(board, segment)?;
    set_wear(board, segment, one_more(worn))
}

/// Raises the wear word of the spare and erases it, while the job is to erase it, and counts the erase
/// in both counts once it has begun, however it ends. The array stays. The fill of the spare is left
/// as it is.
///
/// # Errors
///
/// `Off` where power is off at the end. `Bad` where the erase failed: the rows of the spare hold
/// anything then.
pub fn erase_counted<B: Board>(
    board: &mut B,
    segment: u32,
    count: &mut u64,
    since: &mut u64,
) -> Result<(), Trouble>
    requires sound { IsSound (chart (B.state board.old)) }
    requires segment { segment < (B.state board.old).shape.segments }
    requires erasing { IsTrue (B.state board.old).on → ((chart (B.state board.old)).fields.job ≡ Some Erase)
        × IsSpare (B.state board.old).shape (chart (B.state board.old)).fields.positions segment }

    ensures same { Same 0 1 (chart (B.state board.old)) (chart (B.state board.new)) }
    ensures fields { let old = (chart (B.state board.old)).fields in
        IsTrue (B.state board.new).on
        → (chart (B.state board.new)).fields ≡ with_wear segment (up (slice_index old.wears segment)) old }
    ensures erases { let old = (B.state board.old).erases in
        IsTrue (B.state board.new).on
        → (B.state board.new).erases ≡ slice_set old segment (up (slice_index old segment)) }
    ensures erased { OnOk result (Only (B.state board.old).shape.rows segment IsOnes (B.state board.old).flash
        (B.state board.new).flash) }
    ensures others { (q : ℕ) → q / (B.state board.old).shape.rows ≢ segment
        → slice_index_or (B.state board.new).flash q [] ≡ slice_index_or (B.state board.old).flash q [] }
    ensures counted { IsTrue (B.state board.new).on → (count.new ≡ up count.old) × (since.new ≡ up since.old) }
    ensures counts { Tally (sum (B.state board.old).erases) count.old (sum (B.state board.new).erases) count.new
        × Tally (sum (B.state board.old).erases) since.old (sum (B.state board.new).erases) since.new }
    ensures power { (B.state board.new).on ≡ power_after result }
    ensures bad { IsErrOf result Trouble.Bad → (B.state board.new).bads ≡ up (B.state board.old).bads }
{
    raise_wear(board, segment)?;
    let answer = board.erase(segment);
    *count = one_more(*count);
    *since = one_more(*since);
    answer
}

/// Empties the spare while the job is to erase it: its fill becomes 0. The array stays.
pub fn empty_spare<B: Board>(board: &mut B, segment: u32) -> Result<(), Off>
    requires sound { IsSound (chart (B.state board.old)) }
    requires segment { segment < (B.state board.old).shape.segments }
    requires erasing { IsTrue (B.state board.old).on → (chart (B.state board.old)).fields.job ≡ Some Erase }
    requires spare { IsTrue (B.state board.old).on
        → IsSpare (B.state board.old).shape (chart (B.state board.old)).fields.positions segment }

    ensures same { Same 0 0 (chart (B.state board.old)) (chart (B.state board.new)) }
    ensures fields { OnOk result (chart (B.state board.new) ≡ with_fields (chart (B.state board.old))
        (with_fill segment 0 (chart (B.state board.old)).fields)) }
    ensures power { (B.state board.new).on ≡ power_of result }
{
    set_fill(board, segment, 0)
}
