ghost use Rattle.std.specs.Prelude.{◌≡◌, ◌⊎◌, ◌↔◌, ◌%◌, ◌/◌, ◌≤◌, ◌<◌, [], false, IsTrue, Some, length, slice_index, slice_index_or};
ghost use Rattle.envy_base.specs.State.{ones};
ghost use Rattle.envy_map.specs.Fields.{chart};
ghost use Rattle.envy_audit.specs.Finding.{Tells};
ghost use Rattle.envy_audit.specs.Points.{Decodes, FreeAreOnes, IdleSpareIsEmpty, rows_of};
ghost use Rattle.envy_audit.specs.Tables.{MarksPlaced};

use envy_base::{Board, Job, Off, PAGE_WORDS};
use envy_map::{fill, job};

// Whether a row is all ones.
fn is_ones<B: Board>(board: &B, row: u32) -> Result<bool, Off>
    requires row { row < rows_of (B.state board.now).shape }
    ensures { let c = chart (B.state board.now) in Tells c.on (slice_index_or c.flash row [] ≡ ones) result }
{
    for i in 0..PAGE_WORDS {
        let word = board.read(row, i)?;
        if word != u64::MAX {
            return Ok(false);
        }
    }
    Ok(true)
}

// Whether a row is below its segment's fill or all ones, unless it may hold anything.
fn is_ones_if_free<B: Board>(board: &B, row: u32, any: bool) -> Result<bool, Off>
    requires decodes { Decodes (chart (B.state board.now)) }
    requires row { row < rows_of (B.state board.now).shape }
    ensures { let c = chart (B.state board.now) in
        Tells c.on (slice_index c.fields.fills (row / c.shape.rows) ≤ row % c.shape.rows
        → (slice_index_or c.flash row [] ≡ ones) ⊎ IsTrue any) result }
{
    let rows = board.shape().rows;
    if any || row % rows < fill(board, row / rows)? {
        return Ok(true);
    }
    is_ones(board, row)
}

// Whether the spare is being erased.
fn is_erasing<B: Board>(board: &B) -> Result<bool, Off>
    requires { Decodes (chart (B.state board.now)) }
    ensures { let c = chart (B.state board.now) in Tells c.on (c.fields.job ≡ Some Job.Erase) result }
{
    Ok(job(board)? == Job::Erase)
}

// Whether a segment is the spare that is being erased.
fn is_erased(erasing: bool, placed: &[bool], segment: u32) -> bool
    requires { segment < length placed.now }
    ensures { IsTrue result ↔ (IsTrue erasing × (slice_index_or placed.now segment false ≡ false)) }
{
    erasing && !placed[segment as usize]
}

/// Whether rows from the fill upward are all ones, except in the spare while it is being erased.
pub(crate) fn free_are_ones<B: Board>(board: &B, placed: &[bool]) -> Result<bool, Off>
    requires decodes { Decodes (chart (B.state board.now)) }
    requires marks { MarksPlaced (chart (B.state board.now)) placed.now }
    ensures { let c = chart (B.state board.now) in Tells c.on (FreeAreOnes c) result }
{
    let shape = board.shape();
    let erasing = is_erasing(board)?;
    for row in 0..shape.segments * shape.rows {
        let any = is_erased(erasing, placed, row / shape.rows);
        let right = is_ones_if_free(board, row, any)?;
        if !right {
            return Ok(false);
        }
    }
    Ok(true)
}

/// Whether the spare's fill is 0 where there is no job.
pub(crate) fn idle_spare_is_empty<B: Board>(board: &B, placed: &[bool]) -> Result<bool, Off>
    requires decodes { Decodes (chart (B.state board.now)) }
    requires marks { MarksPlaced (chart (B.state board.now)) placed.now }
    ensures { let c = chart (B.state board.now) in Tells c.on (IdleSpareIsEmpty c) result }
{
    if job(board)? != Job::Idle {
        return Ok(true);
    }
    for segment in 0..board.shape().segments {
        if !placed[segment as usize] && fill(board, segment)? != 0 {
            return Ok(false);
        }
    }
    Ok(true)
}
