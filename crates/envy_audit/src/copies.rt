ghost use Rattle.std.specs.Prelude.{◌≡◌, ◌+◌, ◌*◌, ◌/◌, ◌<◌, ◌≤◌, ℕ, [], length, slice_index, slice_index_or};
ghost use Rattle.envy_map.specs.Fields.{chart};
ghost use Rattle.envy_soundness.specs.Sound.{IsKept, Names};
ghost use Rattle.envy_audit.specs.Finding.{Tells};
ghost use Rattle.envy_audit.specs.Points.{Decodes, CopiesOf, rows_of};
ghost use Rattle.envy_audit.specs.Tables.{NotesOwners, MarksCopied, Fills};
ghost use Rattle.envy_audit.specs.Copying.{OriginsStand, KeptAreCopied, CopiesAreSame, IsKeptOnce};

use envy_base::{Board, Off, PAGE_WORDS};
use envy_map::{back, fill, origin};

// Notes the rows that the spare's first rows were copied from, and answers whether they are rows of the
// segment and differ from each other.
fn mark_copied<B: Board>(
    board: &B,
    segment: u32,
    fill: u32,
    copied: &mut [bool],
) -> Result<bool, Off>
    requires decodes { Decodes (chart (B.state board.now)) }
    requires fill { fill ≤ (B.state board.now).shape.rows }
    requires long { length copied.old ≡ rows_of (B.state board.now).shape }
    ensures tells { let c = chart (B.state board.now) in Tells c.on (OriginsStand c segment fill) result }
    ensures marks { Fills result (MarksCopied (chart (B.state board.now)) fill copied.new) }
{
    let rows = board.shape().rows;
    copied.fill(false);
    for i in 0..fill {
        let from = origin(board, i)?;
        if from / rows != segment {
            return Ok(false);
        }
        if copied[from as usize] {
            return Ok(false);
        }
        copied[from as usize] = true;
    }
    Ok(true)
}

// Whether each kept row of a segment is noted as copied.
fn kept_are_copied<B: Board>(
    board: &B,
    segment: u32,
    fill: u32,
    owners: &[u32],
    copied: &[bool],
) -> Result<bool, Off>
    requires decodes { Decodes (chart (B.state board.now)) }
    requires segment { segment < (B.state board.now).shape.segments }
    requires notes { NotesOwners (chart (B.state board.now)) owners.now }
    requires marks { MarksCopied (chart (B.state board.now)) fill copied.now }
    ensures { let c = chart (B.state board.now) in Tells c.on (KeptAreCopied c segment fill) result }
{
    let rows = board.shape().rows;
    for i in 0..rows {
        let row = (segment * rows + i) as usize;
        if owners[row] == 0 {
            continue;
        }
        if !copied[row] {
            return Ok(false);
        }
    }
    Ok(true)
}

// Whether two rows hold the same words.
fn are_equal<B: Board>(board: &B, a: u32, b: u32) -> Result<bool, Off>
    requires a { a < rows_of (B.state board.now).shape }
    requires b { b < rows_of (B.state board.now).shape }
    ensures { let c = chart (B.state board.now) in
        Tells c.on (slice_index_or c.flash a [] ≡ slice_index_or c.flash b []) result }
{
    for i in 0..PAGE_WORDS {
        if board.read(a, i)? != board.read(b, i)? {
            return Ok(false);
        }
    }
    Ok(true)
}

// Whether a row equals the row that it was copied from, and was claimed for the same page.
fn is_copy<B: Board>(board: &B, row: u32, from: u32) -> Result<bool, Off>
    requires decodes { Decodes (chart (B.state board.now)) }
    requires row { row < rows_of (B.state board.now).shape }
    requires from { from < rows_of (B.state board.now).shape }
    ensures { let c = chart (B.state board.now) in
        Tells c.on ((slice_index_or c.flash row [] ≡ slice_index_or c.flash from [])
        × (slice_index c.fields.backs row ≡ slice_index c.fields.backs from)) result }
{
    if back(board, row)? != back(board, from)? {
        return Ok(false);
    }
    are_equal(board, row, from)
}

// Whether each row of the spare that was copied from a kept row is a copy of it.
fn copies_are_same<B: Board>(board: &B, spare: u32, fill: u32, owners: &[u32]) -> Result<bool, Off>
    requires decodes { Decodes (chart (B.state board.now)) }
    requires spare { spare < (B.state board.now).shape.segments }
    requires fill { fill ≤ (B.state board.now).shape.rows }
    requires notes { NotesOwners (chart (B.state board.now)) owners.now }
    ensures { let c = chart (B.state board.now) in Tells c.on (CopiesAreSame c spare fill) result }
{
    let rows = board.shape().rows;
    for i in 0..fill {
        let from = origin(board, i)?;
        if owners[from as usize] == 0 {
            continue;
        }
        let same = is_copy(board, spare * rows + i, from)?;
        if !same {
            return Ok(false);
        }
    }
    Ok(true)
}

/// Whether the spare holds the copies of a segment that is switched.
pub(crate) fn holds_copies<B: Board>(
    board: &B,
    segment: u32,
    spare: u32,
    owners: &[u32],
    copied: &mut [bool],
) -> Result<bool, Off>
    requires decodes { Decodes (chart (B.state board.now)) }
    requires segment { segment < (B.state board.now).shape.segments }
    requires spare { spare < (B.state board.now).shape.segments }
    requires notes { NotesOwners (chart (B.state board.now)) owners.now }
    requires long { length copied.old ≡ rows_of (B.state board.now).shape }
    ensures { let c = chart (B.state board.now) in Tells c.on (CopiesOf c segment spare) result }
{
    let fill = fill(board, spare)?;
    let stand = mark_copied(board, segment, fill, copied)?;
    if !stand {
        return Ok(false);
    }
    let all = kept_are_copied(board, segment, fill, owners, copied)?;
    if !all {
        return Ok(false);
    }
    copies_are_same(board, spare, fill, owners)
}

/// Whether no kept row of the spare was copied from a kept row.
pub(crate) fn is_kept_once<B: Board>(board: &B, spare: u32, owners: &[u32]) -> Result<bool, Off>
    requires decodes { Decodes (chart (B.state board.now)) }
    requires spare { spare < (B.state board.now).shape.segments }
    requires notes { NotesOwners (chart (B.state board.now)) owners.now }
    ensures { let c = chart (B.state board.now) in Tells c.on (IsKeptOnce c spare) result }
{
    let rows = board.shape().rows;
    for i in 0..rows {
        let from = origin(board, i)?;
        if owners[(spare * rows + i) as usize] == 0 {
            continue;
        }
        if owners[from as usize] != 0 {
            return Ok(false);
        }
    }
    Ok(true)
}
