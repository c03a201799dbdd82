ghost use Rattle.std.specs.Prelude.{◌≡◌, ◌⊎◌, ◌↔◌, ◌%◌, ◌/◌, ◌*◌, ◌<◌, false, IsTrue, length, slice_index, slice_index_or};
ghost use Rattle.envy_map.specs.Fields.{chart};
ghost use Rattle.envy_audit.specs.Finding.{Tells, FindsSwitch, IsSwitching};
ghost use Rattle.envy_audit.specs.Points.{Decodes, KeptAreClaimed, KeptArePlaced, PositionsDiffer, ReservesAreUnkept, rows_of};
ghost use Rattle.envy_audit.specs.Tables.{MarksPlaced, MarksUsed, NotesOwners};

use envy_base::{Board, Job, Off};
use envy_map::{back, fill, job};

// Whether a row is below its segment's fill and was claimed for the page.
fn is_claimed<B: Board>(board: &B, row: u32, page: u32) -> Result<bool, Off>
    requires decodes { Decodes (chart (B.state board.now)) }
    requires row { row < rows_of (B.state board.now).shape }
    ensures { let c = chart (B.state board.now) in
        Tells c.on ((row % c.shape.rows < slice_index c.fields.fills (row / c.shape.rows))
        × (slice_index c.fields.backs row ≡ page)) result }
{
    let rows = board.shape().rows;
    if row % rows >= fill(board, row / rows)? {
        return Ok(false);
    }
    Ok(back(board, row)? == page)
}

/// Whether each kept row is below its segment's fill and was claimed for its page.
pub(crate) fn kept_are_claimed<B: Board>(board: &B, owners: &[u32]) -> Result<bool, Off>
    requires decodes { Decodes (chart (B.state board.now)) }
    requires notes { NotesOwners (chart (B.state board.now)) owners.now }
    ensures { let c = chart (B.state board.now) in Tells c.on (KeptAreClaimed c) result }
{
    let shape = board.shape();
    for row in 0..shape.segments * shape.rows {
        let owner = owners[row as usize];
        if owner == 0 {
            continue;
        }
        let claimed = is_claimed(board, row, owner - 1)?;
        if !claimed {
            return Ok(false);
        }
    }
    Ok(true)
}

/// The segment at a position in use that is switched.
pub(crate) fn switched<B: Board>(board: &B, used: &[bool]) -> Result<Option<u32>, Off>
    requires decodes { Decodes (chart (B.state board.now)) }
    requires marks { MarksUsed (chart (B.state board.now)) used.now }
    ensures { FindsSwitch (chart (B.state board.now)) result }
{
    match job(board)? {
        Job::Switch(segment) if used[segment as usize] => Ok(Some(segment)),
        _ => Ok(None),
    }
}

// Whether a segment at a position, in use or in reserve, is switched.
fn is_switching<B: Board>(board: &B, placed: &[bool]) -> Result<bool, Off>
    requires decodes { Decodes (chart (B.state board.now)) }
    requires marks { MarksPlaced (chart (B.state board.now)) placed.now }
    ensures { let c = chart (B.state board.now) in Tells c.on (IsSwitching c) result }
{
    match job(board)? {
        Job::Switch(segment) => Ok(placed[segment as usize]),
        Job::Idle | Job::Copy(_) | Job::Erase => Ok(false),
    }
}

// Whether a segment is at a position, or is the spare of a switch.
fn is_home(switching: bool, placed: &[bool], segment: u32) -> bool
    requires { segment < length placed.now }
    ensures { IsTrue result ↔ (IsTrue (slice_index_or placed.now segment false) ⊎ IsTrue switching) }
{
    placed[segment as usize] || switching
}

/// Whether kept rows lie in segments at positions, or in the spare of a switch.
pub(crate) fn kept_are_placed<B: Board>(
    board: &B,
    owners: &[u32],
    placed: &[bool],
) -> Result<bool, Off>
    requires decodes { Decodes (chart (B.state board.now)) }
    requires notes { NotesOwners (chart (B.state board.now)) owners.now }
    requires marks { MarksPlaced (chart (B.state board.now)) placed.now }
    ensures { let c = chart (B.state board.now) in Tells c.on (KeptArePlaced c) result }
{
    let switching = is_switching(board, placed)?;
    let shape = board.shape();
    for row in 0..shape.segments * shape.rows {
        if owners[row as usize] == 0 {
            continue;
        }
        let home = is_home(switching, placed, row / shape.rows);
        if !home {
            return Ok(false);
        }
    }
    Ok(true)
}

// Whether a segment is at a position, and not at one in use.
fn is_reserved(placed: &[bool], used: &[bool], segment: u32) -> bool
    requires placed { segment < length placed.now }
    requires used { segment < length used.now }
    ensures { IsTrue result ↔ (IsTrue (slice_index_or placed.now segment false)
        × (slice_index_or used.now segment false ≡ false)) }
{
    placed[segment as usize] && !used[segment as usize]
}

/// Whether no kept row lies in a segment at a position in reserve.
pub(crate) fn reserves_are_unkept<B: Board>(
    board: &B,
    owners: &[u32],
    placed: &[bool],
    used: &[bool],
) -> bool
    requires decodes { Decodes (chart (B.state board.now)) }
    requires apart { PositionsDiffer (chart (B.state board.now)) }
    requires notes { NotesOwners (chart (B.state board.now)) owners.now }
    requires marks { MarksPlaced (chart (B.state board.now)) placed.now }
    requires used { MarksUsed (chart (B.state board.now)) used.now }
    ensures { IsTrue result ↔ ReservesAreUnkept (chart (B.state board.now)) }
{
    let shape = board.shape();
    for row in 0..shape.segments * shape.rows {
        if owners[row as usize] == 0 {
            continue;
        }
        let reserved = is_reserved(placed, used, row / shape.rows);
        if reserved {
            return false;
        }
    }
    true
}
