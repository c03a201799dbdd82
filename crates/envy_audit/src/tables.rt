ghost use Rattle.std.specs.Prelude.{◌≡◌, ◌<◌, Some, false, IfOk, MatchResult, length};
ghost use Rattle.envy_map.specs.Fields.{chart, place as place_of_page};
ghost use Rattle.envy_map.specs.Writes.{Gives};
ghost use Rattle.envy_soundness.specs.Words.{kept};
ghost use Rattle.envy_audit.specs.Finding.{Tells};
ghost use Rattle.envy_audit.specs.Points.{Decodes, PositionsDiffer, FramesDiffer, RowsDiffer, rows_of};
ghost use Rattle.envy_audit.specs.Tables.{MarksPlaced, MarksUsed, NotesOwners, Notes, IsWithin, Fills};

use envy_base::{Board, MOST_ROWS, Off, Place, Slot, Undo, all_positions_of, positions_of};
use envy_map::{place, segment_at, slot, undo};

/// Notes which segments stand at positions, and answers whether no two positions name one.
pub(crate) fn mark_placed<B: Board>(board: &B, placed: &mut [bool]) -> Result<bool, Off>
    requires decodes { Decodes (chart (B.state board.now)) }
    requires long { length placed.old ≡ (B.state board.now).shape.segments }
    ensures tells { let c = chart (B.state board.now) in Tells c.on (PositionsDiffer c) result }
    ensures marks { Fills result (MarksPlaced (chart (B.state board.now)) placed.new) }
{
    placed.fill(false);
    for position in 0..all_positions_of(&board.shape()) {
        let segment = segment_at(board, position)? as usize;
        if placed[segment] {
            return Ok(false);
        }
        placed[segment] = true;
    }
    Ok(true)
}

/// Notes which segments stand at positions in use.
pub(crate) fn mark_used<B: Board>(board: &B, used: &mut [bool]) -> Result<(), Off>
    requires decodes { Decodes (chart (B.state board.now)) }
    requires long { length used.old ≡ (B.state board.now).shape.segments }
    ensures { let c = chart (B.state board.now) in
        MatchResult result (λ _. MarksUsed c used.new) (λ _. c.on ≡ false) }
{
    used.fill(false);
    for position in 0..positions_of(&board.shape()) {
        let segment = segment_at(board, position)? as usize;
        used[segment] = true;
    }
    Ok(())
}

/// Notes which frames places name, and answers whether no two name one.
pub(crate) fn mark_frames<B: Board>(board: &B, named: &mut [bool]) -> Result<bool, Off>
    requires decodes { Decodes (chart (B.state board.now)) }
    requires long { length named.old ≡ (B.state board.now).shape.frames }
    ensures { let c = chart (B.state board.now) in Tells c.on (FramesDiffer c) result }
{
    named.fill(false);
    for page in 0..board.shape().pages {
        if let Place::Frame(frame) = place(board, page)? {
            let frame = frame as usize;
            if named[frame] {
                return Ok(false);
            }
            named[frame] = true;
        }
    }
    Ok(true)
}

/// Where a restart reads a page whose place is known.
fn kept_place<B: Board>(board: &B, page: u32, now: Place) -> Result<Place, Off>
    requires decodes { Decodes (chart (B.state board.now)) }
    requires page { page < (B.state board.now).shape.pages }
    requires place { place_of_page (chart (B.state board.now)).fields page ≡ Some now }
    ensures value { Gives (chart (B.state board.now)) (kept (chart (B.state board.now)).fields page) result }
    ensures within { IfOk result (IsWithin (rows_of (B.state board.now).shape)) }
{
    let (t, back) = match undo(board, page)? {
        Undo::Clear => return Ok(now),
        Undo::Blank { slot } => (slot, Place::Absent),
        Undo::Shadow { slot, row } => (slot, Place::Row(row)),
    };
    Ok(match slot(board, t)? {
        Slot::Active => back,
        Slot::Vacant | Slot::Committed => now,
    })
}

/// Notes the row that a page that is there stands in as the page's own, and answers whether it wasn't
/// another's.
fn note(owners: &mut [u32], page: u32, place: Place) -> bool
    requires place { IsWithin (length owners.old) place }
    requires page { page < MOST_ROWS }
    ensures { Notes page place owners.old result owners.new }
{
    let Place::Row(row) = place else {
        return true;
    };
    let owner = owners[row as usize];
    if owner != 0 && owner != page + 1 {
        return false;
    }
    owners[row as usize] = page + 1;
    true
}

/// Notes which pages keep which rows, and answers whether no row is kept by two.
pub(crate) fn note_owners<B: Board>(board: &B, owners: &mut [u32]) -> Result<bool, Off>
    requires decodes { Decodes (chart (B.state board.now)) }
    requires long { length owners.old ≡ rows_of (B.state board.now).shape }
    ensures tells { let c = chart (B.state board.now) in Tells c.on (RowsDiffer c) result }
    ensures notes { Fills result (NotesOwners (chart (B.state board.now)) owners.new) }
{
    owners.fill(0);
    for page in 0..board.shape().pages {
        let now = place(board, page)?;
        let kept = kept_place(board, page, now)?;
        if !note(owners, page, now) {
            return Ok(false);
        }
        if !note(owners, page, kept) {
            return Ok(false);
        }
    }
    Ok(true)
}
