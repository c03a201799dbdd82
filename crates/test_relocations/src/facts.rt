//! What stands on a board.

ghost use Rattle.envy_map.specs.Fields.{chart};
ghost use Rattle.envy_soundness.specs.Sound.{IsSound};

use envy_base::{Board, Job, Off, Place, Undo};
use envy_map::{back, fill, frame_word, job, origin, place, segment_at, undo, wear};

/// What may stand on a board.
#[derive(Clone, Copy)]
pub(crate) enum Fact {
    /// A page is at this place, and has this undo.
    At(u32, Place),
    Undone(u32, Undo),
    /// The page that a row was claimed for, and the row that a copy was made of.
    Back(u32, u32),
    Origin(u32, u32),
    /// So many rows of a segment were claimed, or at least so many.
    Fill(u32, u32),
    FillAtLeast(u32, u32),
    Wear(u32, u64),
    /// The segment at a position.
    Segment(u32, u32),
    Works(Job),
}

/// Word `i` of the page of this number is the number and `i` more; page 0 is that of zeros.
pub(crate) fn page_of(number: u32) -> [u64; 32] {
    let mut page = [0; 32];
    if number > 0 {
        for i in 0..32u32 {
            page[i as usize] = number as u64 + i as u64;
        }
    }
    page
}

/// A word of the page at a place, if the board has that place.
fn word_at<B: Board>(board: &B, at: Place, i: u32) -> Result<Option<u64>, Off> {
    let shape = board.shape();
    match at {
        Place::Absent => Ok(Some(0)),
        Place::Row(row) if row < shape.segments * shape.rows && i < 32 => {
            Ok(Some(board.read(row, i)?))
        }
        Place::Frame(frame) if frame < shape.frames && i < 32 => {
            Ok(Some(frame_word(board, frame, i)?))
        }
        _ => Ok(None),
    }
}

/// Whether the page at a place is that of this number.
fn is_page<B: Board>(board: &B, at: Place, number: u32) -> Result<bool, Off> {
    let page = page_of(number);
    for i in 0..32u32 {
        if word_at(board, at, i)? != Some(page[i as usize]) {
            return Ok(false);
        }
    }
    Ok(true)
}

/// Where a restart reads a page, whose undo is that of an open transaction or clear.
fn kept_place(now: Place, undo: Undo) -> Place {
    match undo {
        Undo::Clear => now,
        Undo::Blank { slot: _ } => Place::Absent,
        Undo::Shadow { slot: _, row } => Place::Row(row),
    }
}

/// Whether loads read this page as the page of this number.
pub(crate) fn reads<B: Board>(board: &B, page: u32, number: u32) -> Result<bool, Off>
    requires { IsSound (chart (B.state board.now)) }
{
    if page >= board.shape().pages {
        return Ok(false);
    }
    let now = place(board, page)?;
    is_page(board, now, number)
}

/// Whether a restart leaves this page as the page of this number.
pub(crate) fn keeps<B: Board>(board: &B, page: u32, number: u32) -> Result<bool, Off>
    requires { IsSound (chart (B.state board.now)) }
{
    if page >= board.shape().pages {
        return Ok(false);
    }
    let (now, undo) = (place(board, page)?, undo(board, page)?);
    is_page(board, kept_place(now, undo), number)
}

/// Whether this was found.
fn is<T: PartialEq + Copy>(found: Result<T, Off>, wanted: &T) -> Result<bool, Off> {
    match found {
        Ok(found) => Ok(found == *wanted),
        Err(Off) => Err(Off),
    }
}

/// Whether so many were found, or more.
fn is_at_least(found: Result<u32, Off>, least: u32) -> Result<bool, Off> {
    match found {
        Ok(found) => Ok(found >= least),
        Err(Off) => Err(Off),
    }
}

/// Whether a fact holds.
pub(crate) fn holds<B: Board>(board: &B, fact: Fact) -> Result<bool, Off>
    requires { IsSound (chart (B.state board.now)) }
{
    let shape = board.shape();
    match fact {
        Fact::At(page, at) if page < shape.pages => is(place(board, page), &at),
        Fact::Undone(page, how) if page < shape.pages => is(undo(board, page), &how),
        Fact::Back(row, page) if row < shape.segments * shape.rows => is(back(board, row), &page),
        Fact::Origin(i, row) if i < shape.rows => is(origin(board, i), &row),
        Fact::Fill(segment, rows) if segment < shape.segments => is(fill(board, segment), &rows),
        Fact::FillAtLeast(segment, rows) if segment < shape.segments => {
            is_at_least(fill(board, segment), rows)
        }
        Fact::Wear(segment, count) if segment < shape.segments => is(wear(board, segment), &count),
        Fact::Segment(position, segment) if position < shape.segments - 1 => {
            is(segment_at(board, position), &segment)
        }
        Fact::Works(now) => is(job(board), &now),
        _ => Ok(false),
    }
}
