ghost use Rattle.std.specs.Prelude.{◌≡◌, ◌*◌, ◌+◌, ◌<◌, true, false, Some, IfOk, OnOk, MatchResult, length};
ghost use Rattle.envy_map.specs.Fields.{chart, with_fields, place as place_of, undo as undo_of};
ghost use Rattle.envy_map.specs.Writes.{with_place};
ghost use Rattle.envy_frames.specs.Agreement.{IsElsewhere};
ghost use Rattle.envy_soundness.specs.May.{HasChanged};
ghost use Rattle.envy_soundness.specs.Same.{Counted, Same, Stored, Interrupted, Shadowed, Dropped};
ghost use Rattle.envy_soundness.specs.Sound.{owned_by};
ghost use Rattle.envy_table.specs.Hits.{Rests};
ghost use Rattle.envy_engine.specs.Agreement.{Ready, Steady};
ghost use Rattle.envy_engine.specs.Storing.{Brings, IsNotable, left_pool, Near, FillsFrame};
ghost use Rattle.envy_engine.specs.Leaving.{LeavesParts};
ghost use Rattle.envy_soundness.specs.Power.{power_of};

use crate::homes::home_of;
use crate::page::read_words;
use crate::parts::Parts;
use envy_base::{Board, Off, PAGE_LENGTH, PAGE_WORDS, Place};
use envy_map::place;
use envy_soundness::{move_to_frame, write_free_frame};
use envy_space::Space;

/// Fills a frame that is taken for a page with the page's words, one of them changed.
#[inline(always)]
pub fn fill_frame<B: Board>(
    board: &mut B,
    parts: &mut Parts,
    page: u32,
    from: Place,
    i: u32,
    w: u64,
) -> Result<u32, Off>
    requires ready { Ready (chart (B.state board.old)) parts.old }
    requires page { page < (B.state board.old).shape.pages }
    requires word { i < PAGE_WORDS }
    requires room { length parts.old.frames.held < parts.old.frames.count }
    requires here { place_of (chart (B.state board.old)).fields page ≡ Some from }
    requires elsewhere { IsElsewhere (Some from) }

    ensures same { Same 0 0 (chart (B.state board.old)) (chart (B.state board.new)) }
    ensures fills { IfOk result
        (FillsFrame page from i w (chart (B.state board.old)) parts.old (chart (B.state board.new)) parts.new) }
    ensures parts { parts.new ≡ record parts.old { frames = parts.new.frames } }
    ensures count { parts.new.frames.count ≡ parts.old.frames.count }
    ensures power { (B.state board.new).on ≡ power_of result }
{
    let home = home_of(board, parts, page, from)?;
    let mut words = [0; PAGE_LENGTH];
    read_words(board, from, &mut words)?;
    words[i as usize] = w;
    let Some(frame) = parts.frames.take(page, home) else {
        unreachable!();
    };
    write_free_frame(board, frame, &words)?;
    Ok(frame)
}

/// Notes that no page names the row that a page left.
pub fn note_left(space: &mut Space, from: Place)
    requires row { IsNotable space.old from }
    ensures { space.new ≡ left_pool from space.old }
{
    if let Place::Row(row) = from {
        space.note_dead(row);
    }
}

/// Lets a page stand in a frame that was taken for it and holds its words, one of them changed. The page's owner
/// stays, and its undo doesn't name the row that it leaves.
fn move_in<B: Board>(
    board: &mut B,
    parts: &mut Parts,
    page: u32,
    frame: u32,
    from: Place,
    i: u32,
    w: u64,
) -> Result<(), Off>
    requires near { Near (chart (B.state board.old)) parts.old page frame from }
    requires word { i < PAGE_WORDS }
    requires copy { HasChanged (chart (B.state board.old)).fields (B.state board.old).flash page
        (Place.Frame frame) i w }

    ensures free { let old = chart (B.state board.old) in
        let new = chart (B.state board.new) in
        owned_by old.fields.slots (undo_of old.fields page) ≡ false
        → MatchResult result (λ _. Stored 0 0 old new (PAGE_WORDS * page + i) w) (λ _.
        Interrupted 0 0 old new (PAGE_WORDS * page + i) w) }
    ensures owned { let old = chart (B.state board.old) in
        let new = chart (B.state board.new) in
        owned_by old.fields.slots (undo_of old.fields page) ≡ true
        → MatchResult result (λ _. Shadowed 0 0 old new (PAGE_WORDS * page + i) w) (λ _. Dropped 0 0 old new) }
    ensures counted { Counted 0 0 (chart (B.state board.old)) (chart (B.state board.new)) }
    ensures fields { OnOk result (chart (B.state board.new) ≡ with_fields (chart (B.state board.old))
        (with_place page (Some (Place.Frame frame)) (chart (B.state board.old)).fields)) }
    ensures steady { Steady (chart (B.state board.new)) parts.new }
    ensures rests { Rests parts.old.cache parts.new.cache }
    ensures parts { parts.new ≡ record parts.old { space = parts.new.space; cache = parts.new.cache } }
    ensures power { (B.state board.new).on ≡ power_of result }
{
    move_to_frame(board, page, frame, i, w)?;
    parts.cache.retarget(page, Place::Frame(frame));
    note_left(&mut parts.space, from);
    Ok(())
}

/// Brings a page, which is in no frame, into one, with one of its words changed. The page's owner stays.
pub fn bring<B: Board>(
    board: &mut B,
    parts: &mut Parts,
    page: u32,
    i: u32,
    w: u64,
) -> Result<(), Off>
    requires ready { Ready (chart (B.state board.old)) parts.old }
    requires page { page < (B.state board.old).shape.pages }
    requires word { i < PAGE_WORDS }
    requires room { length parts.old.frames.held < parts.old.frames.count }
    requires elsewhere { IsElsewhere (place_of (chart (B.state board.old)).fields page) }

    ensures free { let old = chart (B.state board.old) in
        let new = chart (B.state board.new) in
        owned_by old.fields.slots (undo_of old.fields page) ≡ false
        → MatchResult result (λ _. Stored 0 0 old new (PAGE_WORDS * page + i) w) (λ _.
        Interrupted 0 0 old new (PAGE_WORDS * page + i) w) }
    ensures owned { let old = chart (B.state board.old) in
        let new = chart (B.state board.new) in
        owned_by old.fields.slots (undo_of old.fields page) ≡ true
        → MatchResult result (λ _. Shadowed 0 0 old new (PAGE_WORDS * page + i) w) (λ _. Dropped 0 0 old new) }
    ensures counted { Counted 0 0 (chart (B.state board.old)) (chart (B.state board.new)) }
    ensures brings { OnOk result
        (Brings page (chart (B.state board.old)) parts.old (chart (B.state board.new)) parts.new) }
    ensures leaves { LeavesParts (chart (B.state board.old)) parts.old (chart (B.state board.new)) parts.new }
    ensures parts { parts.new
        ≡ record parts.old { frames = parts.new.frames; space = parts.new.space; cache = parts.new.cache } }
    ensures power { (B.state board.new).on ≡ power_of result }
{
    let from = place(board, page)?;
    let frame = fill_frame(board, parts, page, from, i, w)?;
    move_in(board, parts, page, frame, from, i, w)
}
