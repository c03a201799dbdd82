ghost use Rattle.std.specs.Prelude.{◌≡◌, ◌*◌, ◌+◌, ◌<◌, ℕ, true, false, OnOk, IsErrOf, length};
ghost use Rattle.envy_map.specs.Fields.{Chart, chart, place as place_of, undo as undo_of};
ghost use Rattle.envy_frames.specs.Agreement.{IsElsewhere};
ghost use Rattle.envy_soundness.specs.Same.{Same};
ghost use Rattle.envy_soundness.specs.Sound.{owned_by};
ghost use Rattle.envy_engine.specs.Agreement.{Ready, Steady};
ghost use Rattle.envy_engine.specs.Counts.{Counting};
ghost use Rattle.envy_engine.specs.Flushing.{MakesRoom, Stops, StopsOldest};
ghost use Rattle.envy_table.specs.Hits.{Accesses};
ghost use Rattle.envy_engine.specs.Storing.{Brings, StoresBy, Wrote, Shaded};
ghost use Rattle.envy_engine.specs.declared.parts.Parts.{Parts as TheParts};
ghost use Rattle.envy_engine.specs.Leaving.{LeavesParts, CountsBad};
ghost use Rattle.envy_soundness.specs.Power.{power_after};

use crate::flush::flush_oldest;
use crate::page_fill::bring;
use crate::parts::Parts;
use envy_base::{Board, PAGE_WORDS, Place, Trouble};
use envy_soundness::change_frame_word;

/// Gives a frame back where none is free.
pub fn make_room<B: Board>(board: &mut B, parts: &mut Parts) -> Result<(), Trouble>
    requires ready { Ready (chart (B.state board.old)) parts.old }

    ensures same { Same (4 * (B.state board.old).shape.rows + 13) 6 (chart (B.state board.old))
        (chart (B.state board.new)) }
    ensures leaves { LeavesParts (chart (B.state board.old)) parts.old (chart (B.state board.new)) parts.new }
    ensures room { OnOk result (length parts.new.frames.held < parts.new.frames.count) }
    ensures elsewhere { OnOk result ((p : ℕ) → IsElsewhere (place_of (chart (B.state board.old)).fields p)
        → IsElsewhere (place_of (chart (B.state board.new)).fields p)) }
    ensures makes { OnOk result
        (MakesRoom (chart (B.state board.old)) parts.old (chart (B.state board.new)) parts.new) }
    ensures stops { IsErrOf result Trouble.Bad
        → StopsOldest (chart (B.state board.old)) parts.old (chart (B.state board.new)) parts.new }
    ensures power { (B.state board.new).on ≡ power_after result }
{
    if parts.frames.used() == board.shape().frames {
        flush_oldest(board, parts)?;
    }
    Ok(())
}

/// Stores a word of a page, which is in no frame. The page's owner stays.
#[inline(never)]
fn store_elsewhere<B: Board>(
    board: &mut B,
    parts: &mut Parts,
    page: u32,
    i: u32,
    w: u64,
) -> Result<(), Trouble>
    requires ready { Ready (chart (B.state board.old)) parts.old }
    requires page { page < (B.state board.old).shape.pages }
    requires word { i < PAGE_WORDS }
    requires elsewhere { IsElsewhere (place_of (chart (B.state board.old)).fields page) }

    ensures free { let old = chart (B.state board.old) in
        owned_by old.fields.slots (undo_of old.fields page) ≡ false
        → Wrote (4 * old.shape.rows + 13) 6 old (PAGE_WORDS * page + i) w result (chart (B.state board.new)) }
    ensures owned { let old = chart (B.state board.old) in
        owned_by old.fields.slots (undo_of old.fields page) ≡ true
        → Shaded (4 * old.shape.rows + 13) 6 old (PAGE_WORDS * page + i) w result (chart (B.state board.new)) }
    ensures leaves { LeavesParts (chart (B.state board.old)) parts.old (chart (B.state board.new)) parts.new }
    ensures makes { OnOk result ((mid : Chart) × (between : TheParts)
        × MakesRoom (chart (B.state board.old)) parts.old mid between
        × Brings page mid between (chart (B.state board.new)) parts.new) }
    ensures stops { IsErrOf result Trouble.Bad
        → StopsOldest (chart (B.state board.old)) parts.old (chart (B.state board.new)) parts.new }
    ensures power { (B.state board.new).on ≡ power_after result }
{
    make_room(board, parts)?;
    Ok(bring(board, parts, page, i, w)?)
}

/// Stores a word of a page, which is in a frame, in a row or absent. The page's owner stays.
#[inline(always)]
pub fn store_word<B: Board>(
    board: &mut B,
    parts: &mut Parts,
    page: u32,
    i: u32,
    w: u64,
) -> Result<(), Trouble>
    requires ready { Ready (chart (B.state board.old)) parts.old }
    requires page { page < (B.state board.old).shape.pages }
    requires word { i < PAGE_WORDS }

    ensures free { let old = chart (B.state board.old) in
        owned_by old.fields.slots (undo_of old.fields page) ≡ false
        → Wrote (4 * old.shape.rows + 13) 6 old (PAGE_WORDS * page + i) w result (chart (B.state board.new)) }
    ensures owned { let old = chart (B.state board.old) in
        owned_by old.fields.slots (undo_of old.fields page) ≡ true
        → Shaded (4 * old.shape.rows + 13) 6 old (PAGE_WORDS * page + i) w result (chart (B.state board.new)) }
    ensures steady { Steady (chart (B.state board.new)) parts.new }
    ensures counting { Counting (chart (B.state board.old)) parts.old (chart (B.state board.new)) parts.new }
    ensures accesses { Accesses page parts.old.cache parts.new.cache }
    ensures stores { OnOk result
        (StoresBy page (chart (B.state board.old)) parts.old (chart (B.state board.new)) parts.new) }
    ensures stops { IsErrOf result Trouble.Bad
        → Stops page (chart (B.state board.old)) parts.old (chart (B.state board.new)) parts.new
        × CountsBad (chart (B.state board.old)) (chart (B.state board.new)) }
    ensures power { (B.state board.new).on ≡ power_after result }
{
    match parts.cache.translate(board, page)? {
        Place::Frame(frame) => Ok(change_frame_word(board, page, frame, i, w)?),
        _ => store_elsewhere(board, parts, page, i, w),
    }
}
