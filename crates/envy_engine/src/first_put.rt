ghost use Rattle.std.specs.Prelude.{◌≡◌, ◌*◌, ◌+◌, ◌<◌, IsTrue, Some, OnOk, OnErr, IsErrOf, length};
ghost use Rattle.envy_map.specs.Fields.{Chart, chart, with_fields, place as place_of, undo as undo_of};
ghost use Rattle.envy_map.specs.Writes.{with_place, with_undo};
ghost use Rattle.envy_frames.specs.Agreement.{IsElsewhere};
ghost use Rattle.envy_soundness.specs.May.{HasChanged};
ghost use Rattle.envy_soundness.specs.Same.{SameDurable};
ghost use Rattle.envy_soundness.specs.Sound.{IsSound};
ghost use Rattle.envy_meaning.specs.Transactions.{PutDone};
ghost use Rattle.envy_table.specs.Hits.{Accesses};
ghost use Rattle.envy_engine.specs.Agreement.{Ready, Steady};
ghost use Rattle.envy_engine.specs.Counts.{Counting};
ghost use Rattle.envy_engine.specs.Flushing.{MakesRoom, Stops, StopsOldest};
ghost use Rattle.envy_engine.specs.Putting.{MayGive, given, undo_for, PutFirst, PutsBy, KeepsOwners};
ghost use Rattle.envy_engine.specs.Storing.{Brings, Near, Lands};
ghost use Rattle.envy_engine.specs.declared.parts.Parts.{Parts as TheParts};
ghost use Rattle.envy_engine.specs.Leaving.{LeavesParts, CountsBad};
ghost use Rattle.envy_soundness.specs.Power.{power_after, power_of};

use crate::page_fill::fill_frame;
use crate::parts::Parts;
use crate::shadow::put_framed;
use crate::store::make_room;
use envy_base::{Board, Off, PAGE_WORDS, Place, Trouble, Undo};
use envy_map::place;
use envy_soundness::move_to_frame;
use envy_txn::Owned;

/// The undo that names where a page stands, which isn't a frame.
fn undo_of_place(from: Place, slot: u8) -> Undo
    requires { IsElsewhere (Some from) }
    ensures { undo_for slot from ≡ Some result }
{
    match from {
        Place::Absent => Undo::Blank { slot },
        Place::Row(row) => Undo::Shadow { slot, row },
        Place::Frame(_) => unreachable!(),
    }
}

/// Lets the undo of a page name where the page stands, and the page stand in a frame that holds its words, one of
/// them changed. Between the two writes place and undo name one row.
fn shade_places<B: Board>(
    board: &mut B,
    owned: &mut Owned,
    page: u32,
    frame: u32,
    from: Place,
    slot: u8,
    i: u32,
    w: u64,
) -> Result<(), Off>
    requires sound { IsSound (chart (B.state board.old)) }
    requires on { IsTrue (B.state board.old).on }
    requires may { MayGive slot page (chart (B.state board.old)) owned.old }
    requires lands { Lands (chart (B.state board.old)) page frame from }
    requires word { i < PAGE_WORDS }
    requires copy { HasChanged (chart (B.state board.old)).fields (B.state board.old).flash page
        (Place.Frame frame) i w }

    ensures done { OnOk result (PutDone 0 0 slot page (chart (B.state board.old)) (chart (B.state board.new))
        (PAGE_WORDS * page + i) w) }
    ensures durable { OnErr result (SameDurable 0 0 (chart (B.state board.old)) (chart (B.state board.new))) }
    ensures fields { OnOk result (chart (B.state board.new) ≡ with_fields (chart (B.state board.old))
        (with_place page (Some (Place.Frame frame))
        (with_undo page (undo_for slot from) (chart (B.state board.old)).fields))) }
    ensures gives { OnOk result (owned.new ≡ given slot page owned.old) }
    ensures owners { KeepsOwners (chart (B.state board.new)) owned.old owned.new }
    ensures power { (B.state board.new).on ≡ power_of result }
{
    owned.own(board, page, undo_of_place(from, slot))?;
    move_to_frame(board, page, frame, i, w)
}

/// The same, and the parts follow.
fn shade_in<B: Board>(
    board: &mut B,
    parts: &mut Parts,
    owned: &mut Owned,
    page: u32,
    frame: u32,
    from: Place,
    slot: u8,
    i: u32,
    w: u64,
) -> Result<(), Off>
    requires near { Near (chart (B.state board.old)) parts.old page frame from }
    requires may { MayGive slot page (chart (B.state board.old)) owned.old }
    requires word { i < PAGE_WORDS }
    requires copy { HasChanged (chart (B.state board.old)).fields (B.state board.old).flash page
        (Place.Frame frame) i w }

    ensures done { OnOk result (PutDone 0 0 slot page (chart (B.state board.old)) (chart (B.state board.new))
        (PAGE_WORDS * page + i) w) }
    ensures durable { OnErr result (SameDurable 0 0 (chart (B.state board.old)) (chart (B.state board.new))) }
    ensures fields { OnOk result (chart (B.state board.new) ≡ with_fields (chart (B.state board.old))
        (with_place page (Some (Place.Frame frame))
        (with_undo page (undo_for slot from) (chart (B.state board.old)).fields))) }
    ensures gives { OnOk result (owned.new ≡ given slot page owned.old) }
    ensures owners { KeepsOwners (chart (B.state board.new)) owned.old owned.new }
    ensures leaves { LeavesParts (chart (B.state board.old)) parts.old (chart (B.state board.new)) parts.new }
    ensures parts { parts.new ≡ record parts.old { cache = parts.new.cache } }
    ensures power { (B.state board.new).on ≡ power_of result }
{
    shade_places(board, owned, page, frame, from, slot, i, w)?;
    parts.cache.retarget(page, Place::Frame(frame));
    Ok(())
}

/// Brings a page, which is in no frame and which nobody owns, into one with one of its words changed, and gives it
/// to a slot.
fn bring_shaded<B: Board>(
    board: &mut B,
    parts: &mut Parts,
    owned: &mut Owned,
    page: u32,
    slot: u8,
    i: u32,
    w: u64,
) -> Result<(), Off>
    requires ready { Ready (chart (B.state board.old)) parts.old }
    requires may { MayGive slot page (chart (B.state board.old)) owned.old }
    requires word { i < PAGE_WORDS }
    requires room { length parts.old.frames.held < parts.old.frames.count }
    requires elsewhere { IsElsewhere (place_of (chart (B.state board.old)).fields page) }

    ensures done { OnOk result (PutDone 0 0 slot page (chart (B.state board.old)) (chart (B.state board.new))
        (PAGE_WORDS * page + i) w) }
    ensures durable { OnErr result (SameDurable 0 0 (chart (B.state board.old)) (chart (B.state board.new))) }
    ensures brings { OnOk result
        ((b : Brings page (chart (B.state board.old)) parts.old (chart (B.state board.new)) parts.new)
        × (undo_of (chart (B.state board.new)).fields page ≡ undo_for slot b.from)
        × (owned.new ≡ given slot page owned.old)) }
    ensures owners { KeepsOwners (chart (B.state board.new)) owned.old owned.new }
    ensures leaves { LeavesParts (chart (B.state board.old)) parts.old (chart (B.state board.new)) parts.new }
    ensures parts { parts.new ≡ record parts.old { frames = parts.new.frames; cache = parts.new.cache } }
    ensures power { (B.state board.new).on ≡ power_of result }
{
    let from = place(board, page)?;
    let frame = fill_frame(board, parts, page, from, i, w)?;
    shade_in(board, parts, owned, page, frame, from, slot, i, w)
}

/// The first put of a slot to a page that is in no frame and that nobody owns.
fn put_elsewhere<B: Board>(
    board: &mut B,
    parts: &mut Parts,
    owned: &mut Owned,
    page: u32,
    slot: u8,
    i: u32,
    w: u64,
) -> Result<(), Trouble>
    requires ready { Ready (chart (B.state board.old)) parts.old }
    requires may { MayGive slot page (chart (B.state board.old)) owned.old }
    requires word { i < PAGE_WORDS }
    requires elsewhere { IsElsewhere (place_of (chart (B.state board.old)).fields page) }

    ensures put { PutFirst (4 * (B.state board.old).shape.rows + 13) 6 slot page (chart (B.state board.old))
        (PAGE_WORDS * page + i) w result (chart (B.state board.new)) }
    ensures leaves { LeavesParts (chart (B.state board.old)) parts.old (chart (B.state board.new)) parts.new }
    ensures makes { OnOk result ((mid : Chart) × (between : TheParts)
        × MakesRoom (chart (B.state board.old)) parts.old mid between
        × (b : Brings page mid between (chart (B.state board.new)) parts.new)
        × (undo_of (chart (B.state board.new)).fields page ≡ undo_for slot b.from)) }
    ensures gives { OnOk result (owned.new ≡ given slot page owned.old) }
    ensures owners { KeepsOwners (chart (B.state board.new)) owned.old owned.new }
    ensures stops { IsErrOf result Trouble.Bad → StopsOldest
        (chart (B.state board.old)) parts.old (chart (B.state board.new)) parts.new × (owned.new ≡ owned.old) }
    ensures power { (B.state board.new).on ≡ power_after result }
{
    make_room(board, parts)?;
    Ok(bring_shaded(board, parts, owned, page, slot, i, w)?)
}

/// The first put of a slot to a page that nobody owns. It looks the page up once, as an access of the host.
pub fn put_first<B: Board>(
    board: &mut B,
    parts: &mut Parts,
    owned: &mut Owned,
    page: u32,
    slot: u8,
    i: u32,
    w: u64,
) -> Result<(), Trouble>
    requires ready { Ready (chart (B.state board.old)) parts.old }
    requires may { MayGive slot page (chart (B.state board.old)) owned.old }
    requires word { i < PAGE_WORDS }

    ensures put { PutFirst (4 * (B.state board.old).shape.rows + 13) 6 slot page (chart (B.state board.old))
        (PAGE_WORDS * page + i) w result (chart (B.state board.new)) }
    ensures steady { Steady (chart (B.state board.new)) parts.new }
    ensures counting { Counting (chart (B.state board.old)) parts.old (chart (B.state board.new)) parts.new }
    ensures accesses { Accesses page parts.old.cache parts.new.cache }
    ensures puts { OnOk result
        (PutsBy slot page (chart (B.state board.old)) parts.old (chart (B.state board.new)) parts.new) }
    ensures gives { OnOk result (owned.new ≡ given slot page owned.old) }
    ensures owners { KeepsOwners (chart (B.state board.new)) owned.old owned.new }
    ensures stops { IsErrOf result Trouble.Bad
        → Stops page (chart (B.state board.old)) parts.old (chart (B.state board.new)) parts.new
        × CountsBad (chart (B.state board.old)) (chart (B.state board.new)) × (owned.new ≡ owned.old) }
    ensures power { (B.state board.new).on ≡ power_after result }
{
    match parts.cache.translate(board, page)? {
        Place::Frame(frame) => put_framed(board, parts, owned, page, frame, slot, i, w),
        _ => put_elsewhere(board, parts, owned, page, slot, i, w),
    }
}
