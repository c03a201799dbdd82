ghost use Rattle.std.specs.Prelude.{◌≡◌, ◌≢◌, ◌↔◌, ℕ, ◌-◌, ◌*◌, ◌<◌, ◌≤◌, false, IsTrue, Some, None, IfOk, OnErr, MatchResult, slice_index};
ghost use Rattle.envy_map.specs.Fields.{chart, sizes_of, place, undo, slot};
ghost use Rattle.envy_soundness.specs.Sound.{slots_of};
ghost use Rattle.envy_audit.specs.Finding.{Tells};
ghost use Rattle.envy_audit.specs.Points.{Decodes, IsJobOf, IsPlaceOf, IsUndoOf, rows_of};
ghost use Rattle.envy_audit.specs.Finding.{KeepsExtras, PagesDecode, NumbersFit};
ghost use Rattle.envy_audit.specs.Judging.{IsFormattedAs};
ghost use Rattle.envy_base.specs.Shape.{all_positions_of, IsVersionOf};

use envy_base::{Board, Job, Off, Place, Shape, Undo, all_positions_of, version_of};
use envy_map::{MAGIC, probe, version};

// Whether a board of this shape may have the version.
fn is_version_of(shape: &Shape, version: u64) -> bool
    ensures { IsTrue result ↔ IsVersionOf shape.now version }
{
    let own = version_of(shape);
    version == own || version == 1 && own == 2
}

/// Whether the first word is the magic one, and the version is one of the board's shape.
pub(crate) fn is_formatted_as_its_shape<B: Board>(board: &B) -> Result<bool, Off>
    ensures { MatchResult result
        (λ formatted. IsTrue (B.state board.now).on
        × (IsTrue formatted ↔ IsFormattedAs (chart (B.state board.now))))
        (λ _. (B.state board.now).on ≡ false) }
{
    let magic = board.get(0)?;
    let version = version(board)?;
    Ok(magic == MAGIC && is_version_of(&board.shape(), version))
}

fn is_job_of(shape: &Shape, job: Option<Job>) -> bool
    ensures { IsTrue result ↔ IsJobOf shape.now job }
{
    match job {
        None => false,
        Some(Job::Idle | Job::Erase) => true,
        Some(Job::Copy(segment) | Job::Switch(segment)) => segment < shape.segments,
    }
}

fn is_place_of(shape: &Shape, place: Option<Place>) -> bool
    requires { shape.now.segments * shape.now.rows < 4294967296 }
    ensures { IsTrue result ↔ IsPlaceOf shape.now place }
{
    match place {
        None => false,
        Some(Place::Absent) => true,
        Some(Place::Row(row)) => row < shape.segments * shape.rows,
        Some(Place::Frame(frame)) => frame < shape.frames,
    }
}

fn is_undo_of(shape: &Shape, slots: u8, undo: Option<Undo>) -> bool
    requires { shape.now.segments * shape.now.rows < 4294967296 }
    ensures { IsTrue result ↔ IsUndoOf shape.now slots undo }
{
    match undo {
        None => false,
        Some(Undo::Clear) => true,
        Some(Undo::Blank { slot }) => slot < slots,
        Some(Undo::Shadow { slot, row }) => slot < slots && row < shape.segments * shape.rows,
    }
}

// Whether the map keeps the board's shape.
fn keeps_shape<B: Board>(board: &B) -> Result<bool, Off>
    ensures { let c = chart (B.state board.now) in Tells c.on (c.fields.sizes ≡ sizes_of c.shape) result }
{
    let shape = board.shape();
    let flash = board.get(2)?;
    let array = board.get(3)?;
    let pools = board.get(4)?;
    if flash != shape.segments as u64 * 0x1_0000_0000 + shape.rows as u64 {
        return Ok(false);
    }
    if array != shape.pages as u64 * 0x1_0000_0000 + shape.shadows as u64 {
        return Ok(false);
    }
    Ok(pools == shape.frames as u64 * 0x1_0000_0000 + shape.entries as u64)
}

// Whether the map keeps the board's reserves and sums, if its version has words for them.
fn keeps_extras<B: Board>(board: &B) -> Result<bool, Off>
    ensures { let c = chart (B.state board.now) in Tells c.on (KeepsExtras c) result }
{
    let version = version(board)?;
    if version != 3 {
        return Ok(true);
    }
    let shape = board.shape();
    let reserves = board.get(6)?;
    let sums = board.get(7)?;
    Ok(reserves == shape.reserves as u64 && sums == shape.sums as u64)
}

// How many slots the board's version has.
fn count_slots<B: Board>(board: &B) -> Result<u8, Off>
    ensures ok { IfOk result (λ count. count ≡ slots_of (chart (B.state board.now)).fields.version) }
    ensures err { OnErr result ((B.state board.now).on ≡ false) }
{
    let version = version(board)?;
    Ok(if version == 1 { 16 } else { 64 })
}

fn slots_decode<B: Board>(board: &B, count: u8) -> Result<bool, Off>
    requires { count ≤ 64 }
    ensures { let c = chart (B.state board.now) in
        Tells c.on ((t : ℕ) → t < count → slot c.fields t ≢ None) result }
{
    for t in 0..count {
        if probe::slot(board, t)?.is_none() {
            return Ok(false);
        }
    }
    Ok(true)
}

fn undos_decode<B: Board>(board: &B, slots: u8) -> Result<bool, Off>
    ensures { let c = chart (B.state board.now) in
        Tells c.on ((p : ℕ) → p < c.shape.pages → IsUndoOf c.shape slots (undo c.fields p)) result }
{
    let shape = board.shape();
    for page in 0..shape.pages {
        if !is_undo_of(&shape, slots, probe::undo(board, page)?) {
            return Ok(false);
        }
    }
    Ok(true)
}

fn places_decode<B: Board>(board: &B) -> Result<bool, Off>
    ensures { let c = chart (B.state board.now) in
        Tells c.on ((p : ℕ) → p < c.shape.pages → IsPlaceOf c.shape (place c.fields p)) result }
{
    let shape = board.shape();
    for page in 0..shape.pages {
        if !is_place_of(&shape, probe::place(board, page)?) {
            return Ok(false);
        }
    }
    Ok(true)
}

fn fills_fit<B: Board>(board: &B) -> Result<bool, Off>
    ensures { let c = chart (B.state board.now) in
        Tells c.on ((s : ℕ) → s < c.shape.segments → slice_index c.fields.fills s ≤ c.shape.rows) result }
{
    let shape = board.shape();
    for segment in 0..shape.segments {
        if probe::fill(board, segment)? > shape.rows as u64 {
            return Ok(false);
        }
    }
    Ok(true)
}

fn positions_fit<B: Board>(board: &B) -> Result<bool, Off>
    ensures { let c = chart (B.state board.now) in
        Tells c.on ((k : ℕ) → k < all_positions_of c.shape → slice_index c.fields.positions k < c.shape.segments) result }
{
    let shape = board.shape();
    for position in 0..all_positions_of(&shape) {
        if probe::segment_at(board, position)? >= shape.segments as u64 {
            return Ok(false);
        }
    }
    Ok(true)
}

fn backs_fit<B: Board>(board: &B) -> Result<bool, Off>
    ensures { let c = chart (B.state board.now) in
        Tells c.on ((q : ℕ) → q < rows_of c.shape → slice_index c.fields.backs q < c.shape.pages) result }
{
    let shape = board.shape();
    for row in 0..shape.segments * shape.rows {
        if probe::back(board, row)? >= shape.pages as u64 {
            return Ok(false);
        }
    }
    Ok(true)
}

fn origins_fit<B: Board>(board: &B) -> Result<bool, Off>
    ensures { let c = chart (B.state board.now) in
        Tells c.on ((i : ℕ) → i < c.shape.rows → slice_index c.fields.origins i < rows_of c.shape) result }
{
    let shape = board.shape();
    for i in 0..shape.rows {
        if probe::origin(board, i)? >= (shape.segments * shape.rows) as u64 {
            return Ok(false);
        }
    }
    Ok(true)
}

// Whether the entries for pages decode.
fn pages_decode<B: Board>(board: &B) -> Result<bool, Off>
    ensures { let c = chart (B.state board.now) in Tells c.on (PagesDecode c) result }
{
    let slots = count_slots(board)?;
    Ok(slots_decode(board, slots)? && undos_decode(board, slots)? && places_decode(board)?)
}

// Whether the numbers fit.
fn numbers_fit<B: Board>(board: &B) -> Result<bool, Off>
    ensures { let c = chart (B.state board.now) in Tells c.on (NumbersFit c) result }
{
    Ok(fills_fit(board)? && positions_fit(board)? && backs_fit(board)? && origins_fit(board)?)
}

/// Whether every field of a formatted board decodes within its range.
pub(crate) fn decodes<B: Board>(board: &B) -> Result<bool, Off>
    requires { IsFormattedAs (chart (B.state board.now)) }
    ensures { let c = chart (B.state board.now) in Tells c.on (Decodes c) result }
{
    let shape = board.shape();
    Ok(
        keeps_shape(board)?
            && keeps_extras(board)?
            && is_job_of(&shape, probe::job(board)?)
            && pages_decode(board)?
            && numbers_fit(board)?,
    )
}
