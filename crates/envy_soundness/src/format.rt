ghost use Rattle.std.specs.Prelude.{◌≡◌, ◌⊎◌, ◌<◌, ◌≤◌, ◌+◌, ◌-◌, ◌*◌, ◌^◌, false, length, IsTrue, IfOk, OnOk, OnErr, IsErrOf, if◌then◌else◌};
ghost use Rattle.envy_base.specs.Shape.{IsVersionOf, version_of};
ghost use Rattle.envy_soundness.specs.Formatting.{AreErasedOnce, Cleared, ClearedOne, ErasedOne, Reached, IsStopped, IsSpoilt, Formats, IsLaid, Spoils, aside, with_regions_laid};
ghost use Rattle.envy_soundness.specs.Same.{Counted};
ghost use Rattle.envy_soundness.specs.Sound.{slots_of};
ghost use Rattle.envy_map.specs.Fields.{chart, with_fields};

use crate::arrangement::lay_positions;
use crate::lay::{lay_backs, lay_head, lay_origins, lay_places, lay_slots, lay_undos};
use envy_base::{Board, Off, Trouble, version_of};
use envy_map::{MAGIC, set_fill, set_magic, set_wear};

/// Erases a segment. Answers whether that was bad, if it may be.
fn erase_one<B: Board>(board: &mut B, segment: u32, may_fail: bool) -> Result<bool, Trouble>
    requires on { IsTrue (B.state board.old).on }
    requires segment { segment < (B.state board.old).shape.segments }
    ensures done { IfOk result (λ is_bad. ErasedOne segment is_bad (B.state board.old) (B.state board.new)) }
    ensures allowed { IfOk result (λ is_bad. IsTrue is_bad → IsTrue may_fail) }
    ensures stopped { IsErrOf result Trouble.Off → IsStopped 1 (chart (B.state board.old)) (chart (B.state board.new)) }
    ensures spoilt { IsErrOf result Trouble.Bad → (may_fail ≡ false)
        × IsSpoilt 1 0 (chart (B.state board.old)) (chart (B.state board.new)) }
{
    match board.erase(segment) {
        Ok(()) => Ok(false),
        Err(Trouble::Bad) => {
            if may_fail {
                Ok(true)
            } else {
                Err(Trouble::Bad)
            }
        }
        Err(Trouble::Off) => Err(Trouble::Off),
    }
}

/// The fill of a segment after its erase: none of its rows is claimed, or all if the erase was bad.
fn fill_after(rows: u32, is_bad: bool) -> u32
    ensures { result ≡ (if is_bad then rows else 0) }
{
    if is_bad { rows } else { 0 }
}

/// Erases a segment, and notes it: worn once, and no row claimed, or all of them if the erase was bad and may be.
/// Answers whether it was.
fn clear_segment<B: Board>(board: &mut B, segment: u32, may_fail: bool) -> Result<bool, Trouble>
    requires on { IsTrue (B.state board.old).on }
    requires segment { segment < (B.state board.old).shape.segments }
    ensures done { IfOk result (λ is_bad. ClearedOne segment is_bad (chart (B.state board.old))
        (chart (B.state board.new))) }
    ensures allowed { IfOk result (λ is_bad. IsTrue is_bad → IsTrue may_fail) }
    ensures stopped { IsErrOf result Trouble.Off → IsStopped 1 (chart (B.state board.old)) (chart (B.state board.new)) }
    ensures spoilt { IsErrOf result Trouble.Bad → (may_fail ≡ false)
        × IsSpoilt 1 0 (chart (B.state board.old)) (chart (B.state board.new)) }
{
    let rows = board.shape().rows;
    set_wear(board, segment, 1)?;
    let is_bad = match erase_one(board, segment, may_fail) {
        Ok(is_bad) => is_bad,
        Err(trouble) => return Err(trouble),
    };
    set_fill(board, segment, fill_after(rows, is_bad))?;
    Ok(is_bad)
}

/// A count after one more, if there is one.
fn counted(count: u32, one: bool) -> u32
    requires { count < 4096 }
    ensures { result ≡ (if one then count + 1 else count) }
{
    if one { count + 1 } else { count }
}

/// Erases all segments, and sets those aside of which the erase is bad, at most as many as positions are in reserve.
/// Answers how many.
fn clear_segments<B: Board>(board: &mut B) -> Result<u32, Trouble>
    requires { IsTrue (B.state board.old).on }
    ensures done { OnOk result (Cleared (B.state board.old).shape.segments (chart (B.state board.old))
        (chart (B.state board.new))) }
    ensures bads { IfOk result (λ bads. bads
        ≡ length (aside (B.state board.old).shape (chart (B.state board.new)).fields.fills)) }
    ensures stopped { IsErrOf result Trouble.Off
        → IsStopped (B.state board.old).shape.segments (chart (B.state board.old)) (chart (B.state board.new)) }
    ensures spoilt { IsErrOf result Trouble.Bad
        → IsSpoilt (B.state board.old).shape.segments (B.state board.old).shape.reserves (chart (B.state board.old))
        (chart (B.state board.new)) }
{
    let reserves = board.shape().reserves;
    let mut bads = 0;
    for segment in 0..board.shape().segments {
        match clear_segment(board, segment, bads < reserves) {
            Ok(is_bad) => bads = counted(bads, is_bad),
            Err(trouble) => return Err(trouble),
        }
    }
    Ok(bads)
}

/// Writes all regions of the map of an empty array.
fn lay_regions<B: Board>(board: &mut B, slots: u8, bads: u32) -> Result<(), Off>
    requires on { IsTrue (B.state board.old).on }
    requires slots { slots ≤ 64 }
    requires bads { bads ≡ length (aside (B.state board.old).shape (chart (B.state board.old)).fields.fills) }
    requires few { bads ≤ (B.state board.old).shape.reserves }
    ensures done { OnOk result (chart (B.state board.new) ≡ with_fields (chart (B.state board.old))
        (with_regions_laid (B.state board.old).shape slots (chart (B.state board.old)).fields)) }
    ensures stopped { OnErr result (IsStopped 0 (chart (B.state board.old)) (chart (B.state board.new))) }
{
    lay_slots(board, slots)?;
    lay_positions(board, bads)?;
    lay_places(board)?;
    lay_undos(board)?;
    lay_backs(board)?;
    lay_origins(board)?;
    Ok(())
}

/// Erases flash and writes the whole map of an empty array but for its first word.
fn lay_map<B: Board>(board: &mut B, version: u64, slots: u8) -> Result<(), Trouble>
    requires on { IsTrue (B.state board.old).on }
    requires slots { slots ≡ slots_of version }
    ensures laid { OnOk result (IsLaid (B.state board.old).shape version (chart (B.state board.new)).fields
        (B.state board.new).flash) }
    ensures spoils { OnOk result (Spoils (length (aside (B.state board.old).shape
        (chart (B.state board.new)).fields.fills)) (B.state board.old).bads (B.state board.new).bads) }
    ensures done { OnOk result (Reached (B.state board.old).shape.segments (chart (B.state board.old))
        (chart (B.state board.new))) }
    ensures erases { OnOk result (AreErasedOnce (B.state board.old).shape.segments (B.state board.old).erases
        (B.state board.new).erases) }
    ensures stopped { IsErrOf result Trouble.Off
        → IsStopped (B.state board.old).shape.segments (chart (B.state board.old)) (chart (B.state board.new)) }
    ensures spoilt { IsErrOf result Trouble.Bad
        → IsSpoilt (B.state board.old).shape.segments (B.state board.old).shape.reserves (chart (B.state board.old)) (chart (B.state board.new)) }
{
    let bads = match clear_segments(board) {
        Ok(bads) => bads,
        Err(trouble) => return Err(trouble),
    };
    lay_head(board, version)?;
    lay_regions(board, slots, bads)?;
    Ok(())
}

/// Formats a board: its first word is cleared before all else and written last.
fn format_as<B: Board>(board: &mut B, version: u64, slots: u8) -> Result<(), Trouble>
    requires version { IsVersionOf (B.state board.old).shape version }
    requires slots { slots ≡ slots_of version }
    ensures formats { Formats version (B.state board.old) result (B.state board.new) }
    ensures shape { (B.state board.new).shape ≡ (B.state board.old).shape }
    ensures erases { OnOk result (AreErasedOnce (B.state board.old).shape.segments (B.state board.old).erases
        (B.state board.new).erases) }
    ensures counts { Counted 0 (B.state board.old).shape.segments (chart (B.state board.old))
        (chart (B.state board.new)) }
{
    set_magic(board, 0)?;
    match lay_map(board, version, slots) {
        Ok(()) => {}
        Err(trouble) => return Err(trouble),
    }
    set_magic(board, MAGIC)?;
    Ok(())
}

/// Formats a board for an empty array, in the version of its shape. Each segment is erased once. Those whose erase
/// is bad are set aside at the last positions in reserve.
///
/// # Errors
///
/// `Off` if power is off at the end, `Bad` if more erases failed than there are positions in reserve. Unless the
/// whole was done or nothing was, the board isn't formatted.
pub fn format_board<B: Board>(board: &mut B) -> Result<(), Trouble>
    ensures formats { Formats (version_of (B.state board.old).shape) (B.state board.old) result (B.state board.new) }
    ensures shape { (B.state board.new).shape ≡ (B.state board.old).shape }
    ensures erases { OnOk result (AreErasedOnce (B.state board.old).shape.segments (B.state board.old).erases
        (B.state board.new).erases) }
    ensures counts { Counted 0 (B.state board.old).shape.segments (chart (B.state board.old))
        (chart (B.state board.new)) }
{
    let version = version_of(&board.shape());
    format_as(board, version, 64)
}

/// Formats a board without reserves and sums as version 1 of the map, which has 16 slots.
///
/// # Errors
///
/// As `format_board`.
pub fn format_board_1<B: Board>(board: &mut B) -> Result<(), Trouble>
    requires { version_of (B.state board.old).shape ≡ 2 }
    ensures formats { Formats 1 (B.state board.old) result (B.state board.new) }
    ensures shape { (B.state board.new).shape ≡ (B.state board.old).shape }
    ensures erases { OnOk result (AreErasedOnce (B.state board.old).shape.segments (B.state board.old).erases
        (B.state board.new).erases) }
    ensures counts { Counted 0 (B.state board.old).shape.segments (chart (B.state board.old))
        (chart (B.state board.new)) }
{
    format_as(board, 1, 16)
}
