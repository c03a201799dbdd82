ghost use Rattle.std.specs.Prelude.{◌≡◌, ◌+◌, ◌<◌, ◌≤◌, ℕ, false, IsTrue, Some, IfOk, OnOk, OnErr};
ghost use Rattle.envy_base.specs.declared.fields.Undo.TheVariants.{Clear};
ghost use Rattle.envy_map.specs.Fields.{Chart, chart, undo as undo_of};
ghost use Rattle.envy_soundness.specs.Power.{power_of};
ghost use Rattle.envy_soundness.specs.Same.{SameDurable, SameWords};
ghost use Rattle.envy_soundness.specs.Sound.{IsSound, slots_of};
ghost use Rattle.envy_txn.specs.Ending.{Settles};
ghost use Rattle.envy_txn.specs.Turns.{SettledTo, VacatedTo};

use crate::undos::{place_in, put_back, slot_in};
use envy_base::{Board, Off, Slot};
use envy_map::{slot, undo, version};
use envy_soundness::{clear_settled_undo, set_unused_slot};

/// Undoes the transactions that a failure of power left open, on a board of either version: each page is
/// again where its undo says while the undo's slot is active, all undos become clear, and then all slots
/// vacant. A restart that is cut off may be made again: what it leaves is as before at every moment.
pub fn settle<B: Board>(board: &mut B) -> Result<(), Off>
    requires sound { IsTrue (B.state board.old).on → IsSound (chart (B.state board.old)) }
    ensures durable { IsSound (chart (B.state board.old))
        → SameDurable 0 0 (chart (B.state board.old)) (chart (B.state board.new)) }
    ensures idle { (B.state board.old).on ≡ false → B.state board.new ≡ B.state board.old }
    ensures settles { OnOk result (Settles (chart (B.state board.old)) (chart (B.state board.new))) }
    ensures power { (B.state board.new).on ≡ power_of result }
{
    if !board.powered() {
        return Err(Off);
    }
    settle_pages(board)?;
    vacate_slots(board)?;
    Ok(())
}

/// Puts the pages of open transactions back, and clears all undos.
fn settle_pages<B: Board>(board: &mut B) -> Result<(), Off>
    requires on { IsTrue (B.state board.old).on }
    requires sound { IsSound (chart (B.state board.old)) }
    ensures durable { SameDurable 0 0 (chart (B.state board.old)) (chart (B.state board.new)) }
    ensures settled { OnOk result (SettledTo (B.state board.old).shape.pages (chart (B.state board.old))
        (chart (B.state board.new))) }
    ensures power { (B.state board.new).on ≡ power_of result }
{
    let pages = board.shape().pages;
    for page in 0..pages {
        settle_page(board, page)?;
    }
    Ok(())
}

/// Clears the undo of a page, and before puts the page back where the undo's slot is active.
fn settle_page<B: Board>(board: &mut B, page: u32) -> Result<(), Off>
    requires on { IsTrue (B.state board.old).on }
    requires sound { IsSound (chart (B.state board.old)) }
    requires page { page < (B.state board.old).shape.pages }
    ensures durable { SameDurable 0 0 (chart (B.state board.old)) (chart (B.state board.new)) }
    ensures settled { OnOk result ((c : Chart) → SettledTo page c (chart (B.state board.old))
        → SettledTo (page + 1) c (chart (B.state board.new))) }
    ensures power { (B.state board.new).on ≡ power_of result }
{
    let undo = undo(board, page)?;
    let (Some(t), Some(back)) = (slot_in(undo), place_in(undo)) else {
        return Ok(());
    };
    if slot(board, t)? == Slot::Active {
        put_back(board, page, back)?;
        return Ok(());
    }
    clear_settled_undo(board, page)?;
    Ok(())
}

/// Makes all slots vacant that the board has, once no undo names one.
fn vacate_slots<B: Board>(board: &mut B) -> Result<(), Off>
    requires on { IsTrue (B.state board.old).on }
    requires sound { IsSound (chart (B.state board.old)) }
    requires clear { (p : ℕ) → p < (B.state board.old).shape.pages
        → undo_of (chart (B.state board.old)).fields p ≡ Some Clear }
    ensures same { SameWords 0 0 (chart (B.state board.old)) (chart (B.state board.new)) }
    ensures vacated { OnOk result
        (VacatedTo (slots_of (chart (B.state board.old)).fields.version) (chart (B.state board.old))
        (chart (B.state board.new))) }
    ensures power { (B.state board.new).on ≡ power_of result }
{
    let count = slot_count(board)?;
    for t in 0..count {
        vacate_slot(board, t)?;
    }
    Ok(())
}

/// Makes a slot vacant that no undo names.
fn vacate_slot<B: Board>(board: &mut B, t: u8) -> Result<(), Off>
    requires on { IsTrue (B.state board.old).on }
    requires sound { IsSound (chart (B.state board.old)) }
    requires slot { t < slots_of (chart (B.state board.old)).fields.version }
    requires clear { (p : ℕ) → p < (B.state board.old).shape.pages
        → undo_of (chart (B.state board.old)).fields p ≡ Some Clear }

    ensures same { SameWords 0 0 (chart (B.state board.old)) (chart (B.state board.new)) }
    ensures vacated { OnOk result ((c : Chart) → VacatedTo t c (chart (B.state board.old))
        → VacatedTo (t + 1) c (chart (B.state board.new))) }
    ensures power { (B.state board.new).on ≡ power_of result }
{
    if slot(board, t)? == Slot::Vacant {
        return Ok(());
    }
    set_unused_slot(board, t, Slot::Vacant)?;
    Ok(())
}

/// How many slots the board has: version 1 of the map has fewer.
fn slot_count<B: Board>(board: &B) -> Result<u8, Off>
    requires sound { IsSound (chart (B.state board.now)) }
    ensures value { IfOk result (λ count. count ≡ slots_of (chart (B.state board.now)).fields.version) }
    ensures few { IfOk result (λ count. count ≤ 64) }
    ensures off { OnErr result ((B.state board.now).on ≡ false) }
{
    if version(board)? == 1 {
        return Ok(16);
    }
    Ok(64)
}
