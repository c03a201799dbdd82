ghost use Rattle.std.specs.Prelude.{◌≡◌, ◌≢◌, ◌⊎◌, ◌<◌, ℕ, true, false, Some, None, OnOk, OnErr, IfOk, MatchResult};
ghost use Rattle.envy_base.specs.Shape.{version_of};
ghost use Rattle.envy_base.specs.declared.fields.Slot.TheVariants.{Vacant, Active};
ghost use Rattle.envy_map.specs.Fields.{chart, with_fields, slot as slot_of};
ghost use Rattle.envy_map.specs.Writes.{with_slot};
ghost use Rattle.envy_soundness.specs.Same.{SameDurable, SameWords, Commits};
ghost use Rattle.envy_soundness.specs.Sound.{IsSound};
ghost use Rattle.envy_table.specs.Hits.{Rests};
ghost use Rattle.envy_engine.specs.Agreement.{Ready, Steady};
ghost use Rattle.envy_engine.specs.Ending.{IsReleasing, EndsSlot, TakesSlot};
ghost use Rattle.envy_engine.specs.Putting.{OwnersAgree, KeepsOwners};
ghost use Rattle.envy_soundness.specs.Power.{power_of};

use crate::parts::Parts;
use envy_base::{Board, Off, Slot};
use envy_map::slot;
use envy_soundness::{commit_slot, set_unused_slot};
use envy_txn::Owned;

/// Whether a slot is open.
pub fn is_open<B: Board>(board: &B, t: u8) -> Result<bool, Off>
    requires sound { IsSound (chart (B.state board.now)) }
    requires version { (chart (B.state board.now)).fields.version ≡ version_of (B.state board.now).shape }
    requires slot { t < 64 }
    ensures yes { IfOk result (λ yes. yes ≡ true → slot_of (chart (B.state board.now)).fields t ≡ Some Active) }
    ensures never { IfOk result (λ yes. yes ≡ false → slot_of (chart (B.state board.now)).fields t ≢ Some Active) }
    ensures off { OnErr result ((B.state board.now).on ≡ false) }
{
    Ok(slot(board, t)? == Slot::Active)
}

/// The lowest slot that is vacant.
pub fn first_vacant<B: Board>(board: &B) -> Result<Option<u8>, Off>
    requires sound { IsSound (chart (B.state board.now)) }
    requires version { (chart (B.state board.now)).fields.version ≡ version_of (B.state board.now).shape }
    ensures low { IfOk result (λ x. (t : ℕ) → x ≡ Some t → (t < 64)
        × (slot_of (chart (B.state board.now)).fields t ≡ Some Vacant)) }
    ensures lowest { IfOk result (λ x. (t : ℕ) → x ≡ Some t → (u : ℕ) → u < t
        → slot_of (chart (B.state board.now)).fields u ≢ Some Vacant) }
    ensures none { IfOk result (λ x. x ≡ None → (u : ℕ) → u < 64
        → slot_of (chart (B.state board.now)).fields u ≢ Some Vacant) }
    ensures off { OnErr result ((B.state board.now).on ≡ false) }
{
    for t in 0..64 {
        if slot(board, t)? == Slot::Vacant {
            return Ok(Some(t));
        }
    }
    Ok(None)
}

/// Opens a slot that is vacant.
pub fn open_slot<B: Board>(board: &mut B, parts: &Parts, owned: &Owned, t: u8) -> Result<(), Off>
    requires ready { Ready (chart (B.state board.old)) parts.now }
    requires owners { OwnersAgree (chart (B.state board.old)) owned.now }
    requires version { (chart (B.state board.old)).fields.version ≡ version_of (B.state board.old).shape }
    requires slot { t < 64 }
    requires vacant { slot_of (chart (B.state board.old)).fields t ≡ Some Vacant }

    ensures same { SameWords 0 0 (chart (B.state board.old)) (chart (B.state board.new)) }
    ensures fields { OnOk result (chart (B.state board.new) ≡ with_fields (chart (B.state board.old))
        (with_slot t (Some Active) (chart (B.state board.old)).fields)) }
    ensures steady { Steady (chart (B.state board.new)) parts.now }
    ensures owners { OwnersAgree (chart (B.state board.new)) owned.now }
    ensures power { (B.state board.new).on ≡ power_of result }
{
    set_unused_slot(board, t, Slot::Active)
}

/// Lets a slot that has committed go of its pages, and closes it.
fn release_pages<B: Board>(
    board: &mut B,
    parts: &mut Parts,
    owned: &mut Owned,
    t: u8,
) -> Result<(), Off>
    requires releasing { IsReleasing t (chart (B.state board.old)) parts.old owned.old }

    ensures same { SameWords 0 0 (chart (B.state board.old)) (chart (B.state board.new)) }
    ensures ends { OnOk result
        (EndsSlot t (chart (B.state board.old)) owned.old (chart (B.state board.new)) owned.new) }
    ensures owners { KeepsOwners (chart (B.state board.new)) owned.old owned.new }
    ensures steady { Steady (chart (B.state board.new)) parts.new }
    ensures parts { parts.new ≡ record parts.old { space = parts.new.space } }
    ensures power { (B.state board.new).on ≡ power_of result }
{
    owned.release_all(board, &mut parts.space, t)?;
    set_unused_slot(board, t, Slot::Vacant)
}

/// Closes an open slot, and keeps its words. Where power fails, that is done or not.
pub fn commit_pages<B: Board>(
    board: &mut B,
    parts: &mut Parts,
    owned: &mut Owned,
    t: u8,
) -> Result<(), Off>
    requires ready { Ready (chart (B.state board.old)) parts.old }
    requires owners { OwnersAgree (chart (B.state board.old)) owned.old }
    requires version { (chart (B.state board.old)).fields.version ≡ version_of (B.state board.old).shape }
    requires slot { t < 64 }
    requires active { slot_of (chart (B.state board.old)).fields t ≡ Some Active }

    ensures commits { MatchResult result (λ _. Commits 0 0 t (chart (B.state board.old)) (chart (B.state board.new)))
        (λ _. SameDurable 0 0 (chart (B.state board.old)) (chart (B.state board.new))
        ⊎ Commits 0 0 t (chart (B.state board.old)) (chart (B.state board.new))) }
    ensures ends { OnOk result
        (EndsSlot t (chart (B.state board.old)) owned.old (chart (B.state board.new)) owned.new) }
    ensures owners { KeepsOwners (chart (B.state board.new)) owned.old owned.new }
    ensures steady { Steady (chart (B.state board.new)) parts.new }
    ensures parts { parts.new ≡ record parts.old { space = parts.new.space } }
    ensures power { (B.state board.new).on ≡ power_of result }
{
    commit_slot(board, t)?;
    release_pages(board, parts, owned, t)
}

/// Closes an open slot, and puts its words back.
pub fn abort_pages<B: Board>(
    board: &mut B,
    parts: &mut Parts,
    owned: &mut Owned,
    t: u8,
) -> Result<(), Off>
    requires ready { Ready (chart (B.state board.old)) parts.old }
    requires owners { OwnersAgree (chart (B.state board.old)) owned.old }
    requires version { (chart (B.state board.old)).fields.version ≡ version_of (B.state board.old).shape }
    requires slot { t < 64 }
    requires active { slot_of (chart (B.state board.old)).fields t ≡ Some Active }

    ensures durable { SameDurable 0 0 (chart (B.state board.old)) (chart (B.state board.new)) }
    ensures aborts { OnOk result
        (TakesSlot t (chart (B.state board.old)) parts.old owned.old (chart (B.state board.new)) parts.new owned.new) }
    ensures owners { KeepsOwners (chart (B.state board.new)) owned.old owned.new }
    ensures rests { Rests parts.old.cache parts.new.cache }
    ensures steady { Steady (chart (B.state board.new)) parts.new }
    ensures parts { parts.new
        ≡ record parts.old { frames = parts.new.frames; space = parts.new.space; cache = parts.new.cache } }
    ensures power { (B.state board.new).on ≡ power_of result }
{
    owned.restore_all(
        board,
        &mut parts.space,
        &mut parts.frames,
        &mut parts.cache,
        t,
    )?;
    set_unused_slot(board, t, Slot::Vacant)
}
