ghost use Rattle.std.specs.Prelude.{◌≡◌, ◌<◌, false, IfOk, OnErr};
ghost use Rattle.envy_map.specs.Fields.{chart, undo as undo_of_page};
ghost use Rattle.envy_soundness.specs.Sound.{owned_by};
ghost use Rattle.envy_audit.specs.Finding.{Tells, NamesSlot};
ghost use Rattle.envy_audit.specs.Points.{Decodes, FewAreOwned, UndosAreInUse};

use envy_base::{Board, Off, Slot, Undo};
use envy_map::{slot, undo};

/// The slot that the undo of a page names, and what stands in it.
fn named_slot<B: Board>(board: &B, page: u32) -> Result<Option<Slot>, Off>
    requires decodes { Decodes (chart (B.state board.now)) }
    requires page { page < (B.state board.now).shape.pages }
    ensures { let c = chart (B.state board.now) in NamesSlot c page result }
{
    Ok(match undo(board, page)? {
        Undo::Clear => None,
        Undo::Blank { slot: t } | Undo::Shadow { slot: t, .. } => Some(slot(board, t)?),
    })
}

/// Whether the undo of a page is that of an active slot.
fn is_owned<B: Board>(board: &B, page: u32) -> Result<bool, Off>
    requires decodes { Decodes (chart (B.state board.now)) }
    requires page { page < (B.state board.now).shape.pages }
    ensures ok { let f = (chart (B.state board.now)).fields in IfOk result (λ owned.
        owned ≡ owned_by f.slots (undo_of_page f page)) }
    ensures err { OnErr result ((B.state board.now).on ≡ false) }
{
    Ok(match named_slot(board, page)? {
        Some(Slot::Active) => true,
        Some(Slot::Vacant | Slot::Committed) | None => false,
    })
}

/// Whether no more pages have an undo of an active slot than may.
pub(crate) fn few_are_owned<B: Board>(board: &B) -> Result<bool, Off>
    requires { Decodes (chart (B.state board.now)) }
    ensures { let c = chart (B.state board.now) in Tells c.on (FewAreOwned c) result }
{
    let shape = board.shape();
    let mut owned = 0;
    for page in 0..shape.pages {
        if is_owned(board, page)? {
            owned += 1;
        }
    }
    Ok(owned <= shape.shadows)
}

/// Whether each undo that isn't clear names a slot that isn't vacant.
pub(crate) fn undos_are_in_use<B: Board>(board: &B) -> Result<bool, Off>
    requires { Decodes (chart (B.state board.now)) }
    ensures { let c = chart (B.state board.now) in Tells c.on (UndosAreInUse c) result }
{
    for page in 0..board.shape().pages {
        if named_slot(board, page)? == Some(Slot::Vacant) {
            return Ok(false);
        }
    }
    Ok(true)
}
