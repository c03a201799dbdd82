ghost use Rattle.std.specs.Prelude.{◌≡◌, IsTrue, OnOk};
ghost use Rattle.envy_map.specs.Codes.{the_magic};
ghost use Rattle.envy_map.specs.Fields.{chart, with_fields};
ghost use Rattle.envy_soundness.specs.Power.{power_of};
ghost use Rattle.envy_soundness.specs.Same.{Kept, SameWords};
ghost use Rattle.envy_soundness.specs.Sound.{IsSound};
ghost use Rattle.envy_soundness.specs.Upgrading.{upgraded, with_slots_vacated};
ghost use Rattle.envy_soundness.specs.Words.{live};

use crate::slots::set_unused_slot;
use envy_base::{Board, Off, Slot};
use envy_map::set_version;

/// Makes the slots vacant that version 1 of the map hasn't. No undo names one.
fn vacate_new_slots<B: Board>(board: &mut B) -> Result<(), Off>
    requires sound { IsSound (chart (B.state board.old)) }
    requires version { IsTrue (B.state board.old).on → (chart (B.state board.old)).fields.version ≡ 1 }
    ensures same { SameWords 0 0 (chart (B.state board.old)) (chart (B.state board.new)) }
    ensures fields { OnOk result (chart (B.state board.new) ≡ with_fields (chart (B.state board.old))
        (with_slots_vacated 64 (chart (B.state board.old)).fields)) }
    ensures power { (B.state board.new).on ≡ power_of result }
{
    for t in 16..64 {
        set_unused_slot(board, t, Slot::Vacant)?;
    }
    Ok(())
}

/// Turns a formatted board of version 1 into one of version 2, which has slots 16 to 63 too. The array
/// stays, and so does what a restart would leave of it.
///
/// # Errors
///
/// `Off` where power is off at the end. The board is then of version 1 still, or upgraded.
pub fn upgrade<B: Board>(board: &mut B) -> Result<(), Off>
    requires sound { IsSound (chart (B.state board.old)) }
    requires magic { IsTrue (B.state board.old).on → (chart (B.state board.old)).fields.magic ≡ the_magic }
    requires version { IsTrue (B.state board.old).on → (chart (B.state board.old)).fields.version ≡ 1 }

    ensures kept { Kept (chart (B.state board.old)) (chart (B.state board.new)) }
    ensures live { live (chart (B.state board.new)) ≡ live (chart (B.state board.old)) }
    ensures fields { OnOk result (chart (B.state board.new) ≡ with_fields (chart (B.state board.old))
        (upgraded (chart (B.state board.old)).fields)) }
    ensures power { (B.state board.new).on ≡ power_of result }
{
    vacate_new_slots(board)?;
    set_version(board, 2)
}
