ghost use Rattle.std.specs.Prelude.{◌≢◌, ◌+◌, ◌<◌, Some, None};
ghost use Rattle.envy_base.specs.Map.{slots_at};
ghost use Rattle.envy_base.specs.State.{Puts};
ghost use Rattle.envy_map.specs.Codes.{slot_code};
ghost use Rattle.envy_map.specs.Fields.{chart, slot as slot_of_fields};
ghost use Rattle.envy_map.specs.Writes.{Gives, Writes, with_slot};

use crate::code::encode_slot;
use crate::probe;
use crate::region::SLOTS_START;
use envy_base::{Board, Off, Slot};

/// Slot `t` of the 64.
pub fn slot<B: Board>(board: &B, t: u8) -> Result<Slot, Off>
    requires slot { t < 64 }
    requires decodes { slot_of_fields (chart (B.state board.now)).fields t ≢ None }
    ensures { Gives (chart (B.state board.now)) (slot_of_fields (chart (B.state board.now)).fields t) result }
{
    match probe::slot(board, t)? {
        Some(slot) => Ok(slot),
        None => unreachable!(),
    }
}

/// Writes slot `t` of the 64.
pub fn set_slot<B: Board>(board: &mut B, t: u8, slot: Slot) -> Result<(), Off>
    requires { t < 64 }
    ensures writes { Writes (with_slot t (Some slot)) (chart (B.state board.old)) result (chart (B.state board.new)) }
    ensures put { Puts (B.state board.old) (slots_at + t) (slot_code slot) result (B.state board.new) }
{
    board.put(SLOTS_START + t as u32, encode_slot(slot))
}
