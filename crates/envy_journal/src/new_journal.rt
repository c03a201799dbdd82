// A journal is made in a second file, which takes the place of an empty one.
ghost use Rattle.std.specs.Prelude.{◌≡◌, ◌++◌, ◌∷◌, [], IsTrue, OnOk, IsErrOf};
ghost use Rattle.envy_device.specs.declared.device.ReplaceError.TheVariants.{Failed};
ghost use Rattle.envy_device.specs.Device.{Only, LeavesOnly};
ghost use Rattle.envy_journal.specs.Head.{IsUnmade, IsNewOrUnmade, head_bytes};
ghost use Rattle.envy_journal.specs.Version.{version};

use crate::head::with_gate;
use crate::operation::CLOSED;
use envy_base::Shape;
use envy_device::{ReplaceError, Replaceable};

/// Makes a journal in an empty file: a head and a closed gate. A crash in it leaves the empty file, or the journal.
pub(crate) fn make<D: Replaceable>(device: &mut D, shape: &Shape) -> Result<(), ReplaceError>
    requires durable { Only (D.seen device.old) (D.may_leave device.old) }
    requires unmade { IsUnmade (D.seen device.old) }
    ensures file { OnOk result (D.seen device.new ≡ head_bytes version shape.now ++ 0 ∷ []) }
    ensures durable { OnOk result (Only (D.seen device.new) (D.may_leave device.new)) }
    ensures synced { OnOk result (D.synced device.new ≡ D.moment device.new) }
    ensures failed { IsErrOf result Failed → IsTrue (D.has_failed device.new) }
    ensures any_moment { LeavesOnly D.moment D.left_since device.old device.new (IsNewOrUnmade shape.now) }
{
    device.begin_second()?;
    device.write_second(&with_gate(shape, CLOSED))?;
    device.replace()?;
    Ok(())
}
