// What brings a memory to the disk.
ghost use Rattle.std.specs.Prelude.{◌≡◌};
ghost use Rattle.envy_openings.specs.Faultless.{AreFaultless};
ghost use Rattle.envy_places.specs.Places.{held};
ghost use Rattle.envy_places.specs.Syncing.{DoesCompact, DoesSync, DoesTellPower, OnFile};
ghost use Rattle.envy_synced.specs.Disk.{IsCompact, IsHindered, IsSynced};
ghost use denote.RawPtr.{InBlock};

use crate::handle::{Envy, give_back, lend};
use envy_places::{compact, powered, sync};

/// Brings all that a memory in a file holds to the disk. Over another board nothing is left to bring.
#[unsafe(no_mangle)]
pub extern "C" fn envy_sync(m: &mut Envy) -> u32
    requires { InBlock m.old.at }
    ensures live { InBlock m.new.at }
    ensures faultless { AreFaultless m.old.place.now m.new.place.now }
    ensures syncs { OnFile (DoesSync IsSynced) m.old.place.now m.new.place.now result }
{
    let place = lend(m);
    let code = sync(place);
    give_back(m, place);
    code
}

/// The same, and leaves no more in the file than what the board holds takes, or says that this was hindered.
#[unsafe(no_mangle)]
pub extern "C" fn envy_compact(m: &mut Envy) -> u32
    requires { InBlock m.old.at }
    ensures live { InBlock m.new.at }
    ensures faultless { AreFaultless m.old.place.now m.new.place.now }
    ensures compacts { OnFile (DoesCompact IsSynced IsCompact IsHindered) m.old.place.now m.new.place.now result }
{
    let place = lend(m);
    let code = compact(place);
    give_back(m, place);
    code
}

/// Whether the memory has power: of one in a file, whether the file hasn't failed.
#[unsafe(no_mangle)]
pub extern "C" fn envy_powered(m: &mut Envy) -> u32
    requires { InBlock m.old.at }
    ensures live { InBlock m.new.at }
    ensures faultless { AreFaultless m.old.place.now m.new.place.now }
    ensures same { m.new.place.now ≡ m.old.place.now }
    ensures power { DoesTellPower (held m.old.place.now) result }
{
    let place = lend(m);
    let code = powered(place);
    give_back(m, place);
    code
}
