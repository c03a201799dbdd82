// The calls that make power and flash fail, of a memory over a board that can.
ghost use Rattle.std.specs.Prelude.{◌≡◌};
ghost use Rattle.envy_openings.specs.Faultless.{AreFaultless};
ghost use Rattle.envy_places.specs.Power.{DoesCountLives, DoesCut, DoesPlan, DoesRevive, OnSim};
ghost use denote.RawPtr.{InBlock};

use crate::handle::{Envy, give_back, lend};
use envy_base::PlannedFault;
use envy_places::{arm_bad, arm_cut, cut_now, lives, revive};

/// Plans a cut of power at the `k`-th device operation from now.
#[unsafe(no_mangle)]
pub extern "C" fn envy_arm_cut(m: &mut Envy, k: u32, g: u64) -> u32
    requires { InBlock m.old.at }
    ensures live { InBlock m.new.at }
    ensures faultless { AreFaultless m.old.place.now m.new.place.now }
    ensures plans { OnSim (λ p q code. DoesPlan p q k (PlannedFault.Cut k g) code) m.old.place.now m.new.place.now result }
{
    let place = lend(m);
    let code = arm_cut(place, k, g);
    give_back(m, place);
    code
}

/// Plans a bad operation at the `k`-th flash operation from now.
#[unsafe(no_mangle)]
pub extern "C" fn envy_arm_bad(m: &mut Envy, k: u32, g: u64) -> u32
    requires { InBlock m.old.at }
    ensures live { InBlock m.new.at }
    ensures faultless { AreFaultless m.old.place.now m.new.place.now }
    ensures plans { OnSim (λ p q code. DoesPlan p q k (PlannedFault.Bad k g) code) m.old.place.now m.new.place.now result }
{
    let place = lend(m);
    let code = arm_bad(place, k, g);
    give_back(m, place);
    code
}

/// Cuts power between two operations.
#[unsafe(no_mangle)]
pub extern "C" fn envy_cut_now(m: &mut Envy) -> u32
    requires { InBlock m.old.at }
    ensures live { InBlock m.new.at }
    ensures faultless { AreFaultless m.old.place.now m.new.place.now }
    ensures cuts { OnSim DoesCut m.old.place.now m.new.place.now result }
{
    let place = lend(m);
    let code = cut_now(place);
    give_back(m, place);
    code
}

/// Asks for power, and restarts the memory.
#[unsafe(no_mangle)]
pub extern "C" fn envy_revive(m: &mut Envy) -> u32
    requires { InBlock m.old.at }
    ensures live { InBlock m.new.at }
    ensures faultless { AreFaultless m.old.place.now m.new.place.now }
    ensures revives { OnSim DoesRevive m.old.place.now m.new.place.now result }
{
    let place = lend(m);
    let code = revive(place);
    give_back(m, place);
    code
}

/// How often power can still return.
#[unsafe(no_mangle)]
pub extern "C" fn envy_lives(m: &mut Envy, left: &mut u32) -> u32
    requires { InBlock m.old.at }
    ensures live { InBlock m.new.at }
    ensures faultless { AreFaultless m.old.place.now m.new.place.now }
    ensures same { m.new.place.now ≡ m.old.place.now }
    ensures counts { OnSim (λ p q code. (q ≡ p) × DoesCountLives p code left.old left.new) m.old.place.now m.old.place.now result }
{
    let place = lend(m);
    let code = lives(place, left);
    give_back(m, place);
    code
}
