ghost use Rattle.std.specs.Prelude.{◌≡◌, ◌≢◌, None};
ghost use Rattle.envy_calls.specs.Codes.{number_of};
ghost use Rattle.envy_calls.specs.declared.code.Code.TheVariants.{Done, NoMemory};
ghost use Rattle.envy_parted.specs.Lit.{AreLit};
ghost use Rattle.envy_parted.specs.Opening.{DoesFormat, DoesAttach};
ghost use Rattle.envy_parted.specs.Regions.{AreWhole};
ghost use denote.RawPtr.{InBlock, null_ptr};

use crate::attachment::{attach_place, format_place};
use crate::handle::{EnvyParted, Slot, give_back, lend};
use crate::regions::{EnvyMap, EnvyWords};
use envy_calls::{Code, EnvySetup};
use envy_part::Places;
use std::alloc::Global;

/// Makes a place that holds no memory.
#[unsafe(no_mangle)]
pub extern "C" fn envy_parted_new(alloc: Global, m: &mut EnvyParted) -> u32
    requires { m.old.at ≡ null_ptr }
    ensures live { result ≡ number_of Done → InBlock m.new.at }
    ensures empty { result ≡ number_of Done → m.new.slot.now ≡ None }
    ensures refused { result ≢ number_of Done → (result ≡ number_of NoMemory) × (m.new ≡ m.old) }
{
    let slot: Slot = None;
    match Box::new(alloc, slot) {
        Ok(place) => {
            *m = EnvyParted::of(Box::leak(place));
            Code::Done.number()
        }
        Err(refused) => {
            drop(refused);
            Code::NoMemory.number()
        }
    }
}

/// Makes a memory of zeros over a part, whatever it holds. `places` tells where the map and the SRAM lie.
#[unsafe(no_mangle)]
pub extern "C" fn envy_parted_format_at(
    alloc: Global,
    m: &mut EnvyParted,
    setup: &EnvySetup,
    places: &Places,
    flash: EnvyMap,
    sram: EnvyWords,
    port: i32,
) -> u32
    requires place { InBlock m.old.at }
    requires flash { InBlock flash.at }
    requires sram { InBlock sram.at }
    requires whole { AreWhole flash.rows.now sram.words.now }
    ensures live { InBlock m.new.at }
    ensures lit { AreLit m.old.slot.now m.new.slot.now }
    ensures formats { DoesFormat
        (record { setup = setup.now; places = places.now; flash = flash.rows.now; sram = sram.words.now })
        m.old.slot.now m.new.slot.now result }
{
    let slot = lend(m);
    let (flash, sram) = (flash.into_slice(), sram.into_slice());
    let code = format_place(alloc, slot, setup, places, flash, sram, port);
    give_back(m, slot);
    code.number()
}

/// Takes up the memory that a part holds, once it was found to be sound. `places` tells where the map and the SRAM lie.
#[unsafe(no_mangle)]
pub extern "C" fn envy_parted_attach_at(
    alloc: Global,
    m: &mut EnvyParted,
    setup: &EnvySetup,
    places: &Places,
    flash: EnvyMap,
    sram: EnvyWords,
    port: i32,
) -> u32
    requires place { InBlock m.old.at }
    requires flash { InBlock flash.at }
    requires sram { InBlock sram.at }
    requires whole { AreWhole flash.rows.now sram.words.now }
    ensures live { InBlock m.new.at }
    ensures lit { AreLit m.old.slot.now m.new.slot.now }
    ensures attaches { DoesAttach
        (record { setup = setup.now; places = places.now; flash = flash.rows.now; sram = sram.words.now })
        m.old.slot.now m.new.slot.now result }
{
    let slot = lend(m);
    let (flash, sram) = (flash.into_slice(), sram.into_slice());
    let code = attach_place(alloc, slot, setup, places, flash, sram, port);
    give_back(m, slot);
    code.number()
}

/// Ends a memory. The part and the SRAM hold it still, and it may be taken up again.
#[unsafe(no_mangle)]
pub extern "C" fn envy_parted_close(m: &mut EnvyParted)
    requires { InBlock m.old.at }
    ensures live { InBlock m.new.at }
    ensures closed { m.new.slot.now ≡ None }
{
    let slot = lend(m);
    drop(slot.take());
    *m = EnvyParted::of(slot);
}
