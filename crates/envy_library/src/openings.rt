ghost use Rattle.std.specs.Prelude.{◌≡◌, ◌≢◌, None};
ghost use Rattle.envy_calls.specs.Codes.{number_of};
ghost use Rattle.envy_calls.specs.declared.code.Code.TheVariants.{Done, NoMemory};
ghost use Rattle.envy_journal.specs.Cutting.{cut_batch as cut_of};
ghost use Rattle.envy_openings.specs.Faultless.{AreFaultless};
ghost use Rattle.envy_openings.specs.Files.{DoesOpen};
ghost use Rattle.envy_openings.specs.Regions.{AreWhole, DoesAttach, DoesFormat as FormatsRegions};
ghost use Rattle.envy_openings.specs.Simulated.{DoesFormat as FormatsSimulated, DoesRestore};
ghost use Rattle.envy_places.specs.Places.{AreAlike, held};
ghost use denote.RawPtr.{InBlock, null_ptr};

use crate::handle::{Envy, give_back, lend};
use crate::regions::{EnvyRows, EnvyWords};
use envy_calls::{Code, EnvySetup};
use envy_journal::cut_batch;
use envy_openings::{
    attach_regions, close, empty, format_regions, format_simulated, open_file, restore_simulated,
};
use std::alloc::Global;

/// Makes a place that holds no memory.
#[unsafe(no_mangle)]
pub extern "C" fn envy_new(alloc: Global, m: &mut Envy) -> u32
    requires { m.old.at ≡ null_ptr }
    ensures live { result ≡ number_of Done → InBlock m.new.at }
    ensures empty { result ≡ number_of Done → held m.new.place.now ≡ None }
    ensures refused { result ≢ number_of Done → (result ≡ number_of NoMemory) × (m.new ≡ m.old) }
{
    match Box::new(alloc, empty()) {
        Ok(place) => {
            *m = Envy::of(Box::leak(place));
            Code::Done.number()
        }
        Err(_) => Code::NoMemory.number(),
    }
}

/// Makes a memory in a file that holds no journal yet, or takes up the one that the file holds. `file` are its bytes, all
/// of them on the disk, and `port` is the number under which it is served. If `bytewise` isn't 0, the caller states that the
/// file is written byte by byte.
#[unsafe(no_mangle)]
pub extern "C" fn envy_open_port(
    alloc: Global,
    m: &mut Envy,
    setup: &EnvySetup,
    file: &[u8],
    port: i32,
    bytewise: u32,
) -> u32
    requires { InBlock m.old.at }
    ensures live { InBlock m.new.at }
    ensures faultless { AreFaultless m.old.place.now m.new.place.now }
    ensures opens { DoesOpen setup.now file.now m.old.place.now m.new.place.now result }
    ensures place { m.new.place.ref_ptr ≡ m.old.place.ref_ptr }
{
    let place = lend(m);
    let code = open_file(alloc, place, setup, file, port, bytewise != 0);
    give_back(m, place);
    code.number()
}

/// How many bytes at the end of a journal opening it cuts off, if they hold what reads as a sync: then copy the file first.
/// Else 0.
#[unsafe(no_mangle)]
pub extern "C" fn envy_journal_cut(file: &[u8]) -> u64
    ensures { result ≡ cut_of file.now }
{
    cut_batch(file) as u64
}

/// Makes a memory of zeros over regions, whatever they hold.
#[unsafe(no_mangle)]
pub extern "C" fn envy_format_regions(
    alloc: Global,
    m: &mut Envy,
    setup: &EnvySetup,
    flash: EnvyRows,
    sram: EnvyWords,
    erases: EnvyWords,
) -> u32
    requires place { InBlock m.old.at }
    requires flash { InBlock flash.at }
    requires sram { InBlock sram.at }
    requires erases { InBlock erases.at }
    requires whole { AreWhole flash.rows.now sram.words.now }
    ensures live { InBlock m.new.at }
    ensures faultless { AreFaultless m.old.place.now m.new.place.now }
    ensures formats { FormatsRegions
        (record { setup = setup.now; flash = flash.rows.now; sram = sram.words.now; erases = erases.words.now })
        m.old.place.now m.new.place.now result }
{
    let place = lend(m);
    let (flash, sram, erases) = (flash.into_slice(), sram.into_slice(), erases.into_slice());
    let code = format_regions(alloc, place, setup, flash, sram, erases);
    give_back(m, place);
    code.number()
}

/// Takes up the memory that regions hold, once it was found to be sound.
#[unsafe(no_mangle)]
pub extern "C" fn envy_open_regions(
    alloc: Global,
    m: &mut Envy,
    setup: &EnvySetup,
    flash: EnvyRows,
    sram: EnvyWords,
    erases: EnvyWords,
) -> u32
    requires place { InBlock m.old.at }
    requires flash { InBlock flash.at }
    requires sram { InBlock sram.at }
    requires erases { InBlock erases.at }
    requires whole { AreWhole flash.rows.now sram.words.now }
    ensures live { InBlock m.new.at }
    ensures faultless { AreFaultless m.old.place.now m.new.place.now }
    ensures attaches { DoesAttach
        (record { setup = setup.now; flash = flash.rows.now; sram = sram.words.now; erases = erases.words.now })
        m.old.place.now m.new.place.now result }
{
    let place = lend(m);
    let (flash, sram, erases) = (flash.into_slice(), sram.into_slice(), erases.into_slice());
    let code = attach_regions(alloc, place, setup, flash, sram, erases);
    give_back(m, place);
    code.number()
}

/// Makes a memory of zeros over a new board that can be made to fail, whose power can return so often.
#[unsafe(no_mangle)]
pub extern "C" fn envy_open_sim(alloc: Global, m: &mut Envy, setup: &EnvySetup, lives: u32) -> u32
    requires { InBlock m.old.at }
    ensures live { InBlock m.new.at }
    ensures faultless { AreFaultless m.old.place.now m.new.place.now }
    ensures formats { FormatsSimulated setup.now lives m.old.place.now m.new.place.now result }
{
    let place = lend(m);
    let code = format_simulated(alloc, place, setup, lives);
    give_back(m, place);
    code.number()
}

/// Takes up the memory that an image is, over a new board that can be made to fail, whose power can return so often.
#[unsafe(no_mangle)]
pub extern "C" fn envy_restore(
    alloc: Global,
    m: &mut Envy,
    setup: &EnvySetup,
    lives: u32,
    image: &[u8],
) -> u32
    requires { InBlock m.old.at }
    ensures live { InBlock m.new.at }
    ensures faultless { AreFaultless m.old.place.now m.new.place.now }
    ensures restores { DoesRestore setup.now lives image.now m.old.place.now m.new.place.now result }
{
    let place = lend(m);
    let code = restore_simulated(alloc, place, setup, lives, image);
    give_back(m, place);
    code.number()
}

/// Ends a memory. Of one in a file what was done since the last sync may be lost, and the file may be opened again; regions
/// hold theirs still; a board that can be made to fail ends with it.
#[unsafe(no_mangle)]
pub extern "C" fn envy_close(m: &mut Envy)
    requires { InBlock m.old.at }
    ensures live { InBlock m.new.at }
    ensures closed { held m.new.place.now ≡ None }
    ensures faultless { AreFaultless m.old.place.now m.new.place.now }
    ensures alike { AreAlike m.old.place.now m.new.place.now }
{
    let place = lend(m);
    close(place);
    give_back(m, place);
}
