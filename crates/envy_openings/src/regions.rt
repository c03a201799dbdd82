ghost use Rattle.std.specs.Prelude.{◌≡◌, Some, Ok, MatchResult};
ghost use Rattle.envy_calls.specs.Setups.{setup_of};
ghost use Rattle.envy_openings.specs.Opening.{Opens};
ghost use Rattle.envy_openings.specs.Regions.{AreWhole, Attached, Formatted, Given, HasSizes, Misfits, RefusesAttach, RefusesFormat};
ghost use Rattle.envy_places.specs.declared.place.MemoryPlace.TheVariants.{Regions};
ghost use Rattle.envy_policy.specs.Setup.{IsSetup, checked};

use crate::place::Place;
use envy_base::Page;
use envy_calls::{Code, EnvySetup, attach, checked_setup, format_answer};
use envy_map::words;
use envy_memory::Memory;
use envy_places::{MemoryPlace, is_open};
use envy_policy::Setup;
use envy_region::BorrowedBoard;
use std::alloc::Global;

// The setup, if the regions have the sizes of its shape.
fn setup_for(given: &EnvySetup, flash: &[Page], sram: &[u64], erases: &[u64]) -> Result<Setup, Code>
    ensures { MatchResult result
        (λ setup. (setup_of given.now ≡ Some setup) × (checked setup ≡ Ok tt) × IsSetup setup
        × HasSizes setup.shape flash.now sram.now erases.now)
        (Misfits (record { setup = given.now; flash = flash.now; sram = sram.now; erases = erases.now })) }
{
    let setup = checked_setup(given)?;
    if flash.len() != (setup.shape.segments * setup.shape.rows) as usize {
        return Err(Code::FlashSize);
    }
    if sram.len() != words(&setup.shape) as usize {
        return Err(Code::SramSize);
    }
    if erases.len() != setup.shape.segments as usize {
        return Err(Code::ErasesSize);
    }
    Ok(setup)
}

// A memory of zeros over regions.
fn formatted(
    alloc: Global,
    given: &EnvySetup,
    flash: &'static mut [Page],
    sram: &'static mut [u64],
    erases: &'static mut [u64],
) -> Result<Memory<BorrowedBoard<'static>>, Code>
    requires { AreWhole flash.now sram.now }
    ensures { let all : Given = record {
      setup = given.now;
      flash = flash.entry.now;
      sram = sram.entry.now;
      erases =
          erases.entry.now;
    } in
        MatchResult result (Formatted all) (RefusesFormat all) }
{
    let setup = setup_for(given, &*flash, &*sram, &*erases)?;
    let board = BorrowedBoard::over(setup.shape, flash, sram, erases);
    match Memory::format(alloc, board, setup) {
        Ok(memory) => Ok(memory),
        Err(refused) => Err(format_answer(refused.1)),
    }
}

// The memory that regions hold.
fn attached(
    alloc: Global,
    given: &EnvySetup,
    flash: &'static mut [Page],
    sram: &'static mut [u64],
    erases: &'static mut [u64],
) -> Result<Memory<BorrowedBoard<'static>>, Code>
    requires { AreWhole flash.now sram.now }
    ensures { let all : Given = record {
      setup = given.now;
      flash = flash.entry.now;
      sram = sram.entry.now;
      erases =
          erases.entry.now;
    } in
        MatchResult result (Attached all) (RefusesAttach all) }
{
    let setup = setup_for(given, &*flash, &*sram, &*erases)?;
    let board = BorrowedBoard::over(setup.shape, flash, sram, erases);
    match attach(alloc, board, setup) {
        Ok(memory) => Ok(memory),
        Err(refused) => Err(refused.1),
    }
}

/// Makes a memory of zeros over regions, whatever they hold, in a place that holds none.
pub fn format_regions(
    alloc: Global,
    place: &mut Place,
    given: &EnvySetup,
    flash: &'static mut [Page],
    sram: &'static mut [u64],
    erases: &'static mut [u64],
) -> Code
    requires { AreWhole flash.now sram.now }
    ensures { let all : Given = record {
      setup = given.now;
      flash = flash.entry.now;
      sram = sram.entry.now;
      erases =
          erases.entry.now;
    } in
        Opens Regions (λ code. code) (Formatted all) (RefusesFormat all) place.old place.new result }
{
    if is_open(place) {
        return Code::Open;
    }
    match formatted(alloc, given, flash, sram, erases) {
        Ok(memory) => {
            drop(std::mem::replace(place, MemoryPlace::Regions(Some(memory))));
            Code::Done
        }
        Err(code) => code,
    }
}

/// Takes up the memory that regions hold, once it was found to be sound, in a place that holds none.
pub fn attach_regions(
    alloc: Global,
    place: &mut Place,
    given: &EnvySetup,
    flash: &'static mut [Page],
    sram: &'static mut [u64],
    erases: &'static mut [u64],
) -> Code
    requires { AreWhole flash.now sram.now }
    ensures { let all : Given = record {
      setup = given.now;
      flash = flash.entry.now;
      sram = sram.entry.now;
      erases =
          erases.entry.now;
    } in
        Opens Regions (λ code. code) (Attached all) (RefusesAttach all) place.old place.new result }
{
    if is_open(place) {
        return Code::Open;
    }
    match attached(alloc, given, flash, sram, erases) {
        Ok(memory) => {
            drop(std::mem::replace(place, MemoryPlace::Regions(Some(memory))));
            Code::Done
        }
        Err(code) => code,
    }
}
