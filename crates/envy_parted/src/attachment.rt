ghost use Rattle.std.specs.Prelude.{◌≡◌, Some, Ok, MatchOption, MatchResult};
ghost use Rattle.envy_calls.specs.Setups.{setup_of};
ghost use Rattle.envy_base.specs.Shape.{IsShape};
ghost use Rattle.envy_part.specs.Making.{HasSizes, Misfits, new_part};
ghost use Rattle.envy_part.specs.Part.{part_state};
ghost use Rattle.envy_part.specs.Placing.{ArePlaced};
ghost use Rattle.envy_part.specs.declared.fault.PartFault.{PartFault};
ghost use Rattle.envy_parted.specs.Codes.{code_of_part};
ghost use Rattle.envy_parted.specs.Opening.{Attached, Formatted, Given, LeavesPart, NoBoard, NoPlaces, Opens, RefusesAttach, RefusesFormat};
ghost use Rattle.envy_parted.specs.Regions.{AreWhole};
ghost use Rattle.envy_policy.specs.Setup.{IsSetup, checked};

use crate::code::{PartCode, part_code, place_code};
use crate::handle::Slot;
use envy_base::Shape;
use envy_calls::{Code, EnvySetup, attach, checked_setup, format_answer};
use envy_memory::Memory;
use envy_part::{IoPort, PartBoard, Places};
use envy_policy::Setup;
use std::alloc::Global;

// The setup, if its shape's regions may lie there. It takes no port, so that nothing can be ordered.
fn setup_for(given: &EnvySetup, places: &Places) -> Result<Setup, PartCode>
    ensures { MatchResult result
        (λ setup. (setup_of given.now ≡ Some setup) × (checked setup ≡ Ok tt) × IsSetup setup
        × ArePlaced setup.shape places.now)
        (NoPlaces given.now places.now) }
{
    let setup = checked_setup(given)?;
    match places.check(&setup.shape) {
        Ok(()) => Ok(setup),
        Err(fault) => Err(place_code(fault)),
    }
}

// The board that a part is in a shape.
#[tactic(auto, using(crate::proofs::Boards::has_sizes))]
fn board_over(
    alloc: Global,
    shape: Shape,
    flash: &'static mut [[u8; 256]],
    sram: &'static mut [u64],
    port: i32,
) -> Result<PartBoard<'static, IoPort>, PartCode>
    requires shape { IsShape shape }
    requires whole { AreWhole flash.now sram.now }
    ensures { MatchResult result
        (λ board. (part_state board.shape board.flash.now board.sram.now board.erases.items board.begun board.bads
        ≡ new_part shape flash.entry.now sram.entry.now)
        × HasSizes shape flash.entry.now sram.entry.now)
        (λ code. (fault : PartFault) × (code ≡ code_of_part fault)
        × Misfits shape flash.entry.now sram.entry.now fault) }
{
    match PartBoard::over(alloc, shape, flash, sram, IoPort { number: port }) {
        Ok(board) => Ok(board),
        Err(fault) => Err(part_code(fault)),
    }
}

// A memory of zeros over a part. The board comes back if there is one and formatting stopped.
fn formatted(
    alloc: Global,
    given: &EnvySetup,
    places: &Places,
    flash: &'static mut [[u8; 256]],
    sram: &'static mut [u64],
    port: i32,
) -> Result<Memory<PartBoard<'static, IoPort>>, (Option<PartBoard<'static, IoPort>>, PartCode)>
    requires { AreWhole flash.now sram.now }
    ensures { let all : Given = record {
      setup = given.now;
      places = places.now;
      flash = flash.entry.now;
      sram =
          sram.entry.now;
    } in
        MatchResult result (Formatted all) (λ refused. MatchOption refused.0 (NoBoard all refused.1)
        (λ board. LeavesPart all (part_state board.shape board.flash.now board.sram.now board.erases.items board.begun
        board.bads) refused.1)) }
{
    let setup = match setup_for(given, places) {
        Ok(setup) => setup,
        Err(code) => return Err((None, code)),
    };
    let board = match board_over(alloc, setup.shape, flash, sram, port) {
        Ok(board) => board,
        Err(code) => return Err((None, code)),
    };
    match Memory::format(alloc, board, setup) {
        Ok(fresh) => Ok(fresh),
        Err(refused) => {
            let (left, fault) = refused;
            Err((Some(left), PartCode::Of(format_answer(fault))))
        }
    }
}

// The memory that a part holds.
#[tactic(auto, using(crate::proofs::Declining::attach_without_board))]
fn attached(
    alloc: Global,
    given: &EnvySetup,
    places: &Places,
    flash: &'static mut [[u8; 256]],
    sram: &'static mut [u64],
    port: i32,
) -> Result<Memory<PartBoard<'static, IoPort>>, PartCode>
    requires { AreWhole flash.now sram.now }
    ensures { let all : Given = record {
      setup = given.now;
      places = places.now;
      flash = flash.entry.now;
      sram =
          sram.entry.now;
    } in
        MatchResult result (Attached all) (RefusesAttach all) }
{
    let setup = setup_for(given, places)?;
    let board = board_over(alloc, setup.shape, flash, sram, port)?;
    match attach(alloc, board, setup) {
        Ok(memory) => Ok(memory),
        Err(refused) => Err(PartCode::Of(refused.1)),
    }
}

/// Makes a memory of zeros over a part, in a place that holds none.
pub fn format_place(
    alloc: Global,
    slot: &mut Slot,
    given: &EnvySetup,
    places: &Places,
    flash: &'static mut [[u8; 256]],
    sram: &'static mut [u64],
    port: i32,
) -> PartCode
    requires { AreWhole flash.now sram.now }
    ensures { let all : Given = record {
      setup = given.now;
      places = places.now;
      flash = flash.entry.now;
      sram =
          sram.entry.now;
    } in
        Opens (Formatted all) (RefusesFormat all) slot.old slot.new result }
{
    if slot.is_some() {
        return PartCode::Of(Code::Open);
    }
    match formatted(alloc, given, places, flash, sram, port) {
        Ok(memory) => {
            drop(slot.replace(memory));
            PartCode::Of(Code::Done)
        }
        Err(refused) => refused.1,
    }
}

/// Takes up the memory that a part holds, in a place that holds none.
pub fn attach_place(
    alloc: Global,
    slot: &mut Slot,
    given: &EnvySetup,
    places: &Places,
    flash: &'static mut [[u8; 256]],
    sram: &'static mut [u64],
    port: i32,
) -> PartCode
    requires { AreWhole flash.now sram.now }
    ensures { let all : Given = record {
      setup = given.now;
      places = places.now;
      flash = flash.entry.now;
      sram =
          sram.entry.now;
    } in
        Opens (Attached all) (RefusesAttach all) slot.old slot.new result }
{
    if slot.is_some() {
        return PartCode::Of(Code::Open);
    }
    match attached(alloc, given, places, flash, sram, port) {
        Ok(memory) => {
            drop(slot.replace(memory));
            PartCode::Of(Code::Done)
        }
        Err(code) => code,
    }
}
