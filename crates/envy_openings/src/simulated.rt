ghost use Rattle.std.specs.Prelude.{◌≡◌, MatchResult};
ghost use Rattle.envy_openings.specs.Opening.{Opens};
ghost use Rattle.envy_openings.specs.Simulated.{Formatted, RefusesFormat, RefusesImage, Restored};
ghost use Rattle.envy_places.specs.declared.place.MemoryPlace.TheVariants.{Simulated};

use crate::image_boards::board_of_image;
use crate::place::Place;
use envy_bench::CalmBoard;
use envy_calls::{Code, EnvySetup, attach, checked_setup, format_answer};
use envy_memory::Memory;
use envy_places::{MemoryPlace, is_open};
use std::alloc::Global;

// A memory of zeros over a new board.
fn formatted(alloc: Global, given: &EnvySetup, lives: u32) -> Result<Memory<CalmBoard>, Code>
    ensures { MatchResult result (Formatted given.now lives) (RefusesFormat given.now) }
{
    let setup = checked_setup(given)?;
    let Ok(board) = CalmBoard::new(alloc, &setup.shape, lives) else {
        return Err(Code::NoMemory);
    };
    match Memory::format(alloc, board, setup) {
        Ok(memory) => Ok(memory),
        Err(refused) => Err(format_answer(refused.1)),
    }
}

// The memory that an image is, over a new board.
fn restored(
    alloc: Global,
    given: &EnvySetup,
    lives: u32,
    image: &[u8],
) -> Result<Memory<CalmBoard>, Code>
    ensures { MatchResult result (Restored given.now lives image.now) (RefusesImage given.now lives image.now) }
{
    let setup = checked_setup(given)?;
    let board = board_of_image(alloc, &setup.shape, lives, image)?;
    match attach(alloc, board, setup) {
        Ok(memory) => Ok(memory),
        Err(refused) => Err(refused.1),
    }
}

/// Makes a memory of zeros over a new board, whose power can return so often, in a place that holds none.
pub fn format_simulated(alloc: Global, place: &mut Place, given: &EnvySetup, lives: u32) -> Code
    ensures { Opens Simulated (λ code. code) (Formatted given.now lives) (RefusesFormat given.now) place.old place.new
        result }
{
    if is_open(place) {
        return Code::Open;
    }
    match formatted(alloc, given, lives) {
        Ok(memory) => {
            drop(std::mem::replace(place, MemoryPlace::Simulated(Some(memory))));
            Code::Done
        }
        Err(code) => code,
    }
}

/// Takes up the memory that an image is, over a new board, in a place that holds none.
pub fn restore_simulated(
    alloc: Global,
    place: &mut Place,
    given: &EnvySetup,
    lives: u32,
    image: &[u8],
) -> Code
    ensures { Opens Simulated (λ code. code) (Restored given.now lives image.now)
        (RefusesImage given.now lives image.now) place.old place.new result }
{
    if is_open(place) {
        return Code::Open;
    }
    match restored(alloc, given, lives, image) {
        Ok(memory) => {
            drop(std::mem::replace(place, MemoryPlace::Simulated(Some(memory))));
            Code::Done
        }
        Err(code) => code,
    }
}
