// Images of boards.
ghost use Rattle.std.specs.Prelude.{◌≡◌};
ghost use Rattle.envy_base.specs.Shape.{IsShape};
ghost use Rattle.envy_openings.specs.Image.{DoesImageSize, DoesSave, Saves, image_size};
ghost use Rattle.envy_places.specs.Places.{held};

use envy_base::{Board, Shape};
use envy_calls::{Code, EnvySetup, checked_setup};
use envy_image::{OutFault, head_size, write_image};
use envy_io::MemSink;
use envy_memory::Memory;
use envy_places::MemoryPlace;
use std::alloc::Global;

// How many bytes the image of a board of a shape has.
fn size_of_image(shape: &Shape) -> u64
    requires { IsShape shape.now }
    ensures { result ≡ image_size shape.now }
{
    let rows = (shape.segments * shape.rows) as u64;
    let words = envy_map::words(shape) as u64;
    head_size(shape) + (256 * rows + 8 * words)
}

/// How many bytes the image of a setup's board has.
pub fn image_size(setup: &EnvySetup, size: &mut u64) -> Code
    ensures { DoesImageSize setup.now size.old size.new result }
{
    match checked_setup(setup) {
        Ok(setup) => {
            *size = size_of_image(&setup.shape);
            Code::Done
        }
        Err(code) => code,
    }
}

// Writes the image of a board over the first bytes.
fn save_board<B: Board>(alloc: Global, board: &B, into: &mut [u8]) -> Code
    ensures { Saves (B.state board.now) into.old into.new result }
{
    if !board.powered() {
        return Code::Off;
    }
    let size = size_of_image(&board.shape()) as usize;
    if into.len() < size {
        return Code::Small;
    }
    let Ok(mut sink) = MemSink::new(alloc, size, Vec::new(alloc)) else {
        return Code::NoMemory;
    };
    match write_image(board, &mut sink) {
        Ok(()) => {
            let image = sink.written();
            into[..image.len()].copy_from_slice(image);
            Code::Done
        }
        Err(OutFault::Off) => unreachable!(),
        // what the bytes go to lies on the heap
        Err(OutFault::Failed) => Code::NoMemory,
    }
}

fn save_slot<B: Board>(alloc: Global, slot: &Option<Memory<B>>, into: &mut [u8]) -> u32
    ensures { DoesSave slot.now into.old into.new result }
{
    let Some(memory) = slot else {
        return Code::Empty.number();
    };
    save_board(alloc, memory.board(), into).number()
}

/// Writes the image of the memory's board over the first bytes, whatever the memory stands over.
pub fn save<R: Board, F: Board, S: Board>(
    alloc: Global,
    place: &MemoryPlace<R, F, S>,
    into: &mut [u8],
) -> u32
    ensures { DoesSave (held place.now) into.old into.new result }
{
    match place {
        MemoryPlace::Regions(slot) => save_slot(alloc, slot, into),
        MemoryPlace::File(slot) => save_slot(alloc, slot, into),
        MemoryPlace::Simulated(slot) => save_slot(alloc, slot, into),
    }
}
