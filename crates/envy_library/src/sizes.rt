// What a setup asks for, in sizes, and what words of SRAM tell of their memory.
ghost use Rattle.std.specs.Prelude.{◌≡◌};
ghost use Rattle.envy_calls.specs.Codes.{number_of};
ghost use Rattle.envy_calls.specs.Shapes.{DoesShape};
ghost use Rattle.envy_calls.specs.declared.code.Code.{Code as OfCode};
ghost use Rattle.envy_openings.specs.Sizes.{SizesBoard, SizesRegions};

use envy_calls::{EnvySetup, shape};
use envy_openings::{EnvySizes, board_size, region_sizes};

/// How many bytes the board of a memory in a file takes from the heap at most, beside the tables of its parts.
#[unsafe(no_mangle)]
pub extern "C" fn envy_board_size(setup: &EnvySetup, bytes: &mut u64) -> u32
    ensures { (code : OfCode) × (result ≡ number_of code) × SizesBoard setup.now bytes.old bytes.new code }
{
    board_size(setup, bytes).number()
}

/// The sizes of the regions that a setup asks for.
#[unsafe(no_mangle)]
pub extern "C" fn envy_region_sizes(setup: &EnvySetup, sizes: &mut EnvySizes) -> u32
    ensures { (code : OfCode) × (result ≡ number_of code) × SizesRegions setup.now sizes.old sizes.new code }
{
    region_sizes(setup, sizes).number()
}

/// The shape of the memory whose SRAM begins with these words, in numbers for a setup.
#[unsafe(no_mangle)]
pub extern "C" fn envy_sram_shape(sram: &[u64], setup: &mut EnvySetup) -> u32
    ensures { (code : OfCode) × (result ≡ number_of code) × DoesShape sram.now setup.old setup.new code }
{
    shape(sram, setup)
}
