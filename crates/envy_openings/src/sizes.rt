ghost use Rattle.std.specs.Prelude.{◌≡◌};
ghost use Rattle.envy_openings.specs.Sizes.{SizesBoard, SizesRegions};

use envy_calls::{Code, EnvySetup, checked_setup};
use envy_map::words;

// The bytes of a row of flash with its mark, and of a word.
const ROW: u64 = 257;

const WORD: u64 = 8;

/// The sizes of the regions that a memory stands on.
#[repr(C)]
#[derive(Clone, Copy)]
pub struct EnvySizes {
    /// Rows of flash, 32 words to each.
    pub rows: u64,
    /// Words of SRAM.
    pub words: u64,
    /// Counts of erases.
    pub erases: u64,
}

/// The sizes of the regions that a setup asks for.
pub fn region_sizes(setup: &EnvySetup, sizes: &mut EnvySizes) -> Code
    ensures { SizesRegions setup.now sizes.old sizes.new result }
{
    let shape = match checked_setup(setup) {
        Ok(setup) => setup.shape,
        Err(code) => return code,
    };
    *sizes = EnvySizes {
        rows: (shape.segments * shape.rows) as u64,
        words: words(&shape) as u64,
        erases: shape.segments as u64,
    };
    Code::Done
}

/// How many bytes the board of a memory in a file takes from the heap at most, beside the tables of its parts.
pub fn board_size(setup: &EnvySetup, bytes: &mut u64) -> Code
    ensures { SizesBoard setup.now bytes.old bytes.new result }
{
    let shape = match checked_setup(setup) {
        Ok(setup) => setup.shape,
        Err(code) => return code,
    };
    let rows = (shape.segments * shape.rows) as u64;
    *bytes = ROW * rows + WORD * words(&shape) as u64 + WORD * shape.segments as u64;
    Code::Done
}
