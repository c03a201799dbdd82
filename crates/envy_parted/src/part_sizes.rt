ghost use Rattle.std.specs.Prelude.{◌≡◌};
ghost use Rattle.envy_calls.specs.Codes.{number_of};
ghost use Rattle.envy_calls.specs.declared.code.Code.{Code as OfCode};
ghost use Rattle.envy_parted.specs.Opening.{DoesSize};

use envy_calls::{Code, EnvySetup, checked_setup};
use envy_map::words;

/// The sizes of the regions that a memory over a part stands on.
#[repr(C)]
#[derive(Clone, Copy)]
pub struct EnvyPartSizes {
    /// Rows of the part, 256 bytes to each.
    pub rows: u64,
    /// Words of SRAM, 8 bytes to each.
    pub words: u64,
}

fn sizes_of(setup: &EnvySetup, sizes: &mut EnvyPartSizes) -> Code
    ensures { DoesSize setup.now sizes.old sizes.new result }
{
    let shape = match checked_setup(setup) {
        Ok(setup) => setup.shape,
        Err(code) => return code,
    };
    *sizes = EnvyPartSizes {
        rows: (shape.segments * shape.rows) as u64,
        words: words(&shape) as u64,
    };
    Code::Done
}

/// The sizes that a setup asks for.
#[unsafe(no_mangle)]
pub extern "C" fn envy_parted_sizes(setup: &EnvySetup, sizes: &mut EnvyPartSizes) -> u32
    ensures { (code : OfCode) × (result ≡ number_of code) × DoesSize setup.now sizes.old sizes.new code }
{
    sizes_of(setup, sizes).number()
}
