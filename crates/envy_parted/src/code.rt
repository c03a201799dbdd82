ghost use Rattle.std.specs.Prelude.{◌≡◌};
ghost use Rattle.envy_parted.specs.Codes.{number_of_part, code_of_place, code_of_part};

use envy_calls::Code;
use envy_part::{PartFault, PlaceFault};

/// What opening a memory over a part answers.
#[derive(Clone, Copy, Debug, PartialEq, Eq)]
pub enum PartCode {
    /// What a memory over any board answers.
    Of(Code),
    /// The map begins at 0, or at no multiple of 256.
    FlashAddress,
    /// The SRAM begins at 0, or at no multiple of 8.
    SramAddress,
    /// A region reaches past the last address.
    Past,
    /// The regions overlap.
    Overlap,
}

impl PartCode {
    /// The number that stands for the answer.
    pub fn number(self) -> u32
        ensures { result ≡ number_of_part self }
    {
        match self {
            PartCode::Of(code) => code.number(),
            PartCode::FlashAddress => 64,
            PartCode::SramAddress => 65,
            PartCode::Past => 66,
            PartCode::Overlap => 67,
        }
    }
}

impl From<Code> for PartCode {
    ghost use Rattle.envy_parted.specs.declared.code.PartCode.TheVariants.{Of};

    ghost from_gives = { λ code answer. answer ≡ Of code };

    fn from(code: Code) -> Self {
        PartCode::Of(code)
    }
}

/// The answer for places in which no board stands.
pub fn place_code(fault: PlaceFault) -> PartCode
    ensures { result ≡ code_of_place fault }
{
    match fault {
        PlaceFault::FlashAddress => PartCode::FlashAddress,
        PlaceFault::SramAddress => PartCode::SramAddress,
        PlaceFault::FlashSize => PartCode::Of(Code::FlashSize),
        PlaceFault::SramSize => PartCode::Of(Code::SramSize),
        PlaceFault::Past => PartCode::Past,
        PlaceFault::Overlap => PartCode::Overlap,
    }
}

/// The answer for regions that make no board.
pub fn part_code(fault: PartFault) -> PartCode
    ensures { result ≡ code_of_part fault }
{
    match fault {
        PartFault::FlashSize => PartCode::Of(Code::FlashSize),
        PartFault::SramSize => PartCode::Of(Code::SramSize),
        PartFault::NoMemory => PartCode::Of(Code::NoMemory),
    }
}
