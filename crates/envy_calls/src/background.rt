ghost use Rattle.envy_calls.specs.Answers.{DoesTick};

use crate::code::Code;
use crate::faults::tick_answer;
use envy_base::Board;
use envy_memory::Memory;

/// One background step. What it did is written at `did` by its number.
pub fn tick<B: Board>(slot: &mut Option<Memory<B>>, did: &mut u32) -> u32
    ensures { DoesTick slot.old slot.new result did.old did.new }
{
    let Some(memory) = slot else {
        return Code::Empty.number();
    };
    tick_answer(memory.tick(), did).number()
}
