ghost use Rattle.envy_calls.specs.Answers.{DoesLoad, DoesLook};

use crate::code::Code;
use crate::faults::load_answer;
use envy_base::Board;
use envy_memory::Memory;

/// The word at an address, also where a transaction that is still open put it.
pub fn load<B: Board>(slot: &mut Option<Memory<B>>, a: u32, word: &mut u64) -> u32
    ensures { DoesLoad slot.old slot.new a result word.old word.new }
{
    let Some(memory) = slot else {
        return Code::Empty.number();
    };
    load_answer(memory.load(a), word).number()
}

/// The committed word at an address, which a restart would leave.
pub fn look<B: Board>(slot: &mut Option<Memory<B>>, a: u32, word: &mut u64) -> u32
    ensures { DoesLook slot.old slot.new a result word.old word.new }
{
    let Some(memory) = slot else {
        return Code::Empty.number();
    };
    load_answer(memory.look(a), word).number()
}
