ghost use Rattle.std.specs.Prelude.{◌≡◌};
ghost use Rattle.envy_calls.specs.Answers.{DoesBegin, DoesCommit, DoesAbort, slot_named as named};

use crate::code::Code;
use crate::faults::{begin_answer, end_answer};
use envy_base::Board;
use envy_memory::Memory;

/// The transaction slots.
const SLOTS: u32 = 64;

/// The slot of a number. From 64 on a number names none.
pub fn slot_named(t: u32) -> u8
    ensures { result ≡ named t }
{
    if t < SLOTS { t as u8 } else { SLOTS as u8 }
}

/// Opens the lowest slot that isn't open, and writes its number at `opened`.
pub fn begin<B: Board>(slot: &mut Option<Memory<B>>, opened: &mut u32) -> u32
    ensures { DoesBegin slot.old slot.new result opened.old opened.new }
{
    let Some(memory) = slot else {
        return Code::Empty.number();
    };
    begin_answer(memory.begin(), opened).number()
}

/// Closes slot `t`, and keeps its words.
pub fn commit<B: Board>(slot: &mut Option<Memory<B>>, t: u32) -> u32
    ensures { DoesCommit slot.old slot.new t result }
{
    let Some(memory) = slot else {
        return Code::Empty.number();
    };
    end_answer(memory.commit(slot_named(t))).number()
}

/// Closes slot `t`, and puts back the words of its pages.
pub fn abort<B: Board>(slot: &mut Option<Memory<B>>, t: u32) -> u32
    ensures { DoesAbort slot.old slot.new t result }
{
    let Some(memory) = slot else {
        return Code::Empty.number();
    };
    end_answer(memory.abort(slot_named(t))).number()
}
