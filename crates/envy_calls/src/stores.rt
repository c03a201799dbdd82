ghost use Rattle.envy_calls.specs.Answers.{DoesStore, DoesPut};

use crate::code::Code;
use crate::faults::{put_answer, store_answer};
use crate::transactions::slot_named;
use envy_base::Board;
use envy_memory::Memory;

/// Makes the word at an address this. Where a transaction owns the page, `holder` becomes its slot.
pub fn store<B: Board>(slot: &mut Option<Memory<B>>, a: u32, word: u64, holder: &mut u32) -> u32
    ensures { DoesStore slot.old slot.new a word result holder.old holder.new }
{
    let Some(memory) = slot else {
        return Code::Empty.number();
    };
    store_answer(memory.store(a, word), holder).number()
}

/// Makes the word at an address this within the transaction of slot `t`. Where another one owns the page, `holder`
/// becomes its slot.
pub fn put<B: Board>(
    slot: &mut Option<Memory<B>>,
    t: u32,
    a: u32,
    word: u64,
    holder: &mut u32,
) -> u32
    ensures { DoesPut slot.old slot.new t a word result holder.old holder.new }
{
    let Some(memory) = slot else {
        return Code::Empty.number();
    };
    put_answer(memory.put(slot_named(t), a, word), holder).number()
}
