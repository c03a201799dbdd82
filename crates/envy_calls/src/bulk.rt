// Several words in one call.
ghost use Rattle.std.specs.Prelude.{◌≡◌};
ghost use Rattle.envy_calls.specs.Bulk.{DoesRead, DoesStoreRun, DoesWrite, read_code};

use crate::code::Code;
use crate::faults::{put_answer, store_answer};
use crate::transactions::slot_named;
use envy_base::Board;
use envy_memory::{LoadFault, Memory};

fn read_answer(answer: Result<(), LoadFault>) -> Code
    ensures { result ≡ read_code answer }
{
    match answer {
        Ok(()) => Code::Done,
        Err(LoadFault::Off) => Code::Off,
        Err(LoadFault::Range) => Code::Range,
    }
}

/// The words at an address and behind it, as many as there is room for, also where an open transaction put them. It is
/// one access to each of their pages.
pub fn read<B: Board>(slot: &mut Option<Memory<B>>, a: u32, into: &mut [u64]) -> u32
    ensures { DoesRead slot.old slot.new a result into.old into.new }
{
    let Some(memory) = slot else {
        return Code::Empty.number();
    };
    read_answer(memory.load_run(a, into)).number()
}

/// Makes the words at an address and behind it these within the transaction of slot `t`, one after another. The first
/// that is refused ends it, and is the answer. A run that meets more pages that no transaction owns than may yet be owned
/// is refused before its first word. `done` becomes how many were put, and where another transaction owns a page,
/// `holder` becomes its slot.
pub fn write<B: Board>(
    slot: &mut Option<Memory<B>>,
    t: u32,
    a: u32,
    words: &[u64],
    done: &mut usize,
    holder: &mut u32,
) -> u32
    ensures { DoesWrite slot.old slot.new t a words.now result done.new holder.old holder.new }
{
    *done = 0;
    let Some(memory) = slot else {
        return Code::Empty.number();
    };
    let (count, answer) = memory.put_run(slot_named(t), a, words);
    *done = count;
    put_answer(answer, holder).number()
}

/// Makes the words at an address and behind it these, outside any transaction, one after another. The first that is
/// refused ends it, and is the answer. `done` becomes how many were stored, and where a transaction owns a page, `holder`
/// becomes its slot.
pub fn store_run<B: Board>(
    slot: &mut Option<Memory<B>>,
    a: u32,
    words: &[u64],
    done: &mut usize,
    holder: &mut u32,
) -> u32
    ensures { DoesStoreRun slot.old slot.new a words.now result done.new holder.old holder.new }
{
    *done = 0;
    let Some(memory) = slot else {
        return Code::Empty.number();
    };
    let (count, answer) = memory.store_run(a, words);
    *done = count;
    store_answer(answer, holder).number()
}
