// Several words in one call, and what a transaction sees, whatever the memory stands over.
ghost use Rattle.envy_calls.specs.Bulk.{DoesRead, DoesStoreRun, DoesWrite};
ghost use Rattle.envy_calls.specs.Views.{DoesView};
ghost use Rattle.envy_places.specs.Places.{AreAlike, held};

use crate::each::on_each;
use crate::place::MemoryPlace;
use envy_base::Board;

/// The words at an address and behind it, as many as there is room for, also where an open transaction put them.
pub fn read<R: Board, F: Board, S: Board>(
    place: &mut MemoryPlace<R, F, S>,
    a: u32,
    into: &mut [u64],
) -> u32
    ensures reads { DoesRead (held place.old) (held place.new) a result into.old into.new }
    ensures alike { AreAlike place.old place.new }
{
    on_each!(place, slot => envy_calls::read(slot, a, into))
}

/// Makes the words at an address and behind it these, outside any transaction, one after another. The first that is
/// refused ends it, and is the answer. `done` becomes how many were stored, and where a transaction owns a page, `holder`
/// becomes its slot.
pub fn store_run<R: Board, F: Board, S: Board>(
    place: &mut MemoryPlace<R, F, S>,
    a: u32,
    words: &[u64],
    done: &mut usize,
    holder: &mut u32,
) -> u32
    ensures stores { DoesStoreRun (held place.old) (held place.new) a words.now result done.new holder.old holder.new }
    ensures alike { AreAlike place.old place.new }
{
    on_each!(place, slot => envy_calls::store_run(slot, a, words, done, holder))
}

/// Makes the words at an address and behind it these within the transaction of slot `t`, one after another. The first
/// that is refused ends it, and is the answer. `done` becomes how many were put, and where another transaction owns a
/// page, `holder` becomes its slot.
pub fn write<R: Board, F: Board, S: Board>(
    place: &mut MemoryPlace<R, F, S>,
    t: u32,
    a: u32,
    words: &[u64],
    done: &mut usize,
    holder: &mut u32,
) -> u32
    ensures writes { DoesWrite (held place.old) (held place.new) t a words.now result done.new holder.old holder.new }
    ensures alike { AreAlike place.old place.new }
{
    on_each!(place, slot => envy_calls::write(slot, t, a, words, done, holder))
}

/// The word at an address as the transaction of slot `t` sees it.
pub fn view<R: Board, F: Board, S: Board>(
    place: &mut MemoryPlace<R, F, S>,
    t: u32,
    a: u32,
    word: &mut u64,
) -> u32
    ensures views { DoesView (held place.old) (held place.new) t a result word.old word.new }
    ensures alike { AreAlike place.old place.new }
{
    on_each!(place, slot => envy_calls::view(slot, t, a, word))
}
