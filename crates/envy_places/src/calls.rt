// The calls of a memory, whatever it stands over.
ghost use Rattle.envy_calls.specs.Answers.{DoesLoad, DoesLook, DoesStore, DoesBegin, DoesPut, DoesCommit, DoesAbort, DoesTick, DoesCount};
ghost use Rattle.envy_calls.specs.Reserves.{DoesWear};
ghost use Rattle.envy_places.specs.Places.{AreAlike, held};

use crate::each::on_each;
use crate::place::MemoryPlace;
use envy_base::Board;
use envy_calls::EnvyCounts;

/// The word at an address, also where a transaction that is still open put it.
pub fn load<R: Board, F: Board, S: Board>(
    place: &mut MemoryPlace<R, F, S>,
    a: u32,
    word: &mut u64,
) -> u32
    ensures loads { DoesLoad (held place.old) (held place.new) a result word.old word.new }
    ensures alike { AreAlike place.old place.new }
{
    on_each!(place, slot => envy_calls::load(slot, a, word))
}

/// The committed word at an address, which a restart would leave.
pub fn look<R: Board, F: Board, S: Board>(
    place: &mut MemoryPlace<R, F, S>,
    a: u32,
    word: &mut u64,
) -> u32
    ensures looks { DoesLook (held place.old) (held place.new) a result word.old word.new }
    ensures alike { AreAlike place.old place.new }
{
    on_each!(place, slot => envy_calls::look(slot, a, word))
}

/// Makes the word at an address this. Where a transaction owns the page, `holder` becomes its slot.
pub fn store<R: Board, F: Board, S: Board>(
    place: &mut MemoryPlace<R, F, S>,
    a: u32,
    word: u64,
    holder: &mut u32,
) -> u32
    ensures stores { DoesStore (held place.old) (held place.new) a word result holder.old holder.new }
    ensures alike { AreAlike place.old place.new }
{
    on_each!(place, slot => envy_calls::store(slot, a, word, holder))
}

/// Opens the lowest slot that isn't open, and writes its number at `opened`.
pub fn begin<R: Board, F: Board, S: Board>(
    place: &mut MemoryPlace<R, F, S>,
    opened: &mut u32,
) -> u32
    ensures begins { DoesBegin (held place.old) (held place.new) result opened.old opened.new }
    ensures alike { AreAlike place.old place.new }
{
    on_each!(place, slot => envy_calls::begin(slot, opened))
}

/// Makes the word at an address this within the transaction of slot `t`. Where another owns the page, `holder` becomes its slot.
pub fn put<R: Board, F: Board, S: Board>(
    place: &mut MemoryPlace<R, F, S>,
    t: u32,
    a: u32,
    word: u64,
    holder: &mut u32,
) -> u32
    ensures puts { DoesPut (held place.old) (held place.new) t a word result holder.old holder.new }
    ensures alike { AreAlike place.old place.new }
{
    on_each!(place, slot => envy_calls::put(slot, t, a, word, holder))
}

/// Closes slot `t`, and keeps its words.
pub fn commit<R: Board, F: Board, S: Board>(place: &mut MemoryPlace<R, F, S>, t: u32) -> u32
    ensures commits { DoesCommit (held place.old) (held place.new) t result }
    ensures alike { AreAlike place.old place.new }
{
    on_each!(place, slot => envy_calls::commit(slot, t))
}

/// Closes slot `t`, and puts back the words of its pages.
pub fn abort<R: Board, F: Board, S: Board>(place: &mut MemoryPlace<R, F, S>, t: u32) -> u32
    ensures aborts { DoesAbort (held place.old) (held place.new) t result }
    ensures alike { AreAlike place.old place.new }
{
    on_each!(place, slot => envy_calls::abort(slot, t))
}

/// One background step. What it did is written at `did`.
pub fn tick<R: Board, F: Board, S: Board>(place: &mut MemoryPlace<R, F, S>, did: &mut u32) -> u32
    ensures ticks { DoesTick (held place.old) (held place.new) result did.old did.new }
    ensures alike { AreAlike place.old place.new }
{
    on_each!(place, slot => envy_calls::tick(slot, did))
}

/// What the memory has done since it was formatted or taken up.
pub fn counts<R: Board, F: Board, S: Board>(
    place: &MemoryPlace<R, F, S>,
    found: &mut EnvyCounts,
) -> u32
    ensures { DoesCount (held place.now) result found.old found.new }
{
    on_each!(place, slot => envy_calls::counts(slot, found))
}

/// How many segments in reserve are retired, and how many are left: none exactly if the next bad erase of the spare is told.
pub fn worn<R: Board, F: Board, S: Board>(
    place: &MemoryPlace<R, F, S>,
    retired: &mut u32,
    left: &mut u32,
) -> u32
    ensures { DoesWear (held place.now) retired.old left.old result retired.new left.new }
{
    on_each!(place, slot => envy_calls::worn(slot, retired, left))
}
