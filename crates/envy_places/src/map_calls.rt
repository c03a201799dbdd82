// Maps in ranges of the array of a memory, and transactions of several, whatever the memory stands over.
ghost use Rattle.std.specs.Prelude.{◌≡◌, ◌≢◌, ◌≤◌, length, drop};
ghost use Rattle.std.specs.Option.{ForSome};
ghost use Rattle.envy_btree.specs.Depths.{dropping_puts, insertion_puts};
ghost use Rattle.envy_btree.specs.Nearest.{pairs_from, pairs_to};
ghost use Rattle.envy_calls.specs.Codes.{number_of};
ghost use Rattle.envy_calls.specs.declared.code.Code.TheVariants.{Done, BrokenMap};
ghost use Rattle.envy_index_calls.specs.Checked.{Checks};
ghost use Rattle.envy_index_calls.specs.Indexed.{Counts, Gets, Scans, creation_puts};
ghost use Rattle.envy_index_calls.specs.Loaded.{LoadsIn};
ghost use Rattle.envy_index_calls.specs.Loading.{load_puts};
ghost use Rattle.envy_index_calls.specs.Ranged.{Aborts, Calls, Changed, Commits, CreatesIn, Drops, HoldsMapIn, Kept, Sets, Starts};
ghost use Rattle.envy_index_calls.specs.Ranges.{MayHold};
ghost use Rattle.envy_index_calls.specs.Scanned.{pairs_in};
ghost use Rattle.envy_places.specs.Places.{AreAlike, held};

use crate::each::on_each;
use crate::place::MemoryPlace;
use envy_base::Board;
use envy_calls::Code;
use envy_index_calls::{EnvyMap, EnvyOld, EnvyPair};

/// Begins a transaction of maps, and answers its slot, which is the first. No slot may be open.
pub fn map_begin<R: Board + Drop, F: Board + Drop, S: Board + Drop>(
    place: &mut MemoryPlace<R, F, S>,
    slot: &mut u32,
) -> Code
    requires { ForSome (held place.old) MayHold }
    ensures starts { Calls 1 Starts (held place.old) (held place.new) (number_of result) }
    ensures first { result ≡ Done → slot.new ≡ 0 }
    ensures unwritten { result ≢ Done → slot.new ≡ slot.old }
    ensures alike { AreAlike place.old place.new }
{
    on_each!(place, memory => envy_index_calls::map_begin(memory, slot))
}

/// Makes a map of no pairs in a range, whatever its words are, and marks it.
pub fn map_create<R: Board + Drop, F: Board + Drop, S: Board + Drop>(
    place: &mut MemoryPlace<R, F, S>,
    slot: u32,
    range: EnvyMap,
) -> Code
    requires { ForSome (held place.old) MayHold }
    ensures creates { Calls creation_puts (CreatesIn slot range) (held place.old) (held place.new) (number_of result) }
    ensures alike { AreAlike place.old place.new }
{
    on_each!(place, memory => envy_index_calls::map_create(memory, slot, range))
}

/// Makes a map of pairs in a range, whatever its words are, in transactions of its own. Their keys rise.
pub fn map_load<R: Board + Drop, F: Board + Drop, S: Board + Drop>(
    place: &mut MemoryPlace<R, F, S>,
    range: EnvyMap,
    pairs: &[EnvyPair],
) -> Code
    requires { ForSome (held place.old) MayHold }
    ensures loads { Calls (load_puts range.words (length pairs.now)) (LoadsIn range (pairs_in pairs.now)) (held place.old) (held place.new) (number_of result) }
    ensures alike { AreAlike place.old place.new }
{
    on_each!(place, memory => envy_index_calls::map_load(memory, range, pairs))
}

/// Sets the value of a key of the map in a range.
pub fn map_insert<R: Board + Drop, F: Board + Drop, S: Board + Drop>(
    place: &mut MemoryPlace<R, F, S>,
    slot: u32,
    range: EnvyMap,
    key: u64,
    value: u64,
    before: &mut EnvyOld,
) -> Code
    requires { ForSome (held place.old) (HoldsMapIn range) }
    ensures inserts { Calls (insertion_puts range.words) (Changed slot range (Sets key value before.new range)) (held place.old) (held place.new) (number_of result) }
    ensures unwritten { result ≢ Done → before.new ≡ before.old }
    ensures alike { AreAlike place.old place.new }
{
    on_each!(place, memory => envy_index_calls::map_insert(memory, slot, range, key, value, before))
}

/// Takes a key out of the map in a range.
pub fn map_remove<R: Board + Drop, F: Board + Drop, S: Board + Drop>(
    place: &mut MemoryPlace<R, F, S>,
    slot: u32,
    range: EnvyMap,
    key: u64,
    value: &mut u64,
) -> Code
    requires { ForSome (held place.old) (HoldsMapIn range) }
    ensures removes { Calls (dropping_puts range.words) (Changed slot range (Drops key value.new range)) (held place.old) (held place.new) (number_of result) }
    ensures unwritten { result ≢ Done → value.new ≡ value.old }
    ensures alike { AreAlike place.old place.new }
{
    on_each!(place, memory => envy_index_calls::map_remove(memory, slot, range, key, value))
}

/// Keeps what the transaction put, and closes its slot.
pub fn map_commit<R: Board + Drop, F: Board + Drop, S: Board + Drop>(
    place: &mut MemoryPlace<R, F, S>,
    slot: u32,
) -> Code
    requires { ForSome (held place.old) MayHold }
    ensures commits { Calls 0 (Commits slot) (held place.old) (held place.new) (number_of result) }
    ensures alike { AreAlike place.old place.new }
{
    on_each!(place, memory => envy_index_calls::map_commit(memory, slot))
}

/// Takes back what the transaction put, and closes its slot.
pub fn map_abort<R: Board + Drop, F: Board + Drop, S: Board + Drop>(
    place: &mut MemoryPlace<R, F, S>,
    slot: u32,
) -> Code
    requires { ForSome (held place.old) MayHold }
    ensures aborts { Calls 0 (Aborts slot) (held place.old) (held place.new) (number_of result) }
    ensures alike { AreAlike place.old place.new }
{
    on_each!(place, memory => envy_index_calls::map_abort(memory, slot))
}

/// The value of a key of the map in a range.
pub fn map_get<R: Board + Drop, F: Board + Drop, S: Board + Drop>(
    place: &mut MemoryPlace<R, F, S>,
    range: EnvyMap,
    key: u64,
    value: &mut u64,
) -> Code
    requires { ForSome (held place.old) MayHold }
    ensures gets { Calls 0 (Kept range (Gets key value.new)) (held place.old) (held place.new) (number_of result) }
    ensures unwritten { result ≢ Done → value.new ≡ value.old }
    ensures alike { AreAlike place.old place.new }
{
    on_each!(place, memory => envy_index_calls::map_get(memory, range, key, value))
}

/// How many pairs the map in a range has.
pub fn map_count<R: Board + Drop, F: Board + Drop, S: Board + Drop>(
    place: &mut MemoryPlace<R, F, S>,
    range: EnvyMap,
    number: &mut u64,
) -> Code
    requires { ForSome (held place.old) MayHold }
    ensures counts { Calls 0 (Kept range (Counts number.new)) (held place.old) (held place.new) (number_of result) }
    ensures unwritten { result ≢ Done → number.new ≡ number.old }
    ensures alike { AreAlike place.old place.new }
{
    on_each!(place, memory => envy_index_calls::map_count(memory, range, number))
}

/// Whether the words of a range stand for a map, whatever they are, in time linear in them. After `BrokenMap` the number
/// of the first rule that they break is written.
pub fn map_check<R: Board + Drop, F: Board + Drop, S: Board + Drop>(
    place: &mut MemoryPlace<R, F, S>,
    range: EnvyMap,
    rule: &mut u32,
) -> Code
    requires { ForSome (held place.old) MayHold }
    ensures checks { Calls 0 (Checks range rule.new) (held place.old) (held place.new) (number_of result) }
    ensures unwritten { result ≢ BrokenMap → rule.new ≡ rule.old }
    ensures alike { AreAlike place.old place.new }
{
    on_each!(place, memory => envy_index_calls::map_check(memory, range, rule))
}

/// Writes the pairs of the map in a range from a key on, by rising key, into `pairs`, and how many there are: as many as
/// there is room for, or all.
pub fn map_scan<R: Board + Drop, F: Board + Drop, S: Board + Drop>(
    place: &mut MemoryPlace<R, F, S>,
    range: EnvyMap,
    key: u64,
    pairs: &mut [EnvyPair],
    count: &mut usize,
) -> Code
    requires { ForSome (held place.old) MayHold }
    ensures scans { Calls 0 (Kept range (Scans (pairs_from key) pairs.old pairs.new count.new)) (held place.old) (held place.new) (number_of result) }
    ensures few { result ≡ Done → count.new ≤ length pairs.old }
    ensures rest { result ≡ Done → drop count.new (pairs_in pairs.new) ≡ drop count.new (pairs_in pairs.old) }
    ensures unwritten { result ≢ Done → count.new ≡ count.old }
    ensures alike { AreAlike place.old place.new }
{
    on_each!(place, memory => envy_index_calls::map_scan(memory, range, key, pairs, count))
}

/// The same of the pairs up to a key, by falling key.
pub fn map_scan_down<R: Board + Drop, F: Board + Drop, S: Board + Drop>(
    place: &mut MemoryPlace<R, F, S>,
    range: EnvyMap,
    key: u64,
    pairs: &mut [EnvyPair],
    count: &mut usize,
) -> Code
    requires { ForSome (held place.old) MayHold }
    ensures scans { Calls 0 (Kept range (Scans (pairs_to key) pairs.old pairs.new count.new)) (held place.old) (held place.new) (number_of result) }
    ensures few { result ≡ Done → count.new ≤ length pairs.old }
    ensures rest { result ≡ Done → drop count.new (pairs_in pairs.new) ≡ drop count.new (pairs_in pairs.old) }
    ensures unwritten { result ≢ Done → count.new ≡ count.old }
    ensures alike { AreAlike place.old place.new }
{
    on_each!(place, memory => envy_index_calls::map_scan_down(memory, range, key, pairs, count))
}
