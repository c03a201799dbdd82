// A map in the array of a memory, whatever the memory stands over. Each call is one transaction; those that change no pair
// take any words.
ghost use Rattle.std.specs.Prelude.{◌≡◌, ◌≢◌, ◌+◌, ◌≤◌, length, drop};
ghost use Rattle.std.specs.Option.{ForSome};
ghost use Rattle.envy_btree.specs.Nearest.{IsLeastFrom, IsGreatestTo, pairs_from, pairs_to};
ghost use Rattle.envy_calls.specs.Codes.{number_of};
ghost use Rattle.envy_calls.specs.declared.code.Code.TheVariants.{Done};
ghost use Rattle.envy_btree.specs.Answers.{insert_puts, removal_puts};
ghost use Rattle.envy_index_calls.specs.Indexed.{Asks, Counts, DoesCreate, Finds, Gets, HoldsArray, HoldsSomeMap, Inserts, Leaves, LeavesOrMisses, Looks, Removes, Scans};
ghost use Rattle.envy_index_calls.specs.Scanned.{pairs_in};
ghost use Rattle.envy_places.specs.Places.{AreAlike, held};

use crate::each::on_each;
use crate::place::MemoryPlace;
use envy_base::Board;
use envy_calls::Code;
use envy_index_calls::{EnvyOld, EnvyPair};

/// Makes a map of no pairs, whatever the array holds.
pub fn index_create<R: Board + Drop, F: Board + Drop, S: Board + Drop>(
    place: &mut MemoryPlace<R, F, S>,
) -> Code
    requires { ForSome (held place.old) HoldsArray }
    ensures creates { DoesCreate (held place.old) (held place.new) (number_of result) }
    ensures alike { AreAlike place.old place.new }
{
    on_each!(place, memory => envy_index_calls::create(memory))
}

/// The value of a key.
pub fn index_get<R: Board + Drop, F: Board + Drop, S: Board + Drop>(
    place: &mut MemoryPlace<R, F, S>,
    key: u64,
    value: &mut u64,
) -> Code
    requires { ForSome (held place.old) HoldsArray }
    ensures gets { Looks LeavesOrMisses (held place.old) (held place.new) (number_of result) (Gets key value.new) }
    ensures unwritten { result ≢ Done → value.new ≡ value.old }
    ensures alike { AreAlike place.old place.new }
{
    on_each!(place, memory => envy_index_calls::get(memory, key, value))
}

/// Sets the value of a key.
pub fn index_insert<R: Board + Drop, F: Board + Drop, S: Board + Drop>(
    place: &mut MemoryPlace<R, F, S>,
    key: u64,
    value: u64,
    before: &mut EnvyOld,
) -> Code
    requires { ForSome (held place.old) HoldsSomeMap }
    ensures inserts { Asks insert_puts (held place.old) (held place.new) (number_of result) (Inserts key value before.new) }
    ensures unwritten { result ≢ Done → before.new ≡ before.old }
    ensures alike { AreAlike place.old place.new }
{
    on_each!(place, memory => envy_index_calls::insert(memory, key, value, before))
}

/// Takes a key out of the map.
pub fn index_remove<R: Board + Drop, F: Board + Drop, S: Board + Drop>(
    place: &mut MemoryPlace<R, F, S>,
    key: u64,
    value: &mut u64,
) -> Code
    requires { ForSome (held place.old) HoldsSomeMap }
    ensures removes { Asks removal_puts (held place.old) (held place.new) (number_of result) (Removes key value.new) }
    ensures unwritten { result ≢ Done → value.new ≡ value.old }
    ensures alike { AreAlike place.old place.new }
{
    on_each!(place, memory => envy_index_calls::remove(memory, key, value))
}

/// How many pairs the map has.
pub fn index_count<R: Board + Drop, F: Board + Drop, S: Board + Drop>(
    place: &mut MemoryPlace<R, F, S>,
    number: &mut u64,
) -> Code
    requires { ForSome (held place.old) HoldsArray }
    ensures counts { Looks Leaves (held place.old) (held place.new) (number_of result) (Counts number.new) }
    ensures unwritten { result ≢ Done → number.new ≡ number.old }
    ensures alike { AreAlike place.old place.new }
{
    on_each!(place, memory => envy_index_calls::count(memory, number))
}

/// The pair with the least key that is at least `key`.
pub fn index_next<R: Board + Drop, F: Board + Drop, S: Board + Drop>(
    place: &mut MemoryPlace<R, F, S>,
    key: u64,
    pair: &mut EnvyPair,
) -> Code
    requires { ForSome (held place.old) HoldsArray }
    ensures finds { Looks LeavesOrMisses (held place.old) (held place.new) (number_of result) (Finds (IsLeastFrom key) pair.new) }
    ensures unwritten { result ≢ Done → pair.new ≡ pair.old }
    ensures alike { AreAlike place.old place.new }
{
    on_each!(place, memory => envy_index_calls::next(memory, key, pair))
}

/// The pair with the least key above `key`.
pub fn index_above<R: Board + Drop, F: Board + Drop, S: Board + Drop>(
    place: &mut MemoryPlace<R, F, S>,
    key: u64,
    pair: &mut EnvyPair,
) -> Code
    requires { ForSome (held place.old) HoldsArray }
    ensures finds { Looks LeavesOrMisses (held place.old) (held place.new) (number_of result) (Finds (IsLeastFrom (key + 1)) pair.new) }
    ensures unwritten { result ≢ Done → pair.new ≡ pair.old }
    ensures alike { AreAlike place.old place.new }
{
    on_each!(place, memory => envy_index_calls::above(memory, key, pair))
}

/// The pair with the greatest key that is at most `key`.
pub fn index_last<R: Board + Drop, F: Board + Drop, S: Board + Drop>(
    place: &mut MemoryPlace<R, F, S>,
    key: u64,
    pair: &mut EnvyPair,
) -> Code
    requires { ForSome (held place.old) HoldsArray }
    ensures finds { Looks LeavesOrMisses (held place.old) (held place.new) (number_of result) (Finds (IsGreatestTo key) pair.new) }
    ensures unwritten { result ≢ Done → pair.new ≡ pair.old }
    ensures alike { AreAlike place.old place.new }
{
    on_each!(place, memory => envy_index_calls::last(memory, key, pair))
}

/// Writes the pairs from a key on, by rising key, into `pairs`, and how many there are: as many as there is room for, or
/// all.
pub fn index_scan<R: Board + Drop, F: Board + Drop, S: Board + Drop>(
    place: &mut MemoryPlace<R, F, S>,
    key: u64,
    pairs: &mut [EnvyPair],
    count: &mut usize,
) -> Code
    requires { ForSome (held place.old) HoldsArray }
    ensures scans { Looks Leaves (held place.old) (held place.new) (number_of result) (Scans (pairs_from key) pairs.old pairs.new count.new) }
    ensures few { result ≡ Done → count.new ≤ length pairs.old }
    ensures rest { result ≡ Done → drop count.new (pairs_in pairs.new) ≡ drop count.new (pairs_in pairs.old) }
    ensures unwritten { result ≢ Done → count.new ≡ count.old }
    ensures alike { AreAlike place.old place.new }
{
    on_each!(place, memory => envy_index_calls::scan(memory, key, pairs, count))
}

/// The same of the pairs up to a key, by falling key.
pub fn index_scan_down<R: Board + Drop, F: Board + Drop, S: Board + Drop>(
    place: &mut MemoryPlace<R, F, S>,
    key: u64,
    pairs: &mut [EnvyPair],
    count: &mut usize,
) -> Code
    requires { ForSome (held place.old) HoldsArray }
    ensures scans { Looks Leaves (held place.old) (held place.new) (number_of result) (Scans (pairs_to key) pairs.old pairs.new count.new) }
    ensures few { result ≡ Done → count.new ≤ length pairs.old }
    ensures rest { result ≡ Done → drop count.new (pairs_in pairs.new) ≡ drop count.new (pairs_in pairs.old) }
    ensures unwritten { result ≢ Done → count.new ≡ count.old }
    ensures alike { AreAlike place.old place.new }
{
    on_each!(place, memory => envy_index_calls::scan_down(memory, key, pairs, count))
}
