// A map in the array of a memory, by numbers. Each call is one transaction; those that change no pair take any words.
ghost use Rattle.std.specs.Prelude.{◌≡◌, ◌≢◌, ◌+◌, ◌≤◌, length, drop};
ghost use Rattle.std.specs.Option.{ForSome};
ghost use Rattle.envy_btree.specs.Nearest.{IsLeastFrom, IsGreatestTo, pairs_from, pairs_to};
ghost use Rattle.envy_calls.specs.Codes.{number_of};
ghost use Rattle.envy_calls.specs.declared.code.Code.TheVariants.{Done};
ghost use Rattle.envy_btree.specs.Answers.{insert_puts, removal_puts};
ghost use Rattle.envy_index_calls.specs.Indexed.{Asks, Counts, DoesCreate, Finds, Gets, HoldsArray, HoldsSomeMap, Inserts, Leaves, LeavesOrMisses, Looks, Removes, Scans};
ghost use Rattle.envy_index_calls.specs.Scanned.{pairs_in};
ghost use Rattle.envy_openings.specs.Faultless.{AreFaultless};
ghost use Rattle.envy_places.specs.Places.{AreAlike, held};
ghost use denote.RawPtr.{InBlock};

use crate::handle::{Envy, give_back, lend};
use envy_index_calls::{EnvyOld, EnvyPair};
use envy_places::{
    index_above, index_count, index_create, index_get, index_insert, index_last, index_next,
    index_remove, index_scan, index_scan_down,
};

/// Makes a map of no pairs, whatever the array holds.
#[unsafe(no_mangle)]
pub extern "C" fn envy_index_create(m: &mut Envy) -> u32
    requires place { InBlock m.old.at }
    requires array { ForSome (held m.old.place.now) HoldsArray }
    ensures live { InBlock m.new.at }
    ensures faultless { AreFaultless m.old.place.now m.new.place.now }
    ensures alike { AreAlike m.old.place.now m.new.place.now }
    ensures creates { DoesCreate (held m.old.place.now) (held m.new.place.now) result }
{
    let place = lend(m);
    let code = index_create(place);
    give_back(m, place);
    code.number()
}

/// The value of a key.
#[unsafe(no_mangle)]
pub extern "C" fn envy_index_get(m: &mut Envy, key: u64, value: &mut u64) -> u32
    requires place { InBlock m.old.at }
    requires array { ForSome (held m.old.place.now) HoldsArray }
    ensures live { InBlock m.new.at }
    ensures faultless { AreFaultless m.old.place.now m.new.place.now }
    ensures alike { AreAlike m.old.place.now m.new.place.now }
    ensures gets { Looks LeavesOrMisses (held m.old.place.now) (held m.new.place.now) result (Gets key value.new) }
    ensures unwritten { result ≢ number_of Done → value.new ≡ value.old }
{
    let place = lend(m);
    let code = index_get(place, key, value);
    give_back(m, place);
    code.number()
}

/// Sets the value of a key.
#[unsafe(no_mangle)]
pub extern "C" fn envy_index_insert(m: &mut Envy, key: u64, value: u64, before: &mut EnvyOld) -> u32
    requires place { InBlock m.old.at }
    requires map { ForSome (held m.old.place.now) HoldsSomeMap }
    ensures live { InBlock m.new.at }
    ensures faultless { AreFaultless m.old.place.now m.new.place.now }
    ensures alike { AreAlike m.old.place.now m.new.place.now }
    ensures inserts { Asks insert_puts (held m.old.place.now) (held m.new.place.now) result (Inserts key value before.new) }
    ensures unwritten { result ≢ number_of Done → before.new ≡ before.old }
{
    let place = lend(m);
    let code = index_insert(place, key, value, before);
    give_back(m, place);
    code.number()
}

/// Takes a key out of the map.
#[unsafe(no_mangle)]
pub extern "C" fn envy_index_remove(m: &mut Envy, key: u64, value: &mut u64) -> u32
    requires place { InBlock m.old.at }
    requires map { ForSome (held m.old.place.now) HoldsSomeMap }
    ensures live { InBlock m.new.at }
    ensures faultless { AreFaultless m.old.place.now m.new.place.now }
    ensures alike { AreAlike m.old.place.now m.new.place.now }
    ensures removes { Asks removal_puts (held m.old.place.now) (held m.new.place.now) result (Removes key value.new) }
    ensures unwritten { result ≢ number_of Done → value.new ≡ value.old }
{
    let place = lend(m);
    let code = index_remove(place, key, value);
    give_back(m, place);
    code.number()
}

/// How many pairs the map has.
#[unsafe(no_mangle)]
pub extern "C" fn envy_index_count(m: &mut Envy, number: &mut u64) -> u32
    requires place { InBlock m.old.at }
    requires array { ForSome (held m.old.place.now) HoldsArray }
    ensures live { InBlock m.new.at }
    ensures faultless { AreFaultless m.old.place.now m.new.place.now }
    ensures alike { AreAlike m.old.place.now m.new.place.now }
    ensures counts { Looks Leaves (held m.old.place.now) (held m.new.place.now) result (Counts number.new) }
    ensures unwritten { result ≢ number_of Done → number.new ≡ number.old }
{
    let place = lend(m);
    let code = index_count(place, number);
    give_back(m, place);
    code.number()
}

/// The pair with the least key that is at least `key`.
#[unsafe(no_mangle)]
pub extern "C" fn envy_index_next(m: &mut Envy, key: u64, pair: &mut EnvyPair) -> u32
    requires place { InBlock m.old.at }
    requires array { ForSome (held m.old.place.now) HoldsArray }
    ensures live { InBlock m.new.at }
    ensures faultless { AreFaultless m.old.place.now m.new.place.now }
    ensures alike { AreAlike m.old.place.now m.new.place.now }
    ensures finds { Looks LeavesOrMisses (held m.old.place.now) (held m.new.place.now) result (Finds (IsLeastFrom key) pair.new) }
    ensures unwritten { result ≢ number_of Done → pair.new ≡ pair.old }
{
    let place = lend(m);
    let code = index_next(place, key, pair);
    give_back(m, place);
    code.number()
}

/// The pair with the least key above `key`.
#[unsafe(no_mangle)]
pub extern "C" fn envy_index_above(m: &mut Envy, key: u64, pair: &mut EnvyPair) -> u32
    requires place { InBlock m.old.at }
    requires array { ForSome (held m.old.place.now) HoldsArray }
    ensures live { InBlock m.new.at }
    ensures faultless { AreFaultless m.old.place.now m.new.place.now }
    ensures alike { AreAlike m.old.place.now m.new.place.now }
    ensures finds { Looks LeavesOrMisses (held m.old.place.now) (held m.new.place.now) result (Finds (IsLeastFrom (key + 1)) pair.new) }
    ensures unwritten { result ≢ number_of Done → pair.new ≡ pair.old }
{
    let place = lend(m);
    let code = index_above(place, key, pair);
    give_back(m, place);
    code.number()
}

/// The pair with the greatest key that is at most `key`.
#[unsafe(no_mangle)]
pub extern "C" fn envy_index_last(m: &mut Envy, key: u64, pair: &mut EnvyPair) -> u32
    requires place { InBlock m.old.at }
    requires array { ForSome (held m.old.place.now) HoldsArray }
    ensures live { InBlock m.new.at }
    ensures faultless { AreFaultless m.old.place.now m.new.place.now }
    ensures alike { AreAlike m.old.place.now m.new.place.now }
    ensures finds { Looks LeavesOrMisses (held m.old.place.now) (held m.new.place.now) result (Finds (IsGreatestTo key) pair.new) }
    ensures unwritten { result ≢ number_of Done → pair.new ≡ pair.old }
{
    let place = lend(m);
    let code = index_last(place, key, pair);
    give_back(m, place);
    code.number()
}

/// Writes the pairs from a key on, by rising key, into `pairs`, and how many there are: as many as there is room for, or
/// all.
#[unsafe(no_mangle)]
pub extern "C" fn envy_index_scan(
    m: &mut Envy,
    key: u64,
    pairs: &mut [EnvyPair],
    count: &mut usize,
) -> u32
    requires place { InBlock m.old.at }
    requires array { ForSome (held m.old.place.now) HoldsArray }
    ensures live { InBlock m.new.at }
    ensures faultless { AreFaultless m.old.place.now m.new.place.now }
    ensures alike { AreAlike m.old.place.now m.new.place.now }
    ensures scans { Looks Leaves (held m.old.place.now) (held m.new.place.now) result (Scans (pairs_from key) pairs.old pairs.new count.new) }
    ensures few { result ≡ number_of Done → count.new ≤ length pairs.old }
    ensures rest { result ≡ number_of Done → drop count.new (pairs_in pairs.new) ≡ drop count.new (pairs_in pairs.old) }
    ensures unwritten { result ≢ number_of Done → count.new ≡ count.old }
{
    let place = lend(m);
    let code = index_scan(place, key, pairs, count);
    give_back(m, place);
    code.number()
}

/// The same of the pairs up to a key, by falling key.
#[unsafe(no_mangle)]
pub extern "C" fn envy_index_scan_down(
    m: &mut Envy,
    key: u64,
    pairs: &mut [EnvyPair],
    count: &mut usize,
) -> u32
    requires place { InBlock m.old.at }
    requires array { ForSome (held m.old.place.now) HoldsArray }
    ensures live { InBlock m.new.at }
    ensures faultless { AreFaultless m.old.place.now m.new.place.now }
    ensures alike { AreAlike m.old.place.now m.new.place.now }
    ensures scans { Looks Leaves (held m.old.place.now) (held m.new.place.now) result (Scans (pairs_to key) pairs.old pairs.new count.new) }
    ensures few { result ≡ number_of Done → count.new ≤ length pairs.old }
    ensures rest { result ≡ number_of Done → drop count.new (pairs_in pairs.new) ≡ drop count.new (pairs_in pairs.old) }
    ensures unwritten { result ≢ number_of Done → count.new ≡ count.old }
{
    let place = lend(m);
    let code = index_scan_down(place, key, pairs, count);
    give_back(m, place);
    code.number()
}
