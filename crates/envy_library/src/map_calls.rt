// Maps in ranges of the array of a memory, and transactions of several, by numbers.
ghost use Rattle.std.specs.Prelude.{◌≡◌, ◌≢◌, ◌≤◌, length, drop};
ghost use Rattle.std.specs.Option.{ForSome};
ghost use Rattle.envy_btree.specs.Depths.{dropping_puts, insertion_puts};
ghost use Rattle.envy_btree.specs.Nearest.{pairs_from, pairs_to};
ghost use Rattle.envy_calls.specs.Codes.{number_of};
ghost use Rattle.envy_calls.specs.declared.code.Code.TheVariants.{BrokenMap, Done};
ghost use Rattle.envy_index_calls.specs.Checked.{Checks};
ghost use Rattle.envy_index_calls.specs.Indexed.{Counts, Gets, Scans, creation_puts};
ghost use Rattle.envy_index_calls.specs.Loaded.{LoadsIn};
ghost use Rattle.envy_index_calls.specs.Loading.{load_puts};
ghost use Rattle.envy_index_calls.specs.Ranged.{Aborts, Calls, Changed, Commits, CreatesIn, Drops, HoldsMapIn, Kept, Sets, Starts};
ghost use Rattle.envy_index_calls.specs.Ranges.{MayHold};
ghost use Rattle.envy_index_calls.specs.Scanned.{pairs_in};
ghost use Rattle.envy_openings.specs.Faultless.{AreFaultless};
ghost use Rattle.envy_places.specs.Places.{AreAlike, held};
ghost use denote.RawPtr.{InBlock};

use crate::handle::{Envy, give_back, lend};
use envy_index_calls::{EnvyMap, EnvyOld, EnvyPair};
use envy_places::{
    map_abort, map_begin, map_check, map_commit, map_count, map_create, map_get, map_insert,
    map_load, map_remove, map_scan, map_scan_down,
};

/// Begins a transaction of maps, and answers its slot, which is the first. No slot may be open.
#[unsafe(no_mangle)]
pub extern "C" fn envy_map_begin(m: &mut Envy, slot: &mut u32) -> u32
    requires place { InBlock m.old.at }
    requires array { ForSome (held m.old.place.now) MayHold }
    ensures live { InBlock m.new.at }
    ensures faultless { AreFaultless m.old.place.now m.new.place.now }
    ensures alike { AreAlike m.old.place.now m.new.place.now }
    ensures starts { Calls 1 Starts (held m.old.place.now) (held m.new.place.now) result }
    ensures first { result ≡ number_of Done → slot.new ≡ 0 }
    ensures unwritten { result ≢ number_of Done → slot.new ≡ slot.old }
{
    let place = lend(m);
    let code = map_begin(place, slot);
    give_back(m, place);
    code.number()
}

/// Makes a map of no pairs in a range, whatever its words are, and marks it.
#[unsafe(no_mangle)]
pub extern "C" fn envy_map_create(m: &mut Envy, slot: u32, range: &EnvyMap) -> u32
    requires place { InBlock m.old.at }
    requires array { ForSome (held m.old.place.now) MayHold }
    ensures live { InBlock m.new.at }
    ensures faultless { AreFaultless m.old.place.now m.new.place.now }
    ensures alike { AreAlike m.old.place.now m.new.place.now }
    ensures creates { Calls creation_puts (CreatesIn slot range.now) (held m.old.place.now) (held m.new.place.now) result }
{
    let place = lend(m);
    let code = map_create(place, slot, *range);
    give_back(m, place);
    code.number()
}

/// Makes a map of pairs in a range, whatever its words are, in transactions of its own. Their keys rise.
#[unsafe(no_mangle)]
pub extern "C" fn envy_map_load(m: &mut Envy, range: &EnvyMap, pairs: &[EnvyPair]) -> u32
    requires place { InBlock m.old.at }
    requires array { ForSome (held m.old.place.now) MayHold }
    ensures live { InBlock m.new.at }
    ensures faultless { AreFaultless m.old.place.now m.new.place.now }
    ensures alike { AreAlike m.old.place.now m.new.place.now }
    ensures loads { Calls (load_puts range.now.words (length pairs.now)) (LoadsIn range.now (pairs_in pairs.now)) (held m.old.place.now) (held m.new.place.now) result }
{
    let place = lend(m);
    let code = map_load(place, *range, pairs);
    give_back(m, place);
    code.number()
}

/// Sets the value of a key of the map in a range.
#[unsafe(no_mangle)]
pub extern "C" fn envy_map_insert(
    m: &mut Envy,
    slot: u32,
    range: &EnvyMap,
    key: u64,
    value: u64,
    before: &mut EnvyOld,
) -> u32
    requires place { InBlock m.old.at }
    requires map { ForSome (held m.old.place.now) (HoldsMapIn range.now) }
    ensures live { InBlock m.new.at }
    ensures faultless { AreFaultless m.old.place.now m.new.place.now }
    ensures alike { AreAlike m.old.place.now m.new.place.now }
    ensures inserts { Calls (insertion_puts range.now.words) (Changed slot range.now (Sets key value before.new range.now)) (held m.old.place.now) (held m.new.place.now) result }
    ensures unwritten { result ≢ number_of Done → before.new ≡ before.old }
{
    let place = lend(m);
    let code = map_insert(place, slot, *range, key, value, before);
    give_back(m, place);
    code.number()
}

/// Takes a key out of the map in a range.
#[unsafe(no_mangle)]
pub extern "C" fn envy_map_remove(
    m: &mut Envy,
    slot: u32,
    range: &EnvyMap,
    key: u64,
    value: &mut u64,
) -> u32
    requires place { InBlock m.old.at }
    requires map { ForSome (held m.old.place.now) (HoldsMapIn range.now) }
    ensures live { InBlock m.new.at }
    ensures faultless { AreFaultless m.old.place.now m.new.place.now }
    ensures alike { AreAlike m.old.place.now m.new.place.now }
    ensures removes { Calls (dropping_puts range.now.words) (Changed slot range.now (Drops key value.new range.now)) (held m.old.place.now) (held m.new.place.now) result }
    ensures unwritten { result ≢ number_of Done → value.new ≡ value.old }
{
    let place = lend(m);
    let code = map_remove(place, slot, *range, key, value);
    give_back(m, place);
    code.number()
}

/// Keeps what the transaction put, and closes its slot.
#[unsafe(no_mangle)]
pub extern "C" fn envy_map_commit(m: &mut Envy, slot: u32) -> u32
    requires place { InBlock m.old.at }
    requires array { ForSome (held m.old.place.now) MayHold }
    ensures live { InBlock m.new.at }
    ensures faultless { AreFaultless m.old.place.now m.new.place.now }
    ensures alike { AreAlike m.old.place.now m.new.place.now }
    ensures commits { Calls 0 (Commits slot) (held m.old.place.now) (held m.new.place.now) result }
{
    let place = lend(m);
    let code = map_commit(place, slot);
    give_back(m, place);
    code.number()
}

/// Takes back what the transaction put, and closes its slot.
#[unsafe(no_mangle)]
pub extern "C" fn envy_map_abort(m: &mut Envy, slot: u32) -> u32
    requires place { InBlock m.old.at }
    requires array { ForSome (held m.old.place.now) MayHold }
    ensures live { InBlock m.new.at }
    ensures faultless { AreFaultless m.old.place.now m.new.place.now }
    ensures alike { AreAlike m.old.place.now m.new.place.now }
    ensures aborts { Calls 0 (Aborts slot) (held m.old.place.now) (held m.new.place.now) result }
{
    let place = lend(m);
    let code = map_abort(place, slot);
    give_back(m, place);
    code.number()
}

/// The value of a key of the map in a range.
#[unsafe(no_mangle)]
pub extern "C" fn envy_map_get(m: &mut Envy, range: &EnvyMap, key: u64, value: &mut u64) -> u32
    requires place { InBlock m.old.at }
    requires array { ForSome (held m.old.place.now) MayHold }
    ensures live { InBlock m.new.at }
    ensures faultless { AreFaultless m.old.place.now m.new.place.now }
    ensures alike { AreAlike m.old.place.now m.new.place.now }
    ensures gets { Calls 0 (Kept range.now (Gets key value.new)) (held m.old.place.now) (held m.new.place.now) result }
    ensures unwritten { result ≢ number_of Done → value.new ≡ value.old }
{
    let place = lend(m);
    let code = map_get(place, *range, key, value);
    give_back(m, place);
    code.number()
}

/// How many pairs the map in a range has.
#[unsafe(no_mangle)]
pub extern "C" fn envy_map_count(m: &mut Envy, range: &EnvyMap, number: &mut u64) -> u32
    requires place { InBlock m.old.at }
    requires array { ForSome (held m.old.place.now) MayHold }
    ensures live { InBlock m.new.at }
    ensures faultless { AreFaultless m.old.place.now m.new.place.now }
    ensures alike { AreAlike m.old.place.now m.new.place.now }
    ensures counts { Calls 0 (Kept range.now (Counts number.new)) (held m.old.place.now) (held m.new.place.now) result }
    ensures unwritten { result ≢ number_of Done → number.new ≡ number.old }
{
    let place = lend(m);
    let code = map_count(place, *range, number);
    give_back(m, place);
    code.number()
}

/// Whether the words of a range stand for a map. If they stand for none, the rule that they break is written at `rule`.
#[unsafe(no_mangle)]
pub extern "C" fn envy_map_check(m: &mut Envy, range: &EnvyMap, rule: &mut u32) -> u32
    requires place { InBlock m.old.at }
    requires array { ForSome (held m.old.place.now) MayHold }
    ensures live { InBlock m.new.at }
    ensures faultless { AreFaultless m.old.place.now m.new.place.now }
    ensures alike { AreAlike m.old.place.now m.new.place.now }
    ensures checks { Calls 0 (Checks range.now rule.new) (held m.old.place.now) (held m.new.place.now) result }
    ensures unwritten { result ≢ number_of BrokenMap → rule.new ≡ rule.old }
{
    let place = lend(m);
    let code = map_check(place, *range, rule);
    give_back(m, place);
    code.number()
}

/// Writes the pairs of the map in a range from a key on, by rising key, into `pairs`, and how many there are: as many as
/// there is room for, or all.
#[unsafe(no_mangle)]
pub extern "C" fn envy_map_scan(
    m: &mut Envy,
    range: &EnvyMap,
    key: u64,
    pairs: &mut [EnvyPair],
    count: &mut usize,
) -> u32
    requires place { InBlock m.old.at }
    requires array { ForSome (held m.old.place.now) MayHold }
    ensures live { InBlock m.new.at }
    ensures faultless { AreFaultless m.old.place.now m.new.place.now }
    ensures alike { AreAlike m.old.place.now m.new.place.now }
    ensures scans { Calls 0 (Kept range.now (Scans (pairs_from key) pairs.old pairs.new count.new)) (held m.old.place.now) (held m.new.place.now) result }
    ensures few { result ≡ number_of Done → count.new ≤ length pairs.old }
    ensures rest { result ≡ number_of Done → drop count.new (pairs_in pairs.new) ≡ drop count.new (pairs_in pairs.old) }
    ensures unwritten { result ≢ number_of Done → count.new ≡ count.old }
{
    let place = lend(m);
    let code = map_scan(place, *range, key, pairs, count);
    give_back(m, place);
    code.number()
}

/// The same of the pairs up to a key, by falling key.
#[unsafe(no_mangle)]
pub extern "C" fn envy_map_scan_down(
    m: &mut Envy,
    range: &EnvyMap,
    key: u64,
    pairs: &mut [EnvyPair],
    count: &mut usize,
) -> u32
    requires place { InBlock m.old.at }
    requires array { ForSome (held m.old.place.now) MayHold }
    ensures live { InBlock m.new.at }
    ensures faultless { AreFaultless m.old.place.now m.new.place.now }
    ensures alike { AreAlike m.old.place.now m.new.place.now }
    ensures scans { Calls 0 (Kept range.now (Scans (pairs_to key) pairs.old pairs.new count.new)) (held m.old.place.now) (held m.new.place.now) result }
    ensures few { result ≡ number_of Done → count.new ≤ length pairs.old }
    ensures rest { result ≡ number_of Done → drop count.new (pairs_in pairs.new) ≡ drop count.new (pairs_in pairs.old) }
    ensures unwritten { result ≢ number_of Done → count.new ≡ count.old }
{
    let place = lend(m);
    let code = map_scan_down(place, *range, key, pairs, count);
    give_back(m, place);
    code.number()
}
