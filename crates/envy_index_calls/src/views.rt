// Look-ups of maps in ranges, whatever their words are, with what an open transaction put.
ghost use Rattle.std.specs.Prelude.{◌≡◌, ◌≢◌, ◌≤◌, length, drop, IsTrue, false, Some};
ghost use Rattle.std.specs.Option.{ForSome};
ghost use Rattle.envy_btree.specs.Nearest.{pairs_from, pairs_to};
ghost use Rattle.envy_calls.specs.Codes.{number_of};
ghost use Rattle.envy_calls.specs.declared.code.Code.TheVariants.{Done};
ghost use Rattle.envy_index_calls.specs.Indexed.{Counts, Gets, Scans};
ghost use Rattle.envy_index_calls.specs.Ranged.{Calls, Kept};
ghost use Rattle.envy_index_calls.specs.Ranges.{MayHold};
ghost use Rattle.envy_index_calls.specs.Scanned.{pairs_in};

use crate::lookups::{told_count, told_value};
use crate::pair_buffer::fill;
use crate::pairs::EnvyPair;
use crate::ranges::{EnvyMap, Whose, give_back, lend};
use crate::scans::told as told_scan;
use envy_base::Board;
use envy_btree::Way;
use envy_calls::Code;
use envy_memory::{Memory, OneTx};
use envy_range::Within;

/// The value of a key of the map in a range.
pub fn map_get<B: Board + Drop>(
    place: &mut Option<Memory<B>>,
    range: EnvyMap,
    key: u64,
    value: &mut u64,
) -> Code
    requires { ForSome place.old MayHold }
    ensures gets { Calls 0 (Kept range (Gets key value.new)) place.old place.new (number_of result) }
    ensures unwritten { result ≢ Done → value.new ≡ value.old }
{
    let words = match lend(place, Whose::Any, Some(range)) {
        Ok(words) => words,
        Err(code) => return code,
    };
    let mut view = Within::of(words, range.first, range.words);
    let found = envy_btree::get(&mut view, key);
    give_back(place, view.into_words());
    told_value(found, value)
}

/// How many pairs the map in a range has.
pub fn map_count<B: Board + Drop>(
    place: &mut Option<Memory<B>>,
    range: EnvyMap,
    number: &mut u64,
) -> Code
    requires { ForSome place.old MayHold }
    ensures counts { Calls 0 (Kept range (Counts number.new)) place.old place.new (number_of result) }
    ensures unwritten { result ≢ Done → number.new ≡ number.old }
{
    let words = match lend(place, Whose::Any, Some(range)) {
        Ok(words) => words,
        Err(code) => return code,
    };
    let mut view = Within::of(words, range.first, range.words);
    let counted = envy_btree::count(&mut view);
    give_back(place, view.into_words());
    told_count(counted, number)
}

/// Writes the pairs of the map in a range from a key on, by rising key, into `out`, and how many there are: as many as
/// it has room for, or all. The rest of `out` stays. After another answer than `Done` nothing is said of it.
pub fn map_scan<B: Board + Drop>(
    place: &mut Option<Memory<B>>,
    range: EnvyMap,
    key: u64,
    out: &mut [EnvyPair],
    count: &mut usize,
) -> Code
    requires { ForSome place.old MayHold }
    ensures scans { Calls 0 (Kept range (Scans (pairs_from key) out.old out.new count.new)) place.old place.new (number_of result) }
    ensures few { result ≡ Done → count.new ≤ length out.old }
    ensures rest { result ≡ Done → drop count.new (pairs_in out.new) ≡ drop count.new (pairs_in out.old) }
    ensures unwritten { result ≢ Done → count.new ≡ count.old }
{
    let words = match lend(place, Whose::Any, Some(range)) {
        Ok(words) => words,
        Err(code) => return code,
    };
    let mut view = Within::of(words, range.first, range.words);
    let filled = fill(&mut view, Way::Up, key, out);
    give_back(place, view.into_words());
    told_scan(filled, count)
}

/// The same of the pairs up to a key, by falling key.
pub fn map_scan_down<B: Board + Drop>(
    place: &mut Option<Memory<B>>,
    range: EnvyMap,
    key: u64,
    out: &mut [EnvyPair],
    count: &mut usize,
) -> Code
    requires { ForSome place.old MayHold }
    ensures scans { Calls 0 (Kept range (Scans (pairs_to key) out.old out.new count.new)) place.old place.new (number_of result) }
    ensures few { result ≡ Done → count.new ≤ length out.old }
    ensures rest { result ≡ Done → drop count.new (pairs_in out.new) ≡ drop count.new (pairs_in out.old) }
    ensures unwritten { result ≢ Done → count.new ≡ count.old }
{
    let words = match lend(place, Whose::Any, Some(range)) {
        Ok(words) => words,
        Err(code) => return code,
    };
    let mut view = Within::of(words, range.first, range.words);
    let filled = fill(&mut view, Way::Down, key, out);
    give_back(place, view.into_words());
    told_scan(filled, count)
}
