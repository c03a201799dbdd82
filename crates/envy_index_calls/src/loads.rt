// Bulk loads of maps in ranges.
ghost use Rattle.std.specs.Prelude.{◌≡◌, ◌↔◌, ◌^◌, ◌≤◌, false, length, IsTrue, MatchOption};
ghost use Rattle.std.specs.Option.{ForSome};
ghost use Rattle.envy_array.specs.Words.{Spends};
ghost use Rattle.envy_range.specs.Ranges.{outside};
ghost use Rattle.envy_btree.specs.Depths.{insertion_pages, most_levels};
ghost use Rattle.envy_btree.specs.Tree.{Rising};
ghost use Rattle.envy_calls.specs.Codes.{number_of};
ghost use Rattle.envy_index_calls.specs.Attempts.{Steady, view_of};
ghost use Rattle.envy_index_calls.specs.Loaded.{LoadsIn, MayLoad, TellsLoaded, Unfit, most_in};
ghost use Rattle.envy_index_calls.specs.Loading.{LoadsNew, load_puts};
ghost use Rattle.envy_index_calls.specs.Ranged.{Calls};
ghost use Rattle.envy_index_calls.specs.Ranges.{IsRange, MayHold};
ghost use Rattle.envy_index_calls.specs.Scanned.{pairs_in};

use crate::loading::load_new;
use crate::pairs::EnvyPair;
use crate::ranges::{EnvyMap, Whose, give_back, lend};
use crate::words::LEAST_SHADOWS;
use envy_array::Words;
use envy_base::Board;
use envy_btree::{TreeFault, most_pairs};
use envy_calls::Code;
use envy_memory::Memory;
use envy_range::Within;

// Whether the keys of pairs rise.
fn rise(pairs: &[EnvyPair]) -> bool
    ensures { IsTrue result ↔ Rising 0 (2 ^ 64) (pairs_in pairs.now) }
{
    let mut least: u128 = 0;
    for pair in pairs {
        let key = u128::from(pair.key);
        if key < least {
            return false;
        }
        least = key + 1;
    }
    true
}

// Why pairs aren't loaded into a range of a memory with so many shadows, if that is so.
fn misfit(room: u32, range: EnvyMap, pairs: &[EnvyPair]) -> Option<Code>
    requires { 640 ≤ range.words }
    ensures { MatchOption result (MayLoad room range (pairs_in pairs.now)) (Unfit room range (pairs_in pairs.now)) }
{
    if room < LEAST_SHADOWS {
        return Some(Code::MapSetup);
    }
    if pairs.len() as u64 > most_pairs(range.words) {
        return Some(Code::MapFull);
    }
    if !rise(pairs) {
        return Some(Code::Range);
    }
    None
}

/// Makes a map of pairs in a range, whatever its words are, in transactions of its own.
fn load_in<W: Words>(words: W, range: EnvyMap, pairs: &[EnvyPair]) -> (W, Result<(), TreeFault>)
    requires shut { (W.sheet words).started ≡ false }
    requires room { insertion_pages (most_levels range.words) ≤ (W.sheet words).room }
    requires range { IsRange range (length (W.sheet words).words) }
    requires rising { Rising 0 (2 ^ 64) (pairs_in pairs.now) }
    requires few { length pairs.now ≤ most_in range.words }
    ensures shut { (W.sheet result.0).started ≡ false }
    ensures steady { Steady (W.sheet words) (W.sheet result.0) }
    ensures spends { Spends (load_puts range.words (length pairs.now)) (W.sheet words) (W.sheet result.0) }
    ensures beside { outside range.first range.words (W.sheet result.0).kept
        ≡ outside range.first range.words (W.sheet words).kept }
    ensures loads { LoadsNew (pairs_in pairs.now) (view_of range (W.sheet words)) result.1 (view_of range (W.sheet result.0)) }
{
    let mut view = Within::of(words, range.first, range.words);
    let loaded = load_new(&mut view, pairs);
    (view.into_words(), loaded)
}

// The code of a load.
fn told(loaded: Result<(), TreeFault>) -> Code
    ensures { TellsLoaded loaded result }
{
    match loaded {
        Ok(()) => Code::Done,
        Err(TreeFault::Off) => Code::Off,
        Err(TreeFault::Full) => Code::MapFull,
        Err(TreeFault::Bad) => Code::Bad,
    }
}

/// Makes a map of pairs in a range, whatever its words are. The pairs rise.
pub fn map_load<B: Board + Drop>(
    place: &mut Option<Memory<B>>,
    range: EnvyMap,
    pairs: &[EnvyPair],
) -> Code
    requires { ForSome place.old MayHold }
    ensures { Calls (load_puts range.words (length pairs.now)) (LoadsIn range (pairs_in pairs.now)) place.old place.new (number_of result) }
{
    let words = match lend(place, Whose::New, Some(range)) {
        Ok(words) => words,
        Err(code) => return code,
    };
    if let Some(code) = misfit(words.room(), range, pairs) {
        give_back(place, words);
        return code;
    }
    let loaded = load_in(words, range, pairs);
    give_back(place, loaded.0);
    told(loaded.1)
}
