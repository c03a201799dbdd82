// The calls of a map that scan it, whatever the words are.
ghost use Rattle.std.specs.Prelude.{◌≡◌, ◌≢◌, ◌≤◌, length, drop};
ghost use Rattle.std.specs.Option.{ForSome};
ghost use Rattle.envy_btree.specs.Nearest.{pairs_from, pairs_to};
ghost use Rattle.envy_calls.specs.Codes.{number_of};
ghost use Rattle.envy_calls.specs.declared.code.Code.TheVariants.{Done};
ghost use Rattle.envy_index_calls.specs.Indexed.{HoldsArray, Leaves, Looks, Scans, TellsCount};
ghost use Rattle.envy_index_calls.specs.Scanned.{pairs_in};

use crate::lookups::failed;
use crate::pair_buffer::fill;
use crate::pairs::EnvyPair;
use crate::words::{return_words, words_of};
use envy_base::Board;
use envy_btree::{LookFault, Way};
use envy_calls::Code;
use envy_memory::Memory;

// The code of a scan, with the number of its pairs.
pub(crate) fn told(filled: Result<usize, LookFault>, count: &mut usize) -> Code
    ensures { TellsCount filled result count.old count.new }
{
    match filled {
        Ok(n) => {
            *count = n;
            Code::Done
        }
        Err(fault) => failed(fault),
    }
}

/// Writes the pairs from a key on, by rising key, into `out`, and how many there are: as many as it has room for, or
/// all. The rest of `out` stays. After another answer than `Done` nothing is said of it.
pub fn scan<B: Board + Drop>(
    slot: &mut Option<Memory<B>>,
    key: u64,
    out: &mut [EnvyPair],
    count: &mut usize,
) -> Code
    requires { ForSome slot.old HoldsArray }
    ensures scans { Looks Leaves slot.old slot.new (number_of result) (Scans (pairs_from key) out.old out.new count.new) }
    ensures few { result ≡ Done → count.new ≤ length out.old }
    ensures rest { result ≡ Done → drop count.new (pairs_in out.new) ≡ drop count.new (pairs_in out.old) }
    ensures unwritten { result ≢ Done → count.new ≡ count.old }
{
    let mut words = match words_of(slot) {
        Ok(words) => words,
        Err(code) => return code,
    };
    let filled = fill(&mut words, Way::Up, key, out);
    return_words(slot, words);
    told(filled, count)
}

/// The same of the pairs up to a key, by falling key.
pub fn scan_down<B: Board + Drop>(
    slot: &mut Option<Memory<B>>,
    key: u64,
    out: &mut [EnvyPair],
    count: &mut usize,
) -> Code
    requires { ForSome slot.old HoldsArray }
    ensures scans { Looks Leaves slot.old slot.new (number_of result) (Scans (pairs_to key) out.old out.new count.new) }
    ensures few { result ≡ Done → count.new ≤ length out.old }
    ensures rest { result ≡ Done → drop count.new (pairs_in out.new) ≡ drop count.new (pairs_in out.old) }
    ensures unwritten { result ≢ Done → count.new ≡ count.old }
{
    let mut words = match words_of(slot) {
        Ok(words) => words,
        Err(code) => return code,
    };
    let filled = fill(&mut words, Way::Down, key, out);
    return_words(slot, words);
    told(filled, count)
}
