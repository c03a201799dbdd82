// The calls of a map that change no pair, whatever the words are.
ghost use Rattle.std.specs.Prelude.{◌≡◌, ◌≢◌, ◌+◌};
ghost use Rattle.std.specs.Option.{ForSome};
ghost use Rattle.envy_btree.specs.Nearest.{IsLeastFrom, IsGreatestTo};
ghost use Rattle.envy_calls.specs.Codes.{number_of};
ghost use Rattle.envy_calls.specs.declared.code.Code.TheVariants.{Done};
ghost use Rattle.envy_index_calls.specs.Indexed.{Counts, Finds, Gets, HoldsArray, Leaves, LeavesOrMisses, Looks, TellsCount, TellsPair, TellsValue, look_code};

use crate::pairs::EnvyPair;
use crate::words::{return_words, words_of};
use envy_base::Board;
use envy_btree::LookFault;
use envy_calls::Code;
use envy_memory::Memory;

// The code of a look-up that failed.
pub(crate) fn failed(fault: LookFault) -> Code
    ensures { result ≡ look_code fault }
{
    match fault {
        LookFault::Off => Code::Off,
        LookFault::Broken => Code::BrokenMap,
    }
}

// The code of a value that was looked for, which is written where it was found.
pub(crate) fn told_value(found: Result<Option<u64>, LookFault>, value: &mut u64) -> Code
    ensures { TellsValue found result value.old value.new }
{
    match found {
        Ok(Some(word)) => {
            *value = word;
            Code::Done
        }
        Ok(None) => Code::Absent,
        Err(fault) => failed(fault),
    }
}

// The code of a number of pairs, which is written.
pub(crate) fn told_count(counted: Result<u64, LookFault>, number: &mut u64) -> Code
    ensures { TellsCount counted result number.old number.new }
{
    match counted {
        Ok(n) => {
            *number = n;
            Code::Done
        }
        Err(fault) => failed(fault),
    }
}

// The code of a pair that was looked for, which is written where it was found.
fn told_pair(found: Result<Option<(u64, u64)>, LookFault>, pair: &mut EnvyPair) -> Code
    ensures { TellsPair found result pair.old pair.new }
{
    match found {
        Ok(Some((key, value))) => {
            *pair = EnvyPair { key, value };
            Code::Done
        }
        Ok(None) => Code::Absent,
        Err(fault) => failed(fault),
    }
}

/// The value of a key.
pub fn get<B: Board + Drop>(slot: &mut Option<Memory<B>>, key: u64, value: &mut u64) -> Code
    requires { ForSome slot.old HoldsArray }
    ensures gets { Looks LeavesOrMisses slot.old slot.new (number_of result) (Gets key value.new) }
    ensures unwritten { result ≢ Done → value.new ≡ value.old }
{
    let mut words = match words_of(slot) {
        Ok(words) => words,
        Err(code) => return code,
    };
    let found = envy_btree::get(&mut words, key);
    return_words(slot, words);
    told_value(found, value)
}

/// How many pairs there are.
pub fn count<B: Board + Drop>(slot: &mut Option<Memory<B>>, number: &mut u64) -> Code
    requires { ForSome slot.old HoldsArray }
    ensures counts { Looks Leaves slot.old slot.new (number_of result) (Counts number.new) }
    ensures unwritten { result ≢ Done → number.new ≡ number.old }
{
    let mut words = match words_of(slot) {
        Ok(words) => words,
        Err(code) => return code,
    };
    let counted = envy_btree::count(&mut words);
    return_words(slot, words);
    told_count(counted, number)
}

/// The pair with the least key that is at least `key`.
pub fn next<B: Board + Drop>(slot: &mut Option<Memory<B>>, key: u64, pair: &mut EnvyPair) -> Code
    requires { ForSome slot.old HoldsArray }
    ensures finds { Looks LeavesOrMisses slot.old slot.new (number_of result) (Finds (IsLeastFrom key) pair.new) }
    ensures unwritten { result ≢ Done → pair.new ≡ pair.old }
{
    let mut words = match words_of(slot) {
        Ok(words) => words,
        Err(code) => return code,
    };
    let found = envy_btree::next(&mut words, key);
    return_words(slot, words);
    told_pair(found, pair)
}

/// The pair with the least key above `key`.
pub fn above<B: Board + Drop>(slot: &mut Option<Memory<B>>, key: u64, pair: &mut EnvyPair) -> Code
    requires { ForSome slot.old HoldsArray }
    ensures finds { Looks LeavesOrMisses slot.old slot.new (number_of result) (Finds (IsLeastFrom (key + 1)) pair.new) }
    ensures unwritten { result ≢ Done → pair.new ≡ pair.old }
{
    let mut words = match words_of(slot) {
        Ok(words) => words,
        Err(code) => return code,
    };
    let found = envy_btree::next_above(&mut words, key);
    return_words(slot, words);
    told_pair(found, pair)
}

/// The pair with the greatest key that is at most `key`.
pub fn last<B: Board + Drop>(slot: &mut Option<Memory<B>>, key: u64, pair: &mut EnvyPair) -> Code
    requires { ForSome slot.old HoldsArray }
    ensures finds { Looks LeavesOrMisses slot.old slot.new (number_of result) (Finds (IsGreatestTo key) pair.new) }
    ensures unwritten { result ≢ Done → pair.new ≡ pair.old }
{
    let mut words = match words_of(slot) {
        Ok(words) => words,
        Err(code) => return code,
    };
    let found = envy_btree::last(&mut words, key);
    return_words(slot, words);
    told_pair(found, pair)
}
