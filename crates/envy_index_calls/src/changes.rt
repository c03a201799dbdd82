// The calls of a map that change pairs, each of which is one transaction.
ghost use Rattle.std.specs.Prelude.{◌≡◌, ◌≢◌, ◌+◌, ◌<◌, ◌≤◌, ◌^◌, ℕ, length, false, IsTrue, OnOk};
ghost use Rattle.std.specs.Option.{ForSome};
ghost use Rattle.envy_btree.specs.Answers.{insert_puts, removal_puts};
ghost use Rattle.envy_calls.specs.Codes.{number_of};
ghost use Rattle.envy_calls.specs.declared.code.Code.TheVariants.{Done};
ghost use Rattle.envy_index_calls.specs.Indexed.{Asks, HoldsSomeMap, Inserts, Removes, TellsInsert, TellsRemoval, fault_code, old_of};

use crate::pairs::EnvyOld;
use crate::words::{return_words, words_of};
use envy_base::Board;
use envy_btree::TreeFault;
use envy_calls::Code;
use envy_memory::Memory;

// The old value of a key.
pub(crate) fn old(was: Option<u64>) -> EnvyOld
    ensures { result ≡ old_of was }
{
    match was {
        Some(value) => EnvyOld { value, had: 1 },
        None => EnvyOld { value: 0, had: 0 },
    }
}

// The code of a change that wasn't made.
fn refused(fault: TreeFault) -> Code
    ensures { result ≡ fault_code fault }
{
    match fault {
        TreeFault::Off => Code::Off,
        TreeFault::Full => Code::MapFull,
        TreeFault::Bad => Code::Bad,
    }
}

// The code of an insert, with the old value where it was made.
fn told_insert(inserted: Result<Option<u64>, TreeFault>, before: &mut EnvyOld) -> Code
    ensures { TellsInsert inserted result before.old before.new }
{
    match inserted {
        Ok(was) => {
            *before = old(was);
            Code::Done
        }
        Err(fault) => refused(fault),
    }
}

// The code of a removal, with the value that the key had where it was made.
fn told_removal(removed: Result<Option<u64>, TreeFault>, value: &mut u64) -> Code
    ensures { TellsRemoval removed result value.old value.new }
{
    match removed {
        Ok(Some(word)) => {
            *value = word;
            Code::Done
        }
        Ok(None) => Code::Absent,
        Err(fault) => refused(fault),
    }
}

/// Sets the value of a key.
pub fn insert<B: Board + Drop>(
    slot: &mut Option<Memory<B>>,
    key: u64,
    value: u64,
    before: &mut EnvyOld,
) -> Code
    requires { ForSome slot.old HoldsSomeMap }
    ensures inserts { Asks insert_puts slot.old slot.new (number_of result) (Inserts key value before.new) }
    ensures unwritten { result ≢ Done → before.new ≡ before.old }
{
    let mut words = match words_of(slot) {
        Ok(words) => words,
        Err(code) => return code,
    };
    let inserted = envy_btree::insert(&mut words, key, value);
    return_words(slot, words);
    told_insert(inserted, before)
}

/// Takes a key out of the map.
pub fn remove<B: Board + Drop>(slot: &mut Option<Memory<B>>, key: u64, value: &mut u64) -> Code
    requires { ForSome slot.old HoldsSomeMap }
    ensures removes { Asks removal_puts slot.old slot.new (number_of result) (Removes key value.new) }
    ensures unwritten { result ≢ Done → value.new ≡ value.old }
{
    let mut words = match words_of(slot) {
        Ok(words) => words,
        Err(code) => return code,
    };
    let removed = envy_btree::remove(&mut words, key);
    return_words(slot, words);
    told_removal(removed, value)
}
