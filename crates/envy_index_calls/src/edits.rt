// Changes of maps in ranges, within a transaction.
ghost use Rattle.std.specs.Prelude.{◌≡◌, ◌≢◌};
ghost use Rattle.std.specs.Option.{ForSome};
ghost use Rattle.envy_btree.specs.Depths.{dropping_puts, insertion_puts};
ghost use Rattle.envy_calls.specs.Codes.{number_of};
ghost use Rattle.envy_calls.specs.declared.code.Code.TheVariants.{Done};
ghost use Rattle.envy_index_calls.specs.Attempts.{change_code};
ghost use Rattle.envy_index_calls.specs.Indexed.{creation_puts, old_of};
ghost use Rattle.envy_index_calls.specs.Ranged.{Calls, Changed, CreatesIn, Drops, HoldsMapIn, Sets, TellsDrop, TellsMade, TellsSet};
ghost use Rattle.envy_index_calls.specs.Ranges.{MayHold};

use crate::attempts::{create_in, insert_in, remove_in};
use crate::changes::old;
use crate::pairs::EnvyOld;
use crate::ranges::{EnvyMap, Whose, give_back, lend};
use envy_base::Board;
use envy_btree::ChangeFault;
use envy_calls::Code;
use envy_memory::Memory;

// The code of a change that wasn't made.
fn refused(fault: ChangeFault) -> Code
    ensures { result ≡ change_code fault }
{
    match fault {
        ChangeFault::Off => Code::Off,
        ChangeFault::Full => Code::MapFull,
        ChangeFault::Room => Code::Full,
        ChangeFault::Bad => Code::BadAborted,
    }
}

// The code of an insert, with the old value where it was made.
fn told_insert(inserted: Result<Option<u64>, ChangeFault>, before: &mut EnvyOld) -> Code
    ensures { TellsSet inserted result before.old before.new }
{
    match inserted {
        Ok(was) => {
            *before = old(was);
            Code::Done
        }
        Err(fault) => refused(fault),
    }
}

// The code of a removal, with the value that the key had where it was made.
fn told_removal(removed: Result<Option<u64>, ChangeFault>, value: &mut u64) -> Code
    ensures { TellsDrop removed result value.old value.new }
{
    match removed {
        Ok(Some(word)) => {
            *value = word;
            Code::Done
        }
        Ok(None) => Code::Absent,
        Err(fault) => refused(fault),
    }
}

// The code of a map that was made.
fn told_made(made: Result<(), ChangeFault>) -> Code
    ensures { TellsMade made result }
{
    match made {
        Ok(()) => Code::Done,
        Err(fault) => refused(fault),
    }
}

/// Makes a map of no pairs in a range, whatever its words are, and marks it.
pub fn map_create<B: Board + Drop>(place: &mut Option<Memory<B>>, slot: u32, range: EnvyMap) -> Code
    requires { ForSome place.old MayHold }
    ensures { Calls creation_puts (CreatesIn slot range) place.old place.new (number_of result) }
{
    let words = match lend(place, Whose::Slot(slot), Some(range)) {
        Ok(words) => words,
        Err(code) => return code,
    };
    let left = words.left();
    let tried = create_in(words, range, left);
    give_back(place, tried.0);
    told_made(tried.1)
}

/// Sets the value of a key of the map in a range.
pub fn map_insert<B: Board + Drop>(
    place: &mut Option<Memory<B>>,
    slot: u32,
    range: EnvyMap,
    key: u64,
    value: u64,
    before: &mut EnvyOld,
) -> Code
    requires { ForSome place.old (HoldsMapIn range) }
    ensures inserts { Calls (insertion_puts range.words) (Changed slot range (Sets key value before.new range)) place.old place.new (number_of result) }
    ensures unwritten { result ≢ Done → before.new ≡ before.old }
{
    let words = match lend(place, Whose::Slot(slot), Some(range)) {
        Ok(words) => words,
        Err(code) => return code,
    };
    let left = words.left();
    let tried = insert_in(words, range, key, value, left);
    give_back(place, tried.0);
    told_insert(tried.1, before)
}

/// Takes a key out of the map in a range.
pub fn map_remove<B: Board + Drop>(
    place: &mut Option<Memory<B>>,
    slot: u32,
    range: EnvyMap,
    key: u64,
    value: &mut u64,
) -> Code
    requires { ForSome place.old (HoldsMapIn range) }
    ensures removes { Calls (dropping_puts range.words) (Changed slot range (Drops key value.new range)) place.old place.new (number_of result) }
    ensures unwritten { result ≢ Done → value.new ≡ value.old }
{
    let words = match lend(place, Whose::Slot(slot), Some(range)) {
        Ok(words) => words,
        Err(code) => return code,
    };
    let left = words.left();
    let tried = remove_in(words, range, key, left);
    give_back(place, tried.0);
    told_removal(tried.1, value)
}
