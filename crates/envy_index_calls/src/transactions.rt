// Transactions of several maps, in the first slot.
ghost use Rattle.std.specs.Prelude.{◌≡◌, ◌≢◌};
ghost use Rattle.std.specs.Option.{ForSome};
ghost use Rattle.envy_calls.specs.Codes.{number_of};
ghost use Rattle.envy_calls.specs.declared.code.Code.TheVariants.{Done};
ghost use Rattle.envy_index_calls.specs.Ranged.{Aborts, Calls, Commits, Starts, TellsBegun, end_code};
ghost use Rattle.envy_index_calls.specs.Ranges.{MayHold};

use crate::ranges::{Whose, give_back, lend};
use envy_array::Words;
use envy_base::{Board, Off};
use envy_calls::Code;
use envy_memory::Memory;

// The code of a transaction that was begun or ended.
fn told(done: Result<(), Off>) -> Code
    ensures { result ≡ end_code done }
{
    match done {
        Ok(()) => Code::Done,
        Err(Off) => Code::Off,
    }
}

// The same of one that was begun, with its slot.
fn told_begun(begun: Result<(), Off>, slot: &mut u32) -> Code
    ensures { TellsBegun begun result slot.old slot.new }
{
    match begun {
        Ok(()) => {
            *slot = 0;
            Code::Done
        }
        Err(Off) => Code::Off,
    }
}

/// Begins a transaction of maps, and answers its slot, which is the first. No slot may be open.
pub fn map_begin<B: Board + Drop>(place: &mut Option<Memory<B>>, slot: &mut u32) -> Code
    requires { ForSome place.old MayHold }
    ensures starts { Calls 1 Starts place.old place.new (number_of result) }
    ensures first { result ≡ Done → slot.new ≡ 0 }
    ensures unwritten { result ≢ Done → slot.new ≡ slot.old }
{
    let mut words = match lend(place, Whose::New, None) {
        Ok(words) => words,
        Err(code) => return code,
    };
    let begun = words.start();
    give_back(place, words);
    told_begun(begun, slot)
}

/// Keeps what the transaction put, and closes its slot.
pub fn map_commit<B: Board + Drop>(place: &mut Option<Memory<B>>, slot: u32) -> Code
    requires { ForSome place.old MayHold }
    ensures { Calls 0 (Commits slot) place.old place.new (number_of result) }
{
    let mut words = match lend(place, Whose::Slot(slot), None) {
        Ok(words) => words,
        Err(code) => return code,
    };
    let ended = words.finish();
    give_back(place, words);
    told(ended)
}

/// Takes back what the transaction put, and closes its slot.
pub fn map_abort<B: Board + Drop>(place: &mut Option<Memory<B>>, slot: u32) -> Code
    requires { ForSome place.old MayHold }
    ensures { Calls 0 (Aborts slot) place.old place.new (number_of result) }
{
    let mut words = match lend(place, Whose::Slot(slot), None) {
        Ok(words) => words,
        Err(code) => return code,
    };
    let ended = words.undo();
    give_back(place, words);
    told(ended)
}
