// The calls of a memory, whatever it stands over.
ghost use Rattle.std.specs.Prelude.{◌≡◌};
ghost use Rattle.envy_calls.specs.Answers.{DoesLoad, DoesLook, DoesStore, DoesBegin, DoesPut, DoesCommit, DoesAbort, DoesTick, DoesCount};
ghost use Rattle.envy_calls.specs.Reserves.{DoesWear};
ghost use Rattle.envy_openings.specs.Faultless.{AreFaultless};
ghost use Rattle.envy_places.specs.Places.{AreAlike, held};
ghost use denote.RawPtr.{InBlock};

use crate::handle::{Envy, give_back, lend};
use envy_calls::EnvyCounts;
use envy_places::{abort, begin, commit, counts, load, look, put, store, tick, worn};

/// The word at an address, also where a transaction that is still open put it.
#[unsafe(no_mangle)]
pub extern "C" fn envy_load(m: &mut Envy, a: u32, word: &mut u64) -> u32
    requires { InBlock m.old.at }
    ensures live { InBlock m.new.at }
    ensures faultless { AreFaultless m.old.place.now m.new.place.now }
    ensures alike { AreAlike m.old.place.now m.new.place.now }
    ensures loads { DoesLoad (held m.old.place.now) (held m.new.place.now) a result word.old word.new }
{
    let place = lend(m);
    let code = load(place, a, word);
    give_back(m, place);
    code
}

/// The committed word at an address, which a restart would leave.
#[unsafe(no_mangle)]
pub extern "C" fn envy_look(m: &mut Envy, a: u32, word: &mut u64) -> u32
    requires { InBlock m.old.at }
    ensures live { InBlock m.new.at }
    ensures faultless { AreFaultless m.old.place.now m.new.place.now }
    ensures alike { AreAlike m.old.place.now m.new.place.now }
    ensures looks { DoesLook (held m.old.place.now) (held m.new.place.now) a result word.old word.new }
{
    let place = lend(m);
    let code = look(place, a, word);
    give_back(m, place);
    code
}

/// Makes the word at an address this.
#[unsafe(no_mangle)]
pub extern "C" fn envy_store(m: &mut Envy, a: u32, word: u64, holder: &mut u32) -> u32
    requires { InBlock m.old.at }
    ensures live { InBlock m.new.at }
    ensures faultless { AreFaultless m.old.place.now m.new.place.now }
    ensures alike { AreAlike m.old.place.now m.new.place.now }
    ensures stores { DoesStore (held m.old.place.now) (held m.new.place.now) a word result holder.old holder.new }
{
    let place = lend(m);
    let code = store(place, a, word, holder);
    give_back(m, place);
    code
}

/// Opens the lowest slot that isn't open.
#[unsafe(no_mangle)]
pub extern "C" fn envy_begin(m: &mut Envy, opened: &mut u32) -> u32
    requires { InBlock m.old.at }
    ensures live { InBlock m.new.at }
    ensures faultless { AreFaultless m.old.place.now m.new.place.now }
    ensures alike { AreAlike m.old.place.now m.new.place.now }
    ensures begins { DoesBegin (held m.old.place.now) (held m.new.place.now) result opened.old opened.new }
{
    let place = lend(m);
    let code = begin(place, opened);
    give_back(m, place);
    code
}

/// Makes the word at an address this within a transaction.
#[unsafe(no_mangle)]
pub extern "C" fn envy_put(m: &mut Envy, t: u32, a: u32, word: u64, holder: &mut u32) -> u32
    requires { InBlock m.old.at }
    ensures live { InBlock m.new.at }
    ensures faultless { AreFaultless m.old.place.now m.new.place.now }
    ensures alike { AreAlike m.old.place.now m.new.place.now }
    ensures puts { DoesPut (held m.old.place.now) (held m.new.place.now) t a word result holder.old holder.new }
{
    let place = lend(m);
    let code = put(place, t, a, word, holder);
    give_back(m, place);
    code
}

/// Closes a slot, and keeps its words.
#[unsafe(no_mangle)]
pub extern "C" fn envy_commit(m: &mut Envy, t: u32) -> u32
    requires { InBlock m.old.at }
    ensures live { InBlock m.new.at }
    ensures faultless { AreFaultless m.old.place.now m.new.place.now }
    ensures alike { AreAlike m.old.place.now m.new.place.now }
    ensures commits { DoesCommit (held m.old.place.now) (held m.new.place.now) t result }
{
    let place = lend(m);
    let code = commit(place, t);
    give_back(m, place);
    code
}

/// Closes a slot, and puts back the words of its pages.
#[unsafe(no_mangle)]
pub extern "C" fn envy_abort(m: &mut Envy, t: u32) -> u32
    requires { InBlock m.old.at }
    ensures live { InBlock m.new.at }
    ensures faultless { AreFaultless m.old.place.now m.new.place.now }
    ensures alike { AreAlike m.old.place.now m.new.place.now }
    ensures aborts { DoesAbort (held m.old.place.now) (held m.new.place.now) t result }
{
    let place = lend(m);
    let code = abort(place, t);
    give_back(m, place);
    code
}

/// One background step.
#[unsafe(no_mangle)]
pub extern "C" fn envy_tick(m: &mut Envy, did: &mut u32) -> u32
    requires { InBlock m.old.at }
    ensures live { InBlock m.new.at }
    ensures faultless { AreFaultless m.old.place.now m.new.place.now }
    ensures alike { AreAlike m.old.place.now m.new.place.now }
    ensures ticks { DoesTick (held m.old.place.now) (held m.new.place.now) result did.old did.new }
{
    let place = lend(m);
    let code = tick(place, did);
    give_back(m, place);
    code
}

/// What the memory has done since it was formatted or taken up.
#[unsafe(no_mangle)]
pub extern "C" fn envy_counters(m: &mut Envy, found: &mut EnvyCounts) -> u32
    requires { InBlock m.old.at }
    ensures live { InBlock m.new.at }
    ensures faultless { AreFaultless m.old.place.now m.new.place.now }
    ensures same { m.new.place.now ≡ m.old.place.now }
    ensures counts { DoesCount (held m.old.place.now) result found.old found.new }
{
    let place = lend(m);
    let code = counts(place, found);
    give_back(m, place);
    code
}

/// How many segments in reserve are retired, and how many are left: none exactly if the next bad erase of the spare is told.
#[unsafe(no_mangle)]
pub extern "C" fn envy_worn(m: &mut Envy, retired: &mut u32, left: &mut u32) -> u32
    requires { InBlock m.old.at }
    ensures live { InBlock m.new.at }
    ensures faultless { AreFaultless m.old.place.now m.new.place.now }
    ensures same { m.new.place.now ≡ m.old.place.now }
    ensures wears { DoesWear (held m.old.place.now) retired.old left.old result retired.new left.new }
{
    let place = lend(m);
    let code = worn(place, retired, left);
    give_back(m, place);
    code
}
