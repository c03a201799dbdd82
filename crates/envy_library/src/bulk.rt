// Several words in one call, and what a transaction sees.
ghost use Rattle.envy_calls.specs.Bulk.{DoesRead, DoesStoreRun, DoesWrite};
ghost use Rattle.envy_calls.specs.Views.{DoesView};
ghost use Rattle.envy_openings.specs.Faultless.{AreFaultless};
ghost use Rattle.envy_places.specs.Places.{AreAlike, held};
ghost use denote.RawPtr.{InBlock};

use crate::handle::{Envy, give_back, lend};
use envy_places::{read, store_run, view, write};

/// So many words from an address on, also where an open transaction put them.
#[unsafe(no_mangle)]
pub extern "C" fn envy_read(m: &mut Envy, a: u32, words: &mut [u64]) -> u32
    requires { InBlock m.old.at }
    ensures live { InBlock m.new.at }
    ensures faultless { AreFaultless m.old.place.now m.new.place.now }
    ensures alike { AreAlike m.old.place.now m.new.place.now }
    ensures reads { DoesRead (held m.old.place.now) (held m.new.place.now) a result words.old words.new }
{
    let place = lend(m);
    let code = read(place, a, words);
    give_back(m, place);
    code
}

/// Makes so many words from an address on these, outside any transaction.
#[unsafe(no_mangle)]
pub extern "C" fn envy_store_run(
    m: &mut Envy,
    a: u32,
    words: &[u64],
    done: &mut usize,
    holder: &mut u32,
) -> u32
    requires { InBlock m.old.at }
    ensures live { InBlock m.new.at }
    ensures faultless { AreFaultless m.old.place.now m.new.place.now }
    ensures alike { AreAlike m.old.place.now m.new.place.now }
    ensures stores { DoesStoreRun (held m.old.place.now) (held m.new.place.now) a words.now result done.new holder.old holder.new }
{
    let place = lend(m);
    let code = store_run(place, a, words, done, holder);
    give_back(m, place);
    code
}

/// Makes so many words from an address on these within a transaction.
#[unsafe(no_mangle)]
pub extern "C" fn envy_write(
    m: &mut Envy,
    t: u32,
    a: u32,
    words: &[u64],
    done: &mut usize,
    holder: &mut u32,
) -> u32
    requires { InBlock m.old.at }
    ensures live { InBlock m.new.at }
    ensures faultless { AreFaultless m.old.place.now m.new.place.now }
    ensures alike { AreAlike m.old.place.now m.new.place.now }
    ensures writes { DoesWrite (held m.old.place.now) (held m.new.place.now) t a words.now result done.new holder.old holder.new }
{
    let place = lend(m);
    let code = write(place, t, a, words, done, holder);
    give_back(m, place);
    code
}

/// The word at an address as a transaction sees it.
#[unsafe(no_mangle)]
pub extern "C" fn envy_view(m: &mut Envy, t: u32, a: u32, word: &mut u64) -> u32
    requires { InBlock m.old.at }
    ensures live { InBlock m.new.at }
    ensures faultless { AreFaultless m.old.place.now m.new.place.now }
    ensures alike { AreAlike m.old.place.now m.new.place.now }
    ensures views { DoesView (held m.old.place.now) (held m.new.place.now) t a result word.old word.new }
{
    let place = lend(m);
    let code = view(place, t, a, word);
    give_back(m, place);
    code
}
