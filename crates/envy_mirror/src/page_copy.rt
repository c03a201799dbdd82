ghost use Rattle.std.specs.Prelude.{◌≡◌, ◌≢◌, ◌↔◌, ◌/◌, ◌*◌, ◌<◌, ◌≤◌, ℕ, false, IsTrue, OnOk, IsErrOf, Err, slice_index, slice_set};
ghost use Rattle.envy_soundness.specs.Words.{live, durable};
ghost use Rattle.envy_memory.specs.Calls.{HasFailed, IsCut};
ghost use Rattle.envy_mirror.specs.Asking.{Reckons};
ghost use Rattle.envy_mirror.specs.Catching.{Copies};
ghost use Rattle.envy_mirror.specs.Pair.{IsClosed};

use envy_base::{Bench, MOST_ROWS, PAGE_WORDS, Trouble};
use envy_memory::{Memory, StoreFault};

/// Copies one word of a page.
fn copy_word<A: Bench, B: Bench>(
    from: &Memory<A>,
    to: &mut Memory<B>,
    a: u32,
) -> Result<(), Trouble>
    requires on { IsTrue from.now.chart.on }
    requires closed { IsClosed to.old.chart }
    requires shape { to.old.chart.shape ≡ from.now.chart.shape }
    requires within { a < PAGE_WORDS * to.old.chart.shape.pages }
    ensures closed { IsTrue to.new.chart.on → IsClosed to.new.chart }
    ensures live { OnOk result
        (live to.new.chart ≡ slice_set (live to.old.chart) a (slice_index (durable from.now.chart) a)) }
    ensures bad { IsErrOf result Trouble.Bad → live to.new.chart ≡ live to.old.chart }
    ensures failed { IsErrOf result Trouble.Bad → HasFailed to.old.chart to.new.chart }
    ensures off { (result ≡ Err Trouble.Off) ↔ (to.new.chart.on ≡ false) }
    ensures cut { IsCut to.old.chart to.new.chart }
    ensures reckons { Reckons to.old to.new }
{
    let Ok(word) = from.look(a) else {
        unreachable!()
    };
    match to.store(a, word) {
        Ok(()) => Ok(()),
        Err(StoreFault::Off) => Err(Trouble::Off),
        Err(StoreFault::Bad) => Err(Trouble::Bad),
        Err(StoreFault::Range) => unreachable!(),
        Err(StoreFault::Held(_)) => unreachable!(),
    }
}

/// Copies the words of a page that a restart of one side would leave, where no slot of the other is open.
pub fn copy_page<A: Bench, B: Bench>(
    from: &Memory<A>,
    to: &mut Memory<B>,
    page: u32,
) -> Result<(), Trouble>
    requires on { IsTrue from.now.chart.on }
    requires closed { IsClosed to.old.chart }
    requires shape { to.old.chart.shape ≡ from.now.chart.shape }
    requires within { page < to.old.chart.shape.pages }
    requires few { to.old.chart.shape.pages ≤ MOST_ROWS }
    ensures closed { IsTrue to.new.chart.on → IsClosed to.new.chart }
    ensures copies { OnOk result (Copies page from.now.chart to.old.chart to.new.chart) }
    ensures others { IsErrOf result Trouble.Bad → (a : ℕ) → a / PAGE_WORDS ≢ page
        → slice_index (live to.new.chart) a ≡ slice_index (live to.old.chart) a }
    ensures failed { IsErrOf result Trouble.Bad → HasFailed to.old.chart to.new.chart }
    ensures off { (result ≡ Err Trouble.Off) ↔ (to.new.chart.on ≡ false) }
    ensures cut { IsCut to.old.chart to.new.chart }
    ensures reckons { Reckons to.old to.new }
{
    for i in 0..PAGE_WORDS {
        copy_word(from, to, PAGE_WORDS * page + i)?;
    }
    Ok(())
}
