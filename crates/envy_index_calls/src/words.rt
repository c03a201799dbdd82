// A memory as the words of a map.
ghost use Rattle.std.specs.Prelude.{◌≡◌, ◌≢◌, Some, None, Ok, Err, IsTrue, false, MatchOption, MatchResult};
ghost use Rattle.std.specs.Option.{ForSome};
ghost use Rattle.envy_index_calls.specs.Indexed.{Declines, HoldsArray, IsShut, Lends, MayServe};
ghost use Rattle.envy_memory.specs.Sheets.{sheet_of};

use envy_base::{Board, Off};
use envy_calls::Code;
use envy_memory::{Memory, OneTx};

// A map needs so many pages, and its changes so many shadows.
const LEAST_PAGES: u32 = 20;

/// A map in changes needs so many shadows.
pub(crate) const LEAST_SHADOWS: u32 = 32;

/// The most pages of an array that holds a map: no key is more than seven nodes deep in it.
pub const MOST_MAP_PAGES: u32 = 1 << 24;

// Why the calls of a map aren't made of a memory, if that is so.
fn refusal<B: Board>(memory: &mut Memory<B>) -> Option<Code>
    requires { HoldsArray memory.old }
    ensures reason { MatchOption result (MayServe memory.old) (Declines memory.old) }
    ensures same { memory.new ≡ memory.old }
{
    let shape = memory.board().shape();
    if shape.pages < LEAST_PAGES || shape.pages > MOST_MAP_PAGES || shape.shadows < LEAST_SHADOWS {
        return Some(Code::MapSetup);
    }
    match memory.has_open_slot(0) {
        Ok(false) => None,
        Ok(true) => Some(Code::SlotOpen),
        Err(Off) => unreachable!(),
    }
}

/// Takes the memory out of a place, as words with one transaction at a time.
///
/// # Errors
///
/// `Empty`; `MapSetup`, where no map fits; `SlotOpen`. The place is as before then.
#[inline(always)]
pub fn words_of<B: Board + Drop>(slot: &mut Option<Memory<B>>) -> Result<OneTx<B>, Code>
    requires { ForSome slot.old HoldsArray }
    ensures lends { MatchResult result (λ words. Lends slot.old slot.new (Ok (words.memory, words.begun))) (λ code.
        Lends slot.old slot.new (Err code)) }
{
    let Some(mut memory) = slot.take() else {
        return Err(Code::Empty);
    };
    if let Some(code) = refusal(&mut memory) {
        *slot = Some(memory);
        return Err(code);
    }
    Ok(OneTx::new(memory))
}

/// Puts the memory back into its place.
#[inline(always)]
pub fn return_words<B: Board + Drop>(slot: &mut Option<Memory<B>>, words: OneTx<B>)
    ensures back { slot.new ≡ Some words.memory }
    ensures shut { IsTrue words.memory.chart.on → (sheet_of words.memory words.begun).started ≡ false
        → IsShut words.memory }
{
    *slot = Some(words.into_memory());
}
