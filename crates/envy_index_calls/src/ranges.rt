// Ranges of the array in which maps lie, and the memory lent for calls of them.
ghost use Rattle.std.specs.Prelude.{◌≡◌, ◌↔◌, ◌*◌, ◌<◌, IsTrue, Some, None, Ok, Err, MatchOption, MatchResult, false, IfSome};
ghost use Rattle.std.specs.Option.{ForSome};
ghost use Rattle.envy_base.specs.declared.page.TheConstants.{PAGE_WORDS};
ghost use Rattle.envy_memory.specs.Sheets.{IsHeld, sheet_of};
ghost use Rattle.envy_memory.specs.Opened.{HasOpenFrom};
ghost use Rattle.envy_index_calls.specs.Indexed.{IsShut};
ghost use Rattle.envy_index_calls.specs.Ranges.{Denies, HasFirst, IsAnothers, IsItsOwn, IsOpen, IsPast, IsRange, LendsFor, MayHold, MayWork, first_barred};

use crate::words::MOST_MAP_PAGES;
use envy_base::{Board, PAGE_WORDS, Slot};
use envy_calls::Code;
use envy_map::slot;
use envy_memory::{Memory, OneTx};

// A map needs so many words.
const LEAST_MAP_WORDS: u32 = 640;

/// A range of the array, in which a map lies: so many words from an address on, both multiples of 32.
#[repr(C)]
#[derive(Clone, Copy)]
pub struct EnvyMap {
    pub first: u32,
    pub words: u32,
}

/// Of which transaction a call is.
#[derive(Clone, Copy)]
pub enum Whose {
    /// A new one: no slot is open yet.
    New,
    /// The open one, in this slot.
    Slot(u32),
    /// The open one, if one is.
    Any,
}

// Whether a map may lie in a range of an array of so many pages.
fn is_range(range: EnvyMap, pages: u32) -> bool
    ensures { IsTrue result ↔ IsRange range (PAGE_WORDS * pages) }
{
    range.first % PAGE_WORDS == 0
        && range.words % PAGE_WORDS == 0
        && range.words >= LEAST_MAP_WORDS
        && range.words / PAGE_WORDS <= MOST_MAP_PAGES
        && range.first / PAGE_WORDS + range.words / PAGE_WORDS <= pages
}

// Whether the first slot is open.
fn has_first<B: Board>(memory: &Memory<B>) -> bool
    requires { IsTrue memory.now.chart.on }
    ensures { HasFirst memory.now.chart result }
{
    matches!(slot(memory.board(), 0), Ok(Slot::Active))
}

// The first slot that is to be closed for a call of a transaction.
fn first_barred(whose: Whose) -> u8
    ensures number { result ≡ first_barred whose }
    ensures few { result < 64 }
{
    match whose {
        Whose::New => 0,
        Whose::Slot(_) | Whose::Any => 1,
    }
}

// Whether the slot of a call is that of the open transaction, if it is one of an open transaction.
fn has_own<B: Board>(memory: &Memory<B>, whose: Whose) -> bool
    requires { IsTrue memory.now.chart.on }
    ensures own { IsTrue result → IsItsOwn whose memory.now.chart }
    ensures other { result ≡ false → IsAnothers whose memory.now.chart }
{
    match whose {
        Whose::Slot(t) => t == 0 && has_first(memory),
        Whose::New | Whose::Any => true,
    }
}

// Whether a map may lie in the range of a call, if it has one.
fn has_range<B: Board>(memory: &Memory<B>, range: Option<EnvyMap>) -> bool
    ensures fits { IsTrue result → IfSome range (λ r. IsRange r (PAGE_WORDS * memory.now.chart.shape.pages)) }
    ensures past { result ≡ false → IsPast range (PAGE_WORDS * memory.now.chart.shape.pages) }
{
    match range {
        Some(range) => is_range(range, memory.board().shape().pages),
        None => true,
    }
}

// Why a call isn't made of a memory, if that is so.
fn denial<B: Board>(memory: &mut Memory<B>, whose: Whose, range: Option<EnvyMap>) -> Option<Code>
    requires { MayHold memory.old }
    ensures reason { MatchOption result (MayWork whose range memory.old) (Denies whose range memory.old) }
    ensures same { memory.new ≡ memory.old }
{
    if !memory.powered() {
        return Some(Code::Off);
    }
    match memory.has_open_slot(first_barred(whose)) {
        Ok(false) => {}
        Ok(true) => return Some(Code::SlotOpen),
        Err(_) => return Some(Code::Off),
    }
    if !has_own(memory, whose) {
        return Some(Code::Closed);
    }
    if !has_range(memory, range) {
        return Some(Code::Range);
    }
    None
}

// A memory of which no slot but the first is open, as words with one transaction, which goes on if it is open.
fn taken<B: Board>(memory: Memory<B>) -> OneTx<B>
    requires array { MayHold memory }
    requires on { IsTrue memory.chart.on }
    requires alone { HasOpenFrom 1 memory.chart false }
    ensures same { result.memory ≡ memory }
    ensures first { HasFirst memory.chart result.begun }
    ensures held { ∥ IsHeld memory.chart result.begun ∥₁ }
{
    memory.invariant_holds();
    if has_first(&memory) {
        OneTx::resume(memory)
    } else {
        OneTx::new(memory)
    }
}

/// Takes the memory out of a place, as words with one transaction at a time, which goes on if it is open: for a call
/// of a transaction, and of a range if it is one of a map.
///
/// # Errors
///
/// `Empty`; then `Off`; `SlotOpen`, if another slot is open than that of the transaction; `Closed`, if its slot isn't
/// the open first one; `Range`. The place is as before then.
#[inline(always)]
pub fn lend<B: Board + Drop>(
    place: &mut Option<Memory<B>>,
    whose: Whose,
    range: Option<EnvyMap>,
) -> Result<OneTx<B>, Code>
    requires { ForSome place.old MayHold }
    ensures { MatchResult result (λ words. LendsFor whose range place.old place.new (Ok (words.memory, words.begun))) (λ code.
        LendsFor whose range place.old place.new (Err code)) }
{
    let Some(mut memory) = place.take() else {
        return Err(Code::Empty);
    };
    if let Some(code) = denial(&mut memory, whose, range) {
        *place = Some(memory);
        return Err(code);
    }
    Ok(taken(memory))
}

/// Puts the memory back into its place.
#[inline(always)]
pub fn give_back<B: Board + Drop>(place: &mut Option<Memory<B>>, words: OneTx<B>)
    ensures back { place.new ≡ Some words.memory }
    ensures opened { IsTrue (sheet_of words.memory words.begun).started → IsOpen words.memory }
    ensures shut { IsTrue words.memory.chart.on → (sheet_of words.memory words.begun).started ≡ false
        → IsShut words.memory }
{
    *place = Some(words.into_memory());
}
