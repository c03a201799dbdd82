//! The calls of a memory within one transaction. Each load and each put that is done counts one access.

ghost use Rattle.std.specs.Prelude.{◌≡◌, ℕ, ◌<◌, ◌+ℤ◌, ℤ, List, OnOk, length, slice_index, slice_set, FitsSigned};
ghost use Rattle.std.proofs.Common.{w64};
ghost use Rattle.envy_array.specs.Array.{page_of};
ghost use Rattle.envy_memory.specs.Picture.{Picture};
ghost use Rattle.envy_tpca.specs.Loading.{Accessed};
ghost use Rattle.envy_tpca.specs.Since.{Since};
ghost use Rattle.envy_tpca.specs.Tpc.{as_word};
ghost use Rattle.envy_tpca.specs.Trying.{Rests, Running, Widens, AfterBegin, AfterLoad, AfterPut, AfterTry};

use crate::Fault;
use envy_base::Bench;
use envy_memory::Memory;

/// Opens a slot.
pub fn open<B: Bench>(memory: &mut Memory<B>) -> Result<u8, Fault>
    ensures after { (n : ℕ) (first : Picture) (before : List ℕ) → Rests before memory.old → Since n first memory.old
        → AfterBegin n first before result memory.new }
    ensures accessed { OnOk result (Accessed 0 memory.old.parts.cache memory.new.parts.cache) }
{
    Ok(memory.begin()?)
}

/// Loads a word while the slot is open.
pub fn load_word<B: Bench>(memory: &mut Memory<B>, a: u32) -> Result<u64, Fault>
    ensures after { (n : ℕ) (first : Picture) (before now : List ℕ) (t most last : ℕ)
        → Running n first before now t most last memory.old → a < length now
        → AfterLoad n first before now t most last a result memory.new }
    ensures accessed { OnOk result (Accessed 1 memory.old.parts.cache memory.new.parts.cache) }
{
    Ok(memory.load(a)?)
}

/// Puts a word for the slot.
pub fn put_word<B: Bench>(memory: &mut Memory<B>, t: u8, a: u32, w: u64) -> Result<(), Fault>
    ensures after { (n : ℕ) (first : Picture) (before now : List ℕ) (most more last : ℕ)
        → Running n first before now t most last memory.old → a < length now
        → Widens first.chart.shape.shadows last (page_of a) most more
        → AfterPut n first before (slice_set now a w) t more (page_of a) result memory.new }
    ensures accessed { OnOk result (Accessed 1 memory.old.parts.cache memory.new.parts.cache) }
{
    Ok(memory.put(t, a, w)?)
}

/// Closes the slot, and keeps its words.
pub fn close<B: Bench>(memory: &mut Memory<B>, t: u8) -> Result<(), Fault>
    ensures after { (n : ℕ) (first : Picture) (before now : List ℕ) (most last : ℕ)
        → Running n first before now t most last memory.old → AfterTry n first before now result memory.new }
    ensures accessed { OnOk result (Accessed 0 memory.old.parts.cache memory.new.parts.cache) }
{
    Ok(memory.commit(t)?)
}

/// Adds to a balance.
pub fn add<B: Bench>(memory: &mut Memory<B>, t: u8, a: u32, delta: i64) -> Result<(), Fault>
    ensures after { (n : ℕ) (first : Picture) (before now : List ℕ) (most more last : ℕ) (x : ℤ)
        → Running n first before now t most last memory.old → a < length now
        → Widens first.chart.shape.shadows last (page_of a) most more → slice_index now a ≡ as_word x → FitsSigned w64 x
        → FitsSigned w64 (x +ℤ delta)
        → AfterPut n first before (slice_set now a (as_word (x +ℤ delta))) t more (page_of a) result memory.new }
    ensures accessed { OnOk result (Accessed 2 memory.old.parts.cache memory.new.parts.cache) }
{
    let balance = load_word(memory, a)?.cast_signed();
    put_word(memory, t, a, balance.wrapping_add(delta).cast_unsigned())
}
