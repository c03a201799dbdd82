//! Adding up words by loads.

ghost use Rattle.std.specs.Prelude.{◌≡◌, ◌+◌, ◌*◌, ◌^◌, ◌<◌, ◌≤◌, ℕ, length, slice_index};
ghost use Rattle.envy_soundness.specs.Words.{durable};
ghost use Rattle.envy_tpca.specs.Loading.{Loaded};
ghost use Rattle.envy_tpca.specs.Summing.{balances_in, history_in, Small};
ghost use Rattle.envy_tpca.specs.Trying.{Rests};

use envy_base::Bench;
use envy_memory::Memory;

/// Loads a word.
pub fn load_at<B: Bench>(memory: &mut Memory<B>, a: u32) -> u64
    requires rests { Rests (durable memory.old.chart) memory.old }
    requires within { a < length (durable memory.old.chart) }
    ensures word { result ≡ slice_index (durable memory.old.chart) a }
    ensures loaded { Loaded 1 memory.old memory.new }
{
    match memory.load(a) {
        Ok(word) => word,
        Err(_) => unreachable!(),
    }
}

/// The sum of balances that stand one after another.
pub fn sum_balances<B: Bench>(memory: &mut Memory<B>, from: u32, count: u32) -> i64
    requires rests { Rests (durable memory.old.chart) memory.old }
    requires few { from + count < 2 ^ 32 }
    requires within { from + count ≤ length (durable memory.old.chart) }
    requires small { (n : ℕ) → n ≤ count → Small (balances_in (durable memory.old.chart) from n) }
    ensures sum { result ≡ balances_in (durable memory.old.chart) from count }
    ensures loaded { Loaded count memory.old memory.new }
{
    let mut sum: i64 = 0;
    for k in 0..count {
        sum = sum.wrapping_add(load_at(memory, from + k).cast_signed());
    }
    sum
}

/// The sum of the deltas in the history.
pub fn sum_history<B: Bench>(memory: &mut Memory<B>, from: u32, count: u32) -> i64
    requires rests { Rests (durable memory.old.chart) memory.old }
    requires few { from + 4 * count < 2 ^ 32 }
    requires within { from + 4 * count ≤ length (durable memory.old.chart) }
    requires small { (n : ℕ) → n ≤ count → Small (history_in (durable memory.old.chart) from n) }
    ensures sum { result ≡ history_in (durable memory.old.chart) from count }
    ensures loaded { Loaded count memory.old memory.new }
{
    let mut sum: i64 = 0;
    for k in 0..count {
        sum = sum.wrapping_add(load_at(memory, from + 4 * k + 3).cast_signed());
    }
    sum
}
