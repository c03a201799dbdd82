ghost use Rattle.std.specs.Prelude.{◌≡◌, ◌+◌, ◌<◌, ◌≤◌};
ghost use Rattle.std.specs.Int.{bit_at};
ghost use Rattle.envy_space.specs.Bits.{IsTurned};
ghost use Rattle.envy_space.specs.Winners.{IsLowest, IsHighest, Lowest, Highest};

/// A bit of a word.
pub fn bit(word: u64, i: u32) -> u32
    requires { i < 64 }
    ensures value { result ≡ bit_at word i }
    ensures fits { result ≤ 1 }
{
    ((word >> i) & 1) as u32
}

/// The word with one of its bits turned.
pub fn turned(word: u64, i: u32) -> u64
    requires { i < 64 }
    ensures { IsTurned word i result }
{
    word ^ (1 << i)
}

/// The lowest bit that is set in a word that has one.
pub fn lowest_of(word: u64) -> u32
    requires { 0 < word }
    ensures { IsLowest (bit_at word) 0 64 result }
{
    word.trailing_zeros()
}

/// The highest bit that is set in a word that has one.
pub fn highest_of(word: u64) -> u32
    requires { 0 < word }
    ensures { IsHighest (bit_at word) 0 64 result }
{
    word.ilog2()
}

/// The lowest bit of a word that is set, from bit `from` on.
pub fn lowest_from(word: u64, from: u32) -> Option<u32>
    requires { from < 64 }
    ensures { Lowest (bit_at word) from 64 result }
{
    let rest = word >> from;
    if rest == 0 {
        None
    } else {
        Some(from + lowest_of(rest))
    }
}

/// The highest bit of a word that is set, up to bit `to`.
pub fn highest_to(word: u64, to: u32) -> Option<u32>
    requires { to < 64 }
    ensures { Highest (bit_at word) 0 (to + 1) result }
{
    let rest = word & (u64::MAX >> (63 - to));
    if rest == 0 {
        None
    } else {
        Some(highest_of(rest))
    }
}
