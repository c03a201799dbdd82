ghost use Rattle.std.specs.Prelude.{◌≡◌, ◌+◌, ◌/◌, ◌^◌, ◌<◌, length, slice_index};
ghost use Rattle.envy_base.specs.State.{Puts, Reads};
ghost use Rattle.envy_map.specs.Codes.{half_of, with_half};

use envy_base::{Board, Off};

/// An entry's half of a word.
#[tactic(auto, unfolding(crate::specs::Codes::half_of))]
fn part(word: u64, entry: u32) -> u64
    ensures { result ≡ half_of word entry }
{
    if entry % 2 == 0 {
        word % 0x1_0000_0000
    } else {
        word / 0x1_0000_0000
    }
}

/// A word with an entry's half changed.
#[tactic(auto, unfolding(crate::specs::Codes::with_half))]
fn joined(word: u64, entry: u32, value: u32) -> u64
    ensures { result ≡ with_half word entry value }
{
    let value = value as u64;
    if entry % 2 == 0 {
        word / 0x1_0000_0000 * 0x1_0000_0000 + value
    } else {
        value * 0x1_0000_0000 + word % 0x1_0000_0000
    }
}

/// Reads an entry of a region that has two to a word.
pub fn half<B: Board>(board: &B, at: u32, entry: u32) -> Result<u64, Off>
    requires room { at + entry / 2 < length (B.state board.now).sram }
    requires fits { at + entry / 2 < 2 ^ 32 }
    ensures { Reads (B.state board.now) (half_of (slice_index (B.state board.now).sram (at + entry / 2)) entry) result }
{
    let word = board.get(at + entry / 2)?;
    Ok(part(word, entry))
}

/// Writes an entry of a region that has two to a word.
pub fn set_half<B: Board>(board: &mut B, at: u32, entry: u32, value: u32) -> Result<(), Off>
    requires room { at + entry / 2 < length (B.state board.old).sram }
    requires fits { at + entry / 2 < 2 ^ 32 }
    ensures { Puts (B.state board.old) (at + entry / 2)
        (with_half (slice_index (B.state board.old).sram (at + entry / 2)) entry value) result (B.state board.new) }
{
    let word = board.get(at + entry / 2)?;
    board.put(at + entry / 2, joined(word, entry, value))
}
