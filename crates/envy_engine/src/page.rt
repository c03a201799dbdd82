ghost use Rattle.std.specs.Prelude.{◌≡◌, ◌*◌, ◌+◌, ◌<◌, ℕ, false, IsTrue, Some, OnOk, OnErr, MatchResult, length, slice_index};
ghost use Rattle.envy_map.specs.Fields.{chart};
ghost use Rattle.envy_soundness.specs.Words.{word_at};
ghost use Rattle.envy_engine.specs.Pages.{InRange};

use envy_base::{Board, Off, PAGE_WORDS, Page, Place};
use envy_map::frame_word;

/// A word of a page that is there.
pub fn word<B: Board>(board: &B, from: Place, i: u32) -> Result<u64, Off>
    requires range { InRange (B.state board.now) from }
    requires place { i < PAGE_WORDS }
    ensures { MatchResult result
        (λ v. v ≡ word_at (chart (B.state board.now)).fields.frames (B.state board.now).flash (Some from) i)
        (λ _. (B.state board.now).on ≡ false) }
{
    match from {
        Place::Absent => Ok(0),
        Place::Row(row) => board.read(row, i),
        Place::Frame(frame) => frame_word(board, frame, i),
    }
}

/// Reads the words of a page that is there into `words`.
pub fn read_words<B: Board>(board: &B, from: Place, words: &mut Page) -> Result<(), Off>
    requires range { InRange (B.state board.now) from }
    ensures long { length words.new ≡ PAGE_WORDS }
    ensures words { OnOk result ((j : ℕ) → j < PAGE_WORDS
        → slice_index words.new j ≡ word_at (chart (B.state board.now)).fields.frames (B.state board.now).flash
        (Some from) j) }
    ensures off { OnErr result ((B.state board.now).on ≡ false) }
{
    for i in 0..32u32 {
        words[i as usize] = word(board, from, i)?;
    }
    Ok(())
}
