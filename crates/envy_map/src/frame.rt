ghost use Rattle.std.specs.Prelude.{◌≡◌, ℕ, ◌+◌, ◌*◌, ◌<◌, ◌≤◌, IsTrue, OnOk, OnErr, slice_index};
ghost use Rattle.envy_base.specs.Map.{frames_at};
ghost use Rattle.envy_base.specs.Shape.{IsShape};
ghost use Rattle.envy_base.specs.State.{Puts, Reads};
ghost use Rattle.envy_map.specs.Fields.{chart, with_fields};
ghost use Rattle.envy_map.specs.Writes.{Stopped, Writes, with_frame, with_frame_word};

use crate::region::frame_start;
use envy_base::{Board, Off, PAGE_WORDS, Page, Shape};

// No map has so many words. The compiler, which is told no bound, sees by it that a frame's words lie side by side.
const WORDS_MASK: u32 = 0x7fff_ffff;

/// The first word of a frame. The mask takes nothing from it.
#[inline(always)]
fn first_word(shape: &Shape, frame: u32) -> u32
    requires shape { IsShape shape.now }
    requires frame { frame < shape.now.frames }
    ensures { result ≡ frames_at shape.now + PAGE_WORDS * frame }
{
    (frame_start(shape) + PAGE_WORDS * frame) & WORDS_MASK
}

/// Word `i`, of 32, of a frame.
pub fn frame_word<B: Board>(board: &B, frame: u32, i: u32) -> Result<u64, Off>
    requires frame { frame < (B.state board.now).shape.frames }
    requires place { i < PAGE_WORDS }
    ensures { Reads (B.state board.now) (slice_index (chart (B.state board.now)).fields.frames (PAGE_WORDS * frame + i))
        result }
{
    let first = first_word(&board.shape(), frame);
    board.get(first + i)
}

/// Writes word `i`, of 32, of a frame that begins at word `first` of SRAM.
fn put_frame_word<B: Board>(
    board: &mut B,
    first: u32,
    frame: u32,
    i: u32,
    word: u64,
) -> Result<(), Off>
    requires first { first ≡ frames_at (B.state board.old).shape + PAGE_WORDS * frame }
    requires frame { frame < (B.state board.old).shape.frames }
    requires place { i < PAGE_WORDS }
    ensures writes { Writes (with_frame_word frame i word) (chart (B.state board.old)) result
        (chart (B.state board.new)) }
    ensures put { Puts (B.state board.old) (frames_at (B.state board.old).shape + (PAGE_WORDS * frame + i)) word result
        (B.state board.new) }
{
    board.put(first + i, word)
}

/// Writes word `i`, of 32, of a frame.
#[inline(always)]
pub fn set_frame_word<B: Board>(board: &mut B, frame: u32, i: u32, word: u64) -> Result<(), Off>
    requires frame { frame < (B.state board.old).shape.frames }
    requires place { i < PAGE_WORDS }
    ensures writes { Writes (with_frame_word frame i word) (chart (B.state board.old)) result
        (chart (B.state board.new)) }
    ensures put { Puts (B.state board.old) (frames_at (B.state board.old).shape + (PAGE_WORDS * frame + i)) word result
        (B.state board.new) }
{
    let first = first_word(&board.shape(), frame);
    put_frame_word(board, first, frame, i, word)
}

/// Writes the 32 words of a frame, from the first, four at a turn. Where power fails some of them are written.
/// The words below the frames stay.
pub fn write_frame<B: Board>(board: &mut B, frame: u32, page: &Page) -> Result<(), Off>
    requires { frame < (B.state board.old).shape.frames }
    ensures ok { OnOk result (chart (B.state board.new) ≡ with_fields (chart (B.state board.old))
        (with_frame frame page.now PAGE_WORDS (chart (B.state board.old)).fields)) }
    ensures on { OnOk result (IsTrue (B.state board.old).on) }
    ensures off { OnErr result
        (Stopped (λ f. (n : ℕ) × (n ≤ PAGE_WORDS) × (f ≡ with_frame frame page.now n (chart (B.state board.old)).fields))
        (chart (B.state board.old)) (chart (B.state board.new))) }
    ensures below { (w : ℕ) → w < frames_at (B.state board.old).shape
        → slice_index (B.state board.new).sram w ≡ slice_index (B.state board.old).sram w }
{
    let first = first_word(&board.shape(), frame);
    for k in 0..8u32 {
        let i = 4 * k;
        put_frame_word(board, first, frame, i, page[i as usize])?;
        put_frame_word(board, first, frame, i + 1, page[i as usize + 1])?;
        put_frame_word(board, first, frame, i + 2, page[i as usize + 2])?;
        put_frame_word(board, first, frame, i + 3, page[i as usize + 3])?;
    }
    Ok(())
}
