ghost use Rattle.std.specs.Prelude.{◌≡◌, ◌+◌, ◌*◌, ◌<◌, ◌≤◌, ℕ, IsTrue, length};
ghost use Rattle.envy_base.specs.State.{State, IsOnes, IsPage, row_of};
ghost use Rattle.envy_io.specs.Streams.{Feed};
ghost use Rattle.envy_io.specs.Taking.{Taking};
ghost use Rattle.envy_image.specs.Backwards.{GivesBack};
ghost use Rattle.envy_image.specs.Image.{words_bytes};
ghost use Rattle.envy_image.specs.Installing.{HasReadHead, IsWithin, Installs, Blanks, ReadsPage, ProgramsRows, PutsWords, FillsPiece, FillsFirst, FillsWords, Filled};

use crate::reader::{Stop, read_bytes, read_word, word_of};
use envy_base::{Board, Off, PAGE_LENGTH, PAGE_WORDS, Page, Trouble};
use envy_io::{Lines, Source};

/// Why an image wasn't installed.
#[derive(Clone, Copy, Debug, PartialEq, Eq)]
pub enum InFault {
    /// The source's end was met within the image.
    Short,
    /// Power failed, or a flash operation did. The board may hold anything.
    Upset,
    /// The source failed, which it counts.
    Failed,
    /// As many bytes were taken as may be.
    Spent,
}

impl From<Stop> for InFault {
    ghost use Rattle.std.specs.Prelude.{◌≡◌};
    ghost use Rattle.envy_image.specs.Faults.{in_fault};

    ghost from_gives = { λ stop fault. fault ≡ in_fault stop };

    fn from(stop: Stop) -> Self {
        match stop {
            Stop::Short => InFault::Short,
            Stop::Failed => InFault::Failed,
            Stop::Spent => InFault::Spent,
        }
    }
}

impl From<Trouble> for InFault {
    ghost use Rattle.std.specs.Prelude.{◌≡◌};
    ghost use Rattle.envy_image.specs.declared.installation.InFault.TheVariants.{Upset};

    ghost from_gives = { λ _ fault. fault ≡ Upset };

    fn from(_: Trouble) -> Self {
        InFault::Upset
    }
}

impl From<Off> for InFault {
    ghost use Rattle.std.specs.Prelude.{◌≡◌};
    ghost use Rattle.envy_image.specs.declared.installation.InFault.TheVariants.{Upset};

    ghost from_gives = { λ _ fault. fault ≡ Upset };

    fn from(_: Off) -> Self {
        InFault::Upset
    }
}

// Erases every segment.
fn erase_all<B: Board>(board: &mut B) -> Result<(), Trouble>
    requires { IsTrue (B.state board.old).on }
    ensures { Blanks (B.state board.old) result (B.state board.new) }
{
    for segment in 0..board.shape().segments {
        board.erase(segment)?;
    }
    Ok(())
}

// The words that a page's bytes spell.
fn page_of(bytes: &[u8; 256]) -> Page
    ensures page { IsPage result }
    ensures bytes { words_bytes result ≡ bytes.now }
{
    let mut page = [0; PAGE_LENGTH];
    for i in 0..PAGE_LENGTH {
        page[i] = word_of(&bytes[8 * i..8 * i + 8]);
    }
    page
}

// Reads the next page.
fn read_page<S: Source>(lines: &mut Lines, source: &mut S) -> Result<Page, Stop>
    ensures { ReadsPage lines.old (S.feed source.old) result lines.new (S.feed source.new) }
{
    let mut bytes = [0; 256];
    read_bytes(lines, source, &mut bytes)?;
    Ok(page_of(&bytes))
}

// Programs every row with the next page.
fn program_rows<B: Board, S: Source>(
    board: &mut B,
    lines: &mut Lines,
    source: &mut S,
) -> Result<(), InFault>
    requires on { IsTrue (B.state board.old).on }
    requires blank { (q : ℕ) → q < length (B.state board.old).flash → IsOnes (row_of (B.state board.old) q) }
    requires within { IsWithin lines.old }
    ensures { ProgramsRows (B.state board.old) lines.old (S.feed source.old) result (B.state board.new) lines.new
        (S.feed source.new) }
{
    let shape = board.shape();
    for row in 0..shape.segments * shape.rows {
        let page = read_page(lines, source)?;
        board.program(row, &page)?;
    }
    Ok(())
}

// Puts 32 words into SRAM, from one on.
fn put_words<B: Board>(board: &mut B, first: u32, words: &Page) -> Result<(), Off>
    requires on { IsTrue (B.state board.old).on }
    requires room { first + PAGE_WORDS ≤ length (B.state board.old).sram }
    requires words { length words.now ≡ PAGE_WORDS }
    ensures { PutsWords first words.now (B.state board.old) result (B.state board.new) }
{
    for i in 0..PAGE_WORDS {
        board.put(first + i, words[i as usize])?;
    }
    Ok(())
}

// Puts the next 32 words into SRAM, from one on. They are read in one piece.
fn fill_piece<B: Board, S: Source>(
    board: &mut B,
    lines: &mut Lines,
    source: &mut S,
    first: u32,
) -> Result<(), InFault>
    requires on { IsTrue (B.state board.old).on }
    requires room { first + PAGE_WORDS ≤ length (B.state board.old).sram }
    ensures { FillsPiece first (B.state board.old) lines.old (S.feed source.old) result (B.state board.new) lines.new
        (S.feed source.new) }
{
    let words = read_page(lines, source)?;
    put_words(board, first, &words)?;
    Ok(())
}

// Puts the next words into SRAM, so many times 32.
fn fill_pieces<B: Board, S: Source>(
    board: &mut B,
    lines: &mut Lines,
    source: &mut S,
    pieces: u32,
) -> Result<(), InFault>
    requires on { IsTrue (B.state board.old).on }
    requires room { PAGE_WORDS * pieces ≤ length (B.state board.old).sram }
    requires within { IsWithin lines.old }
    ensures { FillsFirst (PAGE_WORDS * pieces) (B.state board.old) lines.old (S.feed source.old) result
        (B.state board.new) lines.new (S.feed source.new) }
{
    for piece in 0..pieces {
        fill_piece(board, lines, source, PAGE_WORDS * piece)?;
    }
    Ok(())
}

// Puts the next words into SRAM, from one on.
fn fill_rest<B: Board, S: Source>(
    board: &mut B,
    lines: &mut Lines,
    source: &mut S,
    first: u32,
) -> Result<(), InFault>
    requires on { IsTrue (B.state board.old).on }
    requires room { first ≤ length (B.state board.old).sram }
    ensures { (start : State) (was : Taking) (from : Feed)
        → Filled first start was from (B.state board.old) lines.old (S.feed source.old)
        → FillsWords start was from result (B.state board.new) lines.new (S.feed source.new) }
{
    for w in first..envy_map::words(&board.shape()) {
        let word = read_word(lines, source)?;
        board.put(w, word)?;
    }
    Ok(())
}

// Puts the next words into SRAM: 32 at a time, and the rest one by one.
fn fill_words<B: Board, S: Source>(
    board: &mut B,
    lines: &mut Lines,
    source: &mut S,
) -> Result<(), InFault>
    requires on { IsTrue (B.state board.old).on }
    requires within { IsWithin lines.old }
    ensures { FillsWords (B.state board.old) lines.old (S.feed source.old) result (B.state board.new) lines.new
        (S.feed source.new) }
{
    let pieces = envy_map::words(&board.shape()) / PAGE_WORDS;
    fill_pieces(board, lines, source, pieces)?;
    fill_rest(board, lines, source, PAGE_WORDS * pieces)
}

/// Makes a board what an image says, from the bytes behind its head: every segment is erased, every row
/// programmed and every word of SRAM written. The head that was read last has the board's shape.
///
/// # Errors
///
/// `Upset` where power failed or a flash operation did, which the board counts; it may hold anything then.
/// The others as of `Lines::next_bytes`.
pub fn install<B: Board, S: Source>(
    board: &mut B,
    lines: &mut Lines,
    source: &mut S,
) -> Result<(), InFault>
    requires on { IsTrue (B.state board.old).on }
    requires head { HasReadHead (B.state board.old).shape lines.old (S.feed source.old) }
    ensures back { GivesBack (B.state board.old) lines.old (S.feed source.old) result (B.state board.new) }
    ensures installs { Installs (B.state board.old) lines.old (S.feed source.old) result (B.state board.new) lines.new
        (S.feed source.new) }
{
    erase_all(board)?;
    program_rows(board, lines, source)?;
    fill_words(board, lines, source)
}
