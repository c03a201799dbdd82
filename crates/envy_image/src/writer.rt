ghost use Rattle.std.specs.Prelude.{◌≡◌, ◌+◌, ◌*◌, ◌<◌, ◌≤◌, [], IsTrue, IsOk, IfOk, length, take, drop, slice_index_or, Ok};
ghost use Rattle.envy_io.specs.Streams.{Drain, WritesAll};
ghost use Rattle.envy_image.specs.Image.{image_of, is_extended, mark_of, head_of, head_size, body_of, rows_bytes, words_bytes, word_bytes, numbers_bytes, numbers_of, number_bytes};
ghost use Rattle.envy_image.specs.Writing.{WritesOut, WritesFirst};

use envy_base::{Board, Off, PAGE_WORDS, Shape, version_of};
use envy_io::{Failed, Sink, write_all};

/// The bytes that an image begins with: an extended one names reserves and sums too.
pub(crate) fn mark_of(extended: bool) -> [u8; 8]
    ensures { result ≡ mark_of extended }
{
    if extended { *b"eNVyIMG2" } else { *b"eNVyIMG1" }
}

/// Why an image wasn't written whole.
#[derive(Clone, Copy, Debug, PartialEq, Eq)]
pub enum OutFault {
    /// Power is off. Nothing was written.
    Off,
    /// The sink failed, which it counts. A proper prefix of the image was written.
    Failed,
}

impl From<Off> for OutFault {
    ghost use Rattle.std.specs.Prelude.{◌≡◌};
    ghost use Rattle.envy_image.specs.declared.writer.OutFault.TheVariants.{Off as PowerOff};

    ghost from_gives = { λ _ fault. fault ≡ PowerOff };

    fn from(_: Off) -> Self {
        OutFault::Off
    }
}

impl From<Failed> for OutFault {
    ghost use Rattle.std.specs.Prelude.{◌≡◌};
    ghost use Rattle.envy_image.specs.declared.writer.OutFault.TheVariants.{Failed as NoWrite};

    ghost from_gives = { λ _ fault. fault ≡ NoWrite };

    fn from(_: Failed) -> Self {
        OutFault::Failed
    }
}

// Writes a number of 4 bytes.
fn write_number<K: Sink>(number: u32, sink: &mut K) -> Result<(), Failed>
    ensures { WritesAll (K.drain sink.old) (number_bytes number) result (K.drain sink.new) }
{
    write_all(sink, &number.to_le_bytes())
}

// Writes a word.
fn write_word<K: Sink>(word: u64, sink: &mut K) -> Result<(), Failed>
    ensures { WritesAll (K.drain sink.old) (word_bytes word) result (K.drain sink.new) }
{
    write_all(sink, &word.to_le_bytes())
}

// Writes numbers of 4 bytes.
fn write_numbers<K: Sink>(numbers: &[u32], sink: &mut K) -> Result<(), Failed>
    ensures { WritesAll (K.drain sink.old) (numbers_bytes numbers.now) result (K.drain sink.new) }
{
    for number in numbers {
        write_number(*number, sink)?;
    }
    Ok(())
}

// Writes the numbers of a shape, with reserves and sums behind the sizes in an extended image.
fn write_shape<K: Sink>(shape: &Shape, extended: bool, sink: &mut K) -> Result<(), Failed>
    ensures { WritesAll (K.drain sink.old) (numbers_bytes (numbers_of extended shape.now)) result (K.drain sink.new) }
{
    let numbers = [
        shape.segments,
        shape.rows,
        shape.pages,
        shape.shadows,
        shape.frames,
        shape.entries,
        shape.reserves,
        shape.sums,
    ];
    if extended {
        write_numbers(&numbers, sink)
    } else {
        write_numbers(&numbers[..6], sink)
    }
}

// Whether the image of a board is extended.
fn is_extended(shape: &Shape) -> bool
    ensures { result ≡ is_extended shape.now }
{
    version_of(shape) == 3
}

/// How many bytes the head of a board's image takes.
pub fn head_size(shape: &Shape) -> u64
    ensures { result ≡ head_size shape.now }
{
    if is_extended(shape) { 40 } else { 32 }
}

// Writes the mark and the shape.
fn write_head<K: Sink>(shape: &Shape, sink: &mut K) -> Result<(), Failed>
    ensures { WritesAll (K.drain sink.old) (head_of shape.now) result (K.drain sink.new) }
{
    let extended = is_extended(shape);
    write_all(sink, &mark_of(extended))?;
    write_shape(shape, extended, sink)
}

// The bytes of a row.
fn bytes_of_row<B: Board>(board: &B, row: u32) -> Result<[u8; 256], Off>
    requires on { IsTrue (B.state board.now).on }
    requires row { row < length (B.state board.now).flash }
    ensures read { IfOk result (λ bytes. bytes ≡ words_bytes (slice_index_or (B.state board.now).flash row [])) }
    ensures on { IsOk result }
{
    let mut bytes = [0; 256];
    for i in 0..PAGE_WORDS {
        let word = board.read(row, i)?;
        let at = 8 * i as usize;
        bytes[at..at + 8].copy_from_slice(&word.to_le_bytes());
    }
    Ok(bytes)
}

// Writes the words of a row, in one piece.
fn write_row<B: Board, K: Sink>(board: &B, row: u32, sink: &mut K) -> Result<(), OutFault>
    requires on { IsTrue (B.state board.now).on }
    requires row { row < length (B.state board.now).flash }
    ensures { WritesOut (B.state board.now).on (K.drain sink.old)
        (words_bytes (slice_index_or (B.state board.now).flash row [])) result (K.drain sink.new) }
{
    let bytes = bytes_of_row(board, row)?;
    write_all(sink, &bytes)?;
    Ok(())
}

// Writes the words of every row.
fn write_rows<B: Board, K: Sink>(board: &B, sink: &mut K) -> Result<(), OutFault>
    requires { IsTrue (B.state board.now).on }
    ensures { WritesOut (B.state board.now).on (K.drain sink.old) (rows_bytes (B.state board.now).flash) result
        (K.drain sink.new) }
{
    let shape = board.shape();
    for row in 0..shape.segments * shape.rows {
        write_row(board, row, sink)?;
    }
    Ok(())
}

// The bytes of 32 words of SRAM, from one on.
fn bytes_of_piece<B: Board>(board: &B, first: u32) -> Result<[u8; 256], Off>
    requires on { IsTrue (B.state board.now).on }
    requires room { first + PAGE_WORDS ≤ length (B.state board.now).sram }
    ensures read { IfOk result (λ bytes. bytes ≡ words_bytes (take PAGE_WORDS (drop first (B.state board.now).sram))) }
    ensures on { IsOk result }
{
    let mut bytes = [0; 256];
    for i in 0..PAGE_WORDS {
        let word = board.get(first + i)?;
        let at = 8 * i as usize;
        bytes[at..at + 8].copy_from_slice(&word.to_le_bytes());
    }
    Ok(bytes)
}

// Writes 32 words of SRAM, from one on, in one piece.
fn write_piece<B: Board, K: Sink>(board: &B, first: u32, sink: &mut K) -> Result<(), OutFault>
    requires on { IsTrue (B.state board.now).on }
    requires room { first + PAGE_WORDS ≤ length (B.state board.now).sram }
    ensures { WritesOut (B.state board.now).on (K.drain sink.old)
        (words_bytes (take PAGE_WORDS (drop first (B.state board.now).sram))) result (K.drain sink.new) }
{
    let bytes = bytes_of_piece(board, first)?;
    write_all(sink, &bytes)?;
    Ok(())
}

// Writes the first words of SRAM, so many times 32.
fn write_pieces<B: Board, K: Sink>(board: &B, pieces: u32, sink: &mut K) -> Result<(), OutFault>
    requires on { IsTrue (B.state board.now).on }
    requires room { PAGE_WORDS * pieces ≤ length (B.state board.now).sram }
    ensures { WritesFirst (PAGE_WORDS * pieces) (B.state board.now).on (K.drain sink.old) (B.state board.now).sram result
        (K.drain sink.new) }
{
    for piece in 0..pieces {
        write_piece(board, PAGE_WORDS * piece, sink)?;
    }
    Ok(())
}

// Writes the words of SRAM from one on.
fn write_rest<B: Board, K: Sink>(board: &B, first: u32, sink: &mut K) -> Result<(), OutFault>
    requires on { IsTrue (B.state board.now).on }
    requires room { first ≤ length (B.state board.now).sram }
    ensures { (from : Drain)
        → WritesAll from (words_bytes (take first (B.state board.now).sram)) (Ok tt) (K.drain sink.old)
        → WritesOut (B.state board.now).on from (words_bytes (B.state board.now).sram) result (K.drain sink.new) }
{
    for w in first..envy_map::words(&board.shape()) {
        let word = board.get(w)?;
        write_word(word, sink)?;
    }
    Ok(())
}

// Writes the words of SRAM: 32 at a time, and the rest one by one.
fn write_words<B: Board, K: Sink>(board: &B, sink: &mut K) -> Result<(), OutFault>
    requires { IsTrue (B.state board.now).on }
    ensures { WritesOut (B.state board.now).on (K.drain sink.old) (words_bytes (B.state board.now).sram) result
        (K.drain sink.new) }
{
    let pieces = envy_map::words(&board.shape()) / PAGE_WORDS;
    write_pieces(board, pieces, sink)?;
    write_rest(board, PAGE_WORDS * pieces, sink)
}

// Writes what stands behind the head.
fn write_body<B: Board, K: Sink>(board: &B, sink: &mut K) -> Result<(), OutFault>
    requires { IsTrue (B.state board.now).on }
    ensures { let s = B.state board.now in WritesOut s.on (K.drain sink.old) (body_of s.flash s.sram) result
        (K.drain sink.new) }
{
    write_rows(board, sink)?;
    write_words(board, sink)
}

/// Writes the image of a board.
///
/// # Errors
///
/// `Off` exactly where power is off, with nothing written, and `Failed` where the sink failed, with a
/// proper prefix of the image written.
pub fn write_image<B: Board, K: Sink>(board: &B, sink: &mut K) -> Result<(), OutFault>
    ensures { let s = B.state board.now in WritesOut s.on (K.drain sink.old) (image_of s) result (K.drain sink.new) }
{
    if !board.powered() {
        return Err(OutFault::Off);
    }
    write_head(&board.shape(), sink)?;
    write_body(board, sink)
}
