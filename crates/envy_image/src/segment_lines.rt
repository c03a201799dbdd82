ghost use Rattle.std.specs.Prelude.{◌≡◌, ◌-◌, ◌+◌, ◌<◌, ℕ, [], ◌∷◌, ◌++◌, IsTrue, IfOk, List};
ghost use Rattle.envy_io.specs.Lines.{newline};
ghost use Rattle.envy_io.specs.Streams.{WritesAll};
ghost use Rattle.envy_soundness.specs.Sound.{IsSound};
ghost use Rattle.envy_map.specs.Fields.{chart};
ghost use Rattle.envy_space.specs.Pool.{PoolAgrees};
ghost use Rattle.envy_image.specs.Segments.{TellsSegments, heading, segment_line, segments_text, text_of};

use crate::line::{MOST_LINE, Standing, put_line, standing_at};
use arrayvec::ArrayVec;
use envy_base::{Board, all_positions_of};
use envy_io::{Failed, Sink, write_all};
use envy_map::wear;
use envy_space::Space;

/// Writes the line of a segment and its newline as one piece, which is built in the buffer.
fn write_line<B: Board, K: Sink>(
    board: &B,
    space: &Space,
    segment: u32,
    standing: Standing,
    sink: &mut K,
    piece: &mut ArrayVec<u8, MOST_LINE>,
) -> Result<(), Failed>
    requires on { IsTrue (B.state board.now).on }
    requires shape { space.now.shape ≡ (B.state board.now).shape }
    requires segment { segment < (B.state board.now).shape.segments }
    ensures { WritesAll (K.drain sink.old)
        (segment_line space.now (chart (B.state board.now)).fields.wears
        (text_of standing) segment ++ newline ∷ []) result (K.drain sink.new) }
{
    let Ok(wear) = wear(board, segment) else {
        unreachable!();
    };
    piece.clear();
    put_line(space, segment, standing, wear, piece);
    piece.push(b'\n');
    write_all(sink, piece.as_slice())
}

/// Writes a heading, and behind it a line for each segment of a board: its number, the position where it is, its
/// wear, how many of its rows were claimed since it was erased, and how many rows are kept, free and dead. For a segment
/// in reserve, `reserve` or `retired` is in place of the position's number. The spare, which is at no position, comes
/// last. Each line is one piece.
///
/// # Errors
///
/// `Failed` where the sink failed, which it counts. A proper prefix of the text was written then.
pub fn write_segments<B: Board, K: Sink>(
    board: &B,
    space: &Space,
    sink: &mut K,
) -> Result<(), Failed>
    requires on { IsTrue (B.state board.now).on }
    requires sound { IsSound (chart (B.state board.now)) }
    requires counted { PoolAgrees (B.state board.now).shape (chart (B.state board.now)).fields space.now }
    ensures { (text : List ℕ) × TellsSegments (chart (B.state board.now)) text
        × WritesAll (K.drain sink.old) text result (K.drain sink.new) }
{
    let spare = space.spare();
    let mut piece = ArrayVec::new();
    write_all(sink, b"segment,position,wear,fill,kept,free,dead\n")?;
    for position in 0..all_positions_of(&board.shape()) {
        let segment = space.segment_at(position);
        let standing = standing_at(space, position);
        write_line(board, space, segment, standing, sink, &mut piece)?;
    }
    write_line(board, space, spare, Standing::Spare, sink, &mut piece)
}
