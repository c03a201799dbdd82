ghost use Rattle.std.specs.Prelude.{◌≡◌, ◌≤◌, [], ◌∷◌, ◌++◌};
ghost use Rattle.envy_io.specs.Lines.{newline};
ghost use Rattle.envy_io.specs.Streams.{WritesAll};
ghost use Rattle.envy_trace.specs.Spelling.{HasPlace, line_bytes};
ghost use Rattle.envy_gen.specs.Traces.{IsMix, trace_bytes};

use crate::draws::next_line;
use crate::mix::Mix;
use arrayvec::ArrayVec;
use envy_io::{Failed, Sink, write_all};
use envy_trace::{Line, line_text};
use rand_core::SeedableRng;
use rand_pcg::Lcg128Xsl64;

// Writes a line and its newline as one piece, which is built in the buffer.
fn write_line<K: Sink>(
    sink: &mut K,
    line: &Line,
    piece: &mut ArrayVec<u8, 120>,
) -> Result<(), Failed>
    requires { HasPlace line.now }
    ensures { WritesAll (K.drain sink.old) (line_bytes line.now ++ newline ∷ []) result (K.drain sink.new) }
{
    piece.clear();
    line_text(line, piece);
    piece.push(b'\n');
    write_all(sink, piece.as_slice())
}

/// Writes `lines` generated lines, each with its newline as one piece. The draws begin with the number
/// `start`, and the mix says what is drawn.
///
/// # Errors
///
/// `Failed` where the sink failed, which it counts. A proper prefix of the trace was written then.
pub fn generate<K: Sink>(sink: &mut K, start: u64, lines: u32, mix: &Mix) -> Result<(), Failed>
    requires { IsMix mix.now }
    ensures writes { WritesAll (K.drain sink.old) (trace_bytes start lines mix.now) result (K.drain sink.new) }
    ensures uncalled { lines ≡ 0 → sink.new ≡ sink.old }
{
    let mut words = Lcg128Xsl64::seed_from_u64(start);
    let mut piece = ArrayVec::new();
    for _line in 0..lines {
        let line = next_line(&mut words, mix);
        write_line(sink, &line, &mut piece)?;
    }
    Ok(())
}
