ghost use Rattle.std.specs.Prelude.{◌≡◌};
ghost use Rattle.envy_trace.specs.Grammar.{pieces, one};
ghost use Rattle.envy_trace.specs.Mirror.{mirror_line_of, side};

use crate::bounds::Bounds;
use crate::fault::LineFault;
use crate::fields::split_command;
use crate::line::Line;
use crate::numbers::{no_number, one_number};
use crate::read::read_line;

/// A line of a trace for a pair of boards.
#[derive(Clone, Copy, Debug, PartialEq, Eq)]
pub enum MirrorLine {
    /// A line of the trace of one array.
    Array(Line),
    /// Choose the side, 0 or 1, that `cut`, `bad`, `power` and `stat` speak of.
    Side(u8),
    /// One step by which one side follows the other.
    Catch,
}

/// Reads a line of a trace for a pair of boards, without its newline. All that holds of `read_line` holds here.
pub fn read_mirror_line(bytes: &[u8]) -> Result<MirrorLine, LineFault>
    ensures { result ≡ mirror_line_of bytes.now }
{
    let Some((name, rest)) = split_command(bytes)? else {
        return Ok(MirrorLine::Array(Line::Empty));
    };
    if name == b"side".as_slice() {
        return Ok(MirrorLine::Side(read_side(rest)?));
    }
    if name == b"catch".as_slice() {
        no_number(rest)?;
        return Ok(MirrorLine::Catch);
    }
    Ok(MirrorLine::Array(read_line(bytes)?))
}

fn read_side(rest: &[u8]) -> Result<u8, LineFault>
    ensures { result ≡ one side (λ x. x) (pieces rest.now) }
{
    Ok(one_number(rest, Bounds::SIDE)? as u8)
}
