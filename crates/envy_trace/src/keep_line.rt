ghost use Rattle.std.specs.Prelude.{◌≡◌};
ghost use Rattle.envy_trace.specs.Keep.{keep_line_of, names_failure};

use crate::{Line, LineFault, no_number, read_line, split_command};

/// A line of a trace for a memory that is kept in a file.
#[derive(Clone, Copy, Debug, PartialEq, Eq)]
pub enum KeepLine {
    /// A line of the trace of one array: neither `power` nor `cut` nor `bad`.
    Trace(Line),
    /// Bring all that was done to the disk.
    Sync,
}

/// Reads a line of a trace for a memory that is kept in a file, without its newline.
///
/// Fields, blanks, comments and numbers are as in `crate::read_line`. The words `power`, `cut` and `bad` are no
/// command words here.
pub fn read_keep_line(bytes: &[u8]) -> Result<KeepLine, LineFault>
    ensures { result ≡ keep_line_of bytes.now }
{
    let Some((name, rest)) = split_command(bytes)? else {
        return Ok(KeepLine::Trace(Line::Empty));
    };
    if name == b"sync".as_slice() {
        no_number(rest)?;
        return Ok(KeepLine::Sync);
    }
    if names_failure(name) {
        return Err(LineFault::Word);
    }
    Ok(KeepLine::Trace(read_line(bytes)?))
}

// Whether this is the word of a line that makes power or a flash operation fail.
fn names_failure(name: &[u8]) -> bool
    ensures { result ≡ names_failure name.now }
{
    name == b"power".as_slice() || name == b"cut".as_slice() || name == b"bad".as_slice()
}
