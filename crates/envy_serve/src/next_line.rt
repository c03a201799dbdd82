ghost use Rattle.std.specs.Prelude.{◌≡◌, ◌≤◌, ℕ, List, IfOk};
ghost use Rattle.envy_io.specs.Streams.{Feed};
ghost use Rattle.envy_serve.specs.Grammar.{IsSaid};
ghost use Rattle.envy_serve.specs.Reading.{HasRead, Fetches};

use crate::Service;
use arrayvec::ArrayVec;
use envy_io::{Lines, Next, Source};
use envy_trace::LineFault;

/// Why no further line comes.
#[derive(Clone, Copy, Debug, PartialEq, Eq)]
pub enum NoLine {
    /// The source was read to its end.
    Finished,
    /// The next line is refused.
    Refused(LineFault),
    /// The source failed.
    Failed,
    /// As many bytes were taken as may be.
    Spent,
}

/// Reads the next line of a trace, by way of `text`.
pub fn fetch<V: Service, S: Source>(
    source: &mut S,
    reader: &mut Lines,
    text: &mut ArrayVec<u8, 120>,
) -> Result<V::Line, NoLine>
    ensures reads { (skipped : ℕ) (from : Feed) (lines : List V.Line)
        → HasRead V.grammar.reads skipped from (S.feed source.old) reader.old lines
        → Fetches result V.grammar.reads skipped from (S.feed source.new) reader.new lines }
    ensures said { IfOk result (λ line. IsSaid V.grammar line) }
    ensures cap { reader.new.cap ≡ reader.old.cap }
    ensures within { reader.new.taken ≤ reader.new.cap }
{
    match reader.next_line(source, text) {
        Next::Line => match V::read(text.as_slice()) {
            Ok(line) => Ok(line),
            Err(fault) => Err(NoLine::Refused(fault)),
        },
        Next::End => Err(NoLine::Finished),
        Next::Long => Err(NoLine::Refused(LineFault::Long)),
        Next::Failed => Err(NoLine::Failed),
        Next::Spent => Err(NoLine::Spent),
    }
}
