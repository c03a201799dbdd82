//! How a run ends, and the two numbers that say so.

ghost use Rattle.std.specs.Prelude.{◌≡◌, None};
ghost use Rattle.envy_run.specs.Outcome.{ending_after, ending_of, image_number, numbers_of, refusal_of};

use crate::ended::Ended;
use envy_args::WordsFault;
use envy_io::Failed;
use envy_serve::{End, Served};
use envy_trace::LineFault;

/// Why an image isn't taken up.
#[derive(Clone, Copy, Debug, PartialEq, Eq)]
pub enum ImageFault {
    /// The source ended within it.
    Early,
    /// It doesn't begin with the mark.
    Unmarked,
    /// Its shape doesn't check.
    Misshapen,
    /// The words break a rule with its shape.
    Unruly,
    /// Its board isn't formatted and sound.
    Unsound,
}

/// How a run ends.
#[derive(Clone, Copy, Debug, PartialEq, Eq)]
pub enum Ending {
    /// All was done.
    Done,
    /// The words break the rule of this number, or aren't understood.
    WordsRefused(u8),
    /// The source failed.
    ReadFault,
    /// The sink failed.
    WriteFault,
    /// The next line is refused.
    LineRefused(LineFault),
    /// Power failed and didn't return.
    PowerLost,
    /// A flash operation failed where none may.
    FlashFailed,
    /// Memory ran out.
    OutOfMemory,
    /// The source has more bytes than may be taken.
    TooLong,
    /// An image isn't taken up.
    ImageRefused(ImageFault),
    /// An image couldn't be installed.
    NotInstalled,
}

/// How a run ended, and what it leaves.
#[derive(Drop)]
pub struct Finished<B> {
    pub ending: Ending,
    /// Lines that the grammar accepted.
    pub lines: u64,
    /// Bytes taken from the source.
    pub taken: u64,
    /// The board, where one was made.
    pub board: Option<B>,
    /// The second board of a mirrored run.
    pub second: Option<B>,
}

/// The number of a fault of an image.
fn number(fault: ImageFault) -> u8
    ensures { result ≡ image_number fault }
{
    match fault {
        ImageFault::Early => 1,
        ImageFault::Unmarked => 2,
        ImageFault::Misshapen => 3,
        ImageFault::Unruly => 4,
        ImageFault::Unsound => 5,
    }
}

/// The status of an ending, and its second number.
fn numbers(ending: Ending) -> (u8, u8)
    ensures status { result.0 ≡ (numbers_of ending).0 }
    ensures why { result.1 ≡ (numbers_of ending).1 }
{
    match ending {
        Ending::Done => (0, 0),
        Ending::WordsRefused(rule) => (2, rule),
        Ending::ReadFault => (3, 0),
        Ending::WriteFault => (4, 0),
        Ending::LineRefused(fault) => (5, fault.number()),
        Ending::PowerLost => (6, 0),
        Ending::FlashFailed => (7, 0),
        Ending::OutOfMemory => (8, 0),
        Ending::TooLong => (9, 0),
        Ending::ImageRefused(fault) => (10, number(fault)),
        Ending::NotInstalled => (11, 0),
    }
}

/// What a run hands back. Nothing else fills its two numbers.
pub(crate) fn hand_back<B>(finished: Finished<B>) -> Ended<B>
    ensures { result
        ≡ record {
          status = (numbers_of finished.ending).0;
          why = (numbers_of finished.ending).1;
          lines =
              finished.lines;
          taken = finished.taken;
          board = finished.board;
          second = finished.second;
        } }
{
    let (status, why) = numbers(finished.ending);
    Ended {
        status,
        why,
        lines: finished.lines,
        taken: finished.taken,
        board: finished.board,
        second: finished.second,
    }
}

/// The ending of a run that had only to write a text, and wrote it so.
pub(crate) fn written(wrote: Result<(), Failed>) -> Ending
    ensures { result ≡ ending_after wrote }
{
    match wrote {
        Ok(()) => Ending::Done,
        Err(Failed) => Ending::WriteFault,
    }
}

/// An end with no line read, so many bytes taken.
pub(crate) fn stopped_at<B>(ending: Ending, taken: u64, board: Option<B>) -> Finished<B>
    ensures { result ≡ record { ending = ending; lines = 0; taken = taken; board = board; second = None } }
{
    Finished {
        ending,
        lines: 0,
        taken,
        board,
        second: None,
    }
}

/// An end with nothing read.
pub(crate) fn unserved<B>(ending: Ending, board: Option<B>) -> Finished<B>
    ensures { result ≡ record { ending = ending; lines = 0; taken = 0; board = board; second = None } }
{
    stopped_at(ending, 0, board)
}

/// An end where the words name no command.
pub(crate) fn refused<B>(fault: WordsFault) -> Finished<B>
    ensures { result ≡ record { ending = refusal_of fault; lines = 0; taken = 0; board = None; second = None } }
{
    match fault {
        WordsFault::Form => unserved(Ending::WordsRefused(0), None),
        WordsFault::Setup(rule) => unserved(Ending::WordsRefused(rule), None),
        WordsFault::Memory => unserved(Ending::OutOfMemory, None),
    }
}

/// The ending of a trace that was served.
pub(crate) fn after(end: End) -> Ending
    ensures { result ≡ ending_of end }
{
    match end {
        End::Done => Ending::Done,
        End::ReadFault => Ending::ReadFault,
        End::WriteFault | End::FlushFault => Ending::WriteFault,
        End::Refused(fault) => Ending::LineRefused(fault),
        End::Dead => Ending::PowerLost,
        End::TooLong => Ending::TooLong,
    }
}

/// An end of a trace that was served.
pub(crate) fn finished_with<B>(served: Served, board: Option<B>) -> Finished<B>
    ensures { result
        ≡ record {
          ending = ending_of served.end;
          lines = served.lines;
          taken = served.taken;
          board = board;
          second =
              None;
        } }
{
    Finished {
        ending: after(served.end),
        lines: served.lines,
        taken: served.taken,
        board,
        second: None,
    }
}
