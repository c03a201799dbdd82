ghost use Rattle.std.specs.Prelude.{◌≡◌, ◌≢◌, ◌↔◌, IsTrue, ◌+◌, ◌<◌, ◌≤◌, Bool, false, MatchOption, length, take, drop};
ghost use Rattle.envy_base.specs.Shape.{version_of};
ghost use Rattle.envy_image.specs.Image.{mark_of, number_bytes, word_bytes};
ghost use Rattle.envy_image.specs.Reading.{ReadsBytes, ReadsWord, ReadsHead, ReadsMark, ReadsShape};

use crate::writer::mark_of;
use envy_base::{Shape, ShapeFault, version_of};
use envy_io::{Lines, ReadOutcome, Source};

/// Why the head of an image wasn't read.
#[derive(Clone, Copy, Debug, PartialEq, Eq)]
pub enum HeadFault {
    /// The source's end was met first.
    Short,
    /// The first 8 bytes aren't a mark.
    Mark,
    /// The shape doesn't check, or has neither reserves nor sums behind the second mark.
    Shape(ShapeFault),
    /// The source failed, which it counts.
    Failed,
    /// As many bytes were taken as may be.
    Spent,
}

/// Why bytes stopped.
#[derive(Clone, Copy)]
pub(crate) enum Stop {
    Short,
    Failed,
    Spent,
}

impl From<Stop> for HeadFault {
    ghost use Rattle.std.specs.Prelude.{◌≡◌};
    ghost use Rattle.envy_image.specs.Faults.{head_fault};

    ghost from_gives = { λ stop fault. fault ≡ head_fault stop };

    fn from(stop: Stop) -> Self {
        match stop {
            Stop::Short => HeadFault::Short,
            Stop::Failed => HeadFault::Failed,
            Stop::Spent => HeadFault::Spent,
        }
    }
}

impl From<ShapeFault> for HeadFault {
    ghost use Rattle.std.specs.Prelude.{◌≡◌};
    ghost use Rattle.envy_image.specs.declared.reader.HeadFault.TheVariants.{Shape as BadShape};

    ghost from_gives = { λ fault e. e ≡ BadShape fault };

    fn from(fault: ShapeFault) -> Self {
        HeadFault::Shape(fault)
    }
}

// Of which image bytes are the mark: whether it is extended.
fn mark_in(bytes: &[u8]) -> Option<bool>
    ensures { MatchOption result ((extended : Bool) → bytes.now ≢ mark_of extended)
        (λ extended. bytes.now ≡ mark_of extended) }
{
    if bytes == mark_of(false).as_slice() {
        return Some(false);
    }
    if bytes == mark_of(true).as_slice() {
        return Some(true);
    }
    None
}

/// The word of 8 bytes.
pub(crate) fn word_of(bytes: &[u8]) -> u64
    requires { length bytes.now ≡ 8 }
    ensures { word_bytes result ≡ bytes.now }
{
    u64::from_le_bytes([
        bytes[0], bytes[1], bytes[2], bytes[3], bytes[4], bytes[5], bytes[6], bytes[7],
    ])
}

/// Fills the slice with the next bytes.
pub(crate) fn read_bytes<S: Source>(
    lines: &mut Lines,
    source: &mut S,
    into: &mut [u8],
) -> Result<(), Stop>
    requires { 0 < length into.old }
    ensures { ReadsBytes lines.old (S.feed source.old) result into.new lines.new (S.feed source.new) }
{
    match lines.next_bytes(source, into) {
        ReadOutcome::Whole => Ok(()),
        ReadOutcome::Short => Err(Stop::Short),
        ReadOutcome::Failed => Err(Stop::Failed),
        ReadOutcome::Spent => Err(Stop::Spent),
    }
}

/// Reads the next word.
pub(crate) fn read_word<S: Source>(lines: &mut Lines, source: &mut S) -> Result<u64, Stop>
    ensures { ReadsWord lines.old (S.feed source.old) result lines.new (S.feed source.new) }
{
    let mut bytes = [0; 8];
    read_bytes(lines, source, &mut bytes)?;
    Ok(word_of(&bytes))
}

// The number of 4 bytes behind so many.
fn number_at(bytes: &[u8], at: usize) -> u32
    requires { at + 4 ≤ length bytes.now }
    ensures { number_bytes result ≡ take 4 (drop at bytes.now) }
{
    u32::from_le_bytes([bytes[at], bytes[at + 1], bytes[at + 2], bytes[at + 3]])
}

// Reads the six sizes of a shape.
fn read_sizes<S: Source>(lines: &mut Lines, source: &mut S) -> Result<Shape, Stop>
    ensures { ReadsShape false lines.old (S.feed source.old) result lines.new (S.feed source.new) }
{
    let mut bytes = [0; 24];
    read_bytes(lines, source, &mut bytes)?;
    Ok(Shape {
        segments: number_at(&bytes, 0),
        rows: number_at(&bytes, 4),
        pages: number_at(&bytes, 8),
        shadows: number_at(&bytes, 12),
        frames: number_at(&bytes, 16),
        entries: number_at(&bytes, 20),
        reserves: 0,
        sums: 0,
    })
}

// Reads the numbers of a shape, with reserves and sums behind the sizes in an extended image.
fn read_shape<S: Source>(lines: &mut Lines, source: &mut S, extended: bool) -> Result<Shape, Stop>
    ensures { ReadsShape extended lines.old (S.feed source.old) result lines.new (S.feed source.new) }
{
    let sizes = read_sizes(lines, source)?;
    if !extended {
        return Ok(sizes);
    }
    let mut bytes = [0; 8];
    read_bytes(lines, source, &mut bytes)?;
    Ok(Shape {
        reserves: number_at(&bytes, 0),
        sums: number_at(&bytes, 4),
        ..sizes
    })
}

// Reads the mark of an image, which says whether it is extended.
fn read_mark<S: Source>(lines: &mut Lines, source: &mut S) -> Result<bool, HeadFault>
    ensures { ReadsMark lines.old (S.feed source.old) result lines.new (S.feed source.new) }
{
    let mut bytes = [0; 8];
    read_bytes(lines, source, &mut bytes)?;
    match mark_in(&bytes) {
        Some(extended) => Ok(extended),
        None => Err(HeadFault::Mark),
    }
}

// Whether an image is extended without reserves and sums.
fn is_bare(shape: &Shape, extended: bool) -> bool
    ensures { IsTrue result ↔ (IsTrue extended × (version_of shape.now ≡ 2)) }
{
    extended && version_of(shape) == 2
}

/// Reads the head of an image: the mark, and the shape of its board.
///
/// # Errors
///
/// `Mark` exactly where the first 8 bytes aren't a mark. `Shape` exactly where the shape doesn't check, or where an
/// extended image has neither reserves nor sums, which is `Reserves`.
/// The others as of `Lines::next_bytes`: `Short` where the source's end was met within the head, `Failed`
/// where the source failed, and `Spent` where no more may be taken.
pub fn read_head<S: Source>(lines: &mut Lines, source: &mut S) -> Result<Shape, HeadFault>
    ensures { ReadsHead lines.old (S.feed source.old) result lines.new (S.feed source.new) }
{
    let extended = read_mark(lines, source)?;
    let shape = read_shape(lines, source, extended)?;
    let bare = is_bare(&shape, extended);
    if bare {
        return Err(HeadFault::Shape(ShapeFault::Reserves));
    }
    shape.check()?;
    Ok(shape)
}
