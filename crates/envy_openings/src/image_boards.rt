// Boards from images.
ghost use Rattle.std.specs.Prelude.{MatchResult};
ghost use Rattle.envy_base.specs.Shape.{IsShape};
ghost use Rattle.envy_bench.specs.Parts.{new_state};
ghost use Rattle.envy_openings.specs.Image.{HoldsImage, NoBoard, NoHead, ReadsShape};
ghost use Rattle.envy_openings.specs.Reading.{IsOpened};
ghost use Rattle.envy_bench.specs.CalmState.{calm_state};

use crate::cursor::Cursor;
use envy_base::Shape;
use envy_bench::CalmBoard;
use envy_calls::{Code, EnvySetup};
use envy_image::{HeadFault, InFault, install, read_head};
use envy_io::Lines;
use std::alloc::Global;

// An image whose head was read.
#[derive(Drop)]
struct Opened<'a> {
    shape: Shape,
    lines: Lines,
    source: Cursor<'a>,
}

// Reads the head of an image.
fn open_image(image: &[u8]) -> Result<Opened<'_>, Code>
    ensures { MatchResult result (λ o. IsOpened image.now o.shape o.source.left.now o.lines) (NoHead image.now) }
{
    let mut lines = Lines::new(u64::MAX);
    let mut source = Cursor { left: image };
    match read_head(&mut lines, &mut source) {
        Ok(shape) => Ok(Opened {
            shape,
            lines,
            source,
        }),
        Err(HeadFault::Short) => Err(Code::ImageShort),
        Err(HeadFault::Mark) => Err(Code::ImageMark),
        Err(HeadFault::Shape(fault)) => Err(Code::ImageShape(fault)),
        Err(HeadFault::Failed | HeadFault::Spent) => unreachable!(),
    }
}

/// A new board of the shape, whose power can return so often, that is what the image says.
///
/// # Errors
///
/// `NoMemory`, or what the bytes lack: `ImageShort`, `ImageMark`, `ImageShape`, or `ImageOther`.
pub fn board_of_image(
    alloc: Global,
    shape: &Shape,
    lives: u32,
    image: &[u8],
) -> Result<CalmBoard, Code>
    requires { IsShape shape.now }
    ensures { MatchResult result
        (λ board. HoldsImage image.now (new_state shape.now lives) (calm_state board))
        (NoBoard image.now shape.now) }
{
    let Opened {
        shape: found,
        mut lines,
        mut source,
    } = open_image(image)?;
    if found != *shape {
        return Err(Code::ImageOther);
    }
    let Ok(mut board) = CalmBoard::new(alloc, shape, lives) else {
        return Err(Code::NoMemory);
    };
    match install(&mut board, &mut lines, &mut source) {
        Ok(()) => Ok(board),
        Err(InFault::Short) => Err(Code::ImageShort),
        Err(InFault::Upset | InFault::Failed | InFault::Spent) => unreachable!(),
    }
}

/// Writes the shape that an image names into a setup.
pub fn read_shape(image: &[u8], setup: &mut EnvySetup) -> Code
    ensures { ReadsShape image.now setup.old setup.new result }
{
    let shape = match open_image(image) {
        Ok(found) => found.shape,
        Err(code) => return code,
    };
    *setup = EnvySetup {
        segments: shape.segments,
        rows: shape.rows,
        pages: shape.pages,
        shadows: shape.shadows,
        frames: shape.frames,
        entries: shape.entries,
        policy: setup.policy,
        part: setup.part,
        limit: setup.limit,
        mark: setup.mark,
        reserves: shape.reserves,
        sums: shape.sums,
    };
    Code::Done
}
