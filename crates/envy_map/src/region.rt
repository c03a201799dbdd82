ghost use Rattle.std.specs.Prelude.{◌≡◌};
ghost use Rattle.envy_base.specs.Map.{fill_at, position_at, table_at, undo_at, back_at, origin_at, frames_at, words_of};
ghost use Rattle.envy_base.specs.Shape.{IsShape};

use envy_base::{PAGE_WORDS, Shape, all_positions_of};

/// The word by which a formatted board is known.
pub const MAGIC_AT: u32 = 0;

/// The word of the map's version.
pub const VERSION_AT: u32 = 1;

/// The first of the three words that keep the shape.
pub const SIZES_START: u32 = 2;

/// The word of the cleaner's job.
pub const JOB_AT: u32 = 5;

/// The word of the number of positions in reserve, under version 3.
pub const RESERVES_AT: u32 = 6;

/// The word that is 1 if rows have sums, under version 3.
pub const SUMS_AT: u32 = 7;

/// The first word of the slots.
pub const SLOTS_START: u32 = 8;

/// The first word of the wear of segments.
pub const WEAR_START: u32 = 72;

/// The first word of the fills of segments.
pub fn fill_start(shape: &Shape) -> u32
    requires { IsShape shape.now }
    ensures { result ≡ fill_at shape.now }
{
    WEAR_START + shape.segments
}

/// The first word of the segments at positions.
pub fn position_start(shape: &Shape) -> u32
    requires { IsShape shape.now }
    ensures { result ≡ position_at shape.now }
{
    fill_start(shape) + shape.segments
}

/// The first word of the places of pages.
pub fn table_start(shape: &Shape) -> u32
    requires { IsShape shape.now }
    ensures { result ≡ table_at shape.now }
{
    position_start(shape) + all_positions_of(shape)
}

/// The first word of the undos of pages.
pub fn undo_start(shape: &Shape) -> u32
    requires { IsShape shape.now }
    ensures { result ≡ undo_at shape.now }
{
    table_start(shape) + (shape.pages + 1) / 2
}

/// The first word of the pages that rows were claimed for.
pub fn back_start(shape: &Shape) -> u32
    requires { IsShape shape.now }
    ensures { result ≡ back_at shape.now }
{
    undo_start(shape) + (shape.pages + 1) / 2
}

/// The first word of the rows that the target's rows were copied from.
pub fn origin_start(shape: &Shape) -> u32
    requires { IsShape shape.now }
    ensures { result ≡ origin_at shape.now }
{
    back_start(shape) + shape.segments * shape.rows
}

/// The first word of the frames.
pub fn frame_start(shape: &Shape) -> u32
    requires { IsShape shape.now }
    ensures { result ≡ frames_at shape.now }
{
    origin_start(shape) + shape.rows
}

/// The number of SRAM words that the map of a board takes.
pub fn words(shape: &Shape) -> u32
    requires { IsShape shape.now }
    ensures { result ≡ words_of shape.now }
{
    frame_start(shape) + PAGE_WORDS * shape.frames
}
