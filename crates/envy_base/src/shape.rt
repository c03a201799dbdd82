ghost use Rattle.std.specs.Prelude.{◌≡◌, ◌⊎◌, ◌↔◌, ◌+◌, ◌≤◌, OnOk};
ghost use Rattle.envy_base.specs.Shape.{IsShape, all_positions_of, checked, checked_within, positions_of, version_of};

use crate::PAGE_WORDS;

/// The most rows of a board: a place and an undo of the map hold a row below it in 32 bits.
pub const MOST_ROWS: u32 = 16_777_216;

/// The most words of an array.
pub const MOST_WORDS: u32 = PAGE_WORDS * MOST_ROWS;

/// The sizes of a board.
#[derive(Clone, Copy, Debug, PartialEq, Eq)]
pub struct Shape {
    /// Segments of flash, each of which is erased as one: 4 to 4,096.
    pub segments: u32,
    /// Rows of a segment, each of one page: 2 to 65,536.
    pub rows: u32,
    /// Pages of the array, each of 32 words: at least 1.
    pub pages: u32,
    /// Pages that open transactions may own together.
    pub shadows: u32,
    /// Frames of SRAM, each of one page: 2 to 65,536.
    pub frames: u32,
    /// Entries of the translation cache: 1 to 65,536.
    pub entries: u32,
    /// Positions in reserve, whose segments stand in for those that wear out: at most `segments` - 4.
    pub reserves: u32,
    /// Whether each row has a sum: 0, since no board keeps them yet.
    pub sums: u32,
}

/// The first rule that a shape breaks.
#[derive(Clone, Copy, Debug, PartialEq, Eq)]
pub enum ShapeFault {
    /// Fewer than 4 segments, or more than 4,096.
    Segments,
    /// More reserves than `segments` - 4.
    Reserves,
    /// Rows with sums, which no board keeps yet.
    Sums,
    /// Fewer than 2 rows to a segment, or more than 65,536.
    Rows,
    /// No pages.
    Pages,
    /// Fewer than 2 frames, or more than 65,536.
    Frames,
    /// No cache entries, or more than 65,536.
    Entries,
    /// Pages and shadows exceed the rows of all segments but two and those in reserve.
    Share,
    /// More rows than may be: 16,777,216, or fewer where the caller says so.
    Total,
}

impl Shape {
    /// Answers the first rule that fails, in the order in which `ShapeFault` lists them.
    pub fn check(&self) -> Result<(), ShapeFault>
        ensures table { result ≡ checked self.now }
        ensures sizes { OnOk result (IsShape self.now) }
    {
        self.check_within(MOST_ROWS)
    }

    /// Answers the first rule that fails, for a board of at most so many rows.
    #[tactic(auto, unfolding(crate::specs::Shape::checked_within))]
    pub fn check_within(&self, most: u32) -> Result<(), ShapeFault>
        requires most { most ≤ MOST_ROWS }
        ensures table { result ≡ checked_within most self.now }
        ensures sizes { OnOk result (IsShape self.now) }
    {
        let shape = *self;
        if shape.segments < 4 || shape.segments > 4096 {
            return Err(ShapeFault::Segments);
        }
        if shape.reserves > shape.segments - 4 {
            return Err(ShapeFault::Reserves);
        }
        if shape.sums != 0 {
            return Err(ShapeFault::Sums);
        }
        if shape.rows < 2 || shape.rows > 65536 {
            return Err(ShapeFault::Rows);
        }
        if shape.pages == 0 {
            return Err(ShapeFault::Pages);
        }
        if shape.frames < 2 || shape.frames > 65536 {
            return Err(ShapeFault::Frames);
        }
        if shape.entries == 0 || shape.entries > 65536 {
            return Err(ShapeFault::Entries);
        }
        if shape.pages as u64 + shape.shadows as u64
            > (shape.segments - 2 - shape.reserves) as u64 * shape.rows as u64
        {
            return Err(ShapeFault::Share);
        }
        if shape.segments * shape.rows > most {
            return Err(ShapeFault::Total);
        }
        Ok(())
    }
}

/// How many positions a board of this shape has: one for each segment but the spare.
pub fn all_positions_of(shape: &Shape) -> u32
    requires some { 1 ≤ shape.now.segments }
    ensures { result ≡ all_positions_of shape.now }
{
    shape.segments - 1
}

/// How many positions are in use: all but the last ones, which are in reserve.
pub fn positions_of(shape: &Shape) -> u32
    requires some { 1 + shape.now.reserves ≤ shape.now.segments }
    ensures { result ≡ positions_of shape.now }
{
    all_positions_of(shape) - shape.reserves
}

/// The version of the map that formatting gives a board of this shape: 2 without reserves and sums, else 3.
#[tactic(auto, unfolding(crate::specs::Shape::version_of))]
pub fn version_of(shape: &Shape) -> u64
    ensures value { result ≡ version_of shape.now }
    ensures two { result ≡ 2 ↔ (shape.now.reserves ≡ 0) × (shape.now.sums ≡ 0) }
    ensures known { (result ≡ 2) ⊎ (result ≡ 3) }
{
    if shape.reserves == 0 && shape.sums == 0 {
        2
    } else {
        3
    }
}
