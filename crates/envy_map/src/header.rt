ghost use Rattle.std.specs.Prelude.{◌≡◌, ◌↔◌, ◌==◌, false, IsTrue, MatchResult, if◌then◌else◌};
ghost use Rattle.envy_base.specs.State.{Reads};
ghost use Rattle.envy_map.specs.Fields.{chart, narrowed, shape_of, IsVersion, IsFormatted};

use crate::region::{MAGIC_AT, RESERVES_AT, SIZES_START, SUMS_AT, VERSION_AT};
use envy_base::{Board, Off, Shape};

/// The first word of a formatted board: the text `eNVyFLSH`, its first letter in the highest byte.
pub const MAGIC: u64 = 0x654E_5679_464C_5348;

/// Whether words 1, 6 and 7 are those of a map: version 1 or 2, or 3 with reserves or sums.
fn is_version(version: u64, reserves: u64, sums: u64) -> bool
    ensures { IsTrue result ↔ IsVersion version reserves sums }
{
    version == 1 || version == 2 || version == 3 && (reserves != 0 || sums != 0)
}

/// Whether the board was formatted: its first word is `MAGIC`, and its version is 1 or 2, or it is 3 with reserves
/// or sums.
pub fn is_formatted<B: Board>(board: &B) -> Result<bool, Off>
    ensures { MatchResult result
        (λ formatted. IsTrue (B.state board.now).on
        × (IsTrue formatted ↔ IsFormatted (chart (B.state board.now)).fields))
        (λ _. (B.state board.now).on ≡ false) }
{
    let magic = board.get(MAGIC_AT)?;
    let version = board.get(VERSION_AT)?;
    let reserves = board.get(RESERVES_AT)?;
    let sums = board.get(SUMS_AT)?;
    Ok(magic == MAGIC && is_version(version, reserves, sums))
}

/// The version of the map. Under 1 there are 16 slots, under 2 and 3 there are 64.
pub fn version<B: Board>(board: &B) -> Result<u64, Off>
    ensures { Reads (B.state board.now) (chart (B.state board.now)).fields.version result }
{
    board.get(VERSION_AT)
}

/// A word as a number of 32 bits. One that is larger is the largest, which no board has.
fn narrow(word: u64) -> u32
    ensures { result ≡ narrowed word }
{
    word.min(u32::MAX as u64) as u32
}

/// What word 6 or 7 keeps: it counts only under version 3.
fn extra(version: u64, word: u64) -> u32
    ensures { result ≡ (if version == 3 then narrowed word else 0) }
{
    if version == 3 { narrow(word) } else { 0 }
}

/// The shape that the board was formatted with, as the map keeps it. It has reserves and sums only under version 3.
pub fn kept_shape<B: Board>(board: &B) -> Result<Shape, Off>
    ensures { Reads (B.state board.now) (shape_of (chart (B.state board.now)).fields) result }
{
    let flash = board.get(SIZES_START)?;
    let array = board.get(SIZES_START + 1)?;
    let pools = board.get(SIZES_START + 2)?;
    let version = board.get(VERSION_AT)?;
    let reserves = board.get(RESERVES_AT)?;
    let sums = board.get(SUMS_AT)?;
    Ok(Shape {
        segments: (flash / 0x1_0000_0000) as u32,
        rows: (flash % 0x1_0000_0000) as u32,
        pages: (array / 0x1_0000_0000) as u32,
        shadows: (array % 0x1_0000_0000) as u32,
        frames: (pools / 0x1_0000_0000) as u32,
        entries: (pools % 0x1_0000_0000) as u32,
        reserves: extra(version, reserves),
        sums: extra(version, sums),
    })
}
