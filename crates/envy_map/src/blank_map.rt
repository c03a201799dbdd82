ghost use Rattle.std.specs.Prelude.{◌+◌, ◌/◌, ◌<◌};
ghost use Rattle.envy_base.specs.Map.{table_at, undo_at};
ghost use Rattle.envy_base.specs.State.{Puts};
ghost use Rattle.envy_map.specs.Fields.{chart};
ghost use Rattle.envy_map.specs.Writes.{Writes, with_magic, with_version, with_size, with_reserves, with_sums, with_places_clear, with_undos_clear};

use crate::region::{
    MAGIC_AT, RESERVES_AT, SIZES_START, SUMS_AT, VERSION_AT, table_start, undo_start,
};
use envy_base::{Board, Off};

/// Writes the first word of the map, which is `MAGIC` on a formatted board.
pub fn set_magic<B: Board>(board: &mut B, word: u64) -> Result<(), Off>
    ensures writes { Writes (with_magic word) (chart (B.state board.old)) result (chart (B.state board.new)) }
    ensures put { Puts (B.state board.old) 0 word result (B.state board.new) }
{
    board.put(MAGIC_AT, word)
}

/// Writes the version of the map.
pub fn set_version<B: Board>(board: &mut B, version: u64) -> Result<(), Off>
    ensures writes { Writes (with_version version) (chart (B.state board.old)) result (chart (B.state board.new)) }
    ensures put { Puts (B.state board.old) 1 version result (B.state board.new) }
{
    board.put(VERSION_AT, version)
}

/// Writes word `i`, of 3, of those that keep the shape.
pub fn set_size<B: Board>(board: &mut B, i: u32, word: u64) -> Result<(), Off>
    requires { i < 3 }
    ensures writes { Writes (with_size i word) (chart (B.state board.old)) result (chart (B.state board.new)) }
    ensures put { Puts (B.state board.old) (2 + i) word result (B.state board.new) }
{
    board.put(SIZES_START + i, word)
}

/// Writes how many positions are in reserve, which a map of version 3 keeps.
pub fn set_reserves<B: Board>(board: &mut B, count: u32) -> Result<(), Off>
    ensures writes { Writes (with_reserves count) (chart (B.state board.old)) result (chart (B.state board.new)) }
    ensures put { Puts (B.state board.old) 6 count result (B.state board.new) }
{
    board.put(RESERVES_AT, count as u64)
}

/// Writes whether rows have sums, which a map of version 3 keeps.
pub fn set_sums<B: Board>(board: &mut B, kept: u32) -> Result<(), Off>
    ensures writes { Writes (with_sums kept) (chart (B.state board.old)) result (chart (B.state board.new)) }
    ensures put { Puts (B.state board.old) 7 kept result (B.state board.new) }
{
    board.put(SUMS_AT, kept as u64)
}

/// Makes the places of both pages of word `i` of the table absent, by one write of 0.
pub fn clear_places<B: Board>(board: &mut B, i: u32) -> Result<(), Off>
    requires { i < ((B.state board.old).shape.pages + 1) / 2 }
    ensures writes { Writes (with_places_clear i) (chart (B.state board.old)) result (chart (B.state board.new)) }
    ensures put { Puts (B.state board.old) (table_at (B.state board.old).shape + i) 0 result (B.state board.new) }
{
    let at = table_start(&board.shape());
    board.put(at + i, 0)
}

/// Makes the undos of both pages of word `i` of their region clear, by one write of 0.
pub fn clear_undos<B: Board>(board: &mut B, i: u32) -> Result<(), Off>
    requires { i < ((B.state board.old).shape.pages + 1) / 2 }
    ensures writes { Writes (with_undos_clear i) (chart (B.state board.old)) result (chart (B.state board.new)) }
    ensures put { Puts (B.state board.old) (undo_at (B.state board.old).shape + i) 0 result (B.state board.new) }
{
    let at = undo_start(&board.shape());
    board.put(at + i, 0)
}
