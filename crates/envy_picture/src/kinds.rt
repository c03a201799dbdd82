ghost use Rattle.std.specs.Prelude.{◌≡◌, ◌*◌, ◌<◌, IfOk};
ghost use Rattle.envy_soundness.specs.Power.{power_of};
ghost use Rattle.envy_soundness.specs.Sound.{IsSound};
ghost use Rattle.envy_map.specs.Fields.{chart};
ghost use Rattle.envy_picture.specs.Kinds.{IsKind, kind_of};

use envy_base::{Board, Off};
use envy_map::fill;
use envy_soundness::{Kept, row_owner};

/// What a row of flash is.
#[derive(Clone, Copy)]
pub enum RowKind {
    /// Not claimed since its segment was erased.
    Free,
    /// A load of this page reads it.
    Kept { page: u32 },
    /// The transaction of the slot owns this page, whose words of before are here.
    Shadow { page: u32, slot: u8 },
    /// Claimed, and no page names it.
    Dead,
}

// What a row is that is kept so.
fn kind_of(kept: Kept) -> RowKind
    ensures { result ≡ kind_of kept }
{
    let Kept { page, undo } = kept;
    match undo {
        None => RowKind::Kept { page },
        Some(slot) => RowKind::Shadow { page, slot },
    }
}

/// What a row is. It reads the fields of one page and one segment.
pub fn row_kind<B: Board>(board: &B, row: u32) -> Result<RowKind, Off>
    requires sound { IsSound (chart (B.state board.now)) }
    requires row { row < (B.state board.now).shape.segments * (B.state board.now).shape.rows }
    ensures kind { IfOk result (IsKind (B.state board.now).shape (chart (B.state board.now)).fields row) }
    ensures power { (B.state board.now).on ≡ power_of result }
{
    if let Some(kept) = row_owner(board, row)? {
        return Ok(kind_of(kept));
    }
    let rows = board.shape().rows;
    if row % rows < fill(board, row / rows)? {
        Ok(RowKind::Dead)
    } else {
        Ok(RowKind::Free)
    }
}
