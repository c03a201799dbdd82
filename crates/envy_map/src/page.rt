ghost use Rattle.std.specs.Prelude.{◌≡◌, ◌≢◌, ◌+◌, ◌/◌, ◌<◌, Some, None, IfOk, slice_index};
ghost use Rattle.envy_base.specs.Map.{table_at, undo_at};
ghost use Rattle.envy_base.specs.State.{Puts};
ghost use Rattle.envy_map.specs.Codes.{IsPlace, IsUndo, place_code, undo_code, with_half};
ghost use Rattle.envy_map.specs.Fields.{chart, place as place_of_page, undo as undo_of_page};
ghost use Rattle.envy_map.specs.Writes.{Gives, Writes, with_place, with_undo};

use crate::code::{encode_place, encode_undo};
use crate::half::set_half;
use crate::probe;
use crate::region::{table_start, undo_start};
use envy_base::{Board, Off, Place, Undo};

/// The place of a page.
pub fn place<B: Board>(board: &B, page: u32) -> Result<Place, Off>
    requires page { page < (B.state board.now).shape.pages }
    requires decodes { place_of_page (chart (B.state board.now)).fields page ≢ None }
    ensures value { Gives (chart (B.state board.now)) (place_of_page (chart (B.state board.now)).fields page) result }
    ensures fits { IfOk result IsPlace }
{
    match probe::place(board, page)? {
        Some(place) => Ok(place),
        None => unreachable!(),
    }
}

/// Writes the place of a page.
pub fn set_place<B: Board>(board: &mut B, page: u32, place: Place) -> Result<(), Off>
    requires page { page < (B.state board.old).shape.pages }
    requires place { IsPlace place }
    ensures writes { Writes (with_place page (Some place)) (chart (B.state board.old)) result
        (chart (B.state board.new)) }
    ensures put { let word = table_at (B.state board.old).shape + page / 2 in
        Puts (B.state board.old) word (with_half (slice_index (B.state board.old).sram word) page (place_code place))
        result (B.state board.new) }
{
    let at = table_start(&board.shape());
    set_half(board, at, page, encode_place(place))
}

/// The undo of a page.
pub fn undo<B: Board>(board: &B, page: u32) -> Result<Undo, Off>
    requires page { page < (B.state board.now).shape.pages }
    requires decodes { undo_of_page (chart (B.state board.now)).fields page ≢ None }
    ensures value { Gives (chart (B.state board.now)) (undo_of_page (chart (B.state board.now)).fields page) result }
    ensures fits { IfOk result IsUndo }
{
    match probe::undo(board, page)? {
        Some(undo) => Ok(undo),
        None => unreachable!(),
    }
}

/// Writes the undo of a page.
pub fn set_undo<B: Board>(board: &mut B, page: u32, undo: Undo) -> Result<(), Off>
    requires page { page < (B.state board.old).shape.pages }
    requires undo { IsUndo undo }
    ensures writes { Writes (with_undo page (Some undo)) (chart (B.state board.old)) result
        (chart (B.state board.new)) }
    ensures put { let word = undo_at (B.state board.old).shape + page / 2 in
        Puts (B.state board.old) word (with_half (slice_index (B.state board.old).sram word) page (undo_code undo))
        result (B.state board.new) }
{
    let at = undo_start(&board.shape());
    set_half(board, at, page, encode_undo(undo))
}
