ghost use Rattle.std.specs.Prelude.{◌≡◌, ◌≢◌, ◌+◌, ◌*◌, ◌<◌, ℕ, IsTrue, Some, OnOk, count_by, slice_index};
ghost use Rattle.envy_base.specs.declared.fields.Place.TheVariants.{Row};
ghost use Rattle.envy_base.specs.declared.fields.Slot.TheVariants.{Active};
ghost use Rattle.envy_map.specs.Codes.{IsUndo};
ghost use Rattle.envy_map.specs.Fields.{chart, with_fields, place, undo as undo_of, slot as slot_of};
ghost use Rattle.envy_map.specs.Writes.{with_undo};
ghost use Rattle.envy_soundness.specs.Sound.{IsSound, owned_by, slot_named};
ghost use Rattle.envy_soundness.specs.May.{MayUndo, MayRefer, HasKept, IsCopied, IsSettled};
ghost use Rattle.envy_soundness.specs.Power.{power_of};
ghost use Rattle.envy_soundness.specs.Same.{Same, SameWords};

use envy_base::{Board, Off, Undo};
use envy_map::set_undo;

/// Gives a page to an open transaction: the undo names the words that a restart leaves of the page now,
/// and goes on to leave. Fewer than `shadows` pages have an owner before. No word changes.
pub fn own_page<B: Board>(board: &mut B, page: u32, undo: Undo) -> Result<(), Off>
    requires sound { IsSound (chart (B.state board.old)) }
    requires page { page < (B.state board.old).shape.pages }
    requires undo { IsUndo undo }
    requires few { let f = (chart (B.state board.old)).fields in
        IsTrue (B.state board.old).on → count_by (owned_by f.slots) f.undos < (B.state board.old).shape.shadows }
    requires may { IsTrue (B.state board.old).on
        → MayUndo (B.state board.old).shape (chart (B.state board.old)).fields (B.state board.old).flash page undo }

    ensures same { SameWords 0 0 (chart (B.state board.old)) (chart (B.state board.new)) }
    ensures fields { OnOk result (chart (B.state board.new) ≡ with_fields (chart (B.state board.old))
        (with_undo page (Some undo) (chart (B.state board.old)).fields)) }
    ensures power { (B.state board.new).on ≡ power_of result }
{
    set_undo(board, page, undo)
}

/// Lets the undo of a page, which the slot's open transaction owns, name another row, which holds the
/// same words. The array stays.
pub fn move_undo<B: Board>(board: &mut B, page: u32, slot: u8, row: u32) -> Result<(), Off>
    requires sound { IsSound (chart (B.state board.old)) }
    requires page { page < (B.state board.old).shape.pages }
    requires undo { IsUndo (Undo.Shadow slot row) }
    requires owner { IsTrue (B.state board.old).on → slot_named (undo_of (chart (B.state board.old)).fields page)
        ≡ Some slot }
    requires active { IsTrue (B.state board.old).on → slot_of (chart (B.state board.old)).fields slot ≡ Some Active }
    requires may { IsTrue (B.state board.old).on
        → MayRefer (B.state board.old).shape (chart (B.state board.old)).fields page row }
    requires copy { IsTrue (B.state board.old).on
        → HasKept (chart (B.state board.old)).fields (B.state board.old).flash page (Some (Row row)) }

    ensures same { Same 0 0 (chart (B.state board.old)) (chart (B.state board.new)) }
    ensures fields { OnOk result (chart (B.state board.new) ≡ with_fields (chart (B.state board.old))
        (with_undo page (Some (Undo.Shadow slot row)) (chart (B.state board.old)).fields)) }
    ensures power { (B.state board.new).on ≡ power_of result }
{
    set_undo(board, page, Undo::Shadow { slot, row })
}

/// Lets the undo of a page, which names the row that row `i` of the spare was copied from, name row `i`
/// of the spare. The slot is active, and the page's place doesn't name the row that the undo leaves.
/// The array stays.
pub fn switch_undo<B: Board>(
    board: &mut B,
    page: u32,
    slot: u8,
    spare: u32,
    i: u32,
) -> Result<(), Off>
    requires sound { IsSound (chart (B.state board.old)) }
    requires page { page < (B.state board.old).shape.pages }
    requires slot { slot < 64 }
    requires spare { spare < (B.state board.old).shape.segments }
    requires row { i < (B.state board.old).shape.rows }
    requires copied { IsTrue (B.state board.old).on
        → IsCopied (B.state board.old).shape (chart (B.state board.old)).fields spare i }
    requires here { let f = (chart (B.state board.old)).fields in
        IsTrue (B.state board.old).on → undo_of f page ≡ Some (Undo.Shadow slot (slice_index f.origins i)) }
    requires active { IsTrue (B.state board.old).on → slot_of (chart (B.state board.old)).fields slot ≡ Some Active }
    requires alone { let f = (chart (B.state board.old)).fields in
        IsTrue (B.state board.old).on → place f page ≢ Some (Row (slice_index f.origins i)) }

    ensures same { Same 0 0 (chart (B.state board.old)) (chart (B.state board.new)) }
    ensures fields { let copy = spare * (B.state board.old).shape.rows + i in
        OnOk result (chart (B.state board.new) ≡ with_fields (chart (B.state board.old))
        (with_undo page (Some (Undo.Shadow slot copy)) (chart (B.state board.old)).fields)) }
    ensures power { (B.state board.new).on ≡ power_of result }
{
    let copy = spare * board.shape().rows + i;
    set_undo(board, page, Undo::Shadow { slot, row: copy })
}

/// Clears the undo of a page that a restart reads at its place. No word changes.
pub fn clear_settled_undo<B: Board>(board: &mut B, page: u32) -> Result<(), Off>
    requires sound { IsSound (chart (B.state board.old)) }
    requires page { page < (B.state board.old).shape.pages }
    requires settled { IsTrue (B.state board.old).on → IsSettled (chart (B.state board.old)).fields page }
    ensures same { SameWords 0 0 (chart (B.state board.old)) (chart (B.state board.new)) }
    ensures fields { OnOk result (chart (B.state board.new) ≡ with_fields (chart (B.state board.old))
        (with_undo page (Some Undo.Clear) (chart (B.state board.old)).fields)) }
    ensures power { (B.state board.new).on ≡ power_of result }
{
    set_undo(board, page, Undo::Clear)
}
