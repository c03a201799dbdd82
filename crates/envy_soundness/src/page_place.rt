ghost use Rattle.std.specs.Prelude.{◌≡◌, ◌≢◌, ◌+◌, ◌*◌, ◌<◌, ℕ, true, IsTrue, Some, OnOk, slice_index};
ghost use Rattle.envy_base.specs.declared.fields.Slot.TheVariants.{Active};
ghost use Rattle.envy_base.specs.declared.fields.Undo.TheVariants.{Shadow};
ghost use Rattle.envy_map.specs.Codes.{IsPlace};
ghost use Rattle.envy_map.specs.Fields.{chart, with_fields, place as place_of, undo, slot};
ghost use Rattle.envy_map.specs.Writes.{Writes, with_place};
ghost use Rattle.envy_soundness.specs.Words.{kept};
ghost use Rattle.envy_soundness.specs.Sound.{IsSound, owned_by};
ghost use Rattle.envy_soundness.specs.May.{MayTake, HasPage, IsCopied};
ghost use Rattle.envy_soundness.specs.Power.{power_of};
ghost use Rattle.envy_soundness.specs.Same.{Same, SameDurable, Restored};

use envy_base::{Board, Off, Place};
use envy_map::set_place;

/// Lets the place of a page become another, which holds the words of the page. The array stays.
pub fn move_place<B: Board>(board: &mut B, page: u32, place: Place) -> Result<(), Off>
    requires sound { IsSound (chart (B.state board.old)) }
    requires page { page < (B.state board.old).shape.pages }
    requires place { IsPlace place }
    requires may { IsTrue (B.state board.old).on
        → MayTake (B.state board.old).shape (chart (B.state board.old)).fields page place }
    requires copy { IsTrue (B.state board.old).on
        → HasPage (chart (B.state board.old)).fields (B.state board.old).flash page place }

    ensures same { Same 0 0 (chart (B.state board.old)) (chart (B.state board.new)) }
    ensures fields { OnOk result (chart (B.state board.new) ≡ with_fields (chart (B.state board.old))
        (with_place page (Some place) (chart (B.state board.old)).fields)) }
    ensures power { (B.state board.new).on ≡ power_of result }
{
    set_place(board, page, place)
}

/// Lets the place of a page, which names the row that row `i` of the spare was copied from, become
/// row `i` of the spare. No active undo of the page names the row that it leaves. The array stays.
pub fn switch_place<B: Board>(board: &mut B, page: u32, spare: u32, i: u32) -> Result<(), Off>
    requires sound { IsSound (chart (B.state board.old)) }
    requires page { page < (B.state board.old).shape.pages }
    requires spare { spare < (B.state board.old).shape.segments }
    requires row { i < (B.state board.old).shape.rows }
    requires copied { IsTrue (B.state board.old).on
        → IsCopied (B.state board.old).shape (chart (B.state board.old)).fields spare i }
    requires here { let f = (chart (B.state board.old)).fields in
        IsTrue (B.state board.old).on → place_of f page ≡ Some (Place.Row (slice_index f.origins i)) }
    requires alone { let f = (chart (B.state board.old)).fields in
        IsTrue (B.state board.old).on → (t : ℕ) → undo f page ≡ Some (Shadow t (slice_index f.origins i))
        → slot f t ≢ Some Active }

    ensures same { Same 0 0 (chart (B.state board.old)) (chart (B.state board.new)) }
    ensures writes { let copy = spare * (B.state board.old).shape.rows + i in
        Writes (with_place page (Some (Place.Row copy))) (chart (B.state board.old)) result
        (chart (B.state board.new)) }
    ensures fields { let copy = spare * (B.state board.old).shape.rows + i in
        OnOk result (chart (B.state board.new) ≡ with_fields (chart (B.state board.old))
        (with_place page (Some (Place.Row copy)) (chart (B.state board.old)).fields)) }
    ensures power { (B.state board.new).on ≡ power_of result }
{
    let copy = spare * board.shape().rows + i;
    set_place(board, page, Place::Row(copy))
}

/// Lets the place of a page that a transaction owns become what the page's undo names. Loads then read
/// what a restart leaves of it.
pub fn restore_place<B: Board>(board: &mut B, page: u32, back: Place) -> Result<(), Off>
    requires sound { IsSound (chart (B.state board.old)) }
    requires page { page < (B.state board.old).shape.pages }
    requires place { IsPlace back }
    requires owned { let f = (chart (B.state board.old)).fields in
        IsTrue (B.state board.old).on → owned_by f.slots (undo f page) ≡ true }
    requires names { IsTrue (B.state board.old).on → kept (chart (B.state board.old)).fields page ≡ Some back }

    ensures durable { SameDurable 0 0 (chart (B.state board.old)) (chart (B.state board.new)) }
    ensures restored { OnOk result (Restored page (chart (B.state board.old)) (chart (B.state board.new))) }
    ensures fields { OnOk result (chart (B.state board.new) ≡ with_fields (chart (B.state board.old))
        (with_place page (Some back) (chart (B.state board.old)).fields)) }
    ensures power { (B.state board.new).on ≡ power_of result }
{
    set_place(board, page, back)
}
