ghost use Rattle.std.specs.Prelude.{◌≡◌, ◌+◌, ◌*◌, ◌<◌, true, false, IsTrue, Some, OnOk, MatchResult};
ghost use Rattle.envy_map.specs.Fields.{chart, with_fields, place, undo};
ghost use Rattle.envy_map.specs.Writes.{Writes, with_frame, with_frame_word, with_place};
ghost use Rattle.envy_soundness.specs.Sound.{IsSound, owned_by};
ghost use Rattle.envy_soundness.specs.May.{IsUnnamed, HasChanged};
ghost use Rattle.envy_soundness.specs.Power.{power_of};
ghost use Rattle.envy_soundness.specs.Same.{Counted, Wears, Same, Stored, Interrupted, Shadowed, Dropped};

use envy_base::{Board, Off, PAGE_WORDS, Page, Place};
use envy_map::{set_frame_word, set_place, write_frame};

/// Fills a frame that no place names, from its first word. The array stays as it is.
pub fn write_free_frame<B: Board>(board: &mut B, frame: u32, page: &Page) -> Result<(), Off>
    requires sound { IsSound (chart (B.state board.old)) }
    requires frame { frame < (B.state board.old).shape.frames }
    requires unnamed { IsTrue (B.state board.old).on → IsUnnamed (chart (B.state board.old)).fields frame }

    ensures same { Same 0 0 (chart (B.state board.old)) (chart (B.state board.new)) }
    ensures fields { OnOk result (chart (B.state board.new) ≡ with_fields (chart (B.state board.old))
        (with_frame frame page.now PAGE_WORDS (chart (B.state board.old)).fields)) }
    ensures places { (chart (B.state board.new)).fields.places ≡ (chart (B.state board.old)).fields.places }
    ensures power { (B.state board.new).on ≡ power_of result }
{
    write_frame(board, frame, page)
}

/// Writes word `i`, of 32, of the frame that holds a page. Loads read the new word; a restart does
/// too where no transaction owns the page, and else it takes the change back.
#[inline(always)]
pub fn change_frame_word<B: Board>(
    board: &mut B,
    page: u32,
    frame: u32,
    i: u32,
    word: u64,
) -> Result<(), Off>
    requires sound { IsSound (chart (B.state board.old)) }
    requires frame { frame < (B.state board.old).shape.frames }
    requires place { i < PAGE_WORDS }
    requires here { IsTrue (B.state board.old).on
        → place (chart (B.state board.old)).fields page ≡ Some (Place.Frame frame) }

    ensures free { let old = chart (B.state board.old) in
        let new = chart (B.state board.new) in
        (IsTrue old.on → owned_by old.fields.slots (undo old.fields page) ≡ false)
        → MatchResult result (λ _. Stored 0 0 old new (PAGE_WORDS * page + i) word) (λ _.
        Interrupted 0 0 old new (PAGE_WORDS * page + i) word) }
    ensures owned { let old = chart (B.state board.old) in
        let new = chart (B.state board.new) in
        (IsTrue old.on → owned_by old.fields.slots (undo old.fields page) ≡ true)
        → MatchResult result (λ _. Shadowed 0 0 old new (PAGE_WORDS * page + i) word) (λ _. Dropped 0 0 old new) }
    ensures counted { Counted 0 0 (chart (B.state board.old)) (chart (B.state board.new)) }
    ensures worn { Wears (chart (B.state board.old)) (chart (B.state board.new)) }
    ensures writes { Writes (with_frame_word frame i word) (chart (B.state board.old)) result
        (chart (B.state board.new)) }
    ensures power { (B.state board.new).on ≡ power_of result }
{
    set_frame_word(board, frame, i, word)
}

/// Lets the place of a page become a frame that no other names and that holds the page's words, with
/// word `i` changed. Loads read the new word; a restart does too where no transaction owns the page,
/// and else it takes the change back.
pub fn move_to_frame<B: Board>(
    board: &mut B,
    page: u32,
    frame: u32,
    i: u32,
    word: u64,
) -> Result<(), Off>
    requires sound { IsSound (chart (B.state board.old)) }
    requires page { page < (B.state board.old).shape.pages }
    requires frame { frame < (B.state board.old).shape.frames }
    requires place { i < PAGE_WORDS }
    requires unnamed { IsTrue (B.state board.old).on → IsUnnamed (chart (B.state board.old)).fields frame }
    requires copy { IsTrue (B.state board.old).on
        → HasChanged (chart (B.state board.old)).fields (B.state board.old).flash page (Place.Frame frame) i word }

    ensures free { let old = chart (B.state board.old) in
        let new = chart (B.state board.new) in
        (IsTrue old.on → owned_by old.fields.slots (undo old.fields page) ≡ false)
        → MatchResult result (λ _. Stored 0 0 old new (PAGE_WORDS * page + i) word) (λ _.
        Interrupted 0 0 old new (PAGE_WORDS * page + i) word) }
    ensures owned { let old = chart (B.state board.old) in
        let new = chart (B.state board.new) in
        (IsTrue old.on → owned_by old.fields.slots (undo old.fields page) ≡ true)
        → MatchResult result (λ _. Shadowed 0 0 old new (PAGE_WORDS * page + i) word) (λ _. Dropped 0 0 old new) }
    ensures counted { Counted 0 0 (chart (B.state board.old)) (chart (B.state board.new)) }
    ensures worn { Wears (chart (B.state board.old)) (chart (B.state board.new)) }
    ensures writes { Writes (with_place page (Some (Place.Frame frame))) (chart (B.state board.old)) result
        (chart (B.state board.new)) }
    ensures power { (B.state board.new).on ≡ power_of result }
{
    set_place(board, page, Place::Frame(frame))
}
