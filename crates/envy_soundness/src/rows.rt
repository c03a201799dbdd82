ghost use Rattle.std.specs.Prelude.{◌≡◌, ◌≢◌, ◌*◌, ◌<◌, ℕ, IsTrue, IsErrOf, OnOk, IfOk, length};
ghost use Rattle.envy_base.specs.Counting.{up, Tally};
ghost use Rattle.envy_base.specs.State.{row_of, IsOnes};
ghost use Rattle.envy_map.specs.Fields.{chart};
ghost use Rattle.envy_soundness.specs.Claims.{MayProgram};
ghost use Rattle.envy_soundness.specs.Naming.{Keeps};
ghost use Rattle.envy_soundness.specs.Power.{power_of, power_after};
ghost use Rattle.envy_soundness.specs.Same.{Same};
ghost use Rattle.envy_soundness.specs.Sound.{IsSound};

use crate::erase::one_more;
use crate::program::program_row;
use envy_base::{Board, Off, PAGE_LENGTH, PAGE_WORDS, Page, Place, Slot, Trouble, Undo};
use envy_map::{back, place, slot, undo};

/// The page that keeps a row: by its place, or else by its undo, whose slot is active.
#[derive(Clone, Copy, Debug, PartialEq, Eq)]
pub struct Kept {
    pub page: u32,
    /// The slot of the undo that names the row, where the place doesn't.
    pub undo: Option<u8>,
}

/// Who keeps a row, or `None` where it isn't kept. Only the page that the row was claimed for can name it.
#[inline(always)]
pub fn row_owner<B: Board>(board: &B, row: u32) -> Result<Option<Kept>, Off>
    requires sound { IsSound (chart (B.state board.now)) }
    requires row { row < (B.state board.now).shape.segments * (B.state board.now).shape.rows }
    ensures keeps { IfOk result (λ found.
        Keeps (B.state board.now).shape (chart (B.state board.now)).fields row found) }
    ensures power { (B.state board.now).on ≡ power_of result }
{
    let page = back(board, row)?;
    if place(board, page)? == Place::Row(row) {
        return Ok(Some(Kept { page, undo: None }));
    }
    let Undo::Shadow {
        slot: t,
        row: shadow,
    } = undo(board, page)?
    else {
        return Ok(None);
    };
    if shadow == row && slot(board, t)? == Slot::Active {
        return Ok(Some(Kept {
            page,
            undo: Some(t),
        }));
    }
    Ok(None)
}

/// The 32 words of a row.
pub fn words_of_row<B: Board>(board: &B, row: u32) -> Result<Page, Off>
    requires { row < (B.state board.now).shape.segments * (B.state board.now).shape.rows }
    ensures words { IfOk result (λ words. words ≡ row_of (B.state board.now) row) }
    ensures power { (B.state board.now).on ≡ power_of result }
{
    let mut words = [0; PAGE_LENGTH];
    if !board.powered() {
        return Err(Off);
    }
    for i in 0..PAGE_WORDS {
        words[i as usize] = board.read(row, i)?;
    }
    Ok(words)
}

/// Programs an erased row that no page names, and counts the program, which has begun at each exit.
pub fn program_counted<B: Board>(
    board: &mut B,
    row: u32,
    words: &Page,
    count: &mut u64,
) -> Result<(), Trouble>
    requires sound { IsSound (chart (B.state board.old)) }
    requires on { IsTrue (B.state board.old).on }
    requires row { row < (B.state board.old).shape.segments * (B.state board.old).shape.rows }
    requires may { MayProgram (B.state board.old).shape (chart (B.state board.old)).fields row }
    requires erased { IsOnes (row_of (B.state board.old) row) }

    ensures same { Same 1 0 (chart (B.state board.old)) (chart (B.state board.new)) }
    ensures fields { (chart (B.state board.new)).fields ≡ (chart (B.state board.old)).fields }
    ensures written { OnOk result (row_of (B.state board.new) row ≡ words.now) }
    ensures others { (q : ℕ) → q ≢ row → row_of (B.state board.new) q ≡ row_of (B.state board.old) q }
    ensures counts { (count.new ≡ up count.old)
        × Tally (B.state board.old).begun count.old (B.state board.new).begun count.new }
    ensures power { (B.state board.new).on ≡ power_after result }
    ensures bad { IsErrOf result Trouble.Bad → (B.state board.new).bads ≡ up (B.state board.old).bads }
{
    let answer = program_row(board, row, words);
    *count = one_more(*count);
    answer
}
