ghost use Rattle.std.specs.Prelude.{◌≡◌, ◌*◌, ◌<◌, ◌+◌, ◌-◌, ℕ, Option, IsTrue, None, Some, OnOk, IfOk};
ghost use Rattle.envy_base.specs.declared.fields.Job.TheVariants.{Copy};
ghost use Rattle.envy_base.specs.declared.fields.Undo.TheVariants.{Clear};
ghost use Rattle.envy_map.specs.Fields.{chart, undo};
ghost use Rattle.envy_soundness.specs.Jobs.{IsCopiedWhole};
ghost use Rattle.envy_soundness.specs.May.{IsCopied};
ghost use Rattle.envy_soundness.specs.Naming.{AreParted};
ghost use Rattle.envy_soundness.specs.Power.{power_of};
ghost use Rattle.envy_soundness.specs.Same.{Same};
ghost use Rattle.envy_soundness.specs.Sound.{IsSound, IsSpare};
ghost use Rattle.envy_reloc.specs.Keeping.{PartsAgree, PartsFollow};
ghost use Rattle.envy_reloc.specs.Settling.{KeepsOthers};
ghost use Rattle.envy_reloc.specs.Switching.{SwitchesRow, SwitchesAll};
ghost use Rattle.envy_reloc.specs.declared.row_switch.Switched.{Switched};

use crate::notes::follow;
use envy_base::{Board, Off};
use envy_map::origin;
use envy_soundness::{Kept, begin_switch, row_owner, switch_place, switch_undo};
use envy_space::Space;
use envy_table::Cache;

/// A row that was kept, and who kept it.
#[derive(Clone, Copy, Debug, PartialEq, Eq)]
pub(crate) struct Switched {
    pub(crate) row: u32,
    pub(crate) kept: Kept,
}

/// Switches the page that keeps the row that row `i` of the spare was copied from, if one does, to row `i`
/// of the spare.
#[inline(always)]
pub(crate) fn switch_row<B: Board>(
    board: &mut B,
    spare: u32,
    i: u32,
) -> Result<Option<Switched>, Off>
    requires sound { IsSound (chart (B.state board.old)) }
    requires on { IsTrue (B.state board.old).on }
    requires parted { AreParted (chart (B.state board.old)).fields.slots (chart (B.state board.old)).fields.undos
        (chart (B.state board.old)).fields.places }
    requires row { i < (B.state board.old).shape.rows }
    requires spare { spare < (B.state board.old).shape.segments }
    requires copied { IsCopied (B.state board.old).shape (chart (B.state board.old)).fields spare i }

    ensures same { Same 0 0 (chart (B.state board.old)) (chart (B.state board.new)) }
    ensures flash { OnOk result ((B.state board.new).flash ≡ (B.state board.old).flash) }
    ensures others { ((p : ℕ) → p < (B.state board.old).shape.pages
        → undo (chart (B.state board.old)).fields p ≡ Some Clear)
        → KeepsOthers (chart (B.state board.old)).fields (chart (B.state board.new)).fields }
    ensures switches { IfOk result (λ switched.
        SwitchesRow (B.state board.old).shape (chart (B.state board.old)).fields spare i switched
        (chart (B.state board.new)).fields) }
    ensures power { (B.state board.new).on ≡ power_of result }
{
    let row = origin(board, i)?;
    let Some(kept) = row_owner(board, row)? else {
        return Ok(None);
    };
    match kept.undo {
        None => switch_place(board, kept.page, spare, i)?,
        Some(slot) => switch_undo(board, kept.page, slot, spare, i)?,
    }
    Ok(Some(Switched { row, kept }))
}

/// The same, and lets the pool and the cache follow.
fn switch_noted<B: Board>(
    board: &mut B,
    space: &mut Space,
    cache: &mut Cache,
    spare: u32,
    i: u32,
) -> Result<(), Off>
    requires sound { IsSound (chart (B.state board.old)) }
    requires on { IsTrue (B.state board.old).on }
    requires agree { PartsAgree (chart (B.state board.old)) space.old cache.old.entries }
    requires row { i < (B.state board.old).shape.rows }
    requires spare { spare < (B.state board.old).shape.segments }
    requires copied { IsCopied (B.state board.old).shape (chart (B.state board.old)).fields spare i }

    ensures same { Same 0 0 (chart (B.state board.old)) (chart (B.state board.new)) }
    ensures follow { PartsFollow (chart (B.state board.new)) space.old space.new cache.old cache.new }
    ensures flash { OnOk result ((B.state board.new).flash ≡ (B.state board.old).flash) }
    ensures switches { OnOk result ((switched : Option Switched)
        × SwitchesRow (B.state board.old).shape (chart (B.state board.old)).fields spare i switched
        (chart (B.state board.new)).fields) }
    ensures power { (B.state board.new).on ≡ power_of result }
{
    let copy = spare * board.shape().rows + i;
    let Some(switched) = switch_row(board, spare, i)? else {
        return Ok(());
    };
    follow(space, cache, switched.row, switched.kept, copy);
    Ok(())
}

/// Switches each kept row of a segment to its copy in the spare.
pub(crate) fn switch_segment<B: Board>(
    board: &mut B,
    space: &mut Space,
    cache: &mut Cache,
    segment: u32,
    spare: u32,
) -> Result<(), Off>
    requires sound { IsSound (chart (B.state board.old)) }
    requires on { IsTrue (B.state board.old).on }
    requires agree { PartsAgree (chart (B.state board.old)) space.old cache.old.entries }
    requires segment { segment < (B.state board.old).shape.segments }
    requires spare { IsSpare (B.state board.old).shape (chart (B.state board.old)).fields.positions spare }
    requires copying { (chart (B.state board.old)).fields.job ≡ Some (Copy segment) }
    requires copied { IsCopiedWhole (B.state board.old).shape (chart (B.state board.old)).fields
        (B.state board.old).flash segment }

    ensures same { Same 0 0 (chart (B.state board.old)) (chart (B.state board.new)) }
    ensures follow { PartsFollow (chart (B.state board.new)) space.old space.new cache.old cache.new }
    ensures flash { OnOk result ((B.state board.new).flash ≡ (B.state board.old).flash) }
    ensures switches { OnOk result
        (SwitchesAll (B.state board.old).shape segment spare (chart (B.state board.old)).fields
        (chart (B.state board.new)).fields) }
    ensures power { (B.state board.new).on ≡ power_of result }
{
    begin_switch(board, segment)?;
    for i in 0..space.fill(spare) {
        switch_noted(board, space, cache, spare, i)?;
    }
    Ok(())
}
