ghost use Rattle.std.specs.Prelude.{◌≡◌, ◌⊎◌, ◌<◌, ◌-◌, ℕ, false, IsTrue, Some, OnOk, OnErr, IfOk, length, slice_index, slice_index_or};
ghost use Rattle.envy_base.specs.declared.fields.Job.TheVariants.{Idle, Switch, Erase};
ghost use Rattle.envy_base.specs.declared.fields.Undo.TheVariants.{Clear};
ghost use Rattle.envy_map.specs.Fields.{chart, undo};
ghost use Rattle.envy_soundness.specs.Power.{power_of};
ghost use Rattle.envy_soundness.specs.Same.{Same};
ghost use Rattle.envy_soundness.specs.Sound.{IsSound, IsPlaced, IsSpare};
ghost use Rattle.envy_reloc.specs.Settling.{Finds, KeepsOthers, Finishes, Settles};
ghost use Rattle.envy_base.specs.Shape.{all_positions_of, positions_of};

use crate::Reloc;
use crate::row_switch::switch_row;
use envy_base::{Board, Job, Off, all_positions_of, positions_of};
use envy_map::{fill, job, segment_at};
use envy_soundness::{begin_erase, replace_segment};

/// The position in use of a segment, if it stands at one.
fn find_position<B: Board>(board: &B, segment: u32) -> Result<Option<u32>, Off>
    requires sound { IsSound (chart (B.state board.now)) }
    requires segment { segment < (B.state board.now).shape.segments }
    ensures finds { IfOk result (λ found.
        Finds (B.state board.now).shape (chart (B.state board.now)).fields.positions segment found) }
    ensures off { OnErr result ((B.state board.now).on ≡ false) }
{
    for position in 0..positions_of(&board.shape()) {
        if segment_at(board, position)? == segment {
            return Ok(Some(position));
        }
    }
    Ok(None)
}

/// Which segments stand at positions.
fn placed_segments<B: Board>(board: &B) -> Result<[bool; 4096], Off>
    requires sound { IsSound (chart (B.state board.now)) }
    ensures long { IfOk result (λ placed. length placed ≡ 4096) }
    ensures placed { IfOk result (λ placed. (s : ℕ) → IsTrue (slice_index_or placed s false)
        → (k : ℕ) × (k < all_positions_of (B.state board.now).shape)
        × (slice_index (chart (B.state board.now)).fields.positions k ≡ s)) }
    ensures all { IfOk result (λ placed. (k : ℕ) → k < all_positions_of (B.state board.now).shape
        → IsTrue (slice_index_or placed (slice_index (chart (B.state board.now)).fields.positions k) false)) }
    ensures off { OnErr result ((B.state board.now).on ≡ false) }
{
    let mut placed = [false; 4096];
    for position in 0..all_positions_of(&board.shape()) {
        placed[segment_at(board, position)? as usize] = true;
    }
    Ok(placed)
}

/// The segment that stands at no position.
fn find_spare<B: Board>(board: &B) -> Result<u32, Off>
    requires sound { IsSound (chart (B.state board.now)) }
    ensures spare { IfOk result (λ spare.
        IsSpare (B.state board.now).shape (chart (B.state board.now)).fields.positions spare) }
    ensures off { OnErr result ((B.state board.now).on ≡ false) }
{
    let placed = placed_segments(board)?;
    for segment in 0..board.shape().segments {
        if !placed[segment as usize] {
            return Ok(segment);
        }
    }
    unreachable!()
}

/// Switches what is left of a segment at a position to the copies in the spare, and puts the spare there.
fn finish_switch<B: Board>(board: &mut B, segment: u32, position: u32) -> Result<(), Off>
    requires sound { IsSound (chart (B.state board.old)) }
    requires on { IsTrue (B.state board.old).on }
    requires clear { (p : ℕ) → p < (B.state board.old).shape.pages
        → undo (chart (B.state board.old)).fields p ≡ Some Clear }
    requires switching { (chart (B.state board.old)).fields.job ≡ Some (Switch segment) }
    requires position { position < positions_of (B.state board.old).shape }
    requires here { slice_index (chart (B.state board.old)).fields.positions position ≡ segment }

    ensures same { Same 0 0 (chart (B.state board.old)) (chart (B.state board.new)) }
    ensures others { KeepsOthers (chart (B.state board.old)).fields (chart (B.state board.new)).fields }
    ensures finishes { OnOk result (Finishes (B.state board.old).shape segment (chart (B.state board.old)).fields
        (chart (B.state board.new)).fields) }
    ensures flash { OnOk result ((B.state board.new).flash ≡ (B.state board.old).flash) }
    ensures power { (B.state board.new).on ≡ power_of result }
{
    let spare = find_spare(board)?;
    for i in 0..fill(board, spare)? {
        switch_row(board, spare, i)?;
    }
    replace_segment(board, position, spare)?;
    begin_erase(board)
}

impl Reloc {
    /// After power returned, and each undo is clear: ends a relocation that power stopped, up to the erase of
    /// the spare, which is left to be done. No flash operation begins.
    pub fn settle<B: Board>(board: &mut B) -> Result<(), Off>
        requires sound { IsTrue (B.state board.old).on → IsSound (chart (B.state board.old)) }
        requires clear { IsTrue (B.state board.old).on → (p : ℕ) → p < (B.state board.old).shape.pages
            → undo (chart (B.state board.old)).fields p ≡ Some Clear }

        ensures same { IsSound (chart (B.state board.old))
            → Same 0 0 (chart (B.state board.old)) (chart (B.state board.new)) }
        ensures idle { (B.state board.old).on ≡ false → B.state board.new ≡ B.state board.old }
        ensures others { KeepsOthers (chart (B.state board.old)).fields (chart (B.state board.new)).fields }
        ensures settles { OnOk result (Settles (B.state board.old).shape (chart (B.state board.old)).fields.job
            (chart (B.state board.old)).fields (chart (B.state board.new)).fields) }
        ensures flash { OnOk result ((B.state board.new).flash ≡ (B.state board.old).flash) }
        ensures job { let f = (chart (B.state board.new)).fields in OnOk result ((f.job ≡ Some Idle)
            ⊎ (f.job ≡ Some Erase)) }
        ensures power { (B.state board.new).on ≡ power_of result }
    {
        if !board.powered() {
            return Err(Off);
        }
        match job(board)? {
            Job::Idle | Job::Erase => Ok(()),
            Job::Copy(_) => begin_erase(board),
            Job::Switch(segment) => match find_position(board, segment)? {
                Some(position) => finish_switch(board, segment, position),
                None => begin_erase(board),
            },
        }
    }
}
