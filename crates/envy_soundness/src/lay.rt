ghost use Rattle.std.specs.Prelude.{◌≡◌, ◌<◌, ◌≤◌, ◌+◌, ◌-◌, ◌*◌, ◌/◌, ◌^◌, IsTrue, OnOk, OnErr};
ghost use Rattle.envy_soundness.specs.Formatting.{IsStopped, with_sizes, with_extras, with_head, with_slots_laid, with_places_laid, with_undos_laid, with_backs_laid, with_origins_laid};
ghost use Rattle.envy_map.specs.Fields.{chart, with_fields};

use envy_base::{Board, Job, Off, Slot};
use envy_map::{
    clear_places, clear_undos, set_back, set_job, set_origin, set_reserves, set_size, set_slot,
    set_sums, set_version,
};

/// Two numbers in one word, the first in its high half.
fn pair(high: u32, low: u32) -> u64
    ensures { result ≡ high * 2 ^ 32 + low }
{
    high as u64 * 0x1_0000_0000 + low as u64
}

/// Writes the three words that keep the sizes.
fn lay_sizes<B: Board>(board: &mut B) -> Result<(), Off>
    requires { IsTrue (B.state board.old).on }
    ensures done { OnOk result (chart (B.state board.new) ≡ with_fields (chart (B.state board.old))
        (with_sizes (B.state board.old).shape (chart (B.state board.old)).fields)) }
    ensures stopped { OnErr result (IsStopped 0 (chart (B.state board.old)) (chart (B.state board.new))) }
{
    let shape = board.shape();
    set_size(board, 0, pair(shape.segments, shape.rows))?;
    set_size(board, 1, pair(shape.pages, shape.shadows))?;
    set_size(board, 2, pair(shape.frames, shape.entries))?;
    Ok(())
}

/// Writes the words that keep reserves and sums, under version 3.
fn lay_extras<B: Board>(board: &mut B, version: u64) -> Result<(), Off>
    requires { IsTrue (B.state board.old).on }
    ensures done { OnOk result (chart (B.state board.new) ≡ with_fields (chart (B.state board.old))
        (with_extras (B.state board.old).shape version (chart (B.state board.old)).fields)) }
    ensures stopped { OnErr result (IsStopped 0 (chart (B.state board.old)) (chart (B.state board.new))) }
{
    if version != 3 {
        return Ok(());
    }
    let shape = board.shape();
    set_reserves(board, shape.reserves)?;
    set_sums(board, shape.sums)?;
    Ok(())
}

/// Writes the words that keep the shape, the version, and that no job runs.
pub fn lay_head<B: Board>(board: &mut B, version: u64) -> Result<(), Off>
    requires { IsTrue (B.state board.old).on }
    ensures done { OnOk result (chart (B.state board.new) ≡ with_fields (chart (B.state board.old))
        (with_head (B.state board.old).shape version (chart (B.state board.old)).fields)) }
    ensures stopped { OnErr result (IsStopped 0 (chart (B.state board.old)) (chart (B.state board.new))) }
{
    lay_sizes(board)?;
    lay_extras(board, version)?;
    set_version(board, version)?;
    set_job(board, Job::Idle)?;
    Ok(())
}

/// Makes the first slots vacant.
pub fn lay_slots<B: Board>(board: &mut B, count: u8) -> Result<(), Off>
    requires on { IsTrue (B.state board.old).on }
    requires count { count ≤ 64 }
    ensures done { OnOk result (chart (B.state board.new) ≡ with_fields (chart (B.state board.old))
        (with_slots_laid count (chart (B.state board.old)).fields)) }
    ensures stopped { OnErr result (IsStopped 0 (chart (B.state board.old)) (chart (B.state board.new))) }
{
    for t in 0..count {
        set_slot(board, t, Slot::Vacant)?;
    }
    Ok(())
}

/// Makes every page absent.
pub fn lay_places<B: Board>(board: &mut B) -> Result<(), Off>
    requires { IsTrue (B.state board.old).on }
    ensures done { OnOk result (chart (B.state board.new) ≡ with_fields (chart (B.state board.old))
        (with_places_laid (2 * (((B.state board.old).shape.pages + 1) / 2)) (chart (B.state board.old)).fields)) }
    ensures stopped { OnErr result (IsStopped 0 (chart (B.state board.old)) (chart (B.state board.new))) }
{
    for i in 0..(board.shape().pages + 1) / 2 {
        clear_places(board, i)?;
    }
    Ok(())
}

/// Clears every undo.
pub fn lay_undos<B: Board>(board: &mut B) -> Result<(), Off>
    requires { IsTrue (B.state board.old).on }
    ensures done { OnOk result (chart (B.state board.new) ≡ with_fields (chart (B.state board.old))
        (with_undos_laid (2 * (((B.state board.old).shape.pages + 1) / 2)) (chart (B.state board.old)).fields)) }
    ensures stopped { OnErr result (IsStopped 0 (chart (B.state board.old)) (chart (B.state board.new))) }
{
    for i in 0..(board.shape().pages + 1) / 2 {
        clear_undos(board, i)?;
    }
    Ok(())
}

/// Notes page 0 as the one that each row was claimed for.
pub fn lay_backs<B: Board>(board: &mut B) -> Result<(), Off>
    requires { IsTrue (B.state board.old).on }
    ensures done { OnOk result (chart (B.state board.new) ≡ with_fields (chart (B.state board.old))
        (with_backs_laid ((B.state board.old).shape.segments * (B.state board.old).shape.rows)
        (chart (B.state board.old)).fields)) }
    ensures stopped { OnErr result (IsStopped 0 (chart (B.state board.old)) (chart (B.state board.new))) }
{
    let shape = board.shape();
    for row in 0..shape.segments * shape.rows {
        set_back(board, row, 0)?;
    }
    Ok(())
}

/// Makes every origin row 0.
pub fn lay_origins<B: Board>(board: &mut B) -> Result<(), Off>
    requires { IsTrue (B.state board.old).on }
    ensures done { OnOk result (chart (B.state board.new) ≡ with_fields (chart (B.state board.old))
        (with_origins_laid (B.state board.old).shape.rows (chart (B.state board.old)).fields)) }
    ensures stopped { OnErr result (IsStopped 0 (chart (B.state board.old)) (chart (B.state board.new))) }
{
    for i in 0..board.shape().rows {
        set_origin(board, i, 0)?;
    }
    Ok(())
}
