// Operations of a journaled board, behind which the file has no more of what isn't synced than a limit.
ghost use Rattle.std.specs.Prelude.{◌≡◌, ◌<◌, ◌≤◌, false, IsTrue, length, OnOk, OnErr};
ghost use Rattle.envy_base.specs.State.{Puts, Programs, Erases, cut};
ghost use Rattle.envy_device.specs.Device.{LeavesOnly};
ghost use Rattle.envy_journal.specs.Condensed.{spilled};
ghost use Rattle.envy_journal.specs.Head.{StandsFor};
ghost use Rattle.envy_journal.specs.Journal.{journal_state, kept};
ghost use Rattle.envy_journal.specs.Snapshot.{limit_of};

use envy_base::{Board, Off, Page, Trouble};
use envy_device::Device;
use envy_journal::{Journaled, Steady};

// Makes anew what isn't synced, if the file has more of it than the limit. Where that fails power is off.
fn lighten<B: Steady, D: Device>(journal: &mut Journaled<B, D>) -> Result<(), Off>
    ensures same { OnOk result (journal_state journal.new.dead (B.state journal.new.board)
        ≡ journal_state journal.old.dead (B.state journal.old.board)) }
    ensures off { OnErr result (IsTrue (journal_state journal.old.dead (B.state journal.old.board)).on
        → journal_state journal.new.dead (B.state journal.new.board)
        ≡ cut (journal_state journal.old.dead (B.state journal.old.board))) }
    ensures shape { (B.state journal.new.board).shape ≡ (B.state journal.old.board).shape }
    ensures kept { OnOk result (kept D.seen journal.new.log ≡ kept D.seen journal.old.log) }
    ensures light { OnOk result (spilled journal.new.log ≤ limit_of (B.state journal.new.board).shape) }
    ensures dead { OnErr result (IsTrue journal.new.dead) }
    ensures any_moment { journal.old.dead ≡ false
        → LeavesOnly D.moment D.left_since journal.old.log.device journal.new.log.device
        (StandsFor (B.state journal.old.board).shape (kept D.seen journal.old.log)) }
    ensures hindered { D.hindered journal.new.log.device ≡ D.hindered journal.old.log.device }
    ensures still { IsTrue journal.old.dead → journal.new.log ≡ journal.old.log }
{
    match journal.condense() {
        Ok(()) => Ok(()),
        Err(_) => Err(Off),
    }
}

/// Programs a row.
pub(crate) fn program<B: Steady, D: Device>(
    journal: &mut Journaled<B, D>,
    row: u32,
    page: &Page,
) -> Result<(), Trouble>
    requires { row < length (journal_state journal.old.dead (B.state journal.old.board)).flash }
    ensures state { Programs (journal_state journal.old.dead (B.state journal.old.board)) row page.now result
        (journal_state journal.new.dead (B.state journal.new.board)) }
    ensures kept { OnOk result (kept D.seen journal.new.log ≡ kept D.seen journal.old.log) }
    ensures light { journal.new.dead ≡ false → spilled journal.new.log ≤ limit_of (B.state journal.new.board).shape }
    ensures any_moment { journal.old.dead ≡ false
        → LeavesOnly D.moment D.left_since journal.old.log.device journal.new.log.device
        (StandsFor (B.state journal.old.board).shape (kept D.seen journal.old.log)) }
    ensures hindered { D.hindered journal.new.log.device ≡ D.hindered journal.old.log.device }
    ensures still { IsTrue journal.old.dead → journal.new.log ≡ journal.old.log }
{
    journal.program(row, page)?;
    match lighten(journal) {
        Ok(()) => Ok(()),
        Err(Off) => Err(Trouble::Off),
    }
}

/// Erases a segment.
pub(crate) fn erase<B: Steady, D: Device>(
    journal: &mut Journaled<B, D>,
    segment: u32,
) -> Result<(), Trouble>
    requires { segment < (journal_state journal.old.dead (B.state journal.old.board)).shape.segments }
    ensures state { Erases (journal_state journal.old.dead (B.state journal.old.board)) segment result
        (journal_state journal.new.dead (B.state journal.new.board)) }
    ensures kept { OnOk result (kept D.seen journal.new.log ≡ kept D.seen journal.old.log) }
    ensures light { journal.new.dead ≡ false → spilled journal.new.log ≤ limit_of (B.state journal.new.board).shape }
    ensures any_moment { journal.old.dead ≡ false
        → LeavesOnly D.moment D.left_since journal.old.log.device journal.new.log.device
        (StandsFor (B.state journal.old.board).shape (kept D.seen journal.old.log)) }
    ensures hindered { D.hindered journal.new.log.device ≡ D.hindered journal.old.log.device }
    ensures still { IsTrue journal.old.dead → journal.new.log ≡ journal.old.log }
{
    journal.erase(segment)?;
    match lighten(journal) {
        Ok(()) => Ok(()),
        Err(Off) => Err(Trouble::Off),
    }
}

/// Puts a word of SRAM.
pub(crate) fn put<B: Steady, D: Device>(
    journal: &mut Journaled<B, D>,
    w: u32,
    v: u64,
) -> Result<(), Off>
    requires { w < length (journal_state journal.old.dead (B.state journal.old.board)).sram }
    ensures state { Puts (journal_state journal.old.dead (B.state journal.old.board)) w v result
        (journal_state journal.new.dead (B.state journal.new.board)) }
    ensures kept { OnOk result (kept D.seen journal.new.log ≡ kept D.seen journal.old.log) }
    ensures light { journal.new.dead ≡ false → spilled journal.new.log ≤ limit_of (B.state journal.new.board).shape }
    ensures any_moment { journal.old.dead ≡ false
        → LeavesOnly D.moment D.left_since journal.old.log.device journal.new.log.device
        (StandsFor (B.state journal.old.board).shape (kept D.seen journal.old.log)) }
    ensures hindered { D.hindered journal.new.log.device ≡ D.hindered journal.old.log.device }
    ensures still { IsTrue journal.old.dead → journal.new.log ≡ journal.old.log }
{
    journal.put(w, v)?;
    match lighten(journal) {
        Ok(()) => Ok(()),
        Err(Off) => Err(Off),
    }
}
