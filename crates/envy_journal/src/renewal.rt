// What is held is made anew of what the board holds, once the file has much of it: a board that is never synced would else
// fill its file without end.
ghost use Rattle.std.specs.Prelude.{◌≡◌, ◌+◌, ◌*◌, ◌<◌, ◌≤◌, [], true, false, IsTrue, length, OnOk, OnErr};
ghost use Rattle.std.specs.Result.{IsOk};
ghost use Rattle.envy_base.specs.Map.{words_of};
ghost use Rattle.envy_device.specs.Device.{LeavesOnly};
ghost use Rattle.envy_journal.specs.Condensed.{Remakes, StaysKept, spilled};
ghost use Rattle.envy_journal.specs.Content.{holds};
ghost use Rattle.envy_journal.specs.Head.{StandsFor};
ghost use Rattle.envy_journal.specs.Journal.{IsLogged, done, kept};
ghost use Rattle.envy_journal.specs.Log.{HasCause, IsCounted, IsSound, held_bytes};
ghost use Rattle.envy_journal.specs.Runs.{Runs};
ghost use Rattle.envy_journal.specs.Snapshot.{limit_of};

use crate::fault::SyncError;
use crate::journaled::Journaled;
use crate::log::Log;
use crate::operation::Operation;
use crate::snapshots::{ERASED, LEAST, limit, page_in, word_of};
use crate::steady::Steady;
use envy_device::Device;
use envy_map::words;

impl<D: Device> Log<D> {
    // Drops what is held: the file ends with the closed gate. The cut has to be on the disk before anything is written
    // there: of a file that is written byte by byte, a crash would else leave bytes that were cut.
    fn forget(&mut self) -> Result<(), SyncError>
        requires sound { IsSound D.seen D.may_leave D.left_since D.synced self.old }
        requires counted { IsCounted D.seen D.may_leave D.bytewise self.old }
        ensures sound { OnOk result (IsSound D.seen D.may_leave D.left_since D.synced self.new) }
        ensures counted { OnOk result (IsCounted D.seen D.may_leave D.bytewise self.new) }
        ensures none { OnOk result (held_bytes D.seen self.new ≡ []) }
        ensures room { length self.new.buffer.items ≡ length self.old.buffer.items }
        ensures stays { StaysKept D.seen D.moment D.left_since D.synced self.old self.new }
        ensures hindered { D.hindered self.new.device ≡ D.hindered self.old.device }
        ensures cause { HasCause D.seen D.has_failed false self.new result }
    {
        self.device.cut(self.gate + 1)?;
        self.device.sync()?;
        self.end = self.gate + 1;
        self.size = self.end;
        self.used = 0;
        self.zeros = 0;
        Ok(())
    }
}

// Erases one segment more.
fn renew_segment<B: Steady, D: Device>(
    board: &B,
    log: &mut Log<D>,
    segment: u32,
) -> Result<(), SyncError>
    requires segment { segment < (B.state board.now).shape.segments }
    requires remakes { Remakes D.seen D.may_leave D.left_since D.synced D.bytewise (B.state board.now)
        (segment * (B.state board.now).shape.rows) 0 0 (5 * segment) log.old }
    ensures remakes { OnOk result (Remakes D.seen D.may_leave D.left_since D.synced D.bytewise (B.state board.now)
        ((segment + 1) * (B.state board.now).shape.rows) 0 0 (5 * (segment + 1)) log.new) }
    ensures stays { StaysKept D.seen D.moment D.left_since D.synced log.old log.new }
    ensures hindered { D.hindered log.new.device ≡ D.hindered log.old.device }
    ensures cause { HasCause D.seen D.has_failed false log.new result }
{
    log.append(&Operation::Erase { segment })
}

// Erases all segments.
fn renew_segments<B: Steady, D: Device>(board: &B, log: &mut Log<D>) -> Result<(), SyncError>
    requires remakes { Remakes D.seen D.may_leave D.left_since D.synced D.bytewise (B.state board.now) 0 0 0 0 log.old }
    ensures remakes { OnOk result (Remakes D.seen D.may_leave D.left_since D.synced D.bytewise (B.state board.now)
        (length (B.state board.now).flash) 0 0 (5 * (B.state board.now).shape.segments) log.new) }
    ensures stays { StaysKept D.seen D.moment D.left_since D.synced log.old log.new }
    ensures hindered { D.hindered log.new.device ≡ D.hindered log.old.device }
    ensures cause { HasCause D.seen D.has_failed false log.new result }
{
    for segment in 0..board.shape().segments {
        renew_segment(board, log, segment)?;
    }
    Ok(())
}

// Programs one row more, unless it is blank.
fn renew_row<B: Steady, D: Device>(board: &B, log: &mut Log<D>, row: u32) -> Result<(), SyncError>
    requires row { row < length (B.state board.now).flash }
    requires remakes { Remakes D.seen D.may_leave D.left_since D.synced D.bytewise (B.state board.now)
        (length (B.state board.now).flash) row 0 (5 * (B.state board.now).shape.segments + 261 * row) log.old }
    ensures remakes { OnOk result (Remakes D.seen D.may_leave D.left_since D.synced D.bytewise (B.state board.now)
        (length (B.state board.now).flash) (row + 1) 0
        (5 * (B.state board.now).shape.segments + 261 * (row + 1)) log.new) }
    ensures stays { StaysKept D.seen D.moment D.left_since D.synced log.old log.new }
    ensures hindered { D.hindered log.new.device ≡ D.hindered log.old.device }
    ensures cause { HasCause D.seen D.has_failed false log.new result }
{
    let page = page_in(board, row);
    if page == ERASED {
        return Ok(());
    }
    log.append(&Operation::Program { row, page })
}

// Programs all rows.
fn renew_rows<B: Steady, D: Device>(board: &B, log: &mut Log<D>) -> Result<(), SyncError>
    requires remakes { Remakes D.seen D.may_leave D.left_since D.synced D.bytewise (B.state board.now)
        (length (B.state board.now).flash) 0 0 (5 * (B.state board.now).shape.segments) log.old }
    ensures remakes { OnOk result (Remakes D.seen D.may_leave D.left_since D.synced D.bytewise (B.state board.now)
        (length (B.state board.now).flash) (length (B.state board.now).flash) 0
        (5 * (B.state board.now).shape.segments + 261 * length (B.state board.now).flash) log.new) }
    ensures stays { StaysKept D.seen D.moment D.left_since D.synced log.old log.new }
    ensures hindered { D.hindered log.new.device ≡ D.hindered log.old.device }
    ensures cause { HasCause D.seen D.has_failed false log.new result }
{
    let shape = board.shape();
    for row in 0..shape.segments * shape.rows {
        renew_row(board, log, row)?;
    }
    Ok(())
}

// Puts one word more.
fn renew_word<B: Steady, D: Device>(board: &B, log: &mut Log<D>, w: u32) -> Result<(), SyncError>
    requires word { w < length (B.state board.now).sram }
    requires remakes { Remakes D.seen D.may_leave D.left_since D.synced D.bytewise (B.state board.now)
        (length (B.state board.now).flash) (length (B.state board.now).flash) w
        (5 * (B.state board.now).shape.segments + 261 * length (B.state board.now).flash + 13 * w) log.old }
    ensures remakes { OnOk result (Remakes D.seen D.may_leave D.left_since D.synced D.bytewise (B.state board.now)
        (length (B.state board.now).flash) (length (B.state board.now).flash) (w + 1)
        (5 * (B.state board.now).shape.segments + 261 * length (B.state board.now).flash + 13 * (w + 1)) log.new) }
    ensures stays { StaysKept D.seen D.moment D.left_since D.synced log.old log.new }
    ensures hindered { D.hindered log.new.device ≡ D.hindered log.old.device }
    ensures cause { HasCause D.seen D.has_failed false log.new result }
{
    let v = word_of(board, w);
    log.append(&Operation::Put { w, v })
}

// Puts all words.
fn renew_words<B: Steady, D: Device>(board: &B, log: &mut Log<D>) -> Result<(), SyncError>
    requires remakes { Remakes D.seen D.may_leave D.left_since D.synced D.bytewise (B.state board.now)
        (length (B.state board.now).flash) (length (B.state board.now).flash) 0
        (5 * (B.state board.now).shape.segments + 261 * length (B.state board.now).flash) log.old }
    ensures remakes { OnOk result (Remakes D.seen D.may_leave D.left_since D.synced D.bytewise (B.state board.now)
        (length (B.state board.now).flash) (length (B.state board.now).flash) (length (B.state board.now).sram)
        (limit_of (B.state board.now).shape) log.new) }
    ensures stays { StaysKept D.seen D.moment D.left_since D.synced log.old log.new }
    ensures hindered { D.hindered log.new.device ≡ D.hindered log.old.device }
    ensures cause { HasCause D.seen D.has_failed false log.new result }
{
    for w in 0..words(&board.shape()) {
        renew_word(board, log, w)?;
    }
    Ok(())
}

// Programs all rows and puts all words.
fn renew_board<B: Steady, D: Device>(board: &B, log: &mut Log<D>) -> Result<(), SyncError>
    requires remakes { Remakes D.seen D.may_leave D.left_since D.synced D.bytewise (B.state board.now)
        (length (B.state board.now).flash) 0 0 (5 * (B.state board.now).shape.segments) log.old }
    ensures remakes { OnOk result (Remakes D.seen D.may_leave D.left_since D.synced D.bytewise (B.state board.now)
        (length (B.state board.now).flash) (length (B.state board.now).flash) (length (B.state board.now).sram)
        (limit_of (B.state board.now).shape) log.new) }
    ensures stays { StaysKept D.seen D.moment D.left_since D.synced log.old log.new }
    ensures hindered { D.hindered log.new.device ≡ D.hindered log.old.device }
    ensures cause { HasCause D.seen D.has_failed false log.new result }
{
    renew_rows(board, log)?;
    renew_words(board, log)
}

// Makes anew what is held, in a log that holds nothing.
fn renew<B: Steady, D: Device>(board: &B, log: &mut Log<D>) -> Result<(), SyncError>
    requires remakes { Remakes D.seen D.may_leave D.left_since D.synced D.bytewise (B.state board.now) 0 0 0 0 log.old }
    ensures logged { OnOk result (IsLogged D.seen D.may_leave D.left_since D.synced log.new (B.state board.now)) }
    ensures counted { OnOk result (IsCounted D.seen D.may_leave D.bytewise log.new) }
    ensures short { OnOk result (length (held_bytes D.seen log.new) ≤ limit_of (B.state board.now).shape) }
    ensures stays { StaysKept D.seen D.moment D.left_since D.synced log.old log.new }
    ensures hindered { D.hindered log.new.device ≡ D.hindered log.old.device }
    ensures cause { HasCause D.seen D.has_failed false log.new result }
{
    renew_segments(board, log)?;
    renew_board(board, log)
}

// Makes anew what is held.
fn condensed<B: Steady, D: Device>(board: &B, log: &mut Log<D>) -> Result<(), SyncError>
    requires logged { IsLogged D.seen D.may_leave D.left_since D.synced log.old (B.state board.now) }
    requires counted { IsCounted D.seen D.may_leave D.bytewise log.old }
    ensures logged { OnOk result (IsLogged D.seen D.may_leave D.left_since D.synced log.new (B.state board.now)) }
    ensures counted { OnOk result (IsCounted D.seen D.may_leave D.bytewise log.new) }
    ensures short { OnOk result (length (held_bytes D.seen log.new) ≤ limit_of (B.state board.now).shape) }
    ensures stays { StaysKept D.seen D.moment D.left_since D.synced log.old log.new }
    ensures hindered { D.hindered log.new.device ≡ D.hindered log.old.device }
    ensures cause { HasCause D.seen D.has_failed false log.new result }
{
    log.forget()?;
    renew(board, log)
}

impl<B: Steady, D: Device> Journaled<B, D> {
    // Whether the file has more of what is held than the limit.
    fn is_heavy(&self) -> bool
        requires alive { self.now.dead ≡ false }
        ensures light { result ≡ false → spilled self.now.log ≤ limit_of (B.state self.now.board).shape }
        ensures heavy { result ≡ true → limit_of (B.state self.now.board).shape < spilled self.now.log }
    {
        let spilled = self.log.end - self.log.gate - 1;
        spilled > LEAST && spilled > limit(&self.board.shape())
    }

    /// Makes anew what is held, once the file has more of it than a limit: as operations that make what the board holds,
    /// which take no more than that limit. Otherwise nothing is done. It brings nothing to the disk for good, but a board
    /// that is never synced doesn't fill its file without end.
    pub fn condense(&mut self) -> Result<(), SyncError>
        ensures kept { OnOk result (kept D.seen self.new.log ≡ kept D.seen self.old.log) }
        ensures same { OnOk result (holds (B.state self.old.board).shape (done D.seen self.new.log)
            ≡ holds (B.state self.old.board).shape (done D.seen self.old.log)) }
        ensures short { OnOk result (spilled self.new.log ≤ limit_of (B.state self.old.board).shape) }
        ensures idle { self.old.dead ≡ false → spilled self.old.log ≤ limit_of (B.state self.old.board).shape
            → IsOk result × (self.new.log ≡ self.old.log) }
        ensures alive { OnOk result ((self.old.dead ≡ false) × (self.new.dead ≡ false)) }
        ensures board { self.new.board ≡ self.old.board }
        ensures next { self.new.next ≡ self.old.next }
        ensures runs { OnOk result
            (Runs D.seen D.moment D.left_since (B.state self.old.board).shape self.old.log self.new.log) }
        ensures dead { OnErr result (IsTrue self.new.dead) }
        ensures cause { HasCause D.seen D.has_failed self.old.dead self.new.log result }
        // no call is made on a second file
        ensures hindered { D.hindered self.new.log.device ≡ D.hindered self.old.log.device }
        // A crash at any moment of the call leaves the operations before the last sync.
        ensures any_moment { self.old.dead ≡ false
            → LeavesOnly D.moment D.left_since self.old.log.device self.new.log.device
            (StandsFor (B.state self.old.board).shape (kept D.seen self.old.log)) }
        ensures still { IsTrue self.old.dead → self.new.log ≡ self.old.log }
    {
        if self.dead {
            return Err(SyncError::Ended);
        }
        if !self.is_heavy() {
            return Ok(());
        }
        match condensed(&self.board, &mut self.log) {
            Ok(()) => Ok(()),
            Err(error) => {
                self.dead = true;
                Err(error)
            }
        }
    }
}
