// What brings the operations of a board to the disk: a sync, which appends them to the log, and a compaction.
ghost use Rattle.std.specs.Prelude.{◌≡◌, ◌⊎◌, ◌+◌, ◌-◌, ◌^◌, ◌<◌, ◌≤◌, [], true, false, IsTrue, length, max, OnOk, OnErr, IsErrOf};
ghost use Rattle.std.specs.Result.{IsOk};
ghost use Rattle.envy_base.specs.Shape.{IsShape};
ghost use Rattle.envy_device.specs.Device.{LeavesOnly};
ghost use Rattle.envy_device.specs.declared.device.ReplaceError.TheVariants.{Second, Failed as DeviceFailed};
ghost use Rattle.envy_journal.specs.Head.{StandsFor};
ghost use Rattle.envy_journal.specs.Journal.{IsAllKept, IsFileOf, kept, held, done};
ghost use Rattle.envy_journal.specs.Log.{HasCause, batch_more, held_bytes, kept_bytes, size_of, step};
ghost use Rattle.envy_journal.specs.Runs.{Runs};
ghost use Rattle.envy_journal.specs.Snapshot.{IsShort, limit_of, longest, most_of};

use crate::ahead::{BATCH_MORE, STEP};
use crate::fault::SyncError;
use crate::journaled::Journaled;
use crate::snapshots::{limit, rewrite};
use crate::steady::Steady;
use envy_base::Shape;
use envy_device::{Device, ReplaceError, Replaceable};

impl<B: Steady, D: Device> Journaled<B, D> {
    // Brings all operations to the disk, behind those that are there. If there are none, no call is made.
    fn sync_log(&mut self) -> Result<(), SyncError>
        ensures ok { OnOk result
            (IsAllKept D.seen (B.state self.old.board).shape self.old.dead self.new.dead self.old.log self.new.log) }
        ensures idle { self.old.dead ≡ false → held D.seen self.old.log ≡ []
            → IsOk result × (self.new.log ≡ self.old.log) }
        ensures appended { OnOk result (kept D.seen self.new.log ≡ done D.seen self.old.log) }
        ensures size { OnOk result (size_of self.new.log ≤ size_of self.old.log + batch_more) }
        ensures length { OnOk result (length (D.seen self.new.log.device)
            ≤ max self.old.log.size (size_of self.old.log + batch_more + step)) }
        ensures file { OnOk result (self.new.log.size ≡ length (D.seen self.new.log.device)) }
        ensures next { self.new.next ≡ self.old.next }
        ensures board { self.new.board ≡ self.old.board }
        ensures runs { OnOk result
            (Runs D.seen D.moment D.left_since (B.state self.old.board).shape self.old.log self.new.log) }
        ensures dead { OnErr result (IsTrue self.new.dead) }
        ensures cause { HasCause D.seen D.has_failed self.old.dead self.new.log result }
        ensures hindered { D.hindered self.new.log.device ≡ D.hindered self.old.log.device }
        ensures once { IsTrue (D.bytewise self.old.log.device)
            → D.syncs self.new.log.device ≤ D.syncs self.old.log.device + 1 }
        ensures any_moment { self.old.dead ≡ false
            → LeavesOnly D.moment D.left_since self.old.log.device self.new.log.device
            (λ c. StandsFor (B.state self.old.board).shape (kept D.seen self.old.log) c
            ⊎ IsFileOf (B.state self.old.board) c) }
        ensures any_moment_ok { OnOk result (LeavesOnly D.moment D.left_since self.old.log.device self.new.log.device
            (λ c. StandsFor (B.state self.old.board).shape (kept D.seen self.old.log) c
            ⊎ StandsFor (B.state self.old.board).shape (kept D.seen self.new.log) c)) }
        ensures still { IsTrue self.old.dead → self.new.log ≡ self.old.log }
    {
        if self.dead {
            return Err(SyncError::Ended);
        }
        if self.log.is_idle() {
            return Ok(());
        }
        match self.log.sync() {
            Ok(()) => Ok(()),
            Err(error) => {
                self.dead = true;
                self.in_doubt = true;
                Err(error)
            }
        }
    }
}

impl<B: Steady, D: Replaceable> Journaled<B, D> {
    // Whether a sync compacts the log.
    fn is_long(&self) -> bool
        ensures short { result ≡ false → IsShort (B.state self.now.board).shape self.now.next self.now.log }
        ensures long { result ≡ true → IsShort (B.state self.now.board).shape self.now.next self.now.log → ⊥ }
    {
        let most = limit(&self.board.shape()).max(self.next);
        let log = &self.log;
        log.end > most
            || log.used > most - log.end
            || log.size > most.saturating_add(BATCH_MORE + STEP)
    }

    // Writes what is held behind the closed gate, so that the buffer is free.
    fn spill(&mut self) -> Result<(), SyncError>
        ensures alive { OnOk result ((self.old.dead ≡ false) × (self.new.dead ≡ false)) }
        ensures same { OnOk result ((kept_bytes D.seen self.new.log ≡ kept_bytes D.seen self.old.log)
            × (held_bytes D.seen self.new.log ≡ held_bytes D.seen self.old.log)
            × (self.new.log.used ≡ 0)) }
        ensures size { OnOk result ((size_of self.new.log ≡ size_of self.old.log)
            × (self.new.log.size ≤ max self.old.log.size (size_of self.old.log + batch_more + step))) }
        ensures next { self.new.next ≡ self.old.next }
        ensures board { self.new.board ≡ self.old.board }
        ensures dead { OnErr result (IsTrue self.new.dead) }
        ensures cause { HasCause D.seen D.has_failed self.old.dead self.new.log result }
        ensures works { OnOk result (D.has_failed self.new.log.device ≡ false) }
        ensures hindered { D.hindered self.new.log.device ≡ D.hindered self.old.log.device }
        ensures any_moment { self.old.dead ≡ false
            → LeavesOnly D.moment D.left_since self.old.log.device self.new.log.device
            (StandsFor (B.state self.old.board).shape (kept D.seen self.old.log)) }
        ensures still { IsTrue self.old.dead → self.new.log ≡ self.old.log }
    {
        if self.dead {
            return Err(SyncError::Ended);
        }
        match self.log.spill() {
            Ok(()) => Ok(()),
            Err(error) => {
                self.dead = true;
                Err(error)
            }
        }
    }

    // Puts a journal of what the board holds in the file's place. If the second file fails, the log is as it was.
    fn replace(&mut self) -> Result<(), ReplaceError>
        requires alive { self.old.dead ≡ false }
        requires spilled { self.old.log.used ≡ 0 }
        ensures ok { OnOk result
            (IsAllKept D.seen (B.state self.old.board).shape self.old.dead self.new.dead self.old.log self.new.log) }
        ensures short { OnOk result (length (D.seen self.new.log.device) ≤ most_of (B.state self.old.board).shape) }
        ensures size { OnOk result (size_of self.new.log ≤ length (D.seen self.new.log.device)) }
        ensures any_moment_ok { OnOk result (LeavesOnly D.moment D.left_since self.old.log.device self.new.log.device
            (λ c. StandsFor (B.state self.old.board).shape (kept D.seen self.old.log) c
            ⊎ StandsFor (B.state self.old.board).shape (kept D.seen self.new.log) c)) }
        ensures same { IsErrOf result Second → (self.new.dead ≡ false)
            × (kept_bytes D.seen self.new.log ≡ kept_bytes D.seen self.old.log)
            × (held_bytes D.seen self.new.log ≡ held_bytes D.seen self.old.log)
            × (size_of self.new.log ≡ size_of self.old.log)
            × (self.new.log.size ≡ self.old.log.size) }
        ensures any_moment_same { IsErrOf result Second
            → LeavesOnly D.moment D.left_since self.old.log.device self.new.log.device
            (StandsFor (B.state self.old.board).shape (kept D.seen self.old.log)) }
        ensures next { self.new.next ≡ self.old.next }
        ensures board { self.new.board ≡ self.old.board }
        ensures dead { IsErrOf result DeviceFailed → IsTrue self.new.dead }
        ensures failed { IsErrOf result DeviceFailed → IsTrue (D.has_failed self.new.log.device) }
        ensures hindered { D.has_failed self.old.log.device ≡ false → IsErrOf result Second
            → D.hindered self.old.log.device < D.hindered self.new.log.device }
        ensures any_moment { LeavesOnly D.moment D.left_since self.old.log.device self.new.log.device
            (λ c. StandsFor (B.state self.old.board).shape (kept D.seen self.old.log) c
            ⊎ IsFileOf (B.state self.old.board) c) }
    {
        match rewrite(&self.board, &mut self.log) {
            Ok(()) => Ok(()),
            Err(ReplaceError::Second) => Err(ReplaceError::Second),
            Err(ReplaceError::Failed) => {
                self.dead = true;
                self.in_doubt = true;
                Err(ReplaceError::Failed)
            }
        }
    }

    // A sync of a log that couldn't be compacted. The next compaction is tried once it has grown by half of the limit.
    fn append_instead(&mut self) -> Result<(), SyncError>
        ensures ok { OnOk result
            (IsAllKept D.seen (B.state self.old.board).shape self.old.dead self.new.dead self.old.log self.new.log) }
        ensures size { OnOk result (size_of self.new.log ≤ size_of self.old.log + batch_more) }
        ensures next { OnOk result ((length (D.seen self.new.log.device) ≤ self.new.next) × (0 < self.new.next)) }
        ensures board { self.new.board ≡ self.old.board }
        ensures dead { OnErr result (IsTrue self.new.dead) }
        ensures cause { HasCause D.seen D.has_failed self.old.dead self.new.log result }
        ensures hindered { D.hindered self.new.log.device ≡ D.hindered self.old.log.device }
        ensures any_moment { self.old.dead ≡ false
            → LeavesOnly D.moment D.left_since self.old.log.device self.new.log.device
            (λ c. StandsFor (B.state self.old.board).shape (kept D.seen self.old.log) c
            ⊎ IsFileOf (B.state self.old.board) c) }
        ensures any_moment_ok { OnOk result (LeavesOnly D.moment D.left_since self.old.log.device self.new.log.device
            (λ c. StandsFor (B.state self.old.board).shape (kept D.seen self.old.log) c
            ⊎ StandsFor (B.state self.old.board).shape (kept D.seen self.new.log) c)) }
    {
        self.sync_log()?;
        self.next = next_limit(self.log.size, &self.board.shape());
        Ok(())
    }

    /// A sync that leaves no more in the file than what the board holds takes. It writes all of it. If the second file
    /// fails, which takes the place of the file, the operations are appended all the same, and `compaction_failed` says so.
    pub fn compact(&mut self) -> Result<(), SyncError>
        ensures ok { OnOk result
            (IsAllKept D.seen (B.state self.old.board).shape self.old.dead self.new.dead self.old.log self.new.log) }
        ensures short { OnOk result (self.new.next ≡ 0
            → length (D.seen self.new.log.device) ≤ most_of (B.state self.old.board).shape) }
        ensures next { OnOk result (length (D.seen self.new.log.device)
            ≤ max (most_of (B.state self.old.board).shape) self.new.next) }
        ensures size { OnOk result (size_of self.new.log
            ≤ max (most_of (B.state self.old.board).shape) (size_of self.old.log + batch_more)) }
        ensures board { self.new.board ≡ self.old.board }
        ensures runs { OnOk result
            (Runs D.seen D.moment D.left_since (B.state self.old.board).shape self.old.log self.new.log) }
        ensures dead { OnErr result (IsTrue self.new.dead) }
        ensures cause { HasCause D.seen D.has_failed self.old.dead self.new.log result }
        // it is appended only if a call on the second file failed meanwhile
        ensures hindered { IsOk result → 0 < self.new.next
            → D.hindered self.old.log.device < D.hindered self.new.log.device }
        // A crash at any moment of the call leaves the operations before the last sync, or a file of what the board holds;
        // if it returned Ok, of these the operations that are kept now.
        ensures any_moment { self.old.dead ≡ false
            → LeavesOnly D.moment D.left_since self.old.log.device self.new.log.device
            (λ c. StandsFor (B.state self.old.board).shape (kept D.seen self.old.log) c
            ⊎ IsFileOf (B.state self.old.board) c) }
        ensures any_moment_ok { OnOk result (LeavesOnly D.moment D.left_since self.old.log.device self.new.log.device
            (λ c. StandsFor (B.state self.old.board).shape (kept D.seen self.old.log) c
            ⊎ StandsFor (B.state self.old.board).shape (kept D.seen self.new.log) c)) }
        ensures still { IsTrue self.old.dead → self.new.log ≡ self.old.log }
    {
        self.spill()?;
        match self.replace() {
            Ok(()) => {
                self.next = 0;
                Ok(())
            }
            Err(ReplaceError::Second) => self.append_instead(),
            Err(ReplaceError::Failed) => Err(SyncError::Failed),
        }
    }

    /// Brings all operations to the disk. At `Ok` each crash from then on leaves a file that has them, or operations that
    /// make the same: a log that would grow longer than a limit is compacted. If nothing was done since the last sync, no
    /// call is made on the file.
    pub fn sync(&mut self) -> Result<(), SyncError>
        ensures ok { OnOk result
            (IsAllKept D.seen (B.state self.old.board).shape self.old.dead self.new.dead self.old.log self.new.log) }
        ensures idle { self.old.dead ≡ false → held D.seen self.old.log ≡ []
            → IsShort (B.state self.old.board).shape self.old.next self.old.log
            → IsOk result × (self.new.log ≡ self.old.log) }
        ensures appended { OnOk result (IsShort (B.state self.old.board).shape self.old.next self.old.log
            → kept D.seen self.new.log ≡ done D.seen self.old.log) }
        ensures short { OnOk result (length (D.seen self.new.log.device)
            ≤ longest (B.state self.old.board).shape self.new.next) }
        // it adds no more to the log than what was held, with its gate and its end
        ensures size { OnOk result (self.old.log.size ≤ longest (B.state self.old.board).shape self.old.next
            → size_of self.new.log ≤ size_of self.old.log + batch_more) }
        ensures board { self.new.board ≡ self.old.board }
        ensures runs { OnOk result
            (Runs D.seen D.moment D.left_since (B.state self.old.board).shape self.old.log self.new.log) }
        ensures dead { OnErr result (IsTrue self.new.dead) }
        ensures cause { HasCause D.seen D.has_failed self.old.dead self.new.log result }
        // the file is synced once if it is written byte by byte, unless the log is compacted
        ensures once { IsTrue (D.bytewise self.old.log.device)
            → IsShort (B.state self.old.board).shape self.old.next self.old.log
            → D.syncs self.new.log.device ≤ D.syncs self.old.log.device + 1 }
        // A crash at any moment of the call leaves the operations before the last sync, or a file of what the board holds;
        // if it returned Ok, of these the operations that are kept now.
        ensures any_moment { self.old.dead ≡ false
            → LeavesOnly D.moment D.left_since self.old.log.device self.new.log.device
            (λ c. StandsFor (B.state self.old.board).shape (kept D.seen self.old.log) c
            ⊎ IsFileOf (B.state self.old.board) c) }
        ensures any_moment_ok { OnOk result (LeavesOnly D.moment D.left_since self.old.log.device self.new.log.device
            (λ c. StandsFor (B.state self.old.board).shape (kept D.seen self.old.log) c
            ⊎ StandsFor (B.state self.old.board).shape (kept D.seen self.new.log) c)) }
        ensures still { IsTrue self.old.dead → self.new.log ≡ self.old.log }
    {
        if self.is_long() {
            self.compact()
        } else {
            self.sync_log()
        }
    }
}

// How long a log may become once it couldn't be compacted at this size.
fn next_limit(size: usize, shape: &Shape) -> usize
    requires { IsShape shape.now }
    ensures longer { size ≤ result }
    ensures some { 0 < result }
{
    size.saturating_add(limit(shape) / 2)
}
