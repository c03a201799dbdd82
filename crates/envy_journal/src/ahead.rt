// Zeros that are written ahead of a log, so that few syncs change how long its file is. A closed gate is a zero, so a
// reader stops at the first of them.
ghost use Rattle.std.specs.Prelude.{◌≡◌, ◌+◌, ◌*◌, ◌^◌, ◌<◌, ◌≤◌, false, IsTrue, [], ◌∷◌, ◌++◌, max, OnOk, OnErr};
ghost use Rattle.envy_journal.specs.Log.{HasCause, IsCounted, IsLonger, IsSound, batch_more, size_of, step};

use crate::fault::SyncError;
use crate::log::Log;
use envy_device::{Device, DeviceFailed};

// How long a log may be.
const MOST: usize = 1 << 60;

/// How many bytes a batch takes beside its operations, at most.
pub(crate) const BATCH_MORE: usize = 10;

/// Zeros are written ahead in steps of so many bytes.
pub(crate) const STEP: usize = 1 << 18;

// How many of them one write adds.
const PIECE: usize = 1 << 14;

impl<D: Device> Log<D> {
    // Adds zeros at the end of the file.
    fn add_zeros(&mut self) -> Result<(), DeviceFailed>
        requires sound { IsSound D.seen D.may_leave D.left_since D.synced self.old }
        requires counted { IsCounted D.seen D.may_leave D.bytewise self.old }
        requires small { self.old.size < 2 ^ 62 }
        ensures sound { OnOk result (IsSound D.seen D.may_leave D.left_since D.synced self.new) }
        ensures counted { OnOk result (IsCounted D.seen D.may_leave D.bytewise self.new) }
        ensures size { OnOk result (self.new.size ≡ self.old.size + 16384) }
        ensures longer { IsLonger D.seen D.moment D.left_since D.synced D.bytewise D.syncs self.old self.new }
        ensures hindered { D.hindered self.new.device ≡ D.hindered self.old.device }
        ensures failed { OnErr result (IsTrue (D.has_failed self.new.device)) }
    {
        self.device.write_at(self.size, &[0; PIECE])?;
        self.size += PIECE;
        Ok(())
    }

    // Adds so many pieces of zeros.
    fn add_pieces(&mut self, pieces: usize) -> Result<(), DeviceFailed>
        requires sound { IsSound D.seen D.may_leave D.left_since D.synced self.old }
        requires counted { IsCounted D.seen D.may_leave D.bytewise self.old }
        requires small { self.old.size + 16384 * pieces < 2 ^ 62 }
        ensures sound { OnOk result (IsSound D.seen D.may_leave D.left_since D.synced self.new) }
        ensures counted { OnOk result (IsCounted D.seen D.may_leave D.bytewise self.new) }
        ensures size { OnOk result (self.new.size ≡ self.old.size + 16384 * pieces) }
        ensures longer { IsLonger D.seen D.moment D.left_since D.synced D.bytewise D.syncs self.old self.new }
        ensures hindered { D.hindered self.new.device ≡ D.hindered self.old.device }
        ensures failed { OnErr result (IsTrue (D.has_failed self.new.device)) }
    {
        for _turn in 0..pieces {
            self.add_zeros()?;
        }
        Ok(())
    }

    /// Makes the file long enough for what the buffer holds and the end of its batch.
    pub(crate) fn reach(&mut self) -> Result<(), SyncError>
        requires sound { IsSound D.seen D.may_leave D.left_since D.synced self.old }
        requires counted { IsCounted D.seen D.may_leave D.bytewise self.old }
        ensures sound { OnOk result (IsSound D.seen D.may_leave D.left_since D.synced self.new) }
        ensures counted { OnOk result (IsCounted D.seen D.may_leave D.bytewise self.new) }
        ensures fits { OnOk result (self.new.end + self.new.used + batch_more ≤ self.new.size) }
        ensures small { OnOk result (self.new.end + self.new.used < 2 ^ 60) }
        ensures size { OnOk result
            (self.new.size ≤ max self.old.size (size_of self.old + batch_more + step)) }
        ensures longer { IsLonger D.seen D.moment D.left_since D.synced D.bytewise D.syncs self.old self.new }
        ensures hindered { D.hindered self.new.device ≡ D.hindered self.old.device }
        ensures cause { HasCause D.seen D.has_failed false self.new result }
    {
        if self.end >= MOST || self.used >= MOST - self.end {
            return Err(SyncError::Full);
        }
        let free = self.size - self.end;
        let wanted = self.used + BATCH_MORE;
        if wanted <= free {
            return Ok(());
        }
        self.add_pieces((wanted - free) / PIECE + STEP / PIECE)?;
        Ok(())
    }
}
