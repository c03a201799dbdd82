ghost use Rattle.std.specs.Prelude.{◌≡◌, ◌∷◌, [], false};
ghost use Rattle.envy_device.specs.Device.{Only};
ghost use Rattle.envy_device.specs.Calls.{MayLeave, have_failed, seen_after, synced_at};
ghost use Rattle.envy_device.specs.Calls.Call.{Found};

use crate::file_calls::FileCalls;
use crate::{Device, DeviceFailed, ReplaceError, Replaceable, SecondFailed};

/// A file as a device. Once a call on the file has failed, no later one is made: after a sync that failed the system may
/// have let go of what it couldn't write, and tells so once. Once a call on the second file has failed, that one is given
/// up, and the next call on it is one that begins it.
#[derive(Drop)]
pub struct LoggedFile<F> {
    /// What makes the calls.
    pub file: F,
    /// Whether the file is trusted to be written byte by byte.
    pub bytewise: bool,
    /// Whether a second file was begun, and no call on it failed since.
    pub begun: bool,
}

impl<F: FileCalls> LoggedFile<F> {
    /// A file that was brought to the disk and then read whole from there, on which no other call was made. That it is written byte by
    /// byte is a premise, which the caller states or doesn't.
    pub fn found(file: F, _bytes: &[u8], bytewise: bool) -> LoggedFile<F>
        requires { F.calls file ≡ Found _bytes.now ∷ [] }
        ensures bytes { seen_after (F.calls result.file) ≡ _bytes.now }
        ensures durable { Only (seen_after (F.calls result.file)) (MayLeave result.bytewise (F.calls result.file)) }
        ensures works { have_failed (F.calls result.file) ≡ false }
        ensures bytewise { result.bytewise ≡ bytewise }
    {
        LoggedFile {
            file,
            bytewise,
            begun: false,
        }
    }
}

impl<F: FileCalls> Device for LoggedFile<F> {
    ghost use Rattle.std.specs.Prelude.{length};
    ghost use Rattle.envy_device.specs.Calls.{LeftSince, hindrances, syncs_in};
    ghost use Rattle.envy_device.specs.Logged.{before, counts, only};

    ghost seen = { λ f. seen_after (F.calls f.file) };

    ghost may_leave = { λ f. MayLeave f.bytewise (F.calls f.file) };

    ghost moment = { λ f. length (F.calls f.file) };

    ghost left_since = { λ f. LeftSince f.bytewise (F.calls f.file) };

    ghost synced = { λ f. synced_at (F.calls f.file) };

    ghost syncs = { λ f. syncs_in (F.calls f.file) };

    ghost has_failed = { λ f. have_failed (F.calls f.file) };

    ghost hindered = { λ f. hindrances (F.calls f.file) };

    ghost bytewise = { λ f. f.bytewise };

    ghost counts_now = { λ f. counts f.bytewise (F.calls f.file) };

    ghost only_now = { λ f. only f.bytewise (F.calls f.file) };

    ghost synced_before = { λ f. before (F.calls f.file) };

    fn is_bytewise(&self) -> bool {
        self.bytewise
    }

    fn write_at(&mut self, at: usize, bytes: &[u8]) -> Result<(), DeviceFailed> {
        if self.file.has_failed() {
            return Err(DeviceFailed);
        }
        self.file.write_at(at, bytes)
    }

    fn cut(&mut self, len: usize) -> Result<(), DeviceFailed> {
        if self.file.has_failed() {
            return Err(DeviceFailed);
        }
        self.file.cut(len)
    }

    fn sync(&mut self) -> Result<(), DeviceFailed> {
        if self.file.has_failed() {
            return Err(DeviceFailed);
        }
        self.file.sync()
    }
}

impl<F: FileCalls> Replaceable for LoggedFile<F> {
    ghost use Rattle.std.specs.Prelude.{IsTrue};
    ghost use Rattle.envy_device.specs.Calls.{second_after};

    ghost second = { λ f. second_after (F.calls f.file) };

    ghost goes_on = { λ f. IsTrue f.begun × (have_failed (F.calls f.file) ≡ false) };

    fn begin_second(&mut self) -> Result<(), SecondFailed> {
        if self.file.has_failed() {
            return Err(SecondFailed);
        }
        let answer = self.file.begin();
        self.begun = answer.is_ok();
        answer
    }

    fn write_second(&mut self, bytes: &[u8]) -> Result<(), SecondFailed> {
        if self.file.has_failed() || !self.begun {
            return Err(SecondFailed);
        }
        let answer = self.file.append(bytes);
        self.begun = answer.is_ok();
        answer
    }

    fn replace(&mut self) -> Result<(), ReplaceError> {
        if self.file.has_failed() {
            return Err(ReplaceError::Failed);
        }
        if !self.begun {
            return Err(ReplaceError::Second);
        }
        self.begun = false;
        self.file.replace()
    }
}
