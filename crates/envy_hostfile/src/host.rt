ghost use Rattle.std.specs.Prelude.{◌≡◌, true, false};
ghost use Rattle.envy_device.specs.Device.{Only};
ghost use Rattle.envy_device.specs.Calls.{Notes, have_failed, is_failure};
ghost use Rattle.envy_device.specs.Noted.{call_of};

use crate::folder::Folder;
use envy_device::{DeviceFailed, FileCalls, LoggedFile, Made, Record, ReplaceError, SecondFailed};
use std::fs::OpenFile;
use std::io;
use std::io::{Error, ErrorKind};
use std::os::unix::fs::FileExt;

// A second file, and how long it is.
#[derive(Drop)]
struct Second<F> {
    file: F,
    size: u64,
}

/// Makes the calls on an open file, whose name a folder has.
#[derive(Drop)]
pub struct HostCalls<F, P> {
    file: F,
    folder: P,
    second: Option<Second<F>>,
    failed: bool,
    /// Whether it is believed that what was read is on the disk, since it wasn't written anew.
    pub is_believed: bool,
    /// How many bytes the opening cuts off that look like a sync. Unless there are none the file is copied before the first
    /// call that changes it.
    pub cut: usize,
    // whether a call on the second file failed, and that is still to be said
    hindered: bool,
    /// Whether such a failure is said, once: with the next sync, since the file is appended to then.
    pub tells: bool,
    /// The calls that were made, with their answers.
    pub record: Record,
    ghost noted: { failed ≡ have_failed record.calls },
}

/// An open file of the host. Once a call on the file has failed, no later one is made.
pub type HostFile<F, P> = LoggedFile<HostCalls<F, P>>;

impl<F: FileExt + OpenFile + Drop, P: Folder<F>> HostCalls<F, P> {
    ghost use Rattle.envy_hostfile.specs.Host.{host_bytes, host_bytewise, host_failed, host_outcome};

    /// A file that was synced, with its name, and then read whole: it holds these bytes, and it is believed that they are on
    /// the disk. That it is written byte by byte is a premise, which the caller states or
    /// doesn't.
    pub fn found(file: F, folder: P, bytes: &[u8], bytewise: bool) -> HostFile<F, P>
        ensures bytes { host_bytes result ≡ bytes.now }
        ensures durable { Only (host_bytes result) (host_outcome result) }
        ensures works { host_failed result ≡ false }
        ensures bytewise { host_bytewise result ≡ bytewise }
    {
        let calls = HostCalls {
            file,
            folder,
            second: None,
            failed: false,
            is_believed: true,
            cut: 0,
            hindered: false,
            tells: false,
            record: Record::new().and(&Made::Found { bytes }),
        };
        LoggedFile::found(calls, bytes, bytewise)
    }

    // Notes a call that was just made, by its answer.
    fn note(
        &mut self,
        answer: io::Result<()>,
        done: &Made<'_>,
        failed: &Made<'_>,
    ) -> Result<(), DeviceFailed>
        requires done { is_failure (call_of done.now) ≡ false }
        requires failed { is_failure (call_of failed.now) ≡ true }
        ensures { Notes (call_of done.now) (call_of failed.now) result self.old.record.calls self.new.record.calls }
    {
        match answer {
            Ok(()) => {
                self.record = self.record.and(done);
                Ok(())
            }
            Err(_) => {
                self.record = self.record.and(failed);
                self.failed = true;
                Err(DeviceFailed)
            }
        }
    }

    // Copies the file before it changes, once, if what is cut off looks like a sync.
    fn copy_aside(&mut self)
        ensures calls { self.new.record ≡ self.old.record }
        ensures failed { self.new.failed ≡ self.old.failed }
    {
        if self.cut > 0 {
            self.folder.copy_aside(&self.file, self.cut);
            self.cut = 0;
        }
    }

    // Says once that a call on the second file failed.
    fn tell_hindered(&mut self)
        ensures calls { self.new.record ≡ self.old.record }
        ensures failed { self.new.failed ≡ self.old.failed }
    {
        if self.hindered {
            self.folder.tell_hindered();
            self.hindered = false;
            self.tells = false;
        }
    }

    // Removes the second file, if there is one.
    fn remove_second(&mut self)
        ensures calls { self.new.record ≡ self.old.record }
        ensures failed { self.new.failed ≡ self.old.failed }
    {
        if let Some(second) = self.second.take() {
            self.folder.remove_second(&second.file);
        }
    }

    fn make_second(&mut self) -> io::Result<()>
        ensures calls { self.new.record ≡ self.old.record }
        ensures failed { self.new.failed ≡ self.old.failed }
    {
        self.remove_second();
        let file = self.folder.make(&self.file)?;
        self.second = Some(Second { file, size: 0 });
        Ok(())
    }

    fn grow_second(&mut self, bytes: &[u8]) -> io::Result<()>
        ensures calls { self.new.record ≡ self.old.record }
        ensures failed { self.new.failed ≡ self.old.failed }
    {
        let Some(second) = &mut self.second else {
            return Err(Error::from(ErrorKind::NotFound));
        };
        second.file.write_all_at(bytes, second.size)?;
        second.size = second.size.saturating_add(bytes.len() as u64);
        Ok(())
    }

    // The first file is let go, and its lock with it, once the second has its name. A file whose name is another one's
    // now was moved while it was open: that other one is left as it is.
    fn put_in_place(&mut self) -> Result<(), ReplaceError>
        ensures calls { self.new.record ≡ self.old.record }
        ensures failed { self.new.failed ≡ self.old.failed }
    {
        let Some(second) = self.second.take() else {
            return Err(ReplaceError::Second);
        };
        if second.file.sync_all().is_err() || !self.folder.is_first(&self.file) {
            self.folder.remove_second(&second.file);
            return Err(ReplaceError::Second);
        }
        if self.folder.rename(&second.file).is_err() {
            if !self.folder.is_first(&self.file) {
                return Err(ReplaceError::Failed);
            }
            self.folder.remove_second(&second.file);
            return Err(ReplaceError::Second);
        }
        if self.folder.sync().is_err() {
            return Err(ReplaceError::Failed);
        }
        self.file = second.file;
        Ok(())
    }
}

impl<F: FileExt + OpenFile + Drop, P: Folder<F>> FileCalls for HostCalls<F, P> {
    ghost calls = { λ host. host.record.calls };

    fn has_failed(&self) -> bool {
        self.failed
    }

    // Where the system is interrupted, or writes a part, the write goes on with what is left.
    fn write_at(&mut self, at: usize, bytes: &[u8]) -> Result<(), DeviceFailed> {
        self.copy_aside();
        let answer = self.file.write_all_at(bytes, at as u64);
        self.note(
            answer,
            &Made::Wrote { at, bytes },
            &Made::WriteFailed { at, bytes },
        )
    }

    fn cut(&mut self, size: usize) -> Result<(), DeviceFailed> {
        self.copy_aside();
        let answer = self.file.set_len(size as u64);
        self.note(answer, &Made::CutTo { size }, &Made::CutFailed { size })
    }

    fn sync(&mut self) -> Result<(), DeviceFailed> {
        let answer = self.file.sync_data();
        if answer.is_ok() {
            self.tell_hindered();
        }
        self.note(answer, &Made::Synced, &Made::SyncFailed)
    }

    fn begin(&mut self) -> Result<(), SecondFailed> {
        match self.make_second() {
            Ok(()) => {
                self.record = self.record.and(&Made::Began);
                Ok(())
            }
            Err(_) => {
                self.hindered = self.tells;
                self.record = self.record.and(&Made::BeginFailed);
                Err(SecondFailed)
            }
        }
    }

    // Of a second file that couldn't be written it isn't known what it holds, so it is given up.
    fn append(&mut self, bytes: &[u8]) -> Result<(), SecondFailed> {
        let size = bytes.len();
        match self.grow_second(bytes) {
            Ok(()) => {
                self.record = self.record.and(&Made::Appended { bytes });
                Ok(())
            }
            Err(_) => {
                self.remove_second();
                self.hindered = self.tells;
                self.record = self.record.and(&Made::AppendFailed { size });
                Err(SecondFailed)
            }
        }
    }

    fn replace(&mut self) -> Result<(), ReplaceError> {
        self.copy_aside();
        match self.put_in_place() {
            Ok(()) => {
                self.record = self.record.and(&Made::Replaced);
                Ok(())
            }
            Err(ReplaceError::Second) => {
                self.hindered = self.tells;
                self.record = self.record.and(&Made::SecondNotReplaced);
                Err(ReplaceError::Second)
            }
            Err(ReplaceError::Failed) => {
                self.record = self.record.and(&Made::ReplaceFailed);
                self.failed = true;
                Err(ReplaceError::Failed)
            }
        }
    }
}
