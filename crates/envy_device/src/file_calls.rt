ghost use Rattle.std.specs.Prelude.{◌≡◌, List, length};
ghost use Rattle.envy_device.specs.Calls.{Call, Notes, NotesReplace, have_failed};
ghost use Rattle.envy_device.specs.Calls.Call.{Wrote, WriteFailed, CutTo, CutFailed, Synced, SyncFailed, Began, BeginFailed, Appended, AppendFailed};

use crate::{DeviceFailed, ReplaceError, SecondFailed};

/// What makes calls on a file, and on a second one beside it. Of a call that fails any part may be done. After a call on the
/// second file failed, the next one on it is `begin`.
///
/// No contract can say what a file holds. So whoever makes calls notes each of them and its answer, and what the file
/// holds and what a crash may leave of it are functions of these (`specs/Calls.antt`).
pub trait FileCalls {
    /// The calls that were made, with their answers, the newest first.
    ghost calls: { Self → List Call };

    /// Whether one of them failed.
    fn has_failed(&self) -> bool
        ensures { result ≡ have_failed (calls self.now) };

    /// Writes all of the bytes at an offset.
    fn write_at(&mut self, at: usize, bytes: &[u8]) -> Result<(), DeviceFailed>
        ensures { Notes (Wrote at bytes.now) (WriteFailed at bytes.now) result (calls self.old)
            (calls self.new) };

    /// Cuts the file to a size.
    fn cut(&mut self, size: usize) -> Result<(), DeviceFailed>
        ensures { Notes (CutTo size) (CutFailed size) result (calls self.old) (calls self.new) };

    /// Brings the file to the disk.
    fn sync(&mut self) -> Result<(), DeviceFailed>
        ensures { Notes Synced SyncFailed result (calls self.old) (calls self.new) };

    /// Makes a second file without bytes, or cuts it to none.
    fn begin(&mut self) -> Result<(), SecondFailed>
        ensures { Notes Began BeginFailed result (calls self.old) (calls self.new) };

    /// Writes all of the bytes after those of the second file.
    fn append(&mut self, bytes: &[u8]) -> Result<(), SecondFailed>
        ensures { Notes (Appended bytes.now) (AppendFailed (length bytes.now)) result (calls self.old)
            (calls self.new) };

    /// Brings the second file to the disk, puts it in the file's place, and brings its name there to the disk. A failure
    /// is one of the second file only if the name is still that of the file.
    fn replace(&mut self) -> Result<(), ReplaceError>
        ensures { NotesReplace result (calls self.old) (calls self.new) };
}
