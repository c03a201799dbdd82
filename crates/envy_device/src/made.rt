/// A call that was made on a file or on a second one beside it, and what it answered.
#[derive(Clone, Copy, Drop)]
pub enum Made<'a> {
    /// The file was synced, and then read whole, from the disk.
    Found { bytes: &'a [u8] },
    /// These bytes were written at this offset.
    Wrote { at: usize, bytes: &'a [u8] },
    /// A write of these bytes failed. Any part of it may be done.
    WriteFailed { at: usize, bytes: &'a [u8] },
    /// The file was cut to a size.
    CutTo { size: usize },
    /// A cut failed. It may be done.
    CutFailed { size: usize },
    /// The file was synced.
    Synced,
    /// A sync failed. Any part of what was to be synced may be on the disk.
    SyncFailed,
    /// The second file was begun, with no bytes in it.
    Began,
    /// The second file wasn't begun.
    BeginFailed,
    /// These bytes were written behind those of the second file.
    Appended { bytes: &'a [u8] },
    /// A write of the second file failed.
    AppendFailed { size: usize },
    /// The second file was brought to the disk and put in the file's place.
    Replaced,
    /// It wasn't put there. The file is as it was.
    SecondNotReplaced,
    /// It may have been put there, and it isn't known what the disk has.
    ReplaceFailed,
}
