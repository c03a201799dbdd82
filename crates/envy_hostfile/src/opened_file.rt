ghost use Rattle.std.specs.Prelude.{◌≡◌, false, IfOk};
ghost use Rattle.envy_device.specs.Device.{Only};
ghost use Rattle.envy_hostfile.specs.Host.{host_bytes, host_bytewise, host_outcome, host_failed};

use crate::descriptors::{above_standard, hold_standard};
use crate::folder::{Names, is_named, lock};
use crate::host::{HostCalls, HostFile};
use envy_device::{ReplaceError, Replaceable};
use std::alloc::AllocError;
use std::fs::{File, OpenOptions};
use std::io::ErrorKind;
use std::os::unix::fs::FileExt;
use std::{fs, io};

/// What a journal begins with, in front of its version.
const MARK: [u8; 8] = [1, b'e', b'N', b'V', b'y', b'J', b'N', b'L'];

/// How many bytes that are.
const MARK_SIZE: usize = 8;

/// The versions that are known here.
const VERSIONS: [u8; 2] = [2, 4];

/// How many bytes are read at a time: so few that they are still in the processor's cache when they are put behind the others.
pub(crate) const PIECE: usize = 1 << 16;

/// Why a file wasn't opened.
#[derive(Clone, Copy, Debug, PartialEq, Eq)]
pub enum OpenFault {
    /// It couldn't be made, opened, locked, synced or read, or it is no regular file.
    Unreadable,
    /// No second file can be made beside it.
    NotMade,
    /// It is locked, or was replaced while it was opened: another process has it open.
    InUse,
    /// It has bytes, and they don't begin as a journal does.
    NoJournal,
    /// Memory ran out.
    Memory,
}

impl From<io::Error> for OpenFault {
    ghost use Rattle.std.specs.IoError.{error_kind};
    ghost use Rattle.envy_hostfile.specs.Faults.{fault_of};

    ghost from_gives = { λ error fault. fault ≡ fault_of (error_kind error) };

    fn from(error: io::Error) -> Self {
        match error.kind() {
            ErrorKind::OutOfMemory => OpenFault::Memory,
            _ => OpenFault::Unreadable,
        }
    }
}

impl From<AllocError> for OpenFault {
    ghost use Rattle.envy_hostfile.specs.declared.opened_file.OpenFault.TheVariants.{Memory};

    ghost from_gives = { λ _ fault. fault ≡ Memory };

    fn from(_: AllocError) -> Self {
        OpenFault::Memory
    }
}

// Opens a file, or makes an empty one, and tells whether it made it.
fn opened(rt: &HostRuntime, path: &str) -> io::Result<(File, bool)> {
    let mut options = OpenOptions::new();
    options.read(true).write(true);
    match options.open(rt, path) {
        Ok(file) => Ok((above_standard(file)?, false)),
        Err(error) if error.kind() == ErrorKind::NotFound => {
            let file = options.create(true).open(rt, path)?;
            Ok((above_standard(file)?, true))
        }
        Err(error) => Err(error),
    }
}

// Whether a file begins otherwise than a journal does: of a long one no more is read.
fn is_foreign(file: &File) -> io::Result<bool> {
    let mut front = [0; MARK_SIZE];
    if file.metadata()?.len() < MARK_SIZE as u64 {
        return Ok(false);
    }
    file.read_exact_at(&mut front, 0)?;
    Ok(front[..] != MARK[..])
}

// Whether bytes begin as a journal of a version that is known here.
fn is_journal(bytes: &[u8]) -> bool {
    bytes.len() > MARK_SIZE && bytes.starts_with(&MARK) && VERSIONS.contains(&bytes[MARK_SIZE])
}

// Locks a file that was opened.
fn locked(file: &File) -> Result<(), OpenFault> {
    if !file.metadata()?.is_file() {
        return Err(OpenFault::Unreadable);
    }
    match lock(file) {
        Ok(()) => Ok(()),
        Err(error) if error.kind() == ErrorKind::WouldBlock => Err(OpenFault::InUse),
        Err(_) => Err(OpenFault::Unreadable),
    }
}

// The names of a file and of its second one. A link is followed once, here.
fn named<'a>(rt: &'a HostRuntime, path: &str) -> Result<Names<'a>, OpenFault> {
    let mut place = fs::canonicalize(rt, path)?;
    let path = format!(in rt.alloc(); "{}", place.as_str())?;
    let second = String::new(rt.alloc());
    place.pop();
    let folder = above_standard(File::open(rt, place.as_str())?)?;
    Ok(Names {
        rt,
        path,
        second,
        folder,
    })
}

// Why no second file was made.
fn not_made(error: &io::Error) -> OpenFault {
    match error.kind() {
        ErrorKind::OutOfMemory => OpenFault::Memory,
        _ => OpenFault::NotMade,
    }
}

// The names of a file that is locked, beside which a second one can be made. If none can, a file that was made is removed.
fn placed<'a>(
    rt: &'a HostRuntime,
    path: &str,
    file: &File,
    is_made: bool,
) -> Result<Names<'a>, OpenFault> {
    let mut place = named(rt, path)?;
    if !is_named(rt, place.path.as_str(), file)? {
        return Err(OpenFault::InUse);
    }
    place.remove_all_left();
    match place.try_out(file) {
        Ok(()) => Ok(place),
        Err(error) => {
            if is_made {
                let _ = fs::remove_file(rt, place.path.as_str());
            }
            Err(not_made(&error))
        }
    }
}

// All of the bytes of a file, from the disk. There is room for them before the first is read; a file that is longer or
// shorter than it was then isn't taken.
fn read_whole(rt: &HostRuntime, file: &File) -> Result<Vec<u8>, OpenFault> {
    let size = file.metadata()?.len() as usize;
    let mut bytes = Vec::with_capacity(rt.alloc(), size)?;
    let mut piece = [0; PIECE];
    for _turn in 0..=size / PIECE {
        let part = PIECE.min(size.saturating_sub(bytes.len()));
        file.read_exact_at(&mut piece[..part], bytes.len() as u64)?;
        bytes.extend_from_slice(&piece[..part])?;
    }
    if file.metadata()?.len() == size as u64 {
        Ok(bytes)
    } else {
        Err(OpenFault::Unreadable)
    }
}

// The file with the bytes that it has, written anew through the second file, so that they are on the disk. If no second file
// takes its place, the file is as it was. What isn't a journal isn't written.
fn written_anew<'a>(
    found: HostFile<File, Names<'a>>,
    bytes: &[u8],
    _bytewise: bool,
) -> Result<HostFile<File, Names<'a>>, OpenFault>
    requires bytes { host_bytes found ≡ bytes.now }
    requires durable { Only (host_bytes found) (host_outcome found) }
    requires works { host_failed found ≡ false }
    requires bytewise { host_bytewise found ≡ _bytewise }
    ensures bytes { IfOk result (λ file. host_bytes file ≡ bytes.now) }
    ensures durable { IfOk result (λ file. Only (host_bytes file) (host_outcome file)) }
    ensures works { IfOk result (λ file. host_failed file ≡ false) }
    ensures bytewise { IfOk result (λ file. host_bytewise file ≡ _bytewise) }
{
    let mut file = found;
    if !is_journal(bytes) || file.begin_second().is_err() {
        return Ok(file);
    }
    if file.write_second(bytes).is_err() {
        return Ok(file);
    }
    match file.replace() {
        Ok(()) => {
            file.file.is_believed = false;
            Ok(file)
        }
        Err(ReplaceError::Second) => Ok(file),
        Err(ReplaceError::Failed) => Err(OpenFault::Unreadable),
    }
}

/// Opens the file at a path, or makes an empty one, locks it, looks whether it begins as a journal does, brings it and its name to the disk, reads it whole, and writes
/// what it read anew. The lock goes with the file. A file that was locked and that the path doesn't name
/// any more was replaced by the process that had it open. Beside it a second file must be able to be made; those that a
/// crash left are removed. That the file is written byte by byte is a premise, which the caller states or doesn't.
pub fn open<'a>(
    rt: &'a HostRuntime,
    path: &str,
    bytewise: bool,
) -> Result<(HostFile<File, Names<'a>>, Vec<u8>), OpenFault>
    ensures bytes { IfOk result (λ opened. host_bytes opened.0 ≡ opened.1.items) }
    ensures durable { IfOk result (λ opened. Only (host_bytes opened.0) (host_outcome opened.0)) }
    ensures works { IfOk result (λ opened. host_failed opened.0 ≡ false) }
    ensures bytewise { IfOk result (λ opened. host_bytewise opened.0 ≡ bytewise) }
{
    hold_standard(rt);
    let (file, is_made) = opened(rt, path)?;
    locked(&file)?;
    if is_foreign(&file)? {
        return Err(OpenFault::NoJournal);
    }
    let place = placed(rt, path, &file, is_made)?;
    file.sync_all()?;
    place.folder.sync_all()?;
    let bytes = read_whole(rt, &file)?;
    let found = HostCalls::found(file, place, &bytes, bytewise);
    let mut file = written_anew(found, &bytes, bytewise)?;
    file.file.tells = true;
    Ok((file, bytes))
}
