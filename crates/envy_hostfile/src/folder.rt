// The folder of a file, and a second file beside it.
use crate::descriptors::above_standard;
use std::fs::{File, OpenOptions, Permissions, TryLockError};
use std::io::{Error, ErrorKind};
use std::os::unix::fs::{MetadataExt, OpenOptionsExt, PermissionsExt};
use std::{fs, io};

/// How many names a second file may have.
const MOST_NAMES: u32 = 8;

/// A bit of a file's mode that only a second file has, which isn't one of its access rights: what a crash leaves of one
/// is known by it.
const MARK: u32 = 0o1000;

/// The bits of a mode that are access rights.
const RIGHTS: u32 = 0o777;

/// The names of a file and of a second one beside it.
pub trait Folder<F> {
    /// Makes the second file, locked, with no bytes in it, under a name that nothing had.
    fn make(&mut self, first: &F) -> io::Result<F>;

    /// Whether the name is that of the first file.
    fn is_first(&self, first: &F) -> bool;

    /// Gives the second file the name of the first, which has none then.
    fn rename(&mut self, second: &F) -> io::Result<()>;

    /// Removes the second file, which has no use any more.
    fn remove_second(&mut self, second: &F);

    /// Brings the names to the disk.
    fn sync(&self) -> io::Result<()>;

    /// Copies the first file, since so many bytes of it that look like a sync are cut off, and says so.
    fn copy_aside(&self, first: &F, cut: usize);

    /// Says that no second file was put in the place of the first, which grows from then on.
    fn tell_hindered(&self);
}

/// A file's name, that of the second file, and the folder of both. The second file's name is that of the first with
/// `.envy-new` after it, and with a number after that if something else has the name.
#[derive(Drop)]
pub struct Names<'a> {
    pub(crate) rt: &'a HostRuntime,
    pub(crate) path: String,
    pub(crate) second: String,
    pub(crate) folder: File,
}

// Whether a path, links not followed, names this very file.
pub(crate) fn is_named(rt: &HostRuntime, path: &str, file: &File) -> io::Result<bool> {
    let here = file.metadata()?;
    let there = fs::symlink_metadata(rt, path)?;
    Ok(here.dev() == there.dev() && here.ino() == there.ino())
}

// Takes the lock of a file.
pub(crate) fn lock(file: &File) -> io::Result<()> {
    match file.try_lock() {
        Ok(()) => Ok(()),
        Err(TryLockError::WouldBlock) => Err(Error::from(ErrorKind::WouldBlock)),
        Err(TryLockError::Error(error)) => Err(error),
    }
}

impl<'a> Names<'a> {
    // The name of a second file.
    fn name(&self, number: u32) -> io::Result<String> {
        let path = self.path.as_str();
        let made = if number == 0 {
            format!(in self.rt.alloc(); "{path}.envy-new")
        } else {
            format!(in self.rt.alloc(); "{path}.envy-new{number}")
        };
        made.map_err(|_| Error::from(ErrorKind::OutOfMemory))
    }

    // Makes a file under the first of the names that nothing has. No link is followed, and no file is opened that is there.
    fn make_new(&mut self) -> io::Result<File> {
        for number in 0..MOST_NAMES {
            let name = self.name(number)?;
            let made = OpenOptions::new()
                .read(true)
                .write(true)
                .create_new(true)
                .mode(0o600 | MARK)
                .open(self.rt, name.as_str());
            match made {
                Ok(file) => {
                    self.second = name;
                    return above_standard(file);
                }
                Err(error) if error.kind() == ErrorKind::AlreadyExists => {}
                Err(error) => return Err(error),
            }
        }
        Err(Error::from(ErrorKind::AlreadyExists))
    }

    // Removes what has a name, if it is a second file that a process left when it ended: a file with the mark, which
    // nobody has locked.
    fn remove_left(&self, name: &str) -> io::Result<()> {
        let found = fs::symlink_metadata(self.rt, name)?;
        if !found.is_file() || found.mode() & MARK == 0 {
            return Ok(());
        }
        let file = File::open(self.rt, name)?;
        lock(&file)?;
        if is_named(self.rt, name, &file)? {
            fs::remove_file(self.rt, name)?;
        }
        Ok(())
    }

    // Removes the second files that a crash left. One that can't be removed is left.
    pub(crate) fn remove_all_left(&self) {
        for number in 0..MOST_NAMES {
            if let Ok(name) = self.name(number) {
                let _ = self.remove_left(name.as_str());
            }
        }
    }

    // Makes a second file and removes it, so that a folder in which none can be made, and a name that is too long, are
    // known before the file is used.
    pub(crate) fn try_out(&mut self, first: &File) -> io::Result<()> {
        let _file = self.make(first)?;
        fs::remove_file(self.rt, self.second.as_str())
    }
}

impl<'a> Folder<File> for Names<'a> {
    // It has the access rights of the first file before a byte is in it. A file system that keeps access rights alone takes
    // no mark: what a crash leaves there keeps its name.
    fn make(&mut self, first: &File) -> io::Result<File> {
        let file = self.make_new()?;
        lock(&file)?;
        let rights = first.metadata()?.mode() & RIGHTS;
        let marked = file.set_permissions(Permissions::from_mode(rights | MARK));
        if marked.is_err() {
            file.set_permissions(Permissions::from_mode(rights))?;
        }
        Ok(file)
    }

    fn is_first(&self, first: &File) -> bool {
        is_named(self.rt, self.path.as_str(), first).unwrap_or(false)
    }

    // The mark goes once the file has the first one's name. If that fails, it only looks like a second file.
    fn rename(&mut self, second: &File) -> io::Result<()> {
        if !is_named(self.rt, self.second.as_str(), second)? {
            return Err(Error::from(ErrorKind::NotFound));
        }
        fs::rename(self.rt, self.second.as_str(), self.path.as_str())?;
        let rights = second.metadata()?.mode() & RIGHTS;
        let _ = second.set_permissions(Permissions::from_mode(rights));
        Ok(())
    }

    fn remove_second(&mut self, second: &File) {
        let name = self.second.as_str();
        if is_named(self.rt, name, second).unwrap_or(false) {
            let _ = fs::remove_file(self.rt, name);
        }
    }

    fn sync(&self) -> io::Result<()> {
        self.folder.sync_all()
    }

    fn copy_aside(&self, first: &File, cut: usize) {
        self.copy_what_is_cut(first, cut);
    }

    fn tell_hindered(&self) {
        let path = self.path.as_str();
        let _ = self.rt.eprintln(format_args!(
            "envy: no second file took the place of {path}, so it is appended to and grows"
        ));
    }
}
