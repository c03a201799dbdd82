// A file is copied before the opening cuts off what may be a sync.
use crate::folder::Names;
use std::fs::{File, OpenOptions};
use std::io::{Error, ErrorKind, Result, Write};
use std::os::unix::fs::{FileExt, OpenOptionsExt};

/// So many names are tried for a copy.
const MOST_NAMES: u32 = 8;

/// How many bytes are copied at a time.
const PIECE: usize = 1 << 14;

/// Copies all bytes of a file behind those of another, and brings that one to the disk.
fn copy_all(from: &File, to: &mut File) -> Result<()> {
    let mut piece = [0; PIECE];
    let mut at = 0;
    for _turn in 0..u64::MAX {
        let n = match from.read_at(&mut piece, at) {
            Ok(0) => return to.sync_all(),
            Ok(n) => n,
            Err(error) if error.kind() == ErrorKind::Interrupted => 0,
            Err(error) => return Err(error),
        };
        to.write_all(&piece[..n])?;
        at = at.saturating_add(n as u64);
    }
    Ok(())
}

impl<'a> Names<'a> {
    /// The name of a copy.
    fn copy_name(&self, number: u32) -> Result<String> {
        let path = self.path.as_str();
        let made = if number == 0 {
            format!(in self.rt.alloc(); "{path}.envy-cut")
        } else {
            format!(in self.rt.alloc(); "{path}.envy-cut{number}")
        };
        made.map_err(|_| Error::from(ErrorKind::OutOfMemory))
    }

    /// Copies a file to a new one under the first name that nothing has, and answers that name.
    fn copy_first(&self, first: &File) -> Result<String> {
        for number in 0..MOST_NAMES {
            let name = self.copy_name(number)?;
            let made = OpenOptions::new()
                .write(true)
                .create_new(true)
                .mode(0o600)
                .open(self.rt, name.as_str());
            match made {
                Ok(mut copy) => {
                    copy_all(first, &mut copy)?;
                    return Ok(name);
                }
                Err(error) if error.kind() == ErrorKind::AlreadyExists => {}
                Err(error) => return Err(error),
            }
        }
        Err(Error::from(ErrorKind::AlreadyExists))
    }

    /// Copies a file of which so many bytes that look like a sync are cut off, and says so on standard error. If it can't be
    /// copied that is said.
    pub(crate) fn copy_what_is_cut(&self, first: &File, cut: usize) {
        let _ = match self.copy_first(first) {
            Ok(name) => self.rt.eprintln(format_args!(
                "envy: {cut} bytes behind the last sync look like a sync; the file is copied to {name}"
            )),
            Err(_) => self.rt.eprintln(format_args!(
                "envy: {cut} bytes behind the last sync look like a sync; the file can't be copied"
            )),
        };
    }
}
