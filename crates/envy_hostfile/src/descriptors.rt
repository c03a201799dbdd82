// Descriptors of files, which are those of no standard stream.
use std::fs::{File, OpenOptions};
use std::io;
use std::os::fd::{AsRawFd, IntoRawFd};

/// The highest descriptor of a standard stream.
const LAST_STANDARD: i32 = 2;

/// A file that is always there, and has no bytes.
const NULL: &str = "/dev/null";

/// Opens each descriptor of a standard stream that is closed, so that no file that is opened later has its number, and no
/// reply is written to that file. Each is opened the other way, so that its use fails, as that of a closed one does.
pub(crate) fn hold_standard(rt: &HostRuntime) {
    for _ in 0..=LAST_STANDARD {
        let Ok(null) = OpenOptions::new().write(true).open(rt, NULL) else {
            return;
        };
        let number = null.as_raw_fd();
        if number > LAST_STANDARD {
            return;
        }
        if number == 0 {
            let _held = null.into_raw_fd();
        } else {
            drop(null);
            if let Ok(other) = File::open(rt, NULL) {
                let _held = other.into_raw_fd();
            }
        }
    }
}

/// The same open file under a descriptor that is no standard stream's.
pub(crate) fn above_standard(file: File) -> io::Result<File> {
    if file.as_raw_fd() > LAST_STANDARD {
        Ok(file)
    } else {
        file.try_clone()
    }
}
