// What is asked of a file, and what becomes of it.
ghost use Rattle.std.specs.Prelude.{◌≡◌, [], ◌∷◌, ◌++◌, true, false};

use crate::drawn::{write_anew, write_over};
use std::alloc::AllocError;

/// What was asked of a file.
#[derive(Drop)]
pub enum Call {
    Write { at: usize, bytes: Vec<u8> },
    Cut { len: usize },
    Sync,
    /// These bytes take the place of all.
    Replace { bytes: Vec<u8> },
    /// A write or a cut that failed, of which any part may be done.
    BadWrite { at: usize, bytes: Vec<u8> },
    BadCut { len: usize },
    /// A replacement that failed. It may be done.
    BadReplace { bytes: Vec<u8> },
}

/// Makes a file what a call makes of it.
pub(crate) fn follow(seen: &mut Vec<u8>, call: &Call) -> Result<(), AllocError> {
    match call {
        Call::Write { at, bytes } => write_over(seen, *at, bytes)?,
        Call::Cut { len } => seen.truncate(*len),
        Call::Replace { bytes } => write_anew(seen, bytes)?,
        Call::Sync | Call::BadWrite { .. } | Call::BadCut { .. } | Call::BadReplace { .. } => {}
    }
    Ok(())
}

/// Adds a call, if there is memory for it.
pub(crate) fn add_call(calls: &mut Vec<Call>, call: Call) -> bool
    ensures added { result ≡ true → calls.new.items ≡ calls.old.items ++ call ∷ [] }
    ensures full { result ≡ false → calls.new.items ≡ calls.old.items }
{
    calls.push(call).is_ok()
}
