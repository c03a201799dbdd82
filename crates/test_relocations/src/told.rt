//! What a test asks of what it found. A text that is put together in an assertion costs a second of proof, so it stands
//! here, where it is proved once.

use std::fmt::Debug;
use std::process::Abort;

/// Both are the same; else they are told, with the name and the number of what was asked.
pub(crate) fn same_at<T: PartialEq + Debug>(
    rt: &impl Abort,
    found: &T,
    wanted: &T,
    name: &str,
    at: u64,
) {
    assert!(rt;
        found == wanted,
        "{name} {at}: {found:?}, and not {wanted:?}"
    );
}

/// What was found is told, with the name, and the test ends.
pub(crate) fn other<T: Debug>(rt: &impl Abort, name: &str, found: &T) -> ! {
    panic!(rt; "{name}: {found:?}")
}
