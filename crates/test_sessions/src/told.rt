//! What a test asks of what it found. A text that is put together in an assertion costs a second of proof, so it stands
//! here, where it is proved once.

use std::fmt::Debug;
use std::process::Abort;

/// It is so; else the name is told, with the number of what was asked.
pub(crate) fn holds_at(rt: &impl Abort, is: bool, name: &str, at: u64) {
    assert!(rt; is, "{name} {at}");
}

/// Both are the same; else they are told, with the name and the number of what was asked.
pub(crate) fn same_at<T: PartialEq + Debug>(
    rt: &impl Abort,
    found: &T,
    wanted: &T,
    name: &str,
    at: u64,
) {
    assert!(rt;
        found == wanted,
        "{name} {at}: {found:?}, and not {wanted:?}"
    );
}
