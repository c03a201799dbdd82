//! What a test asks of what it found. A text that is put together in an assertion costs a second of proof, so it stands
//! here, where it is proved once.

use std::fmt::Debug;
use std::process::Abort;

/// Both are the same; else they are told, with the name.
pub(crate) fn same<T: PartialEq + Debug>(rt: &impl Abort, found: &T, wanted: &T, name: &str) {
    assert!(rt; found == wanted, "{name}: {found:?}, and not {wanted:?}");
}

/// Both are the same; else they are told, with the name and the number of what was asked.
pub(crate) fn same_at<T: PartialEq + Debug>(
    rt: &impl Abort,
    found: &T,
    wanted: &T,
    name: &str,
    at: u64,
) {
    assert!(rt;
        found == wanted,
        "{name} {at}: {found:?}, and not {wanted:?}"
    );
}

/// Bytes that were found are this text; else both are told.
pub(crate) fn same_text(rt: &impl Abort, found: &[u8], text: &str) {
    assert!(rt; found == text.as_bytes(), "{found:?}, and not {text}");
}
