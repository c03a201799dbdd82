//! What a test asks of what it found. A text that is put together in an assertion costs a second of proof, so it stands
//! here, where it is proved once. What is compared is taken as it is: a reference to it would be a loan in whatever calls this,
//! and cost it proof.

use std::fmt::Debug;
use std::process::Abort;

/// Both are the same; else they are told, with the name.
pub(crate) fn same<T: Copy + PartialEq + Debug>(rt: &impl Abort, found: T, wanted: T, name: &str) {
    assert!(rt; found == wanted, "{name}: {found:?}, and not {wanted:?}");
}

/// The same of bytes.
pub(crate) fn same_bytes(rt: &impl Abort, found: &[u8], wanted: &[u8], name: &str) {
    same(rt, found, wanted, name);
}
