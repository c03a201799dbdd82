//! What a test asks of what it found. A text that is put together in an assertion costs a second of proof, so it stands
//! here, where it is proved once. What is compared is taken as it is: a reference to it would be a loan in whatever calls this,
//! and cost it proof.

use std::fmt::Debug;
use std::process::Abort;

/// Both are the same; else they are told, with the name and the numbers of what was asked.
pub(crate) fn same_of<T: Copy + PartialEq + Debug, W: Copy + Debug>(
    rt: &impl Abort,
    found: T,
    wanted: T,
    name: &str,
    what: W,
) {
    assert!(rt;
        found == wanted,
        "{name} {what:?}: {found:?}, and not {wanted:?}"
    );
}
