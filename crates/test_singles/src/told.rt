//! What a test asks of what it found. A text that is put together in an assertion costs a second of proof, so it stands
//! here, where it is proved once.

use std::fmt::Debug;
use std::process::Abort;

/// Both are the same; else they are told, with the name.
pub(crate) fn same<T: PartialEq + Debug>(rt: &impl Abort, found: &T, wanted: &T, name: &str) {
    assert!(rt; found == wanted, "{name}: {found:?}, and not {wanted:?}");
}

/// Both are the same; else they are told, with the name and the number of what was asked.
pub(crate) fn same_at<T: PartialEq + Debug>(
    rt: &impl Abort,
    found: &T,
    wanted: &T,
    name: &str,
    at: u64,
) {
    assert!(rt;
        found == wanted,
        "{name} {at}: {found:?}, and not {wanted:?}"
    );
}

/// Both are the same; else they are told, with what was asked.
pub(crate) fn same_of<T: PartialEq + Debug, A: Debug>(
    rt: &impl Abort,
    found: &T,
    wanted: &T,
    asked: &A,
) {
    assert!(rt;
        found == wanted,
        "at {asked:?}: {found:?}, and not {wanted:?}"
    );
}

/// Both are the same; else they are told, with the name and the number of what was asked, and of that in which it stands.
pub(crate) fn same_within<T: PartialEq + Debug>(
    rt: &impl Abort,
    found: &T,
    wanted: &T,
    part: (&str, u32),
    whole: (&str, u32),
) {
    let (name, at) = part;
    let (of, number) = whole;
    assert!(rt;
        found == wanted,
        "{name} {at} of {of} {number}: {found:?}, and not {wanted:?}"
    );
}

/// The same of a list.
pub(crate) fn same_list(rt: &impl Abort, found: &[u32], wanted: &[u32], name: &str) {
    assert!(rt; found == wanted, "{name}: {found:?}, and not {wanted:?}");
}
