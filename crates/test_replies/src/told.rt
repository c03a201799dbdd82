//! What a test asks of what it found. A text that is put together in an assertion costs a second of proof, so it stands
//! here, where it is proved once.

use std::process::Abort;

/// It is so; else the name and what was asked are told.
pub(crate) fn holds(rt: &impl Abort, is: bool, name: &str, what: &str) {
    assert!(rt; is, "{name}: {what}");
}

/// Both numbers are the same; else they are told, with the name and what was asked.
pub(crate) fn same(rt: &impl Abort, found: u64, wanted: u64, name: &str, what: &str) {
    assert!(rt;
        found == wanted,
        "{name}: {what}: {found}, and not {wanted}"
    );
}
