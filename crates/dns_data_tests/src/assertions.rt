//! An assertion as a call.

use std::process::Abort;

/// Asserts that this is so.
pub(crate) fn holds(rt: &impl Abort, is_so: bool, what: &str) {
    assert!(rt; is_so, "{what}");
}
