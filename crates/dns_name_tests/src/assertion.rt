//! Statements about plain values.

use std::process::Abort;

/// Ends the test unless the statement holds, and says what does not.
pub(crate) fn holds(rt: &impl Abort, is_so: bool, what: &str) {
    assert!(rt; is_so, "{what}");
}
