//! Assertions with names.

use std::process::Abort;

/// Each condition holds; the test fails with the name of the first that does not.
pub(crate) fn all_hold(rt: &impl Abort, cases: &[(&str, bool)]) {
    for (what, condition) in cases {
        assert!(rt; *condition, "{what}");
    }
}
