//! Errors are equal if they are the same.

ghost use Rattle.std.specs.Prelude.{◌≡◌, ◌↔◌, IsTrue};

use crate::text_error::{LabelParseError, LabelSplitError};

/// Errors are equal exactly if they are the same.
pub fn equal_errors()
    ensures parse { (a b : _) → IsTrue (⟦<LabelParseError as PartialEq>⟧.eq a b) ↔ (a ≡ b) }
    ensures split { (a b : _) → IsTrue (⟦<LabelSplitError as PartialEq>⟧.eq a b) ↔ (a ≡ b) }
{}
