//! Errors are equal if they are the same.

ghost use Rattle.std.specs.Prelude.{◌≡◌, ◌↔◌, IsTrue};

use crate::json::{JsonLabelError, JsonNameError};
use crate::text_error::{NameParseError, NameSplitError};

/// Errors are equal exactly if they are the same.
pub fn equal_errors()
    ensures parse { (a b : _) → IsTrue (⟦<NameParseError as PartialEq>⟧.eq a b) ↔ (a ≡ b) }
    ensures split { (a b : _) → IsTrue (⟦<NameSplitError as PartialEq>⟧.eq a b) ↔ (a ≡ b) }
    ensures json_name { (a b : _) → IsTrue (⟦<JsonNameError as PartialEq>⟧.eq a b) ↔ (a ≡ b) }
    ensures json_label { (a b : _) → IsTrue (⟦<JsonLabelError as PartialEq>⟧.eq a b) ↔ (a ≡ b) }
{}
