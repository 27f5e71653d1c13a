//! What is true of spans of names.

ghost use Rattle.std.specs.Prelude.{◌≡◌, ◌↔◌, IsTrue};

use crate::canonical_name::NameSpan;

/// Spans of names are equal exactly if they are the same.
pub fn equal_spans()
    ensures { (a b : _) → IsTrue (⟦<NameSpan as PartialEq>⟧.eq a b) ↔ (a ≡ b) }
{}
