//! Errors are equal if they are the same.

ghost use Rattle.std.specs.Prelude.{◌≡◌, ◌↔◌, [], IsTrue};

use crate::error::{ParseError, TruncationError};
use crate::list::ListError;
use std::hash::Hash;

/// Errors are equal exactly if they are the same.
pub fn equal_errors()
    ensures parse { (a b : _) → IsTrue (⟦<ParseError as PartialEq>⟧.eq a b) ↔ (a ≡ b) }
    ensures truncation { (a b : _) → IsTrue (⟦<TruncationError as PartialEq>⟧.eq a b) ↔ (a ≡ b) }
    ensures list { (a b : _) → IsTrue (⟦<ListError as PartialEq>⟧.eq a b) ↔ (a ≡ b) }
{}

/// An error that has one value only feeds a hasher nothing.
pub fn hashed_errors()
    ensures parse { (v : _) → ⟦<ParseError as Hash>⟧.hash_input v ≡ [] }
{}
