//! Printed text.

use std::alloc::Global;
use std::fmt::Display;

/// Whether the value is printed as the text.
pub(crate) fn prints<T: Display>(alloc: Global, value: &T, text: &str) -> bool {
    match value.to_string(alloc) {
        Ok(printed) => printed.as_str() == text,
        Err(_) => false,
    }
}
