//! The words of a command line.

ghost use Rattle.std.specs.Prelude.{◌≡◌, ◌↔◌, ◌≤◌, List, map, length, string_bytes, IsNone, IsTrue, slice_get};
ghost use Rattle.std.specs.Option.{option_copied};
ghost use Rattle.dns_wire.specs.Octets.{Octets};

use std::marker::Model;

/// The words of a command line, without the program's own name.
#[derive(Drop)]
pub struct Args {
    words: Vec<String>,
}

impl Model for Args {
    ghost Value = { List Octets };

    ghost view = { λ a. map string_bytes a.words.items };
}

impl Args {
    /// These words.
    pub fn new(words: Vec<String>) -> Self
        ensures { result ≡ map string_bytes words.items }
    {
        Args { words }
    }

    /// The number of words.
    pub fn len(&self) -> usize
        ensures { result ≡ length self.now }
    {
        self.words.len()
    }

    /// Whether there are no words.
    pub fn is_empty(&self) -> bool
        ensures { IsTrue result ↔ (length self.now ≡ 0) }
    {
        self.words.is_empty()
    }

    /// A word, by its place from 0; none from the length on.
    pub fn get(&self, index: usize) -> Option<&str>
        ensures value { option_copied result ≡ slice_get self.now index }
        ensures past { IsNone result ↔ (length self.now ≤ index) }
    {
        match self.words.get(index) {
            Some(word) => Some(word.as_str()),
            None => None,
        }
    }
}
