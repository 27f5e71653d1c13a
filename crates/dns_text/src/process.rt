//! The words with which a process was started.

ghost use Rattle.std.specs.Prelude.{◌≡◌};

use std::alloc::AllocFailed;
use std::{env, io};

/// Why the words of a process's command line are not known.
#[derive(Clone, Copy, Debug, PartialEq, Eq)]
pub enum WordsError {
    /// They cannot be read, as when one is not UTF-8.
    Unreadable,
    /// Memory ran out.
    Memory,
}

impl From<io::Error> for WordsError {
    fn from(error: io::Error) -> WordsError {
        match error.kind() {
            io::ErrorKind::OutOfMemory => WordsError::Memory,
            _ => WordsError::Unreadable,
        }
    }
}

impl<T: Drop> From<AllocFailed<T>> for WordsError {
    ghost use Rattle.dns_text.specs.declared.process.WordsError.TheVariants.{Memory};

    ghost from_gives = { λ _ e. e ≡ Memory };

    fn from(_error: AllocFailed<T>) -> WordsError {
        WordsError::Memory
    }
}

impl WordsError {
    ghost use Rattle.dns_text.specs.Words.{words_code};

    /// The code that a process ends with whose words are not known: 8 where memory ran out, as for each command, and else 14.
    pub fn code(&self) -> u8
        ensures { result ≡ words_code self.now }
    {
        match self {
            WordsError::Unreadable => 14,
            WordsError::Memory => 8,
        }
    }
}

/// The words of the command line, without the program's own name.
pub fn process_words(rt: &HostRuntime) -> Result<Vec<String>, WordsError> {
    let mut words = Vec::new(rt.alloc());
    for word in env::args(rt)?.skip(1) {
        words.push(word)?;
    }
    Ok(words)
}
