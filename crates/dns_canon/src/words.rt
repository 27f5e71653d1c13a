//! The words of the command line.

ghost use Rattle.std.specs.Prelude.{◌≡◌, IfSome};
ghost use Rattle.dns_canon.specs.Words.{IsSmall, command_named, command_of, numbered_command};

use dns_text::{Args, number_within};
use std::marker::Model;

/// The most octets of the text of two messages.
pub const LIMIT_OF_TWO: usize = 262_144;

/// The most records that a message is made of.
pub const MOST_RECORDS: u16 = 1000;

/// What the program is asked to do.
#[derive(Clone, Copy, Debug, PartialEq, Eq)]
pub enum Command {
    /// `canon`: the canonical lines of one message.
    Canon,
    /// `same`: whether two messages carry the same records.
    Same,
    /// `make`: the sizes of a message of that many generated records, at most 1,000.
    Make { count: u16 },
}

impl Command {
    /// The command of one word; `None` if the word is no command.
    fn named(word: &str) -> Option<Command>
        ensures command { result ≡ command_named word.now }
        ensures small { IfSome result IsSmall }
    {
        match word {
            "canon" => Some(Command::Canon),
            "same" => Some(Command::Same),
            _ => None,
        }
    }

    /// The command of a word and the word after it; `None` if they are no command.
    fn numbered(word: &str, number: &str) -> Option<Command>
        ensures command { result ≡ numbered_command word.now number.now }
        ensures small { IfSome result IsSmall }
    {
        if word != "make" {
            return None;
        }
        let count = number_within(number, MOST_RECORDS)?;
        Some(Command::Make { count })
    }
}

/// A command of this program: `make` is of at most 1,000 records.
#[derive(Drop)]
pub(crate) struct CanonCommand {
    pub(crate) command: Command,
}

impl Model for CanonCommand {
    ghost use Rattle.dns_canon.specs.declared.words.Command.{Command};
    ghost use Rattle.dns_canon.specs.Words.{IsSmall};

    ghost Value = { Command };

    ghost view = { λ c. c.command };

    ghost invariant = { λ c. IsSmall c.command };
}

/// The command that the words are; `None` if they are no command.
pub(crate) fn command_of(words: &Args) -> Option<CanonCommand>
    ensures { result ≡ command_of words.now }
{
    let command = match (words.get(0), words.get(1), words.get(2)) {
        (Some(word), None, None) => Command::named(word)?,
        (Some(word), Some(number), None) => Command::numbered(word, number)?,
        _ => return None,
    };
    Some(CanonCommand { command })
}
