//! The words of the commands.

ghost use Rattle.std.specs.Prelude.{◌≡◌, length};
ghost use Rattle.std.specs.Option.{option_map};
ghost use Rattle.std.specs.Result.{result_ok};
ghost use Rattle.dns_text.specs.Words.{number_within};
ghost use Rattle.dns_name.specs.Text.{parsed_name};
ghost use Rattle.dns_denial.specs.Words.{command_of, hash_named};

use crate::salt::Salt;
use dns_name::NameBuf;
use dns_text::{Args, number_within};

/// What is asked for.
#[derive(Drop)]
pub(crate) enum DenialCommand {
    /// `hash`: the hash of a name for NSEC3.
    Hash {
        name: NameBuf,
        salt: Salt,
        iterations: u16,
    },
    /// `covers`: what the NSEC and NSEC3 records in a message say of a name.
    Covers {
        name: NameBuf,
    },
    /// `signed`: the octets that a signature in a message is over, by its number from 0.
    Signed {
        number: u16,
    },
    /// `keytags`: the tags of the keys in a message.
    KeyTags,
}

/// The command `hash` with these words after it; `None` if they are not a name, a salt and a number.
fn hash_named(name: &str, salt: &str, iterations: &str) -> Option<DenialCommand>
    ensures { result ≡ hash_named name.now salt.now iterations.now }
{
    let name = NameBuf::parse_str(name.as_bytes()).ok()?;
    let salt = Salt::named(salt)?;
    let iterations = number_within(iterations, u16::MAX)?;
    Some(DenialCommand::Hash {
        name,
        salt,
        iterations,
    })
}

/// The command `covers` with this word after it; `None` if it is no name.
fn covers_named(name: &str) -> Option<DenialCommand>
    ensures { result ≡ option_map DenialCommand.Covers (result_ok (parsed_name name.now)) }
{
    match NameBuf::parse_str(name.as_bytes()) {
        Ok(name) => Some(DenialCommand::Covers { name }),
        Err(_) => None,
    }
}

/// The command `signed` with this word after it; `None` if it is no number.
fn signed_named(number: &str) -> Option<DenialCommand>
    ensures { result ≡ option_map DenialCommand.Signed (number_within 65535 number.now) }
{
    let number = number_within(number, u16::MAX)?;
    Some(DenialCommand::Signed { number })
}

/// The command of one word alone; `None` if it is no command.
fn one_word(args: &Args) -> Option<DenialCommand>
    requires { length args.now ≡ 1 }
    ensures { result ≡ command_of args.now }
{
    let word = args.get(0).unwrap();
    if word == "keytags" {
        Some(DenialCommand::KeyTags)
    } else {
        None
    }
}

/// The command of two words; `None` if they are no command.
fn two_words(args: &Args) -> Option<DenialCommand>
    requires { length args.now ≡ 2 }
    ensures { result ≡ command_of args.now }
{
    let word = args.get(0).unwrap();
    let next = args.get(1).unwrap();
    if word == "covers" {
        covers_named(next)
    } else if word == "signed" {
        signed_named(next)
    } else {
        None
    }
}

/// The command of four words; `None` if they are no command.
fn four_words(args: &Args) -> Option<DenialCommand>
    requires { length args.now ≡ 4 }
    ensures { result ≡ command_of args.now }
{
    let word = args.get(0).unwrap();
    let name = args.get(1).unwrap();
    let salt = args.get(2).unwrap();
    let iterations = args.get(3).unwrap();
    if word == "hash" {
        hash_named(name, salt, iterations)
    } else {
        None
    }
}

/// The command that the words are; `None` if they are no command.
pub(crate) fn command_of(args: &Args) -> Option<DenialCommand>
    ensures { result ≡ command_of args.now }
{
    match args.len() {
        1 => one_word(args),
        2 => two_words(args),
        4 => four_words(args),
        _ => None,
    }
}
