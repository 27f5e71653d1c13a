//! Why a text of messages is refused.

ghost use Rattle.std.specs.Prelude.{◌≡◌, ℕ, List, Some};
ghost use Rattle.dns_command.specs.Notes.{notice_line, notice_text};
ghost use Rattle.dns_command.specs.Refusals.{hex_error, message_error, message_notice, refusal_note, refusal_text};

use crate::notice::Notice;
use crate::outcome::PrintError;
use dns_message::CanonError;
use dns_text::HexError;
use std::error::Error;
use std::fmt;

/// How the messages of a text are told apart.
pub trait MessageNumber: Copy {
    /// The number of the message, from 0.
    ghost number: { Self → ℕ };

    /// The number of the message, from 0.
    fn number(&self) -> u32
        ensures { result ≡ number self.now };
}

impl MessageNumber for u8 {
    ghost number = { λ message. message };

    fn number(&self) -> u32 {
        u32::from(*self)
    }
}

impl MessageNumber for u32 {
    ghost number = { λ message. message };

    fn number(&self) -> u32 {
        *self
    }
}

/// The only message of a text. It has the number 0.
#[derive(Clone, Copy, Debug, PartialEq, Eq)]
pub struct OneMessage;

impl MessageNumber for OneMessage {
    ghost number = { λ _. 0 };

    fn number(&self) -> u32 {
        0
    }
}

/// Why a command refuses valid messages.
pub trait Reason: Copy {
    /// What is said of it.
    ghost words: { Self → List ℕ };

    /// What is said of it.
    fn words(&self) -> &'static str
        ensures { result.now ≡ words self.now };
}

/// Why a text of messages is refused. `M` tells the message, and `R` says why valid messages are refused.
#[derive(Clone, Copy, Debug, PartialEq, Eq)]
pub enum Refusal<M, R> {
    /// The text of a message is not pairs of hexadecimal digits.
    BadHex,
    /// A message has fewer than 12 octets.
    Short { message: M },
    /// This item is the first of a message that can't be read. Sections are numbered 0 to 3 (question,
    /// answer, authority, additional), and items from 0 in each.
    Item { message: M, section: u8, index: u16 },
    /// Valid messages are refused.
    Own(R),
}

impl<M: Copy, R> Refusal<M, R> {
    /// Why a message is refused that has no canonical list; `PrintError::Memory` if memory ran out for it.
    pub fn of(message: M, error: CanonError) -> PrintError<Refusal<M, R>>
        ensures { result ≡ message_error message error }
    {
        match error {
            CanonError::Short => PrintError::Refused(Refusal::Short { message }),
            CanonError::Item { section, index } => PrintError::Refused(Refusal::Item {
                message,
                section,
                index,
            }),
            CanonError::Memory => PrintError::Memory,
        }
    }
}

impl<M: MessageNumber, R: Copy> Refusal<M, R> {
    /// What is noted for a message that is refused, or the command's own reason.
    pub fn message_notice(&self) -> Result<Notice, R>
        ensures { result ≡ message_notice M.number self.now }
    {
        match self {
            Refusal::BadHex => Ok(Notice::BadHex),
            Refusal::Short { message } => Ok(Notice::Short {
                message: message.number(),
            }),
            Refusal::Item {
                message,
                section,
                index,
            } => Ok(Notice::Item {
                message: message.number(),
                section: *section,
                index: *index,
            }),
            Refusal::Own(reason) => Err(*reason),
        }
    }
}

impl<M: MessageNumber, R: Reason> Refusal<M, R> {
    /// What is noted for it.
    pub fn notice(&self) -> Notice
        ensures line { notice_line result ≡ refusal_note M.number R.words self.now }
        ensures text { notice_text result ≡ refusal_text M.number R.words self.now }
    {
        match self.message_notice() {
            Ok(notice) => notice,
            Err(reason) => Notice::Own(reason.words()),
        }
    }
}

/// What is noted for it.
impl<M: MessageNumber, R: Reason> fmt::Display for Refusal<M, R> {
    ghost output = { λ refused. Some (refusal_text M.number R.words refused) };

    fn fmt<W: fmt::Write>(&self, f: &mut fmt::Formatter<W>) -> fmt::Result {
        fmt::Display::fmt(&self.notice(), f)
    }
}

impl<M: MessageNumber + fmt::Debug, R: Reason + fmt::Debug> Error for Refusal<M, R> {}

impl<M, R> From<HexError> for PrintError<Refusal<M, R>> {
    ghost from_gives = { λ e p. p ≡ hex_error e };

    fn from(error: HexError) -> PrintError<Refusal<M, R>> {
        match error {
            HexError::BadHex => PrintError::Refused(Refusal::BadHex),
            HexError::Memory => PrintError::Memory,
        }
    }
}
