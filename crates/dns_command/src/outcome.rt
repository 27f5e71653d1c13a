//! How a command ends.

ghost use Rattle.std.specs.Prelude.{◌≡◌, None, Err, IfOk, IfErr};
ghost use Rattle.dns_command.specs.Outcomes.{PutsFor, put_error};

use crate::notice::Notice;
use dns_text::{Failed, Sink, TextError, put_text};
use std::alloc::{AllocError, AllocFailed};
use std::error::Error;
use std::fmt;

/// How a command ends. `R` says why it refuses a text that it has read.
#[derive(Clone, Copy, Debug, PartialEq, Eq)]
pub enum Outcome<R> {
    /// Everything was written and flushed.
    Done,
    /// The words are no command.
    Usage,
    /// The text has more octets than the limit.
    TooLong,
    /// The text is refused.
    Refused(R),
    /// The source failed.
    ReadFault,
    /// The sink failed.
    WriteFault,
    /// Memory ran out.
    Memory,
}

impl<R> From<TextError> for Outcome<R> {
    ghost use Rattle.dns_command.specs.Outcomes.{text_outcome};

    ghost from_gives = { λ e o. o ≡ text_outcome e };

    fn from(error: TextError) -> Outcome<R> {
        match error {
            TextError::TooLong => Outcome::TooLong,
            TextError::ReadFault => Outcome::ReadFault,
            TextError::Memory => Outcome::Memory,
        }
    }
}

impl<R> From<PutError<R>> for Outcome<R> {
    ghost use Rattle.dns_command.specs.Outcomes.{put_outcome};

    ghost from_gives = { λ e o. o ≡ put_outcome e };

    fn from(error: PutError<R>) -> Outcome<R> {
        match error {
            PutError::Refused(refusal) => Outcome::Refused(refusal),
            PutError::WriteFault => Outcome::WriteFault,
            PutError::Memory => Outcome::Memory,
        }
    }
}

/// Why there is no text to print for a text. `R` says why that text is refused.
#[derive(Clone, Copy, Debug, PartialEq, Eq)]
pub enum PrintError<R> {
    /// The text is refused.
    Refused(R),
    /// Memory ran out.
    Memory,
}

impl<R> From<AllocError> for PrintError<R> {
    ghost use Rattle.dns_command.specs.declared.outcome.PrintError.TheVariants.{Memory};

    ghost from_gives = { λ _ e. e ≡ Memory };

    fn from(_error: AllocError) -> PrintError<R> {
        PrintError::Memory
    }
}

impl<R, T: Drop> From<AllocFailed<T>> for PrintError<R> {
    ghost use Rattle.dns_command.specs.declared.outcome.PrintError.TheVariants.{Memory};

    ghost from_gives = { λ _ e. e ≡ Memory };

    fn from(_error: AllocFailed<T>) -> PrintError<R> {
        PrintError::Memory
    }
}

/// What is shown for the refusal, or `out of memory`.
impl<R: fmt::Display> fmt::Display for PrintError<R> {
    ghost use Rattle.dns_command.specs.Outcomes.{error_text};

    ghost output = { error_text R.output };

    fn fmt<W: fmt::Write>(&self, f: &mut fmt::Formatter<W>) -> fmt::Result {
        match self {
            PrintError::Refused(refusal) => fmt::Display::fmt(refusal, f),
            PrintError::Memory => fmt::Display::fmt(&Notice::Memory, f),
        }
    }
}

impl<R: fmt::Display + fmt::Debug + Drop> Error for PrintError<R> {}

/// Why a command has not printed all for a text. `R` says why it refuses the text.
#[derive(Clone, Copy, Debug, PartialEq, Eq)]
pub enum PutError<R> {
    /// The text is refused.
    Refused(R),
    /// The sink failed.
    WriteFault,
    /// Memory ran out.
    Memory,
}

impl<R> From<PrintError<R>> for PutError<R> {
    ghost use Rattle.dns_command.specs.Outcomes.{put_error};

    ghost from_gives = { λ e p. p ≡ put_error e };

    fn from(error: PrintError<R>) -> PutError<R> {
        match error {
            PrintError::Refused(refusal) => PutError::Refused(refusal),
            PrintError::Memory => PutError::Memory,
        }
    }
}

impl<R> From<AllocError> for PutError<R> {
    ghost use Rattle.dns_command.specs.declared.outcome.PutError.TheVariants.{Memory};

    ghost from_gives = { λ _ e. e ≡ Memory };

    fn from(_error: AllocError) -> PutError<R> {
        PutError::Memory
    }
}

impl<R> From<Failed> for PutError<R> {
    ghost use Rattle.dns_command.specs.declared.outcome.PutError.TheVariants.{WriteFault};

    ghost from_gives = { λ _ e. e ≡ WriteFault };

    fn from(_error: Failed) -> PutError<R> {
        PutError::WriteFault
    }
}

/// Writes the text that a command prints, if there is one, and sees to it that it arrives.
pub fn put_printed<R, K: Sink>(
    printed: Result<Vec<u8>, PrintError<R>>,
    sink: &mut K,
) -> Result<(), PutError<R>>
    ensures put { IfOk printed (λ text. PutsFor K.Sink None (λ t. t ≡ text.items) sink.old sink.new result) }
    ensures refused { IfErr printed (λ error. (result ≡ Err (put_error error)) × (sink.new ≡ sink.old)) }
{
    let text = printed?;
    put_text(sink, &text)?;
    Ok(())
}
