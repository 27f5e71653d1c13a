//! What comes after the name of a question.

ghost use Rattle.std.specs.Prelude.{◌≡◌, [], MatchOption, None, Some};
ghost use Rattle.dns_wire.specs.Octets.{Labels};
ghost use Rattle.dns_wire.specs.Reading.{Gives};
ghost use Rattle.dns_record.specs.Questions.{QuestionOf, question_in};
ghost use Rattle.dns_message.specs.UnparsedRecords.{owner_before};

use dns_record::{QClass, QType};
use dns_wire::{ParseError, SplitMessageBytes};

/// Reads the type and the class of a question, from the place where its name ends, and gives the place where it ends.
#[tactic(auto, unfolding(dns_record::specs::Questions::question_in))]
fn split_after_name(contents: &[u8], start: usize) -> Result<((QType, QClass), usize), ParseError>
    ensures { Gives (λ x. (record { name = []; qtype = x.0.0.code.value; class = x.0.1.code.value }, x.1)) result (question_in (owner_before []) contents.now start) }
{
    let (qtype, at) = QType::split_message_bytes(contents, start)?;
    let (qclass, end) = QClass::split_message_bytes(contents, at)?;
    Ok(((qtype, qclass), end))
}

/// Where a question ends whose name ends at a place; `None` exactly if no type and class are there.
pub(crate) fn question_end(contents: &[u8], start: usize) -> Option<usize>
    ensures { MatchOption result (question_in (owner_before []) contents.now start ≡ None)
        (λ end. (q : QuestionOf Labels) × (question_in (owner_before []) contents.now start ≡ Some (q, end))) }
{
    match split_after_name(contents, start) {
        Ok((_, end)) => Some(end),
        Err(_) => None,
    }
}
