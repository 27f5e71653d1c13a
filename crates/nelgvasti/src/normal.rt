//! Normal forms.

ghost use Rattle.std.specs.Prelude.{◌≡◌, ◌≢◌, ◌<◌, List, length};
ghost use Rattle.dns_message.specs.Messages.{RecordValue, Valid, BadAt, message_reading};
ghost use Rattle.dns_message.specs.declared.message.TheConstants.{MAX_MESSAGE_SIZE};
ghost use Rattle.dns_normal.specs.Normal.{normal_form};
ghost use Rattle.dns_wire.specs.declared.sizes.TheConstants.{HEADER_SIZE};
ghost use Rattle.nelgvasti.specs.Buffers.{Fills};
ghost use Rattle.nelgvasti.specs.Calls.{AnswersOrMemory, normal_answer, reading_answer};
ghost use Rattle.nelgvasti.specs.Refused.{form_answer, form_position, message_position};

use crate::answers::{DONE, ITEM, MEMORY, SHORT, TOO_LARGE, TOO_SMALL, USAGE};
use crate::item_position::ItemPosition;
use crate::room::put_octets;
use dns_command::{PrintError, Refusal};
use dns_message::CanonError;
use dns_normal::{NormalReason, NormalRefusal, normal_form};
use std::alloc::Global;

/// The answer to a message that has no normal form. The position is written if the message can't be read.
fn refuse_form(position: &mut ItemPosition, error: PrintError<NormalRefusal>) -> u32
    ensures answer { result ≡ form_answer error }
    ensures position { position.new ≡ form_position error position.old }
{
    match error {
        PrintError::Refused(Refusal::Short { .. }) => position.refuse(0, CanonError::Short),
        PrintError::Refused(Refusal::Item { section, index, .. }) => {
            position.refuse(0, CanonError::Item { section, index })
        }
        PrintError::Refused(Refusal::Own(NormalReason::TooLarge)) => TOO_LARGE,
        PrintError::Refused(Refusal::BadHex) => USAGE,
        PrintError::Memory => MEMORY,
    }
}

/// Writes the normal form of a message, and the number of its octets, which is at most 65,535: a message with its records other than OPT in
/// canonical order, alike ones once, as answers whose names are written once (RFC 4034 section 6, RFC 1035 section 4.1.4).
#[unsafe(no_mangle)]
pub extern "C" fn nelgvasti_normal(
    alloc: Global,
    message: &[u8],
    out: &mut [u8],
    out_length: &mut usize,
    position: &mut ItemPosition,
) -> u32
    // What is written.
    ensures done { result ≡ DONE → (rs : List RecordValue) × Valid message.now rs
        × Fills (normal_form rs) out.old out.new × (out_length.new ≡ length (normal_form rs)) }
    ensures too_small { result ≡ TOO_SMALL → (rs : List RecordValue) × Valid message.now rs
        × (length out.old < length (normal_form rs)) × (out_length.new ≡ length (normal_form rs)) }
    ensures unwritten { result ≢ DONE → out.new ≡ out.old }
    ensures length { result ≢ DONE → result ≢ TOO_SMALL → out_length.new ≡ out_length.old }

    // Why nothing is written. Except for memory, the answer is the one that the message and the room call for.
    ensures too_large { result ≡ TOO_LARGE → (rs : List RecordValue) × Valid message.now rs × (MAX_MESSAGE_SIZE < length (normal_form rs)) }
    ensures short { result ≡ SHORT → (length message.now < HEADER_SIZE) × (position.new ≡ message_position 0) }
    ensures item { result ≡ ITEM → BadAt message.now position.new.section position.new.index × (position.new.message ≡ 0) }
    ensures position { result ≢ SHORT → result ≢ ITEM → position.new ≡ position.old }
    ensures expected { AnswersOrMemory (reading_answer (λ rs. normal_answer (normal_form rs) (length out.old)) (message_reading message.now)) result }
{
    match normal_form(alloc, message) {
        Ok(form) => put_octets(&form, out, out_length),
        Err(error) => refuse_form(position, error),
    }
}
