//! The canonical list of a message, by formats of RDATA.

ghost use Rattle.std.specs.Prelude.{◌≡◌, ◌≢◌, ◌<◌, List, length};
ghost use Rattle.dns_message.specs.Messages.{RecordValue, ValidBy, BadBy, message_by};
ghost use Rattle.dns_message.specs.Order.{canonical_list};
ghost use Rattle.dns_record.specs.FurtherFormats.{data_by};
ghost use Rattle.dns_wire.specs.declared.sizes.TheConstants.{HEADER_SIZE};
ghost use Rattle.nelgvasti.specs.Buffers.{Fills, room_answer};
ghost use Rattle.nelgvasti.specs.Refused.{message_position};
ghost use Rattle.nelgvasti.specs.Calls.{AnswersOrMemory, list_octets, reading_answer};

use crate::answers::{DONE, ITEM, MEMORY, SHORT, TOO_SMALL};
use crate::item_position::ItemPosition;
use crate::ordered::put_list;
use dns_message::read_forms_by;
use dns_record::Formats;
use std::alloc::Global;

/// How many octets and how many records the canonical list of a message has, by these formats of RDATA.
pub(crate) fn canonical_size(
    alloc: Global,
    formats: Formats,
    message: &[u8],
    octets: &mut usize,
    records: &mut usize,
    position: &mut ItemPosition,
) -> u32
    // What is written.
    ensures done { result ≡ DONE → (rs : List RecordValue) × ValidBy (data_by formats) message.now rs
        × (octets.new ≡ length (list_octets rs)) × (records.new ≡ length (canonical_list rs)) }
    ensures unwritten { result ≢ DONE → (octets.new ≡ octets.old) × (records.new ≡ records.old) }

    // Why nothing is written. Except for memory, the answer is the one that the message calls for.
    ensures short { result ≡ SHORT → (length message.now < HEADER_SIZE) × (position.new ≡ message_position 0) }
    ensures item { result ≡ ITEM → BadBy (data_by formats) message.now position.new.section position.new.index × (position.new.message ≡ 0) }
    ensures position { result ≢ SHORT → result ≢ ITEM → position.new ≡ position.old }
    ensures expected { AnswersOrMemory (reading_answer (λ rs. DONE) (message_by (data_by formats) message.now)) result }
{
    let forms = match read_forms_by(alloc, message, formats) {
        Ok(forms) => forms,
        Err(error) => return position.refuse(0, error),
    };
    let Ok(order) = forms.collapsed(alloc) else {
        return MEMORY;
    };
    *octets = order.octet_count();
    *records = order.len();
    DONE
}

/// Writes the canonical list of a message, its records one after the other, and the number of these octets, by these formats of RDATA.
pub(crate) fn canonical(
    alloc: Global,
    formats: Formats,
    message: &[u8],
    out: &mut [u8],
    out_length: &mut usize,
    position: &mut ItemPosition,
) -> u32
    // What is written.
    ensures done { result ≡ DONE → (rs : List RecordValue) × ValidBy (data_by formats) message.now rs
        × Fills (list_octets rs) out.old out.new × (out_length.new ≡ length (list_octets rs)) }
    ensures too_small { result ≡ TOO_SMALL → (rs : List RecordValue) × ValidBy (data_by formats) message.now rs
        × (length out.old < length (list_octets rs)) × (out_length.new ≡ length (list_octets rs)) }
    ensures unwritten { result ≢ DONE → out.new ≡ out.old }
    ensures length { result ≢ DONE → result ≢ TOO_SMALL → out_length.new ≡ out_length.old }

    // Why nothing is written. Except for memory, the answer is the one that the message and the room call for.
    ensures short { result ≡ SHORT → (length message.now < HEADER_SIZE) × (position.new ≡ message_position 0) }
    ensures item { result ≡ ITEM → BadBy (data_by formats) message.now position.new.section position.new.index × (position.new.message ≡ 0) }
    ensures position { result ≢ SHORT → result ≢ ITEM → position.new ≡ position.old }
    ensures expected { AnswersOrMemory (reading_answer (λ rs. room_answer (list_octets rs) (length out.old)) (message_by (data_by formats) message.now)) result }
{
    let forms = match read_forms_by(alloc, message, formats) {
        Ok(forms) => forms,
        Err(error) => return position.refuse(0, error),
    };
    let Ok(order) = forms.collapsed(alloc) else {
        return MEMORY;
    };
    let length = order.octet_count();
    *out_length = length;
    if out.len() < length {
        return TOO_SMALL;
    }
    put_list(&order, out);
    DONE
}
