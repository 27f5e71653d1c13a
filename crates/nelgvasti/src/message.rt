//! Canonical lists, and whether two messages carry the same records.

ghost use Rattle.std.specs.Prelude.{◌≡◌, ◌≢◌, ◌<◌, ◌⊎◌, [], ◌∷◌, List, length};
ghost use Rattle.dns_message.specs.Messages.{RecordValue, Valid, ValidBy, BadAt, BadBy, message_by, message_reading};
ghost use Rattle.dns_record.specs.FurtherFormats.{data_by};
ghost use Rattle.dns_message.specs.Order.{canonical_list};
ghost use Rattle.dns_message.specs.Same.{Same};
ghost use Rattle.dns_message.specs.Several.{IsFirstRefused};
ghost use Rattle.dns_message.specs.declared.canon_error.CanonError.TheVariants as canon;
ghost use Rattle.dns_wire.specs.declared.sizes.TheConstants.{HEADER_SIZE};
ghost use Rattle.nelgvasti.specs.Formats.{By, answer_by, formats_of};
ghost use Rattle.nelgvasti.specs.Buffers.{Fills, room_answer};
ghost use Rattle.nelgvasti.specs.Refused.{message_position};
ghost use Rattle.nelgvasti.specs.Calls.{AnswersOrMemory, SaysWhether, list_octets, reading_answer};

use crate::answers::{DONE, ITEM, MEMORY, SHORT, TOO_SMALL, USAGE};
use crate::canonical::{canonical, canonical_size};
use crate::formats::formats_of;
use crate::item_position::ItemPosition;
use crate::ordered::are_same;
use dns_message::read_forms;
use dns_record::Formats;
use std::alloc::Global;

/// How many octets and how many records the canonical list of a message has (RFC 4034 section 6).
#[unsafe(no_mangle)]
pub extern "C" fn nelgvasti_canonical_size(
    alloc: Global,
    message: &[u8],
    octets: &mut usize,
    records: &mut usize,
    position: &mut ItemPosition,
) -> u32
    // What is written.
    ensures done { result ≡ DONE → (rs : List RecordValue) × Valid message.now rs
        × (octets.new ≡ length (list_octets rs)) × (records.new ≡ length (canonical_list rs)) }
    ensures unwritten { result ≢ DONE → (octets.new ≡ octets.old) × (records.new ≡ records.old) }

    // Why nothing is written. Except for memory, the answer is the one that the message calls for.
    ensures short { result ≡ SHORT → (length message.now < HEADER_SIZE) × (position.new ≡ message_position 0) }
    ensures item { result ≡ ITEM → BadAt message.now position.new.section position.new.index × (position.new.message ≡ 0) }
    ensures position { result ≢ SHORT → result ≢ ITEM → position.new ≡ position.old }
    ensures expected { AnswersOrMemory (reading_answer (λ rs. DONE) (message_reading message.now)) result }
{
    canonical_size(alloc, Formats::Usual, message, octets, records, position)
}

/// The same by the formats that a number names (RFC 4034 section 6.2): `NELGVASTI_USUAL` or `NELGVASTI_LISTED`. A signer or validator wants
/// `NELGVASTI_LISTED`.
#[unsafe(no_mangle)]
pub extern "C" fn nelgvasti_canonical_size_by(
    alloc: Global,
    formats: u32,
    message: &[u8],
    octets: &mut usize,
    records: &mut usize,
    position: &mut ItemPosition,
) -> u32
    // What is written.
    ensures done { result ≡ DONE → By (formats_of formats) (λ f. (rs : List RecordValue) × ValidBy (data_by f) message.now rs
        × (octets.new ≡ length (list_octets rs)) × (records.new ≡ length (canonical_list rs))) }
    ensures unwritten { result ≢ DONE → (octets.new ≡ octets.old) × (records.new ≡ records.old) }

    // Why nothing is written. Except for memory, the answer is the one that the number and the message call for.
    ensures short { result ≡ SHORT → (length message.now < HEADER_SIZE) × (position.new ≡ message_position 0) }
    ensures item { result ≡ ITEM → By (formats_of formats) (λ f. BadBy (data_by f) message.now position.new.section position.new.index × (position.new.message ≡ 0)) }
    ensures position { result ≢ SHORT → result ≢ ITEM → position.new ≡ position.old }
    ensures expected { AnswersOrMemory (answer_by (formats_of formats) (λ f. reading_answer (λ rs. DONE) (message_by (data_by f) message.now))) result }
{
    match formats_of(formats) {
        Some(formats) => canonical_size(alloc, formats, message, octets, records, position),
        None => USAGE,
    }
}

/// Writes the canonical list of a message, its records one after the other (RFC 4034 section 6), and the number of these octets: the
/// canonical octets of each record other than OPT, in order, and records that are alike once, with the least TTL (RFC 2181 section 5.2).
#[unsafe(no_mangle)]
pub extern "C" fn nelgvasti_canonical(
    alloc: Global,
    message: &[u8],
    out: &mut [u8],
    out_length: &mut usize,
    position: &mut ItemPosition,
) -> u32
    // What is written.
    ensures done { result ≡ DONE → (rs : List RecordValue) × Valid message.now rs
        × Fills (list_octets rs) out.old out.new × (out_length.new ≡ length (list_octets rs)) }
    ensures too_small { result ≡ TOO_SMALL → (rs : List RecordValue) × Valid message.now rs
        × (length out.old < length (list_octets rs)) × (out_length.new ≡ length (list_octets rs)) }
    ensures unwritten { result ≢ DONE → out.new ≡ out.old }
    ensures length { result ≢ DONE → result ≢ TOO_SMALL → out_length.new ≡ out_length.old }

    // Why nothing is written. Except for memory, the answer is the one that the message and the room call for.
    ensures short { result ≡ SHORT → (length message.now < HEADER_SIZE) × (position.new ≡ message_position 0) }
    ensures item { result ≡ ITEM → BadAt message.now position.new.section position.new.index × (position.new.message ≡ 0) }
    ensures position { result ≢ SHORT → result ≢ ITEM → position.new ≡ position.old }
    ensures expected { AnswersOrMemory (reading_answer (λ rs. room_answer (list_octets rs) (length out.old)) (message_reading message.now)) result }
{
    canonical(alloc, Formats::Usual, message, out, out_length, position)
}

/// The same by the formats that a number names (RFC 4034 section 6.2): `NELGVASTI_USUAL` or `NELGVASTI_LISTED`. A signer or validator wants
/// `NELGVASTI_LISTED`.
#[unsafe(no_mangle)]
pub extern "C" fn nelgvasti_canonical_by(
    alloc: Global,
    formats: u32,
    message: &[u8],
    out: &mut [u8],
    out_length: &mut usize,
    position: &mut ItemPosition,
) -> u32
    // What is written.
    ensures done { result ≡ DONE → By (formats_of formats) (λ f. (rs : List RecordValue) × ValidBy (data_by f) message.now rs
        × Fills (list_octets rs) out.old out.new × (out_length.new ≡ length (list_octets rs))) }
    ensures too_small { result ≡ TOO_SMALL → By (formats_of formats) (λ f. (rs : List RecordValue) × ValidBy (data_by f) message.now rs
        × (length out.old < length (list_octets rs)) × (out_length.new ≡ length (list_octets rs))) }
    ensures unwritten { result ≢ DONE → out.new ≡ out.old }
    ensures length { result ≢ DONE → result ≢ TOO_SMALL → out_length.new ≡ out_length.old }

    // Why nothing is written. Except for memory, the answer is the one that the number, the message and the room call for.
    ensures short { result ≡ SHORT → (length message.now < HEADER_SIZE) × (position.new ≡ message_position 0) }
    ensures item { result ≡ ITEM → By (formats_of formats) (λ f. BadBy (data_by f) message.now position.new.section position.new.index × (position.new.message ≡ 0)) }
    ensures position { result ≢ SHORT → result ≢ ITEM → position.new ≡ position.old }
    ensures expected { AnswersOrMemory (answer_by (formats_of formats) (λ f. reading_answer (λ rs. room_answer (list_octets rs) (length out.old)) (message_by (data_by f) message.now))) result }
{
    match formats_of(formats) {
        Some(formats) => canonical(alloc, formats, message, out, out_length, position),
        None => USAGE,
    }
}

/// Writes 1 if two messages carry the same records other than OPT, and else 0. Records that are alike count once, with the least TTL, and
/// ASCII case does not count in owners and in the names of nine types: NS, CNAME, SOA, PTR, MX, RP, SRV, DNAME and RRSIG (RFC 4034 section
/// 6.2, RFC 2181 section 5.2).
#[unsafe(no_mangle)]
pub extern "C" fn nelgvasti_same(
    alloc: Global,
    first: &[u8],
    second: &[u8],
    same: &mut u32,
    position: &mut ItemPosition,
) -> u32
    // What is written.
    ensures done { result ≡ DONE → (rs ss : List RecordValue) × Valid first.now rs × Valid second.now ss × SaysWhether (Same rs ss) same.new }
    ensures unwritten { result ≢ DONE → same.new ≡ same.old }

    // Why nothing is written. Except for memory, the answer is the one that the messages call for.
    ensures short { result ≡ SHORT → IsFirstRefused (first.now ∷ second.now ∷ []) position.new.message canon.Short × (position.new ≡ message_position position.new.message) }
    ensures item { result ≡ ITEM → IsFirstRefused (first.now ∷ second.now ∷ []) position.new.message (canon.Item position.new.section position.new.index) }
    ensures position { result ≢ SHORT → result ≢ ITEM → position.new ≡ position.old }
    ensures expected { AnswersOrMemory (reading_answer (λ rs. reading_answer (λ ss. DONE) (message_reading second.now)) (message_reading first.now)) result }
{
    let first_forms = match read_forms(alloc, first) {
        Ok(forms) => forms,
        Err(error) => return position.refuse(0, error),
    };
    let second_forms = match read_forms(alloc, second) {
        Ok(forms) => forms,
        Err(error) => return position.refuse(1, error),
    };
    let Ok(first_order) = first_forms.collapsed(alloc) else {
        return MEMORY;
    };
    let Ok(second_order) = second_forms.collapsed(alloc) else {
        return MEMORY;
    };
    *same = u32::from(are_same(&first_order, &second_order));
    DONE
}
