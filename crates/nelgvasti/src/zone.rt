//! Digests of zones.

ghost use Rattle.std.specs.Prelude.{◌≡◌, ◌≢◌, ◌-◌, ◌^◌, ◌<◌, ◌≤◌, ◌⊎◌, ◌↔◌, List, Some, None, IfOk, IsTrue, length, map, min, sum};
ghost use Rattle.dns_message.specs.Messages.{RecordValue};
ghost use Rattle.dns_message.specs.Several.{AreValid, AreValidBy, IsFirstRefused, IsFirstRefusedBy, all_records, all_records_by};
ghost use Rattle.dns_record.specs.FurtherFormats.{data_by};
ghost use Rattle.dns_message.specs.declared.canon_error.CanonError.TheVariants as canon;
ghost use Rattle.dns_wire.specs.Octets.{Octets, Labels};
ghost use Rattle.dns_zone.specs.Digests.{IsDigestOf};
ghost use Rattle.dns_zone.specs.Zone.{HasSoa, members};
ghost use Rattle.dns_zone.specs.Texts.{on_messages, on_messages_by};
ghost use Rattle.nelgvasti.specs.Formats.{By, answer_by, formats_of};
ghost use Rattle.nelgvasti.specs.Calls.{AnswersOrMemory, HasName, HasNoName};
ghost use Rattle.nelgvasti.specs.Refused.{message_position};
ghost use Rattle.nelgvasti.specs.Zones.{AreCut, IsDigest, error_answer, zone_answer, zone_position};

use crate::answers::{DONE, ITEM, MEMORY, NO_SOA, SHORT, USAGE};
use crate::formats::formats_of;
use crate::item_position::ItemPosition;
use dns_command::{PrintError, Refusal};
use dns_message::CanonError;
use dns_name::RevNameBuf;
use dns_record::Formats;
use dns_wire::ParseBytes;
use dns_zone::{ZoneDigest as FoundDigest, ZoneReason, ZoneRefusal, zone_digest_by};
use std::alloc::{AllocError, Global};

/// The most messages of a call, whose numbers are in 32 bits.
const MOST_MESSAGES: usize = 0xFFFF_FFFF;

/// The digest of a zone, and what it is taken of (RFC 8976 section 3.3.1).
#[repr(C)]
#[derive(Clone, Copy, Debug, PartialEq, Eq)]
pub struct ZoneDigest {
    /// The number of records.
    pub records: u64,
    /// The number of their canonical octets.
    pub octets: u64,
    /// The SHA-384 digest of these octets.
    pub digest: [u8; 48],
}

impl ZoneDigest {
    /// The same numbers, in 64 bits each.
    fn of(found: &FoundDigest) -> ZoneDigest
        ensures { (lists : List Octets) → IsDigestOf lists found.now → IsDigest lists result }
    {
        ZoneDigest {
            records: found.records as u64,
            octets: at_most_64_bits(found.octets),
            digest: found.digest,
        }
    }
}

/// Whether the lengths add up to this number.
fn add_up(lengths: &[usize], total: usize) -> bool
    ensures { IsTrue result ↔ (sum lengths.now ≡ total) }
{
    let mut rest = total;
    for length in lengths {
        if rest < *length {
            return false;
        }
        rest -= *length;
    }
    rest == 0
}

/// The messages of these lengths, borrowed from the octets that are given one after the other.
fn cut<'o>(alloc: Global, octets: &'o [u8], lengths: &[usize]) -> Result<Vec<&'o [u8]>, AllocError>
    requires { sum lengths.now ≡ length octets.now }
    ensures { IfOk result (λ messages. AreCut octets.now lengths.now (map (λ m. m.now) messages.items)) }
{
    let mut messages = Vec::with_capacity(alloc, lengths.len())?;
    let mut start = 0;
    for length in lengths {
        let end = start + *length;
        messages.push(&octets[start..end])?;
        start = end;
    }
    Ok(messages)
}

/// The answer to messages whose zone has no digest. The position is written if a message can't be read.
fn refuse_zone(position: &mut ItemPosition, error: PrintError<ZoneRefusal>) -> u32
    ensures answer { result ≡ error_answer error }
    ensures position { position.new ≡ zone_position error position.old }
{
    match error {
        PrintError::Refused(Refusal::Short { message }) => {
            position.refuse(message, CanonError::Short)
        }
        PrintError::Refused(
            Refusal::Item {
                message,
                section,
                index,
            },
        ) => position.refuse(message, CanonError::Item { section, index }),
        PrintError::Refused(Refusal::Own(ZoneReason::NoSoa)) => NO_SOA,
        PrintError::Refused(Refusal::BadHex) => USAGE,
        PrintError::Memory => MEMORY,
    }
}

/// The number, or the greatest of 64 bits if it is greater.
fn at_most_64_bits(number: u128) -> u64
    ensures { result ≡ min number (2 ^ 64 - 1) }
{
    number.min(u128::from(u64::MAX)) as u64
}

/// Writes the digest of the zone of an apex, for messages whose octets are given one after the other, and of which each has its length, by
/// these formats of RDATA. At most 4,294,967,295 messages.
fn zone_digest_of(
    alloc: Global,
    formats: Formats,
    messages: &[u8],
    lengths: &[usize],
    apex: &[u8],
    digest: &mut ZoneDigest,
    position: &mut ItemPosition,
) -> u32
    // What is written.
    ensures done { result ≡ DONE → (labels : Labels) × (ms : List Octets) × (rss : List (List RecordValue)) × HasName apex.now labels
        × AreCut messages.now lengths.now ms × AreValidBy (data_by formats) ms rss × HasSoa labels (all_records_by (data_by formats) ms) × IsDigest (members labels (all_records_by (data_by formats) ms)) digest.new }
    ensures unwritten { result ≢ DONE → digest.new ≡ digest.old }

    // Why nothing is written. Except for memory, the answer is the one that the arguments call for.
    ensures usage { result ≡ USAGE → HasNoName apex.now ⊎ ((sum lengths.now ≢ length messages.now) ⊎ (2 ^ 32 ≤ length lengths.now)) }
    ensures unsuited { HasNoName apex.now ⊎ ((sum lengths.now ≢ length messages.now) ⊎ (2 ^ 32 ≤ length lengths.now)) → result ≡ USAGE }
    ensures no_soa { result ≡ NO_SOA → (labels : Labels) × (ms : List Octets) × (rss : List (List RecordValue)) × HasName apex.now labels
        × AreCut messages.now lengths.now ms × AreValidBy (data_by formats) ms rss × ¬ HasSoa labels (all_records_by (data_by formats) ms) }
    ensures short { result ≡ SHORT → (ms : List Octets) × AreCut messages.now lengths.now ms × IsFirstRefusedBy (data_by formats) ms position.new.message canon.Short
        × (position.new ≡ message_position position.new.message) }
    ensures item { result ≡ ITEM → (ms : List Octets) × AreCut messages.now lengths.now ms
        × IsFirstRefusedBy (data_by formats) ms position.new.message (canon.Item position.new.section position.new.index) }
    ensures position { result ≢ SHORT → result ≢ ITEM → position.new ≡ position.old }
    ensures expected { (labels : Labels) (ms : List Octets) → HasName apex.now labels → AreCut messages.now lengths.now ms → length lengths.now < 2 ^ 32
        → AnswersOrMemory (zone_answer (on_messages_by (data_by formats) labels (Some ms))) result }
{
    let Ok(apex) = RevNameBuf::parse_bytes(apex) else {
        return USAGE;
    };
    if lengths.len() > MOST_MESSAGES || !add_up(lengths, messages.len()) {
        return USAGE;
    }
    let Ok(given) = cut(alloc, messages, lengths) else {
        return MEMORY;
    };
    match zone_digest_by(alloc, &given, &apex, formats) {
        Ok(found) => {
            *digest = ZoneDigest::of(&found);
            DONE
        }
        Err(error) => refuse_zone(position, error),
    }
}

/// Writes the digest of the zone of an apex (RFC 8976, the SIMPLE scheme with SHA-384), for messages whose octets are given one after the
/// other, and of which each has its length. At most 4,294,967,295 messages.
#[unsafe(no_mangle)]
pub extern "C" fn nelgvasti_zone_digest(
    alloc: Global,
    messages: &[u8],
    lengths: &[usize],
    apex: &[u8],
    digest: &mut ZoneDigest,
    position: &mut ItemPosition,
) -> u32
    // What is written.
    ensures done { result ≡ DONE → (labels : Labels) × (ms : List Octets) × (rss : List (List RecordValue)) × HasName apex.now labels
        × AreCut messages.now lengths.now ms × AreValid ms rss × HasSoa labels (all_records ms) × IsDigest (members labels (all_records ms)) digest.new }
    ensures unwritten { result ≢ DONE → digest.new ≡ digest.old }

    // Why nothing is written. Except for memory, the answer is the one that the arguments call for.
    ensures usage { result ≡ USAGE → HasNoName apex.now ⊎ ((sum lengths.now ≢ length messages.now) ⊎ (2 ^ 32 ≤ length lengths.now)) }
    ensures unsuited { HasNoName apex.now ⊎ ((sum lengths.now ≢ length messages.now) ⊎ (2 ^ 32 ≤ length lengths.now)) → result ≡ USAGE }
    ensures no_soa { result ≡ NO_SOA → (labels : Labels) × (ms : List Octets) × (rss : List (List RecordValue)) × HasName apex.now labels
        × AreCut messages.now lengths.now ms × AreValid ms rss × ¬ HasSoa labels (all_records ms) }
    ensures short { result ≡ SHORT → (ms : List Octets) × AreCut messages.now lengths.now ms × IsFirstRefused ms position.new.message canon.Short
        × (position.new ≡ message_position position.new.message) }
    ensures item { result ≡ ITEM → (ms : List Octets) × AreCut messages.now lengths.now ms
        × IsFirstRefused ms position.new.message (canon.Item position.new.section position.new.index) }
    ensures position { result ≢ SHORT → result ≢ ITEM → position.new ≡ position.old }
    ensures expected { (labels : Labels) (ms : List Octets) → HasName apex.now labels → AreCut messages.now lengths.now ms → length lengths.now < 2 ^ 32
        → AnswersOrMemory (zone_answer (on_messages labels (Some ms))) result }
{
    zone_digest_of(
        alloc,
        Formats::Usual,
        messages,
        lengths,
        apex,
        digest,
        position,
    )
}

/// The same by the formats that a number names (RFC 4034 section 6.2): `NELGVASTI_USUAL` or `NELGVASTI_LISTED`. A signer or validator wants
/// `NELGVASTI_LISTED`.
#[unsafe(no_mangle)]
pub extern "C" fn nelgvasti_zone_digest_by(
    alloc: Global,
    formats: u32,
    messages: &[u8],
    lengths: &[usize],
    apex: &[u8],
    digest: &mut ZoneDigest,
    position: &mut ItemPosition,
) -> u32
    // What is written.
    ensures done { result ≡ DONE → By (formats_of formats) (λ f. (labels : Labels) × (ms : List Octets) × (rss : List (List RecordValue)) × HasName apex.now labels
        × AreCut messages.now lengths.now ms × AreValidBy (data_by f) ms rss × HasSoa labels (all_records_by (data_by f) ms) × IsDigest (members labels (all_records_by (data_by f) ms)) digest.new) }
    ensures unwritten { result ≢ DONE → digest.new ≡ digest.old }

    // Why nothing is written. Except for memory, the answer is the one that the arguments call for.
    ensures usage { result ≡ USAGE → (formats_of formats ≡ None) ⊎ (HasNoName apex.now ⊎ ((sum lengths.now ≢ length messages.now) ⊎ (2 ^ 32 ≤ length lengths.now))) }
    ensures unsuited { HasNoName apex.now ⊎ ((sum lengths.now ≢ length messages.now) ⊎ (2 ^ 32 ≤ length lengths.now)) → result ≡ USAGE }
    ensures unknown { formats_of formats ≡ None → result ≡ USAGE }
    ensures no_soa { result ≡ NO_SOA → By (formats_of formats) (λ f. (labels : Labels) × (ms : List Octets) × (rss : List (List RecordValue)) × HasName apex.now labels
        × AreCut messages.now lengths.now ms × AreValidBy (data_by f) ms rss × ¬ HasSoa labels (all_records_by (data_by f) ms)) }
    ensures short { result ≡ SHORT → By (formats_of formats) (λ f. (ms : List Octets) × AreCut messages.now lengths.now ms × IsFirstRefusedBy (data_by f) ms position.new.message canon.Short
        × (position.new ≡ message_position position.new.message)) }
    ensures item { result ≡ ITEM → By (formats_of formats) (λ f. (ms : List Octets) × AreCut messages.now lengths.now ms
        × IsFirstRefusedBy (data_by f) ms position.new.message (canon.Item position.new.section position.new.index)) }
    ensures position { result ≢ SHORT → result ≢ ITEM → position.new ≡ position.old }
    ensures expected { (labels : Labels) (ms : List Octets) → HasName apex.now labels → AreCut messages.now lengths.now ms → length lengths.now < 2 ^ 32
        → AnswersOrMemory (answer_by (formats_of formats) (λ f. zone_answer (on_messages_by (data_by f) labels (Some ms)))) result }
{
    match formats_of(formats) {
        Some(formats) => {
            zone_digest_of(alloc, formats, messages, lengths, apex, digest, position)
        }
        None => USAGE,
    }
}
