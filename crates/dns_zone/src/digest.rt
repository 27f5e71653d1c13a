//! The digest of a zone, and the text for it.

ghost use Rattle.std.specs.Prelude.{◌≡◌, ◌^◌, ◌<◌, true, List, Some, None, IfOk, IfErr, OnOk, length, map};
ghost use Rattle.std.specs.List.{concat};
ghost use Rattle.sha2.specs.Sha512.{sha384};
ghost use Rattle.dns_message.specs.Messages.{message_by, message_reading};
ghost use Rattle.dns_message.specs.Order.{octets_of_key};
ghost use Rattle.dns_message.specs.Refusals.{first_refused};
ghost use Rattle.dns_message.specs.Several.{all_records, all_records_by};
ghost use Rattle.dns_record.specs.FurtherFormats.{data_by};
ghost use Rattle.dns_command.specs.Outcomes.{RefusesFor};
ghost use Rattle.dns_wire.specs.Octets.{Octets};
ghost use Rattle.dns_zone.specs.Digests.{IsDigestOf};
ghost use Rattle.dns_zone.specs.Texts.{on_messages, on_messages_by};
ghost use Rattle.dns_zone.specs.Zone.{has_soa, members, zone_output};

use crate::messages::zone_records;
use crate::refusal::{ZoneReason, ZoneRefusal};
use dns_command::{PrintError, Refusal};
use dns_message::CanonicalList;
use dns_name::RevNameBuf;
use dns_record::Formats;
use sha2::{Digest, Sha384};
use std::alloc::{AllocError, Global};

/// The digest of a zone, and what it is taken of (RFC 8976 section 3.3.1).
#[derive(Clone, Copy, Debug, PartialEq, Eq)]
pub struct ZoneDigest {
    /// The number of members: records in the zone, alike ones once, and without the zone's own digests and the signatures over them.
    pub records: usize,
    /// The number of their canonical octets.
    pub octets: u128,
    /// The SHA-384 digest of these octets.
    pub digest: [u8; 48],
}

/// The SHA-384 digest of the canonical octets of the records, one after another (FIPS 180-4).
pub fn digest_of(list: &CanonicalList<'_>) -> [u8; 48]
    ensures { result ≡ sha384 (concat (map octets_of_key list.now)) }
{
    let mut hasher = Sha384::new();
    for found in list.forms() {
        hasher.update(found.octets());
    }
    hasher.finalize()
}

/// The digest of members in order.
fn digest_for(list: &CanonicalList<'_>) -> ZoneDigest
    ensures { IsDigestOf (map octets_of_key list.now) result }
{
    ZoneDigest {
        records: list.len(),
        octets: list.octet_count() as u128,
        digest: digest_of(list),
    }
}

/// The digest of the zone of an apex, for the records that the messages have (RFC 8976, the SIMPLE scheme with SHA-384). The messages'
/// octets are borrowed and not copied. The refusals are those of the first message that is not valid, and `ZoneReason::NoSoa`;
/// `Refusal::BadHex` does not come. The condition is that the messages are fewer than 4,294,967,296, since a refusal has the number of its
/// message in 32 bits.
pub fn zone_digest(
    alloc: Global,
    messages: &[&[u8]],
    apex: &RevNameBuf,
) -> Result<ZoneDigest, PrintError<ZoneRefusal>>
    requires { length messages.now < 2 ^ 32 }
    ensures digest { IfOk result (IsDigestOf (members apex.now (all_records (map (λ m. m.now) messages.now)))) }
    ensures valid { OnOk result (first_refused 0 (map message_reading (map (λ m. m.now) messages.now)) ≡ None) }
    ensures soa { OnOk result (has_soa apex.now (all_records (map (λ m. m.now) messages.now)) ≡ true) }
    ensures refused { IfErr result (RefusesFor (on_messages apex.now (Some (map (λ m. m.now) messages.now)))) }
{
    zone_digest_by(alloc, messages, apex, Formats::Usual)
}

/// The digest of the zone of an apex as `zone_digest`, for records that are read by these formats of RDATA. `Formats::Listed` has the types of
/// RFC 4034 section 6.2, as signers have them.
pub fn zone_digest_by(
    alloc: Global,
    messages: &[&[u8]],
    apex: &RevNameBuf,
    formats: Formats,
) -> Result<ZoneDigest, PrintError<ZoneRefusal>>
    requires { length messages.now < 2 ^ 32 }
    ensures digest { IfOk result (IsDigestOf (members apex.now (all_records_by (data_by formats) (map (λ m. m.now) messages.now)))) }
    ensures valid { OnOk result (first_refused 0 (map (message_by (data_by formats)) (map (λ m. m.now) messages.now)) ≡ None) }
    ensures soa { OnOk result (has_soa apex.now (all_records_by (data_by formats) (map (λ m. m.now) messages.now)) ≡ true) }
    ensures refused { IfErr result (RefusesFor (on_messages_by (data_by formats) apex.now (Some (map (λ m. m.now) messages.now)))) }
{
    let found = zone_records(alloc, messages, apex, formats)?;
    if !found.has_soa {
        return Err(PrintError::Refused(Refusal::Own(ZoneReason::NoSoa)));
    }
    let order = found.forms.collapsed(alloc)?;
    Ok(digest_for(&order))
}

/// The text for a digest: how many members it is taken of, how many octets they have, and the digest.
pub(crate) fn digest_text(alloc: Global, found: &ZoneDigest) -> Result<Vec<u8>, AllocError>
    ensures { IfOk result (λ text. (lists : List Octets) → IsDigestOf lists found.now → text.items ≡ zone_output lists) }
{
    let digits = hex::encode(alloc, found.digest.as_slice())?;
    let text = format!(in alloc;
        "records {} octets {}\ndigest {}\n",
        found.records, found.octets, digits
    )?;
    Ok(text.into_bytes())
}
