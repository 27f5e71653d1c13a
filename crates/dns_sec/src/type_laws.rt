//! The types of this crate by the one table: what is read and written for the number of each is what its RDATA format says.

ghost use Rattle.std.specs.Prelude.{◌≡◌, ℕ};
ghost use Rattle.dns_wire.specs.Names.{plain_name};
ghost use Rattle.dns_wire.specs.Octets.{Octets};
ghost use Rattle.dns_wire.specs.Pointers.{name_at};
ghost use Rattle.dns_record.specs.Data.{data_as, data_in, of_type};
ghost use Rattle.dns_record.specs.Fields.{canonical_octets};
ghost use Rattle.dns_sec.specs.Types.{ds_fields, cds_fields, rrsig_fields, dnskey_fields, cdnskey_fields, zonemd_fields};

use crate::cdnskey::CDNSKey;
use crate::cds::Cds;
use crate::dnskey::DNSKey;
use crate::ds::Ds;
use crate::rrsig::Rrsig;
use crate::zonemd::ZoneMD;
use dns_record::{CanonicalRecordData, ParseRecordDataBytes};

/// Of all the octets, each type reads the fields of its number's RDATA format, and for any other number nothing (RFC 4034
/// sections 2.1, 3.1 and 5.1, RFC 7344 sections 3.1 and 3.2, RFC 8976 section 2.2).
pub fn types_are_read_by_number()
    ensures ds { (rtype : ℕ) (bytes : Octets) → ⟦<Ds<'static> as ParseRecordDataBytes<'static>>⟧.reads_as rtype bytes ≡ of_type 43 rtype (data_as plain_name 43 bytes) }
    ensures cds { (rtype : ℕ) (bytes : Octets) → ⟦<Cds<'static> as ParseRecordDataBytes<'static>>⟧.reads_as rtype bytes ≡ of_type 59 rtype (data_as plain_name 59 bytes) }
    ensures rrsig { (rtype : ℕ) (bytes : Octets) → ⟦<Rrsig<'static> as ParseRecordDataBytes<'static>>⟧.reads_as rtype bytes ≡ of_type 46 rtype (data_as plain_name 46 bytes) }
    ensures dnskey { (rtype : ℕ) (bytes : Octets) → ⟦<DNSKey<'static> as ParseRecordDataBytes<'static>>⟧.reads_as rtype bytes ≡ of_type 48 rtype (data_as plain_name 48 bytes) }
    ensures cdnskey { (rtype : ℕ) (bytes : Octets) → ⟦<CDNSKey<'static> as ParseRecordDataBytes<'static>>⟧.reads_as rtype bytes ≡ of_type 60 rtype (data_as plain_name 60 bytes) }
    ensures zonemd { (rtype : ℕ) (bytes : Octets) → ⟦<ZoneMD<&'static [u8]> as ParseRecordDataBytes<'static>>⟧.reads_as rtype bytes ≡ of_type 63 rtype (data_as plain_name 63 bytes) }
{}

/// The same in a message, from a place to the end of the contents.
pub fn types_are_read_by_number_in_messages()
    ensures ds { (rtype : ℕ) (contents : Octets) (at : ℕ) → ⟦<Ds<'static> as ParseRecordDataBytes<'static>>⟧.reads_in rtype contents at ≡ of_type 43 rtype (data_in name_at 43 contents at) }
    ensures cds { (rtype : ℕ) (contents : Octets) (at : ℕ) → ⟦<Cds<'static> as ParseRecordDataBytes<'static>>⟧.reads_in rtype contents at ≡ of_type 59 rtype (data_in name_at 59 contents at) }
    ensures rrsig { (rtype : ℕ) (contents : Octets) (at : ℕ) → ⟦<Rrsig<'static> as ParseRecordDataBytes<'static>>⟧.reads_in rtype contents at ≡ of_type 46 rtype (data_in name_at 46 contents at) }
    ensures dnskey { (rtype : ℕ) (contents : Octets) (at : ℕ) → ⟦<DNSKey<'static> as ParseRecordDataBytes<'static>>⟧.reads_in rtype contents at ≡ of_type 48 rtype (data_in name_at 48 contents at) }
    ensures cdnskey { (rtype : ℕ) (contents : Octets) (at : ℕ) → ⟦<CDNSKey<'static> as ParseRecordDataBytes<'static>>⟧.reads_in rtype contents at ≡ of_type 60 rtype (data_in name_at 60 contents at) }
    ensures zonemd { (rtype : ℕ) (contents : Octets) (at : ℕ) → ⟦<ZoneMD<&'static [u8]> as ParseRecordDataBytes<'static>>⟧.reads_in rtype contents at ≡ of_type 63 rtype (data_in name_at 63 contents at) }
{}

/// The canonical octets of each type are those of its fields under its number (RFC 4034 section 6.2).
pub fn types_are_canonical_by_number()
    ensures ds { (v : _) → ⟦<Ds<'static> as CanonicalRecordData>⟧.canonical v ≡ canonical_octets 43 (ds_fields v) }
    ensures cds { (v : _) → ⟦<Cds<'static> as CanonicalRecordData>⟧.canonical v ≡ canonical_octets 59 (cds_fields v) }
    ensures rrsig { (v : _) → ⟦<Rrsig<'static> as CanonicalRecordData>⟧.canonical v ≡ canonical_octets 46 (rrsig_fields v) }
    ensures dnskey { (v : _) → ⟦<DNSKey<'static> as CanonicalRecordData>⟧.canonical v ≡ canonical_octets 48 (dnskey_fields v) }
    ensures cdnskey { (v : _) → ⟦<CDNSKey<'static> as CanonicalRecordData>⟧.canonical v ≡ canonical_octets 60 (cdnskey_fields v) }
    ensures zonemd { (v : _) → ⟦<ZoneMD<&'static [u8]> as CanonicalRecordData>⟧.canonical v ≡ canonical_octets 63 (zonemd_fields (λ digest. digest.now) v) }
{}
