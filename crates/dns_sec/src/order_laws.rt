//! Data are compared and fed to a hasher field by field, in the order in which the fields come on the wire.

ghost use Rattle.std.specs.Prelude.{◌≡◌, nat_eq};
ghost use Rattle.std.specs.Hash.{u16, u8};
ghost use Rattle.std.specs.Ordering.{eq_by_cmp, nat_cmp, on};
ghost use Rattle.dns_name.specs.Hashing.{name_writes};
ghost use Rattle.dns_name.specs.Order.{key, key_cmp};
ghost use Rattle.dns_record.specs.FieldOrder.{fields_eq, fields_writes};
ghost use Rattle.dns_record.specs.Fields.{canonical_octets};
ghost use Rattle.dns_sec.specs.Flags.{key_flag_bits};
ghost use Rattle.dns_sec.specs.Types.{ds_fields, cds_fields, dnskey_fields, cdnskey_fields, rrsig_fields, zonemd_fields};

use crate::cdnskey::CDNSKey;
use crate::cds::Cds;
use crate::digest_type::DigestType;
use crate::dnskey::DNSKey;
use crate::dnskey_flags::DNSKeyFlags;
use crate::ds::Ds;
use crate::rrsig::Rrsig;
use crate::sec_alg::SecAlg;
use crate::timestamp::Timestamp;
use crate::zonemd::ZoneMD;
use crate::zonemd_hash_alg::ZoneMDHashAlg;
use crate::zonemd_scheme::ZoneMDScheme;
use dns_record::CanonicalRecordData;
use std::hash::Hash;

/// Data are equal if all their fields are, names without regard to ASCII case (RFC 1035 section 2.3.3), digests,
/// keys and signatures octet by octet.
pub fn data_are_equal_by_fields()
    ensures ds { (a b : _) → ⟦<Ds<'static> as PartialEq>⟧.eq a b ≡ fields_eq (eq_by_cmp (on key key_cmp)) (eq_by_cmp (on key key_cmp)) (ds_fields a) (ds_fields b) }
    ensures cds { (a b : _) → ⟦<Cds<'static> as PartialEq>⟧.eq a b ≡ fields_eq (eq_by_cmp (on key key_cmp)) (eq_by_cmp (on key key_cmp)) (cds_fields a) (cds_fields b) }
    ensures dnskey { (a b : _) → ⟦<DNSKey<'static> as PartialEq>⟧.eq a b ≡ fields_eq (eq_by_cmp (on key key_cmp)) (eq_by_cmp (on key key_cmp)) (dnskey_fields a) (dnskey_fields b) }
    ensures cdnskey { (a b : _) → ⟦<CDNSKey<'static> as PartialEq>⟧.eq a b ≡ fields_eq (eq_by_cmp (on key key_cmp)) (eq_by_cmp (on key key_cmp)) (cdnskey_fields a) (cdnskey_fields b) }
    ensures rrsig { (a b : _) → ⟦<Rrsig<'static> as PartialEq>⟧.eq a b ≡ fields_eq (eq_by_cmp (on key key_cmp)) (eq_by_cmp (on key key_cmp)) (rrsig_fields a) (rrsig_fields b) }
    ensures zonemd { (a b : _) → ⟦<ZoneMD<&'static [u8]> as PartialEq>⟧.eq a b ≡ fields_eq (eq_by_cmp (on key key_cmp)) (eq_by_cmp (on key key_cmp)) (zonemd_fields (λ d. d.now) a) (zonemd_fields (λ d. d.now) b) }
{}

/// Data feed a hasher their fields one after another, names in lowercase.
pub fn data_are_hashed_by_fields()
    ensures ds { (v : _) → ⟦<Ds<'static> as Hash>⟧.hash_input v ≡ fields_writes name_writes name_writes (ds_fields v) }
    ensures cds { (v : _) → ⟦<Cds<'static> as Hash>⟧.hash_input v ≡ fields_writes name_writes name_writes (cds_fields v) }
    ensures dnskey { (v : _) → ⟦<DNSKey<'static> as Hash>⟧.hash_input v ≡ fields_writes name_writes name_writes (dnskey_fields v) }
    ensures cdnskey { (v : _) → ⟦<CDNSKey<'static> as Hash>⟧.hash_input v ≡ fields_writes name_writes name_writes (cdnskey_fields v) }
    ensures rrsig { (v : _) → ⟦<Rrsig<'static> as Hash>⟧.hash_input v ≡ fields_writes name_writes name_writes (rrsig_fields v) }
    ensures zonemd { (v : _) → ⟦<ZoneMD<&'static [u8]> as Hash>⟧.hash_input v ≡ fields_writes name_writes name_writes (zonemd_fields (λ d. d.now) v) }
{}

/// Codes, flags and times are equal if their numbers are.
pub fn codes_are_equal_by_number()
    ensures sec_alg { (a b : _) → ⟦<SecAlg as PartialEq>⟧.eq a b ≡ nat_eq a.code b.code }
    ensures digest_type { (a b : _) → ⟦<DigestType as PartialEq>⟧.eq a b ≡ nat_eq a.code b.code }
    ensures zonemd_scheme { (a b : _) → ⟦<ZoneMDScheme as PartialEq>⟧.eq a b ≡ nat_eq a.code b.code }
    ensures zonemd_hash_alg { (a b : _) → ⟦<ZoneMDHashAlg as PartialEq>⟧.eq a b ≡ nat_eq a.code b.code }
    ensures flags { (a b : _) → ⟦<DNSKeyFlags as PartialEq>⟧.eq a b ≡ nat_eq (key_flag_bits a) (key_flag_bits b) }
    ensures timestamp { (a b : _) → ⟦<Timestamp as PartialEq>⟧.eq a b ≡ nat_eq a b }
{}

/// Codes come in the order of their numbers.
pub fn codes_are_ordered_by_number()
    ensures sec_alg { (a b : _) → ⟦<SecAlg as Ord>⟧.cmp a b ≡ nat_cmp a.code b.code }
    ensures digest_type { (a b : _) → ⟦<DigestType as Ord>⟧.cmp a b ≡ nat_cmp a.code b.code }
    ensures zonemd_scheme { (a b : _) → ⟦<ZoneMDScheme as Ord>⟧.cmp a b ≡ nat_cmp a.code b.code }
    ensures zonemd_hash_alg { (a b : _) → ⟦<ZoneMDHashAlg as Ord>⟧.cmp a b ≡ nat_cmp a.code b.code }
{}

/// Codes and flags feed a hasher their numbers.
pub fn codes_are_hashed_by_number()
    ensures sec_alg { (v : _) → ⟦<SecAlg as Hash>⟧.hash_input v ≡ u8 v.code }
    ensures digest_type { (v : _) → ⟦<DigestType as Hash>⟧.hash_input v ≡ u8 v.code }
    ensures zonemd_scheme { (v : _) → ⟦<ZoneMDScheme as Hash>⟧.hash_input v ≡ u8 v.code }
    ensures zonemd_hash_alg { (v : _) → ⟦<ZoneMDHashAlg as Hash>⟧.hash_input v ≡ u8 v.code }
    ensures flags { (v : _) → ⟦<DNSKeyFlags as Hash>⟧.hash_input v ≡ u16 (key_flag_bits v) }
{}

/// The flags by default have no bit (RFC 4034 section 2.1.1).
pub fn default_flags()
    ensures { (v : _) → ⟦<DNSKeyFlags as Default>⟧.is_default v → key_flag_bits v ≡ 0 }
{}

/// A ZONEMD with a digest of a known length is compared as one with the same octets, and feeds a hasher the digest with its
/// length after the other fields (RFC 8976 section 2.2).
pub fn digests_of_known_length<const N: usize>()
    ensures equal { (a b : _) → ⟦<ZoneMD<[u8; N]> as PartialEq>⟧.eq a b
        ≡ fields_eq (eq_by_cmp (on key key_cmp)) (eq_by_cmp (on key key_cmp)) (zonemd_fields (λ d. d) a) (zonemd_fields (λ d. d) b) }
    ensures canonical { (v : _) → ⟦<ZoneMD<[u8; N]> as CanonicalRecordData>⟧.canonical v ≡ canonical_octets 63 (zonemd_fields (λ d. d) v) }
    ensures fed { (v : _) → ⟦<ZoneMD<[u8; N]> as Hash>⟧.hash_input v ≡ fields_writes name_writes name_writes (zonemd_fields (λ d. d) v) }
{}
