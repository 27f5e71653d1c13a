//! The definitions of this crate in other words.

ghost use Rattle.std.specs.Prelude.{◌≡◌, ◌&&◌, nat_eq};
ghost use Rattle.std.specs.Cmp.Lexicographic.{pointwise};
ghost use Rattle.std.specs.Hash.{slice, u8};
ghost use Rattle.dns_edns.specs.Flags.{flag_bits};
ghost use Rattle.dns_rdata.specs.Alike.{content_of, same_content, content_writes};

use crate::edns_record::EdnsRecord;
use crate::record_data::RecordData;
use crate::unknown::UnknownRecordData;
use std::hash::Hash;

/// Data are equal if they are of the same type, both read as it says or both unknown octets, and all their fields are
/// the same: names as their type says, character strings without regard to ASCII case (RFC 1035 section 2.3.3), and all
/// else octet by octet.
pub fn data_of_any_type_are_equal_by_fields<N: PartialEq>()
    ensures { (a b : _) → ⟦<RecordData<'static, N> as PartialEq>⟧.eq a b ≡ same_content N.eq (content_of a) (content_of b) }
{}

/// Data feed a hasher what represents their type, and their fields one after another, names as their type says.
pub fn data_of_any_type_are_hashed_by_fields<N: Hash>()
    ensures { (v : _) → ⟦<RecordData<'static, N> as Hash>⟧.hash_input v ≡ content_writes N.hash_input (content_of v) }
{}

/// EDNS records are equal if payload size, the part of the response code, version, flags and data are.
pub fn edns_records_are_equal_by_fields<D: PartialEq>()
    ensures { (a b : _) → ⟦<EdnsRecord<D> as PartialEq>⟧.eq a b
        ≡ (nat_eq a.max_udp_payload.value b.max_udp_payload.value && (nat_eq a.ext_rcode b.ext_rcode && (nat_eq a.version b.version
        && (nat_eq (flag_bits a.flags) (flag_bits b.flags) && D.eq a.content b.content)))) }
{}

/// Data without an RDATA format are equal octet by octet, and feed a hasher these after their number.
pub fn unknown_data_are_compared_by_octets()
    ensures equal { (a b : _) → ⟦<UnknownRecordData<'static> as PartialEq>⟧.eq a b ≡ pointwise nat_eq a.octets.now b.octets.now }
    ensures fed { (v : _) → ⟦<UnknownRecordData<'static> as Hash>⟧.hash_input v ≡ slice u8 v.octets.now }
{}
