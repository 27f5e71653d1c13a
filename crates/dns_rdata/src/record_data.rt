//! Record data of any type.

ghost use Rattle.std.specs.Prelude.{◌≡◌, ◌↔◌, ◌≤◌, ◌<◌, ◌^◌, ℕ, List, length, map, IsTrue, IfOk, Some, true, ⊤};
ghost use Rattle.dns_wire.specs.Building.{Builds};
ghost use Rattle.dns_wire.specs.Reading.{Gives};
ghost use Rattle.std.specs.Cmp.Lexicographic.{slice_cmp};
ghost use Rattle.std.specs.Ordering.{nat_cmp};
ghost use Rattle.dns_record.specs.Canonical.{ranked_cmp};
ghost use Rattle.dns_record.specs.Data.{data_as, data_in};
ghost use Rattle.dns_record.specs.Fields.{FieldOf, named_by, canonical_octets};
ghost use Rattle.dns_record.specs.InMessage.{fields_write, fields_fit, fields_layout};
ghost use Rattle.dns_rdata.specs.CanonicalSizes.{as_many};
ghost use Rattle.dns_record.proofs.FieldLayoutLemmas.{fields_match};
ghost use Rattle.std.specs.Fn.{CalledAt, TakesAt};
ghost use Rattle.dns_rdata.specs.Mapping.{TakesNames, HoldsGiven, without_names};
ghost use Rattle.dns_rdata.specs.Data.{data_fields, type_number, IsProper, IsDataOf, NamesFit, written_fields, is_plain, plain_octets};

use crate::plain_data::{as_data, read_plain};
use crate::unknown::UnknownRecordData;
use dns_basic::{CName, Mx, Ns, Ptr, Rp, Soa};
use dns_edns::Opt;
use dns_name::CanonicalName;
use dns_nsec::{Nsec, Nsec3, Nsec3Param};
use dns_plain::{A, Aaaa, DName, HInfo, Srv, Txt};
use dns_record::{
    CanonicalRecordData, ParseRecordData, ParseRecordDataBytes, RType, has_rdata_format,
};
use dns_sec::{CDNSKey, Cds, DNSKey, Ds, Rrsig, ZoneMD};
use dns_wire::{
    BuildBytes, BuildInMessage, NameCompressor, ParseBytes, ParseError, ParseMessageBytes,
    ParseName, SplitMessageBytes, TruncationError,
};
use std::alloc::AllocError;
use std::cmp::Ordering;

/// Record data, by their type. `N` is the type of the names that in a message may have pointers.
#[derive(Debug, PartialEq, Eq, Hash, Drop)]
pub enum RecordData<'a, N> {
    /// An address (RFC 1035 section 3.4.1).
    A(A),
    /// A name server (RFC 1035 section 3.3.11).
    Ns(Ns<N>),
    /// Another name (RFC 1035 section 3.3.1).
    CName(CName<N>),
    /// The start of a zone (RFC 1035 section 3.3.13).
    Soa(Soa<N>),
    /// A pointer (RFC 1035 section 3.3.12).
    Ptr(Ptr<N>),
    /// A host (RFC 1035 section 3.3.2).
    HInfo(HInfo<'a>),
    /// A mail exchange (RFC 1035 section 3.3.9).
    Mx(Mx<N>),
    /// Strings (RFC 1035 section 3.3.14).
    Txt(Txt<'a>),
    /// Who is responsible (RFC 1183 section 2.2).
    Rp(Rp<N>),
    /// A service (RFC 2782).
    Srv(Srv<'a>),
    /// An address of 16 octets (RFC 3596 section 2.2).
    Aaaa(Aaaa),
    /// Another subtree (RFC 6672 section 2.1).
    DName(DName<'a>),
    /// Options (RFC 6891 section 6.1.2).
    Opt(Opt<'a>),
    /// The digest of a key (RFC 4034 section 5.1).
    Ds(Ds<'a>),
    /// A signature (RFC 4034 section 3.1).
    Rrsig(Rrsig<'a>),
    /// The next name (RFC 4034 section 4.1).
    Nsec(Nsec<'a>),
    /// A key (RFC 4034 section 2.1).
    DNSKey(DNSKey<'a>),
    /// The next hashed name (RFC 5155 section 3.2).
    Nsec3(Nsec3<'a>),
    /// How names are hashed (RFC 5155 section 4.2).
    Nsec3Param(Nsec3Param<'a>),
    /// The digest of a key that the parent is asked to publish (RFC 7344 section 3.1).
    Cds(Cds<'a>),
    /// A key that the parent is asked to digest and publish (RFC 7344 section 3.2).
    CDNSKey(CDNSKey<'a>),
    /// The digest of a zone (RFC 8976 section 2.2).
    ZoneMD(ZoneMD<&'a [u8]>),
    /// Data of a type that has no RDATA format (RFC 3597).
    Unknown(RType, UnknownRecordData<'a>),
}

/// Names as their type clones them, and all else as it is.
impl<N: Clone> Clone for RecordData<'_, N> {
    ghost is_clone = { HoldsGiven (λ _ name given _. N.is_clone name given) (tt {0}) };

    ghost is_infallible = { NamesFit N.is_infallible };

    fn clone(&self) -> Result<Self, AllocError> {
        match self {
            RecordData::Ns(v) => as_data!(Ns, v.clone()),
            RecordData::CName(v) => as_data!(CName, v.clone()),
            RecordData::Soa(v) => as_data!(Soa, v.clone()),
            RecordData::Ptr(v) => as_data!(Ptr, v.clone()),
            RecordData::Mx(v) => as_data!(Mx, v.clone()),
            RecordData::Rp(v) => as_data!(Rp, v.clone()),
            plain => Ok(plain.plain_copy()),
        }
    }
}

impl<'a, N> RecordData<'a, N> {
    /// The type of the data.
    pub fn rtype(&self) -> RType
        ensures { result.code.value ≡ type_number self.now }
    {
        match self {
            RecordData::A(_) => RType::A,
            RecordData::Ns(_) => RType::NS,
            RecordData::CName(_) => RType::CNAME,
            RecordData::Soa(_) => RType::SOA,
            RecordData::Ptr(_) => RType::PTR,
            RecordData::HInfo(_) => RType::HINFO,
            RecordData::Mx(_) => RType::MX,
            RecordData::Txt(_) => RType::TXT,
            RecordData::Rp(_) => RType::RP,
            RecordData::Srv(_) => RType::SRV,
            RecordData::Aaaa(_) => RType::AAAA,
            RecordData::DName(_) => RType::DNAME,
            RecordData::Opt(_) => RType::OPT,
            RecordData::Ds(_) => RType::DS,
            RecordData::Rrsig(_) => RType::RRSIG,
            RecordData::Nsec(_) => RType::NSEC,
            RecordData::DNSKey(_) => RType::DNSKEY,
            RecordData::Nsec3(_) => RType::NSEC3,
            RecordData::Nsec3Param(_) => RType::NSEC3PARAM,
            RecordData::Cds(_) => RType::CDS,
            RecordData::CDNSKey(_) => RType::CDNSKEY,
            RecordData::ZoneMD(_) => RType::ZONEMD,
            RecordData::Unknown(rtype, _) => *rtype,
        }
    }

    /// Whether the data are not unknown octets under the number of a type that has an RDATA format.
    pub fn is_proper(&self) -> bool
        ensures { IsTrue result ↔ IsProper self.now }
    {
        match self {
            RecordData::Unknown(rtype, _) => !has_rdata_format(*rtype),
            _ => true,
        }
    }

    /// A copy as data with names of another type, of which the data have none that pointers may lead through.
    fn plain_copy<R>(&self) -> RecordData<'a, R>
        requires { is_plain self.now ≡ true }
        ensures { without_names self.now ≡ Some result }
    {
        match self {
            RecordData::A(v) => RecordData::A(*v),
            RecordData::HInfo(v) => RecordData::HInfo(*v),
            RecordData::Txt(v) => RecordData::Txt(*v),
            RecordData::Srv(v) => RecordData::Srv(*v),
            RecordData::Aaaa(v) => RecordData::Aaaa(*v),
            RecordData::DName(v) => RecordData::DName(*v),
            RecordData::Opt(v) => RecordData::Opt(*v),
            RecordData::Ds(v) => RecordData::Ds(*v),
            RecordData::Rrsig(v) => RecordData::Rrsig(*v),
            RecordData::Nsec(v) => RecordData::Nsec(*v),
            RecordData::DNSKey(v) => RecordData::DNSKey(*v),
            RecordData::Nsec3(v) => RecordData::Nsec3(*v),
            RecordData::Nsec3Param(v) => RecordData::Nsec3Param(*v),
            RecordData::Cds(v) => RecordData::Cds(*v),
            RecordData::CDNSKey(v) => RecordData::CDNSKey(*v),
            RecordData::ZoneMD(v) => RecordData::ZoneMD(*v),
            RecordData::Unknown(rtype, v) => RecordData::Unknown(*rtype, *v),
            _ => unreachable!(),
        }
    }

    /// Writes data without names that pointers may lead through at a place of the buffer, as `build_at` does.
    fn build_plain_at(&self, bytes: &mut [u8], start: usize) -> Result<usize, TruncationError>
        requires plain { is_plain self.now ≡ true }
        requires room { start ≤ length bytes.old }
        ensures { Builds ⊤ (plain_octets self.now) bytes.old start bytes.new result }
    {
        match self {
            RecordData::A(v) => v.build_at(bytes, start),
            RecordData::HInfo(v) => v.build_at(bytes, start),
            RecordData::Txt(v) => v.build_at(bytes, start),
            RecordData::Srv(v) => v.build_at(bytes, start),
            RecordData::Aaaa(v) => v.build_at(bytes, start),
            RecordData::DName(v) => v.build_at(bytes, start),
            RecordData::Opt(v) => v.build_at(bytes, start),
            RecordData::Ds(v) => v.build_at(bytes, start),
            RecordData::Rrsig(v) => v.build_at(bytes, start),
            RecordData::Nsec(v) => v.build_at(bytes, start),
            RecordData::DNSKey(v) => v.build_at(bytes, start),
            RecordData::Nsec3(v) => v.build_at(bytes, start),
            RecordData::Nsec3Param(v) => v.build_at(bytes, start),
            RecordData::Cds(v) => v.build_at(bytes, start),
            RecordData::CDNSKey(v) => v.build_at(bytes, start),
            RecordData::ZoneMD(v) => v.build_at(bytes, start),
            RecordData::Unknown(_, v) => v.build_at(bytes, start),
            _ => unreachable!(),
        }
    }

    /// The data as data with names of another type, of which they have none that pointers may lead through.
    fn with_other_names<R>(self) -> RecordData<'a, R>
        requires { is_plain self ≡ true }
        ensures { without_names self.entry ≡ Some result }
    {
        let copy = self.plain_copy();
        // Names may not be droppable, so data with names are told apart before the rest is dropped.
        match self {
            RecordData::Ns(_)
            | RecordData::CName(_)
            | RecordData::Soa(_)
            | RecordData::Ptr(_)
            | RecordData::Mx(_)
            | RecordData::Rp(_) => unreachable!(),
            _ => copy,
        }
    }

    /// The data with what the function makes of their names, called on them in the order of the fields.
    pub fn map_names<R, F: FnMut(N) -> R>(self, f: F) -> RecordData<'a, R>
        requires { TakesNames F.pre F.step f self }
        ensures { HoldsGiven F.step f self.entry result }
    {
        match self {
            RecordData::Ns(v) => RecordData::Ns(v.map_name(f)),
            RecordData::CName(v) => RecordData::CName(v.map_name(f)),
            RecordData::Soa(v) => RecordData::Soa(v.map_names(f)),
            RecordData::Ptr(v) => RecordData::Ptr(v.map_name(f)),
            RecordData::Mx(v) => RecordData::Mx(v.map_name(f)),
            RecordData::Rp(v) => RecordData::Rp(v.map_names(f)),
            plain => plain.with_other_names(),
        }
    }

    /// The data with what the function makes of references to their names, called on them in the order of the fields.
    pub fn map_names_by_ref<'r, R, F: FnMut(&'r N) -> R>(&'r self, f: F) -> RecordData<'r, R>
        requires { TakesNames (TakesAt F.FnMut) (CalledAt F.FnMut) f self.now }
        ensures { HoldsGiven (CalledAt F.FnMut) f self.now result }
    {
        match self {
            RecordData::Ns(v) => RecordData::Ns(v.map_name_by_ref(f)),
            RecordData::CName(v) => RecordData::CName(v.map_name_by_ref(f)),
            RecordData::Soa(v) => RecordData::Soa(v.map_names_by_ref(f)),
            RecordData::Ptr(v) => RecordData::Ptr(v.map_name_by_ref(f)),
            RecordData::Mx(v) => RecordData::Mx(v.map_name_by_ref(f)),
            RecordData::Rp(v) => RecordData::Rp(v.map_names_by_ref(f)),
            plain => plain.plain_copy(),
        }
    }
}

impl<'a, N: ParseName<'a>> ParseRecordDataBytes<'a> for RecordData<'a, N> {
    ghost Seen = { List (FieldOf N.Seen) };

    ghost seen = { λ v. map (named_by N.seen) (data_fields v) };

    ghost reads_as = { data_as N.reads };

    ghost reads_in = { data_in N.reads_at };

    ghost is_of = { IsDataOf };

    fn parse_record_data_bytes(
        bytes: &'a [u8],
        rtype: RType,
    ) -> Result<RecordData<'a, N>, ParseError> {
        match rtype {
            RType::NS => as_data!(Ns, Ns::parse_bytes(bytes)),
            RType::CNAME => as_data!(CName, CName::parse_bytes(bytes)),
            RType::SOA => as_data!(Soa, Soa::parse_bytes(bytes)),
            RType::PTR => as_data!(Ptr, Ptr::parse_bytes(bytes)),
            RType::MX => as_data!(Mx, Mx::parse_bytes(bytes)),
            RType::RP => as_data!(Rp, Rp::parse_bytes(bytes)),
            _ => read_plain(bytes, rtype),
        }
    }
}

impl<'a, N: ParseName<'a> + SplitMessageBytes<'a>> ParseRecordData<'a> for RecordData<'a, N> {
    fn parse_record_data(
        contents: &'a [u8],
        start: usize,
        rtype: RType,
    ) -> Result<RecordData<'a, N>, ParseError> {
        match rtype {
            RType::NS => as_data!(Ns, Ns::parse_message_bytes(contents, start)),
            RType::CNAME => as_data!(CName, CName::parse_message_bytes(contents, start)),
            RType::SOA => as_data!(Soa, Soa::parse_message_bytes(contents, start)),
            RType::PTR => as_data!(Ptr, Ptr::parse_message_bytes(contents, start)),
            RType::MX => as_data!(Mx, Mx::parse_message_bytes(contents, start)),
            RType::RP => as_data!(Rp, Rp::parse_message_bytes(contents, start)),
            _ if contents.len() < start => Err(ParseError),
            _ => read_plain(&contents[start..], rtype),
        }
    }
}

impl<N: BuildBytes> BuildBytes for RecordData<'_, N> {
    ghost octets = { λ v. written_fields N.octets (data_fields v) };

    ghost fits = { NamesFit N.fits };

    fn build_at(&self, bytes: &mut [u8], start: usize) -> Result<usize, TruncationError> {
        match self {
            RecordData::Ns(v) => v.build_at(bytes, start),
            RecordData::CName(v) => v.build_at(bytes, start),
            RecordData::Soa(v) => v.build_at(bytes, start),
            RecordData::Ptr(v) => v.build_at(bytes, start),
            RecordData::Mx(v) => v.build_at(bytes, start),
            RecordData::Rp(v) => v.build_at(bytes, start),
            plain => plain.build_plain_at(bytes, start),
        }
    }

    fn built_bytes_size(&self) -> usize {
        match self {
            RecordData::A(v) => v.built_bytes_size(),
            RecordData::Ns(v) => v.built_bytes_size(),
            RecordData::CName(v) => v.built_bytes_size(),
            RecordData::Soa(v) => v.built_bytes_size(),
            RecordData::Ptr(v) => v.built_bytes_size(),
            RecordData::HInfo(v) => v.built_bytes_size(),
            RecordData::Mx(v) => v.built_bytes_size(),
            RecordData::Txt(v) => v.built_bytes_size(),
            RecordData::Rp(v) => v.built_bytes_size(),
            RecordData::Srv(v) => v.built_bytes_size(),
            RecordData::Aaaa(v) => v.built_bytes_size(),
            RecordData::DName(v) => v.built_bytes_size(),
            RecordData::Opt(v) => v.built_bytes_size(),
            RecordData::Ds(v) => v.built_bytes_size(),
            RecordData::Rrsig(v) => v.built_bytes_size(),
            RecordData::Nsec(v) => v.built_bytes_size(),
            RecordData::DNSKey(v) => v.built_bytes_size(),
            RecordData::Nsec3(v) => v.built_bytes_size(),
            RecordData::Nsec3Param(v) => v.built_bytes_size(),
            RecordData::Cds(v) => v.built_bytes_size(),
            RecordData::CDNSKey(v) => v.built_bytes_size(),
            RecordData::ZoneMD(v) => v.built_bytes_size(),
            RecordData::Unknown(_, v) => v.built_bytes_size(),
        }
    }
}

/// Names that pointers may lead through as their type writes them in a message, all else whole.
impl<N: BuildInMessage> BuildInMessage for RecordData<'_, N> {
    ghost writes = { λ v. fields_write N.writes (data_fields v) };

    ghost fits_in = { λ v. fields_fit N.fits_in N.writes (data_fields v) };

    ghost layout = { λ v. fields_layout N.layout (data_fields v) };

    ghost layout_matches = { λ v. fields_match N.writes N.layout N.layout_matches (data_fields v) };

    fn build_in_message(
        &self,
        contents: &mut [u8],
        start: usize,
        compressor: &mut NameCompressor,
    ) -> Result<usize, TruncationError> {
        match self {
            RecordData::Ns(v) => v.build_in_message(contents, start, compressor),
            RecordData::CName(v) => v.build_in_message(contents, start, compressor),
            RecordData::Soa(v) => v.build_in_message(contents, start, compressor),
            RecordData::Ptr(v) => v.build_in_message(contents, start, compressor),
            RecordData::Mx(v) => v.build_in_message(contents, start, compressor),
            RecordData::Rp(v) => v.build_in_message(contents, start, compressor),
            plain => plain.build_plain_at(contents, start),
        }
    }
}

impl<N: CanonicalName> RecordData<'_, N> {
    /// The order of the canonical octets of data of one type.
    fn cmp_of_one_type(&self, other: &Self) -> Ordering
        requires alike { type_number self.now ≡ type_number other.now }
        requires proper { IsProper self.now × IsProper other.now }
        ensures { result ≡ slice_cmp nat_cmp (canonical_octets (type_number self.now) (map (named_by N.name) (data_fields self.now)))
            (canonical_octets (type_number other.now) (map (named_by N.name) (data_fields other.now))) }
    {
        match (self, other) {
            (RecordData::A(v), RecordData::A(w)) => v.cmp_canonical(w),
            (RecordData::Ns(v), RecordData::Ns(w)) => v.cmp_canonical(w),
            (RecordData::CName(v), RecordData::CName(w)) => v.cmp_canonical(w),
            (RecordData::Soa(v), RecordData::Soa(w)) => v.cmp_canonical(w),
            (RecordData::Ptr(v), RecordData::Ptr(w)) => v.cmp_canonical(w),
            (RecordData::HInfo(v), RecordData::HInfo(w)) => v.cmp_canonical(w),
            (RecordData::Mx(v), RecordData::Mx(w)) => v.cmp_canonical(w),
            (RecordData::Txt(v), RecordData::Txt(w)) => v.cmp_canonical(w),
            (RecordData::Rp(v), RecordData::Rp(w)) => v.cmp_canonical(w),
            (RecordData::Srv(v), RecordData::Srv(w)) => v.cmp_canonical(w),
            (RecordData::Aaaa(v), RecordData::Aaaa(w)) => v.cmp_canonical(w),
            (RecordData::DName(v), RecordData::DName(w)) => v.cmp_canonical(w),
            (RecordData::Opt(v), RecordData::Opt(w)) => v.cmp_canonical(w),
            (RecordData::Ds(v), RecordData::Ds(w)) => v.cmp_canonical(w),
            (RecordData::Rrsig(v), RecordData::Rrsig(w)) => v.cmp_canonical(w),
            (RecordData::Nsec(v), RecordData::Nsec(w)) => v.cmp_canonical(w),
            (RecordData::DNSKey(v), RecordData::DNSKey(w)) => v.cmp_canonical(w),
            (RecordData::Nsec3(v), RecordData::Nsec3(w)) => v.cmp_canonical(w),
            (RecordData::Nsec3Param(v), RecordData::Nsec3Param(w)) => v.cmp_canonical(w),
            (RecordData::Cds(v), RecordData::Cds(w)) => v.cmp_canonical(w),
            (RecordData::CDNSKey(v), RecordData::CDNSKey(w)) => v.cmp_canonical(w),
            (RecordData::ZoneMD(v), RecordData::ZoneMD(w)) => v.cmp_canonical(w),
            (RecordData::Unknown(_, v), RecordData::Unknown(_, w)) => v.cmp_canonical(w),
            _ => Ordering::Equal,
        }
    }
}

/// The fields in order, names in lowercase for the types of `RType::uses_lowercase_canonical_form`.
impl<N: CanonicalName> CanonicalRecordData for RecordData<'_, N> {
    ghost canonical = { λ v. canonical_octets (type_number v) (map (named_by N.name) (data_fields v)) };

    ghost rank = { type_number };

    ghost is_proper = { IsProper };

    ghost as_long = { λ v. as_many N.name N.octets N.octets_are v };

    fn build_canonical_at(&self, bytes: &mut [u8], start: usize) -> Result<usize, TruncationError> {
        match self {
            RecordData::Ns(v) => v.build_canonical_at(bytes, start),
            RecordData::CName(v) => v.build_canonical_at(bytes, start),
            RecordData::Soa(v) => v.build_canonical_at(bytes, start),
            RecordData::Ptr(v) => v.build_canonical_at(bytes, start),
            RecordData::Mx(v) => v.build_canonical_at(bytes, start),
            RecordData::Rp(v) => v.build_canonical_at(bytes, start),
            RecordData::Srv(v) => v.build_canonical_at(bytes, start),
            RecordData::DName(v) => v.build_canonical_at(bytes, start),
            RecordData::Rrsig(v) => v.build_canonical_at(bytes, start),
            plain => plain.build_plain_at(bytes, start),
        }
    }

    fn cmp_canonical(&self, other: &Self) -> Ordering {
        match self.rtype().cmp(&other.rtype()) {
            Ordering::Equal => self.cmp_of_one_type(other),
            decided => decided,
        }
    }
}

impl<'a, N> From<A> for RecordData<'a, N> {
    ghost use Rattle.dns_rdata.specs.declared.record_data.RecordData.TheVariants.{A as variant};

    ghost from_gives = { λ v w. w ≡ variant v };

    fn from(value: A) -> RecordData<'a, N> {
        RecordData::A(value)
    }
}

impl<'a, N> From<Ns<N>> for RecordData<'a, N> {
    ghost use Rattle.dns_rdata.specs.declared.record_data.RecordData.TheVariants.{Ns as variant};

    ghost from_gives = { λ v w. w ≡ variant v };

    fn from(value: Ns<N>) -> RecordData<'a, N> {
        RecordData::Ns(value)
    }
}

impl<'a, N> From<CName<N>> for RecordData<'a, N> {
    ghost use Rattle.dns_rdata.specs.declared.record_data.RecordData.TheVariants.{CName as variant};

    ghost from_gives = { λ v w. w ≡ variant v };

    fn from(value: CName<N>) -> RecordData<'a, N> {
        RecordData::CName(value)
    }
}

impl<'a, N> From<Soa<N>> for RecordData<'a, N> {
    ghost use Rattle.dns_rdata.specs.declared.record_data.RecordData.TheVariants.{Soa as variant};

    ghost from_gives = { λ v w. w ≡ variant v };

    fn from(value: Soa<N>) -> RecordData<'a, N> {
        RecordData::Soa(value)
    }
}

impl<'a, N> From<Ptr<N>> for RecordData<'a, N> {
    ghost use Rattle.dns_rdata.specs.declared.record_data.RecordData.TheVariants.{Ptr as variant};

    ghost from_gives = { λ v w. w ≡ variant v };

    fn from(value: Ptr<N>) -> RecordData<'a, N> {
        RecordData::Ptr(value)
    }
}

impl<'a, N> From<HInfo<'a>> for RecordData<'a, N> {
    ghost use Rattle.dns_rdata.specs.declared.record_data.RecordData.TheVariants.{HInfo as variant};

    ghost from_gives = { λ v w. w ≡ variant v };

    fn from(value: HInfo<'a>) -> RecordData<'a, N> {
        RecordData::HInfo(value)
    }
}

impl<'a, N> From<Mx<N>> for RecordData<'a, N> {
    ghost use Rattle.dns_rdata.specs.declared.record_data.RecordData.TheVariants.{Mx as variant};

    ghost from_gives = { λ v w. w ≡ variant v };

    fn from(value: Mx<N>) -> RecordData<'a, N> {
        RecordData::Mx(value)
    }
}

impl<'a, N> From<Txt<'a>> for RecordData<'a, N> {
    ghost use Rattle.dns_rdata.specs.declared.record_data.RecordData.TheVariants.{Txt as variant};

    ghost from_gives = { λ v w. w ≡ variant v };

    fn from(value: Txt<'a>) -> RecordData<'a, N> {
        RecordData::Txt(value)
    }
}

impl<'a, N> From<Rp<N>> for RecordData<'a, N> {
    ghost use Rattle.dns_rdata.specs.declared.record_data.RecordData.TheVariants.{Rp as variant};

    ghost from_gives = { λ v w. w ≡ variant v };

    fn from(value: Rp<N>) -> RecordData<'a, N> {
        RecordData::Rp(value)
    }
}

impl<'a, N> From<Srv<'a>> for RecordData<'a, N> {
    ghost use Rattle.dns_rdata.specs.declared.record_data.RecordData.TheVariants.{Srv as variant};

    ghost from_gives = { λ v w. w ≡ variant v };

    fn from(value: Srv<'a>) -> RecordData<'a, N> {
        RecordData::Srv(value)
    }
}

impl<'a, N> From<Aaaa> for RecordData<'a, N> {
    ghost use Rattle.dns_rdata.specs.declared.record_data.RecordData.TheVariants.{Aaaa as variant};

    ghost from_gives = { λ v w. w ≡ variant v };

    fn from(value: Aaaa) -> RecordData<'a, N> {
        RecordData::Aaaa(value)
    }
}

impl<'a, N> From<DName<'a>> for RecordData<'a, N> {
    ghost use Rattle.dns_rdata.specs.declared.record_data.RecordData.TheVariants.{DName as variant};

    ghost from_gives = { λ v w. w ≡ variant v };

    fn from(value: DName<'a>) -> RecordData<'a, N> {
        RecordData::DName(value)
    }
}

impl<'a, N> From<Opt<'a>> for RecordData<'a, N> {
    ghost use Rattle.dns_rdata.specs.declared.record_data.RecordData.TheVariants.{Opt as variant};

    ghost from_gives = { λ v w. w ≡ variant v };

    fn from(value: Opt<'a>) -> RecordData<'a, N> {
        RecordData::Opt(value)
    }
}

impl<'a, N> From<Ds<'a>> for RecordData<'a, N> {
    ghost use Rattle.dns_rdata.specs.declared.record_data.RecordData.TheVariants.{Ds as variant};

    ghost from_gives = { λ v w. w ≡ variant v };

    fn from(value: Ds<'a>) -> RecordData<'a, N> {
        RecordData::Ds(value)
    }
}

impl<'a, N> From<Rrsig<'a>> for RecordData<'a, N> {
    ghost use Rattle.dns_rdata.specs.declared.record_data.RecordData.TheVariants.{Rrsig as variant};

    ghost from_gives = { λ v w. w ≡ variant v };

    fn from(value: Rrsig<'a>) -> RecordData<'a, N> {
        RecordData::Rrsig(value)
    }
}

impl<'a, N> From<Nsec<'a>> for RecordData<'a, N> {
    ghost use Rattle.dns_rdata.specs.declared.record_data.RecordData.TheVariants.{Nsec as variant};

    ghost from_gives = { λ v w. w ≡ variant v };

    fn from(value: Nsec<'a>) -> RecordData<'a, N> {
        RecordData::Nsec(value)
    }
}

impl<'a, N> From<DNSKey<'a>> for RecordData<'a, N> {
    ghost use Rattle.dns_rdata.specs.declared.record_data.RecordData.TheVariants.{DNSKey as variant};

    ghost from_gives = { λ v w. w ≡ variant v };

    fn from(value: DNSKey<'a>) -> RecordData<'a, N> {
        RecordData::DNSKey(value)
    }
}

impl<'a, N> From<Nsec3<'a>> for RecordData<'a, N> {
    ghost use Rattle.dns_rdata.specs.declared.record_data.RecordData.TheVariants.{Nsec3 as variant};

    ghost from_gives = { λ v w. w ≡ variant v };

    fn from(value: Nsec3<'a>) -> RecordData<'a, N> {
        RecordData::Nsec3(value)
    }
}

impl<'a, N> From<Nsec3Param<'a>> for RecordData<'a, N> {
    ghost use Rattle.dns_rdata.specs.declared.record_data.RecordData.TheVariants.{Nsec3Param as variant};

    ghost from_gives = { λ v w. w ≡ variant v };

    fn from(value: Nsec3Param<'a>) -> RecordData<'a, N> {
        RecordData::Nsec3Param(value)
    }
}

impl<'a, N> From<Cds<'a>> for RecordData<'a, N> {
    ghost use Rattle.dns_rdata.specs.declared.record_data.RecordData.TheVariants.{Cds as variant};

    ghost from_gives = { λ v w. w ≡ variant v };

    fn from(value: Cds<'a>) -> RecordData<'a, N> {
        RecordData::Cds(value)
    }
}

impl<'a, N> From<CDNSKey<'a>> for RecordData<'a, N> {
    ghost use Rattle.dns_rdata.specs.declared.record_data.RecordData.TheVariants.{CDNSKey as variant};

    ghost from_gives = { λ v w. w ≡ variant v };

    fn from(value: CDNSKey<'a>) -> RecordData<'a, N> {
        RecordData::CDNSKey(value)
    }
}

impl<'a, N> From<ZoneMD<&'a [u8]>> for RecordData<'a, N> {
    ghost use Rattle.dns_rdata.specs.declared.record_data.RecordData.TheVariants.{ZoneMD as variant};

    ghost from_gives = { λ v w. w ≡ variant v };

    fn from(value: ZoneMD<&'a [u8]>) -> RecordData<'a, N> {
        RecordData::ZoneMD(value)
    }
}
