//! Addresses of IPv4.

ghost use Rattle.std.specs.Prelude.{◌≡◌, ◌≤◌, ◌<◌, ◌^◌, ℕ, List, [], ◌∷◌, length, map, take, Option, Some, IfOk, ⊤};
ghost use Rattle.std.proofs.Common.{◌∙◌, ap};
ghost use Rattle.std.specs.Net.Grammar.{Parses};
ghost use Rattle.std.proofs.lemmas.List.{append-nil};
ghost use Rattle.dns_wire.specs.Building.{Builds};
ghost use Rattle.dns_wire.specs.Compression.{FitsIn};
ghost use Rattle.dns_wire.specs.InMessage.{BuildsIn};
ghost use Rattle.dns_wire.specs.Layout.{octets_writes};
ghost use Rattle.dns_wire.specs.Layout.LayoutPart.{OctetsPart};
ghost use Rattle.dns_wire.specs.LayoutLemmas.{part_matches};
ghost use Rattle.dns_wire.specs.Reading.{Gives, all_of, all_at};
ghost use Rattle.dns_record.specs.Canonical.{ranked_cmp};
ghost use Rattle.dns_record.specs.Fields.{Field, canonical_octets};
ghost use Rattle.dns_record.specs.Kinds.{fields_of, no_name};
ghost use Rattle.dns_record.specs.DataLemmas.{uncompressed_leave};
ghost use Rattle.dns_record.specs.Formats.{rdata_format};
ghost use Rattle.dns_record.proofs.Sizes.{canonical_long};
ghost use Rattle.dns_plain.specs.AddressTexts.{SpellsIpv4, ipv4_text};
ghost use Rattle.dns_plain.specs.Types.{a_fields};

use crate::addr_error::AddrParseError;
use dns_record::{CanonicalRecordData, DataOfType, RType};
use dns_wire::{
    AsBytes, BuildBytes, BuildInMessage, NameCompressor, ParseError, ReadPlainValue, SplitBytes,
    TruncationError, build_whole, put,
};
use std::cmp::Ordering;
use std::fmt;
use std::net::Ipv4Addr;
use std::str::FromStr;

/// An address of IPv4 (RFC 1035 section 3.4.1).
///
/// ```
/// println!(rt; "{}", A::from_str("192.0.2.80")?)?; // 192.0.2.80
/// ```
#[derive(Clone, Copy, Debug, PartialEq, Eq, PartialOrd, Ord, Hash)]
pub struct A {
    /// The four octets of the address, as they are written.
    pub octets: [u8; 4],
}

impl FromStr for A {
    type Err = AddrParseError;

    ghost from_str_gives = { Parses SpellsIpv4 };

    /// Reads four numbers from 0 to 255 in decimal with dots between them, without leading zeros.
    /// `AddrParseError` comes exactly if the text is anything else.
    fn from_str(s: &str) -> Result<A, AddrParseError> {
        match Ipv4Addr::from_str(s) {
            Ok(address) => Ok(A {
                octets: address.octets(),
            }),
            Err(_) => Err(AddrParseError),
        }
    }
}

impl AsBytes for A {
    fn as_bytes(&self) -> &[u8] {
        &self.octets
    }
}

impl<'a> ReadPlainValue<'a> for A {
    ghost Seen = { List Field };

    ghost seen = { a_fields };

    ghost reads = { fields_of no_name (rdata_format 1) };

    ghost leaves_rest = { uncompressed_leave (rdata_format 1) };

    fn read_plain(bytes: &'a [u8]) -> Result<(A, &'a [u8]), ParseError> {
        let (octets, rest) = <[u8; 4]>::split_bytes(bytes)?;
        let value = A { octets };
        Ok((value, rest))
    }
}

impl<'a> DataOfType<'a> for A {
    ghost number = { 1 };

    fn rtype() -> RType {
        RType::A
    }
}

impl BuildBytes for A {
    ghost octets = { λ v. v.octets };

    fn build_at(&self, bytes: &mut [u8], start: usize) -> Result<usize, TruncationError> {
        put(&self.octets, bytes, start)
    }

    fn built_bytes_size(&self) -> usize
        ensures size { result ≡ length self.now.octets }
        ensures fixed { result ≡ 4 }
    {
        4
    }
}

/// Uncompressed, with a part for each field.
impl BuildInMessage for A {
    ghost writes = { λ v. octets_writes v.octets };

    ghost layout = { λ v. Some (OctetsPart v.octets ∷ []) };

    ghost layout_matches = { λ v. part_matches (OctetsPart v.octets) };

    fn build_in_message(
        &self,
        contents: &mut [u8],
        start: usize,
        compressor: &mut NameCompressor,
    ) -> Result<usize, TruncationError> {
        build_whole(self, contents, start, compressor)
    }
}

impl CanonicalRecordData for A {
    ghost canonical = { λ v. canonical_octets 1 (a_fields v) };

    ghost as_long = { λ v. canonical_long 1 (a_fields v) ∙ ap length (append-nil v.octets) };

    fn build_canonical_at(&self, bytes: &mut [u8], start: usize) -> Result<usize, TruncationError> {
        self.build_at(bytes, start)
    }

    fn cmp_canonical(&self, other: &Self) -> Ordering {
        self.octets.as_slice().cmp(&other.octets.as_slice())
    }
}

impl fmt::Display for A {
    ghost output = { λ v. Some (ipv4_text v) };

    /// The four octets in decimal, with dots between them.
    fn fmt<W: fmt::Write>(&self, f: &mut fmt::Formatter<W>) -> fmt::Result {
        fmt::Display::fmt(&Ipv4Addr::from(self.octets), f)
    }
}
