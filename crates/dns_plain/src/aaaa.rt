//! Addresses of IPv6.

ghost use Rattle.std.specs.Prelude.{◌≡◌, ◌≤◌, ◌<◌, ◌^◌, ℕ, List, [], ◌∷◌, length, map, take, Option, Some, IfOk, ⊤};
ghost use Rattle.std.proofs.Common.{◌∙◌, ap};
ghost use Rattle.std.specs.Net.Grammar.{Parses};
ghost use Rattle.std.proofs.lemmas.List.{append-nil};
ghost use Rattle.dns_wire.specs.Building.{Builds};
ghost use Rattle.dns_wire.specs.Compression.{FitsIn};
ghost use Rattle.dns_wire.specs.InMessage.{BuildsIn};
ghost use Rattle.dns_wire.specs.Layout.{octets_writes};
ghost use Rattle.dns_wire.specs.Layout.LayoutPart.{OctetsPart};
ghost use Rattle.dns_wire.specs.LayoutLemmas.{part_matches};
ghost use Rattle.dns_wire.specs.Reading.{Gives, all_of, all_at};
ghost use Rattle.dns_record.specs.Canonical.{ranked_cmp};
ghost use Rattle.dns_record.specs.Fields.{Field, canonical_octets};
ghost use Rattle.dns_record.specs.Kinds.{fields_of, no_name};
ghost use Rattle.dns_record.specs.DataLemmas.{uncompressed_leave};
ghost use Rattle.dns_record.specs.Formats.{rdata_format};
ghost use Rattle.dns_record.proofs.Sizes.{canonical_long};
ghost use Rattle.dns_plain.specs.AddressTexts.{SpellsIpv6, ipv6_text};
ghost use Rattle.dns_plain.specs.Types.{aaaa_fields};

use crate::addr_error::AddrParseError;
use dns_record::{CanonicalRecordData, DataOfType, RType};
use dns_wire::{
    AsBytes, BuildBytes, BuildInMessage, NameCompressor, ParseError, ReadPlainValue, SplitBytes,
    TruncationError, build_whole, put,
};
use std::cmp::Ordering;
use std::fmt;
use std::net::Ipv6Addr;
use std::str::FromStr;

/// An address of IPv6 (RFC 3596 section 2.2).
///
/// ```
/// println!(rt; "{}", Aaaa::from_str("2001:DB8:0:0::0001")?)?; // 2001:db8::1
/// ```
#[derive(Clone, Copy, Debug, PartialEq, Eq, PartialOrd, Ord, Hash)]
pub struct Aaaa {
    /// The sixteen octets of the address, as they are written.
    pub octets: [u8; 16],
}

impl FromStr for Aaaa {
    type Err = AddrParseError;

    ghost from_str_gives = { Parses SpellsIpv6 };

    /// Reads eight groups of one to four hexadecimal digits with colons between them, or at most seven with one
    /// `::` for those that are missing (RFC 4291 section 2.2). `AddrParseError` comes exactly if the text is
    /// anything else, as when an address of IPv4 with its dots ends it.
    fn from_str(s: &str) -> Result<Aaaa, AddrParseError> {
        if s.as_bytes().contains(&b'.') {
            return Err(AddrParseError);
        }
        match Ipv6Addr::from_str(s) {
            Ok(address) => Ok(Aaaa {
                octets: address.octets(),
            }),
            Err(_) => Err(AddrParseError),
        }
    }
}

impl AsBytes for Aaaa {
    fn as_bytes(&self) -> &[u8] {
        &self.octets
    }
}

impl<'a> ReadPlainValue<'a> for Aaaa {
    ghost Seen = { List Field };

    ghost seen = { aaaa_fields };

    ghost reads = { fields_of no_name (rdata_format 28) };

    ghost leaves_rest = { uncompressed_leave (rdata_format 28) };

    fn read_plain(bytes: &'a [u8]) -> Result<(Aaaa, &'a [u8]), ParseError> {
        let (octets, rest) = <[u8; 16]>::split_bytes(bytes)?;
        let value = Aaaa { octets };
        Ok((value, rest))
    }
}

impl<'a> DataOfType<'a> for Aaaa {
    ghost number = { 28 };

    fn rtype() -> RType {
        RType::AAAA
    }
}

impl BuildBytes for Aaaa {
    ghost octets = { λ v. v.octets };

    fn build_at(&self, bytes: &mut [u8], start: usize) -> Result<usize, TruncationError> {
        put(&self.octets, bytes, start)
    }

    fn built_bytes_size(&self) -> usize
        ensures size { result ≡ length self.now.octets }
        ensures fixed { result ≡ 16 }
    {
        16
    }
}

/// Uncompressed, with a part for each field.
impl BuildInMessage for Aaaa {
    ghost writes = { λ v. octets_writes v.octets };

    ghost layout = { λ v. Some (OctetsPart v.octets ∷ []) };

    ghost layout_matches = { λ v. part_matches (OctetsPart v.octets) };

    fn build_in_message(
        &self,
        contents: &mut [u8],
        start: usize,
        compressor: &mut NameCompressor,
    ) -> Result<usize, TruncationError> {
        build_whole(self, contents, start, compressor)
    }
}

impl CanonicalRecordData for Aaaa {
    ghost canonical = { λ v. canonical_octets 28 (aaaa_fields v) };

    ghost as_long = { λ v. canonical_long 28 (aaaa_fields v) ∙ ap length (append-nil v.octets) };

    fn build_canonical_at(&self, bytes: &mut [u8], start: usize) -> Result<usize, TruncationError> {
        self.build_at(bytes, start)
    }

    fn cmp_canonical(&self, other: &Self) -> Ordering {
        self.octets.as_slice().cmp(&other.octets.as_slice())
    }
}

impl fmt::Display for Aaaa {
    ghost output = { λ v. Some (ipv6_text v) };

    /// Hexadecimal digits in lowercase, with no zero before a group. `::` represents the longest run of two
    /// groups of zero or more, and for the first of those as long (RFC 5952 section 4).
    fn fmt<W: fmt::Write>(&self, f: &mut fmt::Formatter<W>) -> fmt::Result {
        fmt::Display::fmt(&Ipv6Addr::from(self.octets).hex_groups(), f)
    }
}
