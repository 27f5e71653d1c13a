//! Types of records.

ghost use Rattle.dns_wire.specs.ReadingLemmas.{number_leaves};
ghost use Rattle.std.specs.Prelude.{◌≡◌, ◌++◌, ℕ, [], None, Some, ⊤, MatchOption, codes, decimal, length};
ghost use Rattle.std.specs.Int.{w16, to_be_bytes};
ghost use Rattle.dns_wire.specs.Layout.{octets_writes};
ghost use Rattle.dns_wire.specs.Reading.{number};
ghost use Rattle.dns_record.specs.CodeTexts.{type_text};
ghost use Rattle.dns_record.specs.Types.{is_lowercased};

use dns_num::U16;
use dns_wire::{
    BuildBytes, BuildInMessage, NameCompressor, ParseError, ReadPlainValue, SplitBytes,
    TruncationError, build_whole,
};
use std::fmt;

/// The type of a record: two octets on the wire (RFC 1035 section 3.2.2).
#[derive(Clone, Copy, Debug, PartialEq, Eq, PartialOrd, Ord, Hash)]
pub struct RType {
    /// The number.
    pub code: U16,
}

impl RType {
    /// An IPv4 address (RFC 1035 section 3.4.1).
    pub const A: RType = RType {
        code: U16 { value: 1 },
    };

    /// An authoritative name server (RFC 1035 section 3.3.11).
    pub const NS: RType = RType {
        code: U16 { value: 2 },
    };

    /// The canonical name of an alias (RFC 1035 section 3.3.1).
    pub const CNAME: RType = RType {
        code: U16 { value: 5 },
    };

    /// The start of a zone of authority (RFC 1035 section 3.3.13).
    pub const SOA: RType = RType {
        code: U16 { value: 6 },
    };

    /// A pointer to another name (RFC 1035 section 3.3.12).
    pub const PTR: RType = RType {
        code: U16 { value: 12 },
    };

    /// Host information (RFC 1035 section 3.3.2).
    pub const HINFO: RType = RType {
        code: U16 { value: 13 },
    };

    /// A mail exchange (RFC 1035 section 3.3.9).
    pub const MX: RType = RType {
        code: U16 { value: 15 },
    };

    /// Text strings (RFC 1035 section 3.3.14).
    pub const TXT: RType = RType {
        code: U16 { value: 16 },
    };

    /// A responsible person (RFC 1183 section 2.2).
    pub const RP: RType = RType {
        code: U16 { value: 17 },
    };

    /// An IPv6 address (RFC 3596 section 2.1).
    pub const AAAA: RType = RType {
        code: U16 { value: 28 },
    };

    /// The location of a service (RFC 2782).
    pub const SRV: RType = RType {
        code: U16 { value: 33 },
    };

    /// A redirection of a subtree (RFC 6672).
    pub const DNAME: RType = RType {
        code: U16 { value: 39 },
    };

    /// EDNS options (RFC 6891 section 6.1).
    pub const OPT: RType = RType {
        code: U16 { value: 41 },
    };

    /// A delegation signer (RFC 4034 section 5).
    pub const DS: RType = RType {
        code: U16 { value: 43 },
    };

    /// A signature of records (RFC 4034 section 3).
    pub const RRSIG: RType = RType {
        code: U16 { value: 46 },
    };

    /// The next owner, and the types at this one (RFC 4034 section 4).
    pub const NSEC: RType = RType {
        code: U16 { value: 47 },
    };

    /// A public key of a zone (RFC 4034 section 2).
    pub const DNSKEY: RType = RType {
        code: U16 { value: 48 },
    };

    /// The next hashed owner, and the types at this one (RFC 5155 section 3).
    pub const NSEC3: RType = RType {
        code: U16 { value: 50 },
    };

    /// The parameters of hashed owners (RFC 5155 section 4).
    pub const NSEC3PARAM: RType = RType {
        code: U16 { value: 51 },
    };

    /// A DS that a child asks for (RFC 7344 section 3.1).
    pub const CDS: RType = RType {
        code: U16 { value: 59 },
    };

    /// A DNSKEY that a child asks for (RFC 7344 section 3.2).
    pub const CDNSKEY: RType = RType {
        code: U16 { value: 60 },
    };

    /// A digest of a zone (RFC 8976 section 2).
    pub const ZONEMD: RType = RType {
        code: U16 { value: 63 },
    };

    /// A signature of a transaction (RFC 8945).
    pub const TSIG: RType = RType {
        code: U16 { value: 250 },
    };

    /// Whether the names in data of this type are in lowercase in canonical form (RFC 4034 section 6.2,
    /// RFC 6840 section 5.1): those of NS, CNAME, SOA, PTR, MX, RP, SRV, DNAME and RRSIG are.
    pub const fn uses_lowercase_canonical_form(&self) -> bool
        ensures { result ≡ is_lowercased self.now.code.value }
    {
        matches!(self.code.value, 2 | 5 | 6 | 12 | 15 | 17 | 33 | 39 | 46)
    }

    /// The type's name in capitals, where it has one here.
    #[tactic(auto, unfolding(crate::specs::CodeTexts::type_text))]
    fn mnemonic(&self) -> Option<&'static str>
        ensures { MatchOption result (type_text self.now.code.value ≡ codes "TYPE" ++ decimal self.now.code.value) (λ text. type_text self.now.code.value ≡ text.now) }
    {
        match *self {
            RType::A => Some("A"),
            RType::NS => Some("NS"),
            RType::CNAME => Some("CNAME"),
            RType::SOA => Some("SOA"),
            RType::PTR => Some("PTR"),
            RType::HINFO => Some("HINFO"),
            RType::MX => Some("MX"),
            RType::TXT => Some("TXT"),
            RType::RP => Some("RP"),
            RType::AAAA => Some("AAAA"),
            RType::SRV => Some("SRV"),
            RType::DNAME => Some("DNAME"),
            RType::OPT => Some("OPT"),
            RType::DS => Some("DS"),
            RType::RRSIG => Some("RRSIG"),
            RType::NSEC => Some("NSEC"),
            RType::DNSKEY => Some("DNSKEY"),
            RType::NSEC3 => Some("NSEC3"),
            RType::NSEC3PARAM => Some("NSEC3PARAM"),
            RType::CDS => Some("CDS"),
            RType::CDNSKEY => Some("CDNSKEY"),
            RType::ZONEMD => Some("ZONEMD"),
            RType::TSIG => Some("TSIG"),
            _ => None,
        }
    }
}

impl From<u16> for RType {
    ghost from_gives = { λ plain v. v.code.value ≡ plain };

    fn from(value: u16) -> RType {
        RType {
            code: U16 { value },
        }
    }
}

impl From<RType> for u16 {
    ghost from_gives = { λ v plain. plain ≡ v.code.value };

    fn from(value: RType) -> u16 {
        value.code.get()
    }
}

impl<'a> ReadPlainValue<'a> for RType {
    ghost Seen = { ℕ };

    ghost seen = { λ v. v.code.value };

    ghost reads = { number w16 };

    ghost leaves_rest = { number_leaves w16 };

    fn read_plain(bytes: &'a [u8]) -> Result<(RType, &'a [u8]), ParseError> {
        let (code, rest) = U16::split_bytes(bytes)?;
        Ok((RType { code }, rest))
    }
}

impl BuildBytes for RType {
    ghost octets = { λ v. to_be_bytes w16 v.code.value };

    fn build_at(&self, bytes: &mut [u8], start: usize) -> Result<usize, TruncationError> {
        self.code.build_at(bytes, start)
    }

    fn built_bytes_size(&self) -> usize
        ensures size { result ≡ length (to_be_bytes w16 self.now.code.value) }
        ensures fixed { result ≡ 2 }
    {
        self.code.built_bytes_size()
    }
}

/// Whole, with no name in it.
impl BuildInMessage for RType {
    ghost writes = { λ v. octets_writes (to_be_bytes w16 v.code.value) };

    ghost layout_matches = { λ _. tt };

    fn build_in_message(
        &self,
        contents: &mut [u8],
        start: usize,
        compressor: &mut NameCompressor,
    ) -> Result<usize, TruncationError> {
        build_whole(self, contents, start, compressor)
    }
}

impl fmt::Display for RType {
    ghost output = { λ v. Some (type_text v.code.value) };

    /// The type's name in capitals, or `TYPE` and the number in decimal (RFC 3597 section 5).
    fn fmt<W: fmt::Write>(&self, f: &mut fmt::Formatter<W>) -> fmt::Result {
        match self.mnemonic() {
            Some(mnemonic) => f.write_str(mnemonic),
            None => write!(f, "TYPE{}", self.code),
        }
    }
}
