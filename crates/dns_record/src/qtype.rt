//! Types that a question asks for.

ghost use Rattle.dns_wire.specs.ReadingLemmas.{number_leaves};
ghost use Rattle.std.specs.Prelude.{◌≡◌, ℕ, [], None, ⊤, length};
ghost use Rattle.std.specs.Int.{w16, to_be_bytes};
ghost use Rattle.dns_wire.specs.Layout.{octets_writes};
ghost use Rattle.dns_wire.specs.Reading.{number};

use dns_num::U16;
use dns_wire::{
    BuildBytes, BuildInMessage, NameCompressor, ParseError, ReadPlainValue, SplitBytes,
    TruncationError, build_whole,
};

/// The type that a question asks for: two octets on the wire (RFC 1035 section 3.2.3).
#[derive(Clone, Copy, Debug, PartialEq, Eq, PartialOrd, Ord, Hash)]
pub struct QType {
    /// The number.
    pub code: U16,
}

impl QType {
    /// An IPv4 address (RFC 1035 section 3.4.1).
    pub const A: QType = QType {
        code: U16 { value: 1 },
    };

    /// An authoritative name server (RFC 1035 section 3.3.11).
    pub const NS: QType = QType {
        code: U16 { value: 2 },
    };

    /// The canonical name of an alias (RFC 1035 section 3.3.1).
    pub const CNAME: QType = QType {
        code: U16 { value: 5 },
    };

    /// The start of a zone of authority (RFC 1035 section 3.3.13).
    pub const SOA: QType = QType {
        code: U16 { value: 6 },
    };

    /// A pointer to another name (RFC 1035 section 3.3.12).
    pub const PTR: QType = QType {
        code: U16 { value: 12 },
    };

    /// Host information (RFC 1035 section 3.3.2).
    pub const HINFO: QType = QType {
        code: U16 { value: 13 },
    };

    /// A mail exchange (RFC 1035 section 3.3.9).
    pub const MX: QType = QType {
        code: U16 { value: 15 },
    };

    /// Text strings (RFC 1035 section 3.3.14).
    pub const TXT: QType = QType {
        code: U16 { value: 16 },
    };

    /// A responsible person (RFC 1183 section 2.2).
    pub const RP: QType = QType {
        code: U16 { value: 17 },
    };

    /// An IPv6 address (RFC 3596 section 2.1).
    pub const AAAA: QType = QType {
        code: U16 { value: 28 },
    };

    /// The location of a service (RFC 2782).
    pub const SRV: QType = QType {
        code: U16 { value: 33 },
    };

    /// A redirection of a subtree (RFC 6672).
    pub const DNAME: QType = QType {
        code: U16 { value: 39 },
    };

    /// EDNS options (RFC 6891 section 6.1).
    pub const OPT: QType = QType {
        code: U16 { value: 41 },
    };

    /// A delegation signer (RFC 4034 section 5).
    pub const DS: QType = QType {
        code: U16 { value: 43 },
    };

    /// A signature of records (RFC 4034 section 3).
    pub const RRSIG: QType = QType {
        code: U16 { value: 46 },
    };

    /// The next owner, and the types at this one (RFC 4034 section 4).
    pub const NSEC: QType = QType {
        code: U16 { value: 47 },
    };

    /// A public key of a zone (RFC 4034 section 2).
    pub const DNSKEY: QType = QType {
        code: U16 { value: 48 },
    };

    /// The next hashed owner, and the types at this one (RFC 5155 section 3).
    pub const NSEC3: QType = QType {
        code: U16 { value: 50 },
    };

    /// The parameters of hashed owners (RFC 5155 section 4).
    pub const NSEC3PARAM: QType = QType {
        code: U16 { value: 51 },
    };

    /// A DS that a child asks for (RFC 7344 section 3.1).
    pub const CDS: QType = QType {
        code: U16 { value: 59 },
    };

    /// A DNSKEY that a child asks for (RFC 7344 section 3.2).
    pub const CDNSKEY: QType = QType {
        code: U16 { value: 60 },
    };

    /// A digest of a zone (RFC 8976 section 2).
    pub const ZONEMD: QType = QType {
        code: U16 { value: 63 },
    };

    /// A signature of a transaction (RFC 8945).
    pub const TSIG: QType = QType {
        code: U16 { value: 250 },
    };

    /// An incremental transfer of a zone (RFC 1995).
    pub const IXFR: QType = QType {
        code: U16 { value: 251 },
    };

    /// A transfer of a zone (RFC 5936).
    pub const AXFR: QType = QType {
        code: U16 { value: 252 },
    };

    /// Records of all types (RFC 1035 section 3.2.3).
    pub const ANY: QType = QType {
        code: U16 { value: 255 },
    };
}

impl From<u16> for QType {
    ghost from_gives = { λ plain v. v.code.value ≡ plain };

    fn from(value: u16) -> QType {
        QType {
            code: U16 { value },
        }
    }
}

impl From<QType> for u16 {
    ghost from_gives = { λ v plain. plain ≡ v.code.value };

    fn from(value: QType) -> u16 {
        value.code.get()
    }
}

impl<'a> ReadPlainValue<'a> for QType {
    ghost Seen = { ℕ };

    ghost seen = { λ v. v.code.value };

    ghost reads = { number w16 };

    ghost leaves_rest = { number_leaves w16 };

    fn read_plain(bytes: &'a [u8]) -> Result<(QType, &'a [u8]), ParseError> {
        let (code, rest) = U16::split_bytes(bytes)?;
        Ok((QType { code }, rest))
    }
}

impl BuildBytes for QType {
    ghost octets = { λ v. to_be_bytes w16 v.code.value };

    fn build_at(&self, bytes: &mut [u8], start: usize) -> Result<usize, TruncationError> {
        self.code.build_at(bytes, start)
    }

    fn built_bytes_size(&self) -> usize
        ensures size { result ≡ length (to_be_bytes w16 self.now.code.value) }
        ensures fixed { result ≡ 2 }
    {
        self.code.built_bytes_size()
    }
}

/// Whole, with no name in it.
impl BuildInMessage for QType {
    ghost writes = { λ v. octets_writes (to_be_bytes w16 v.code.value) };

    ghost layout_matches = { λ _. tt };

    fn build_in_message(
        &self,
        contents: &mut [u8],
        start: usize,
        compressor: &mut NameCompressor,
    ) -> Result<usize, TruncationError> {
        build_whole(self, contents, start, compressor)
    }
}
