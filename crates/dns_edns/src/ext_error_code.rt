//! Codes of extended errors.

ghost use Rattle.dns_wire.specs.ReadingLemmas.{number_leaves};
ghost use Rattle.std.specs.Prelude.{◌≡◌, ℕ, [], None, ⊤, ◌≤◌, ◌↔◌, IsTrue};
ghost use Rattle.std.specs.Int.{w16, to_be_bytes};
ghost use Rattle.dns_wire.specs.Layout.{octets_writes};
ghost use Rattle.dns_wire.specs.Reading.{number};

use dns_num::U16;
use dns_wire::{
    BuildBytes, BuildInMessage, NameCompressor, ParseError, ReadPlainValue, SplitBytes,
    TruncationError, build_whole,
};

/// What an extended error is: two octets on the wire (RFC 8914 section 2).
#[derive(Clone, Copy, Debug, PartialEq, Eq, PartialOrd, Ord, Hash)]
pub struct ExtErrorCode {
    /// The number.
    pub code: U16,
}

impl ExtErrorCode {
    /// An error of no other code (RFC 8914 section 4.1).
    pub const OTHER: ExtErrorCode = ExtErrorCode {
        code: U16 { value: 0 },
    };

    /// No algorithm of the keys is supported (RFC 8914 section 4.2).
    pub const BAD_DNSKEY_ALG: ExtErrorCode = ExtErrorCode {
        code: U16 { value: 1 },
    };

    /// No digest type of the DS records is supported (RFC 8914 section 4.3).
    pub const BAD_DS_ALG: ExtErrorCode = ExtErrorCode {
        code: U16 { value: 2 },
    };

    /// The answer is out of date (RFC 8914 section 4.4).
    pub const STALE_ANSWER: ExtErrorCode = ExtErrorCode {
        code: U16 { value: 3 },
    };

    /// The answer was made up for reasons of policy (RFC 8914 section 4.5).
    pub const FORGED_ANSWER: ExtErrorCode = ExtErrorCode {
        code: U16 { value: 4 },
    };

    /// Validation ended without a finding (RFC 8914 section 4.6).
    pub const DNSSEC_INDETERMINATE: ExtErrorCode = ExtErrorCode {
        code: U16 { value: 5 },
    };

    /// Validation found the answer bogus (RFC 8914 section 4.7).
    pub const DNSSEC_BOGUS: ExtErrorCode = ExtErrorCode {
        code: U16 { value: 6 },
    };

    /// A signature has expired (RFC 8914 section 4.8).
    pub const SIG_EXPIRED: ExtErrorCode = ExtErrorCode {
        code: U16 { value: 7 },
    };

    /// No signature is valid yet (RFC 8914 section 4.9).
    pub const SIG_FUTURE: ExtErrorCode = ExtErrorCode {
        code: U16 { value: 8 },
    };

    /// No key suits a DS record of the parent (RFC 8914 section 4.10).
    pub const DNSKEY_MISSING: ExtErrorCode = ExtErrorCode {
        code: U16 { value: 9 },
    };

    /// Signatures are missing (RFC 8914 section 4.11).
    pub const RRSIGS_MISSING: ExtErrorCode = ExtErrorCode {
        code: U16 { value: 10 },
    };

    /// No key that signs is a key of the zone (RFC 8914 section 4.12).
    pub const NOT_ZSK: ExtErrorCode = ExtErrorCode {
        code: U16 { value: 11 },
    };

    /// A proof that data are missing is missing (RFC 8914 section 4.13).
    pub const NSEC_MISSING: ExtErrorCode = ExtErrorCode {
        code: U16 { value: 12 },
    };

    /// The error comes from a cache (RFC 8914 section 4.14).
    pub const CACHED_ERROR: ExtErrorCode = ExtErrorCode {
        code: U16 { value: 13 },
    };

    /// The server is not ready yet (RFC 8914 section 4.15).
    pub const NOT_READY: ExtErrorCode = ExtErrorCode {
        code: U16 { value: 14 },
    };

    /// The name is on a list of the operator that blocks it (RFC 8914 section 4.16).
    pub const BLOCKED: ExtErrorCode = ExtErrorCode {
        code: U16 { value: 15 },
    };

    /// The name is on a list that another demanded of the operator (RFC 8914 section 4.17).
    pub const CENSORED: ExtErrorCode = ExtErrorCode {
        code: U16 { value: 16 },
    };

    /// The name is on a list that the client asked for (RFC 8914 section 4.18).
    pub const FILTERED: ExtErrorCode = ExtErrorCode {
        code: U16 { value: 17 },
    };

    /// The client may not ask (RFC 8914 section 4.19).
    pub const PROHIBITED: ExtErrorCode = ExtErrorCode {
        code: U16 { value: 18 },
    };

    /// The answer that the name does not exist is out of date (RFC 8914 section 4.20).
    pub const STALE_NXDOMAIN: ExtErrorCode = ExtErrorCode {
        code: U16 { value: 19 },
    };

    /// The server is not authoritative for the name (RFC 8914 section 4.21).
    pub const NOT_AUTHORITATIVE: ExtErrorCode = ExtErrorCode {
        code: U16 { value: 20 },
    };

    /// The operation or the query is not supported (RFC 8914 section 4.22).
    pub const NOT_SUPPORTED: ExtErrorCode = ExtErrorCode {
        code: U16 { value: 21 },
    };

    /// No authority could be reached (RFC 8914 section 4.23).
    pub const NO_REACHABLE_AUTHORITY: ExtErrorCode = ExtErrorCode {
        code: U16 { value: 22 },
    };

    /// The network failed on the way to another server (RFC 8914 section 4.24).
    pub const NETWORK_ERROR: ExtErrorCode = ExtErrorCode {
        code: U16 { value: 23 },
    };

    /// The data of the zone are out of date or not valid (RFC 8914 section 4.25).
    pub const INVALID_DATA: ExtErrorCode = ExtErrorCode {
        code: U16 { value: 24 },
    };

    /// The query came too early to be answered safely (RFC 9250 section 4.5).
    pub const TOO_EARLY: ExtErrorCode = ExtErrorCode {
        code: U16 { value: 26 },
    };

    /// The number of NSEC3 iterations is not supported (RFC 9276 section 3.2).
    pub const BAD_NSEC3_ITERS: ExtErrorCode = ExtErrorCode {
        code: U16 { value: 27 },
    };

    /// Whether the code is kept for private use: those from 49,152 on are (RFC 8914 section 5.2).
    pub fn is_private(&self) -> bool
        ensures { IsTrue result ↔ (49152 ≤ self.now.code.value) }
    {
        self.code.get() >= 49_152
    }
}

impl From<u16> for ExtErrorCode {
    ghost from_gives = { λ plain v. v.code.value ≡ plain };

    fn from(value: u16) -> ExtErrorCode {
        ExtErrorCode {
            code: U16 { value },
        }
    }
}

impl From<ExtErrorCode> for u16 {
    ghost from_gives = { λ v plain. plain ≡ v.code.value };

    fn from(value: ExtErrorCode) -> u16 {
        value.code.get()
    }
}

impl<'a> ReadPlainValue<'a> for ExtErrorCode {
    ghost Seen = { ℕ };

    ghost seen = { λ v. v.code.value };

    ghost reads = { number w16 };

    ghost leaves_rest = { number_leaves w16 };

    fn read_plain(bytes: &'a [u8]) -> Result<(ExtErrorCode, &'a [u8]), ParseError> {
        let (code, rest) = U16::split_bytes(bytes)?;
        Ok((ExtErrorCode { code }, rest))
    }
}

impl BuildBytes for ExtErrorCode {
    ghost octets = { λ v. to_be_bytes w16 v.code.value };

    fn build_at(&self, bytes: &mut [u8], start: usize) -> Result<usize, TruncationError> {
        self.code.build_at(bytes, start)
    }

    fn built_bytes_size(&self) -> usize {
        self.code.built_bytes_size()
    }
}

/// Whole, with no name in it.
impl BuildInMessage for ExtErrorCode {
    ghost writes = { λ v. octets_writes (to_be_bytes w16 v.code.value) };

    ghost layout_matches = { λ _. tt };

    fn build_in_message(
        &self,
        contents: &mut [u8],
        start: usize,
        compressor: &mut NameCompressor,
    ) -> Result<usize, TruncationError> {
        build_whole(self, contents, start, compressor)
    }
}
