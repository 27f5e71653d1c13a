//! The header of a message.

ghost use Rattle.std.specs.Prelude.{◌≡◌, [], ◌∷◌};
ghost use Rattle.dns_message.specs.Headers.{header_bits, counts_seen};

use dns_num::U16;

/// The header of a message, its first twelve octets (RFC 1035 section 4.1.1).
#[derive(Clone, Copy, Debug)]
pub struct Header {
    /// The number by which an answer is known to belong to its query.
    pub id: U16,
    /// The flags, and with them the kind of query and the response code.
    pub flags: HeaderFlags,
    /// How many items each section has.
    pub counts: SectionCounts,
}

/// How many items each section of a message has (RFC 1035 section 4.1.1).
#[derive(Clone, Copy, Debug)]
pub struct SectionCounts {
    /// Questions, QDCOUNT.
    pub questions: U16,
    /// Answers, ANCOUNT.
    pub answers: U16,
    /// Records of authorities, NSCOUNT.
    pub authorities: U16,
    /// Additional records, ARCOUNT.
    pub additional: U16,
}

impl SectionCounts {
    /// The counts in the order of the sections.
    pub fn as_array(&self) -> [U16; 4]
        ensures { result ≡ self.now.questions ∷ self.now.answers ∷ self.now.authorities ∷ self.now.additional ∷ [] }
    {
        [
            self.questions,
            self.answers,
            self.authorities,
            self.additional,
        ]
    }
}

/// The flags of a message: 16 bits, from QR down to the response code (RFC 1035 section 4.1.1).
#[derive(Clone, Copy, Debug, Default, PartialEq, Eq, Hash)]
pub struct HeaderFlags {
    bits: U16,
}

impl HeaderFlags {
    /// The flags that these bits are.
    pub fn from_bits(bits: u16) -> HeaderFlags
        ensures { header_bits result ≡ bits }
    {
        HeaderFlags {
            bits: U16::new(bits),
        }
    }

    /// All the bits as a number.
    pub fn bits(&self) -> u16
        ensures { result ≡ header_bits self.now }
    {
        self.bits.get()
    }
}
