//! Messages.

ghost use Rattle.std.specs.Prelude.{◌≡◌, ◌+◌, ◌*◌, ◌≤◌, ℕ, List, length, drop, slice_index, sum};
ghost use Rattle.dns_wire.specs.ReadingLemmas.{plain_ends};
ghost use Rattle.dns_wire.specs.declared.sizes.TheConstants.{HEADER_SIZE};
ghost use Rattle.dns_wire.specs.Reading.{plain_at};
ghost use Rattle.dns_message.specs.MessageOctets.{whole_message, whole_message_leaves};

use crate::header::{Header, HeaderFlags, SectionCounts};
use dns_num::U16;
use dns_wire::{HEADER_SIZE, ParseBytes, ParseError};

/// The most octets of a message: over TCP its size is sent as a number of 16 bits (RFC 1035 section 4.2.2).
pub const MAX_MESSAGE_SIZE: usize = 65_535;

/// The fewest octets of a record: a root, and ten octets after it (RFC 1035 section 3.2.1).
const FEWEST_OCTETS: usize = 11;

/// A message: its header, and the contents after it (RFC 1035 section 4.1). Whether its items can be read is not yet known.
#[derive(Clone, Copy, Debug)]
pub struct Message<'a> {
    /// The octets, at least twelve.
    pub slice: &'a [u8],
    ghost has_header: { HEADER_SIZE ≤ length slice.now },
}

impl<'a> Message<'a> {
    ghost use Rattle.dns_message.specs.Headers.{IsHeaderOf};
    ghost use Rattle.dns_message.specs.Messages.{counts_of};

    /// The header.
    pub fn header(&self) -> Header
        ensures { IsHeaderOf self.now.slice.now result }
    {
        Header {
            id: number_in(self.slice, 0),
            flags: HeaderFlags::from_bits(number_in(self.slice, 2).get()),
            counts: SectionCounts {
                questions: number_in(self.slice, 4),
                answers: number_in(self.slice, 6),
                authorities: number_in(self.slice, 8),
                additional: number_in(self.slice, 10),
            },
        }
    }

    /// The octets after the header. Places in a message are counted from here, but in pointers.
    pub fn contents(&self) -> &'a [u8]
        ensures { result.now ≡ drop HEADER_SIZE self.now.slice.now }
    {
        &self.slice[HEADER_SIZE..]
    }

    /// No fewer than its records: those that the header counts, and no more than the contents can hold.
    pub(crate) fn most_records(&self) -> usize
        ensures counted { result ≤ sum (drop 1 (counts_of self.now.slice.now)) }
        ensures held { FEWEST_OCTETS * result ≤ length (drop HEADER_SIZE self.now.slice.now) }
        ensures most { (records : ℕ) → records ≤ sum (drop 1 (counts_of self.now.slice.now)) → FEWEST_OCTETS * records ≤ length (drop HEADER_SIZE self.now.slice.now) → records ≤ result }
    {
        let [_, answers, authorities, additional] = self.header().counts.as_array();
        let counted = usize::from(answers) + usize::from(authorities) + usize::from(additional);
        counted.min(self.contents().len() / FEWEST_OCTETS)
    }

    /// All the octets.
    pub fn as_bytes(&self) -> &'a [u8]
        ensures { result.now ≡ self.now.slice.now }
    {
        self.slice
    }
}

/// The number in two octets from a place on.
fn number_in(octets: &[u8], at: usize) -> U16
    requires { at + 2 ≤ length octets.now }
    ensures { result.value ≡ slice_index octets.now at * 256 + slice_index octets.now (at + 1) }
{
    U16::new(u16::from_be_bytes([octets[at], octets[at + 1]]))
}

/// `ParseError` comes exactly below twelve octets.
impl<'a> ParseBytes<'a> for Message<'a> {
    ghost Seen = { List ℕ };

    ghost seen = { λ v. v.slice.now };

    ghost reads = { whole_message };

    ghost reads_at = { plain_at whole_message };

    ghost leaves_rest = { whole_message_leaves };

    ghost ends_within = { plain_ends whole_message whole_message_leaves };

    fn parse_bytes(bytes: &'a [u8]) -> Result<Message<'a>, ParseError> {
        if bytes.len() < HEADER_SIZE {
            return Err(ParseError);
        }
        Ok(Message { slice: bytes })
    }
}
