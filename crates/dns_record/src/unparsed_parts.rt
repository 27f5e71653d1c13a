//! What follows the owner of a record: its type, its class, its time to live, and its data after their size (RFC 1035 section 4.1.3).

ghost use Rattle.std.specs.Prelude.{◌≡◌, ◌<◌, ◌^◌, [], length};
ghost use Rattle.std.proofs.Props.{props};
ghost use Rattle.dns_record.specs.DataLemmas.{parts_leave};
ghost use Rattle.dns_record.specs.Records.{Parts, octets_of_parts, parts_at};

use crate::rclass::RClass;
use crate::rtype::RType;
use crate::ttl::TTL;
use dns_wire::{ParseError, ReadPlainValue, split_octets};

/// The parts of a record after its owner, the data as they are: at most 65,535 octets.
#[derive(Clone, Copy, Debug)]
pub struct UnparsedParts<'a> {
    /// The type.
    pub rtype: RType,
    /// The class.
    pub rclass: RClass,
    /// The time to live.
    pub ttl: TTL,
    /// The octets of the data.
    pub rdata: &'a [u8],
    octets: &'a [u8],
    ghost short: { length rdata.now < 2 ^ 16 },
    ghost whole: { octets.now ≡ octets_of_parts [] rtype.code.value rclass.code.value ttl.value.value rdata.now } by { Prim.hlevel props },
}

impl<'a> UnparsedParts<'a> {
    /// All the octets after the owner: ten, and the data.
    pub fn octets(&self) -> &'a [u8]
        ensures { result.now ≡ octets_of_parts [] self.now.rtype.code.value self.now.rclass.code.value self.now.ttl.value.value self.now.rdata.now }
    {
        self.octets
    }
}

/// `ParseError` comes exactly if there are fewer octets than ten and as many as the size says.
impl<'a> ReadPlainValue<'a> for UnparsedParts<'a> {
    ghost Seen = { Parts };

    ghost seen = { λ v. record { rtype = v.rtype.code.value; class = v.rclass.code.value; ttl = v.ttl.value.value; content = v.rdata.now } };

    ghost reads = { parts_at };

    ghost leaves_rest = { parts_leave };

    fn read_plain(bytes: &'a [u8]) -> Result<(UnparsedParts<'a>, &'a [u8]), ParseError> {
        let [t0, t1, c0, c1, l0, l1, l2, l3, s0, s1, ..] = bytes else {
            return Err(ParseError);
        };
        let size = u16::from_be_bytes([*s0, *s1]);
        let (octets, rest) = split_octets(bytes, 10 + usize::from(size))?;
        let parts = UnparsedParts {
            rtype: RType::from(u16::from_be_bytes([*t0, *t1])),
            rclass: RClass::from(u16::from_be_bytes([*c0, *c1])),
            ttl: TTL::from(u32::from_be_bytes([*l0, *l1, *l2, *l3])),
            rdata: &octets[10..],
            octets,
        };
        Ok((parts, rest))
    }
}
