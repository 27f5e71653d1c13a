//! The parts of a record, written in canonical form.

ghost use Rattle.std.specs.Prelude.{◌≡◌, ◌≤◌, ◌<◌, ◌+◌, ◌^◌, length, ⊤};
ghost use Rattle.dns_wire.specs.Building.{Builds};
ghost use Rattle.dns_wire.specs.Names.{wire, lowered};
ghost use Rattle.dns_record.specs.Records.{octets_of_parts};

use dns_name::{Lowercased, RevNameBuf};
use dns_num::{SizePrefixed, U16};
use dns_record::{CanonicalRecordData, Record};
use dns_wire::{BuildBytes, TruncationError};

/// Data in canonical form, among other parts.
#[derive(Drop)]
struct CanonicalData<'r, D> {
    rdata: &'r D,
}

impl<D: CanonicalRecordData> BuildBytes for CanonicalData<'_, D> {
    ghost octets = { λ v. D.canonical v.rdata.now };

    fn build_at(&self, bytes: &mut [u8], start: usize) -> Result<usize, TruncationError> {
        self.rdata.build_canonical_at(bytes, start)
    }

    fn built_bytes_size(&self) -> usize {
        self.rdata.built_bytes_size()
    }
}

/// Writes the canonical octets of a record at a place of the buffer, and gives the place where they end: the owner in lowercase, type,
/// class, TTL, the number of the data's octets, and these (RFC 4034 section 6.2).
pub(crate) fn build_canonical_record<D: CanonicalRecordData>(
    found: &Record<&RevNameBuf, &D>,
    bytes: &mut [u8],
    start: usize,
) -> Result<usize, TruncationError>
    requires short { length (D.canonical found.now.rdata.now) < 2 ^ 16 }
    requires start { start ≤ length bytes.old }
    ensures { Builds ⊤ (octets_of_parts (wire (lowered found.now.rname.now)) found.now.rtype.code.value found.now.rclass.code.value found.now.ttl.value.value (D.canonical found.now.rdata.now)) bytes.old start bytes.new result }
{
    let owner = Lowercased { name: found.rname };
    let data = SizePrefixed::<U16, _>::new(CanonicalData { rdata: found.rdata });
    let parts = (&found.rtype, (&found.rclass, (&found.ttl, data)));
    (owner, parts).build_at(bytes, start)
}

/// How many canonical octets a record has, at most 65,800: those of the owner, ten, and those of the data.
pub(crate) fn canonical_size<D: CanonicalRecordData>(found: &Record<&RevNameBuf, &D>) -> usize
    requires short { length (D.canonical found.now.rdata.now) < 2 ^ 16 }
    ensures size { result ≡ length (octets_of_parts (wire (lowered found.now.rname.now)) found.now.rtype.code.value found.now.rclass.code.value found.now.ttl.value.value (D.canonical found.now.rdata.now)) }
    ensures short { result ≤ 65800 }
{
    let data = CanonicalData { rdata: found.rdata };
    found.rname.built_bytes_size() + (10 + data.built_bytes_size())
}
