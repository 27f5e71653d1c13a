//! The parts of a record, as they were read.

ghost use Rattle.std.specs.Prelude.{◌≡◌, ◌<◌, ◌^◌, true};
ghost use Rattle.dns_rdata.specs.Data.{IsDataOf};
ghost use Rattle.dns_message.specs.Canonical.{is_not_opt};
ghost use Rattle.dns_message.specs.Seen.{data_seen};

use crate::canonical_record::CanonicalRecord;
use dns_name::{NameBuf, RevNameBuf};
use dns_rdata::RecordData;
use dns_record::{RClass, RType, TTL};

impl<'a> CanonicalRecord<'a> {
    /// The owner, from the root on (RFC 1035 section 3.2.1).
    pub fn owner(&self) -> &RevNameBuf
        ensures { result.now ≡ self.now.owner }
    {
        &self.found.rname
    }

    /// The type (RFC 1035 section 3.2.2), another than OPT.
    pub fn rtype(&self) -> RType
        ensures value { result.code.value ≡ self.now.rtype }
        ensures not_opt { is_not_opt self.now ≡ true }
    {
        self.found.rtype
    }

    /// The class (RFC 1035 section 3.2.4).
    pub fn rclass(&self) -> RClass
        ensures { result.code.value ≡ self.now.class }
    {
        self.found.rclass
    }

    /// The TTL (RFC 1035 section 3.2.1).
    pub fn ttl(&self) -> TTL
        ensures { result.value.value ≡ self.now.ttl }
    {
        self.found.ttl
    }

    /// The data, which are of the record's type.
    pub fn rdata(&self) -> &RecordData<'a, NameBuf>
        ensures fields { data_seen result.now ≡ self.now.content }
        ensures rtype { IsDataOf result.now self.now.rtype }
    {
        &self.found.rdata
    }
}
