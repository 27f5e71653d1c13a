//! Records that have the type of their data.

ghost use Rattle.std.specs.Prelude.{◌≡◌};
ghost use Rattle.dns_rdata.specs.Data.{type_number};

use crate::record_data::RecordData;
use dns_record::{RClass, Record, TTL};

/// The record of these parts, whose type is that of its data.
pub fn old_new<'a, N>(
    rname: N,
    rclass: RClass,
    ttl: TTL,
    rdata: RecordData<'a, N>,
) -> Record<N, RecordData<'a, N>>
    ensures typed { result.rtype.code.value ≡ type_number rdata.entry }
    ensures unchanged { (result.rname ≡ rname) × (result.rclass ≡ rclass) × (result.ttl ≡ ttl) × (result.rdata ≡ rdata.entry) }
{
    let rtype = rdata.rtype();
    Record::new(rname, rtype, rclass, ttl, rdata)
}
