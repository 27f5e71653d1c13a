//! Records that have the type of their boxed data.

ghost use Rattle.std.specs.Prelude.{◌≡◌};
ghost use Rattle.dns_boxed.specs.BoxedValue.{boxed_type};

use crate::boxed_record_data::BoxedRecordData;
use dns_record::{RClass, Record, TTL};

/// The record of these parts, whose type is that of its data.
pub fn old_new_box<N>(
    rname: N,
    rclass: RClass,
    ttl: TTL,
    rdata: BoxedRecordData,
) -> Record<N, BoxedRecordData>
    ensures typed { result.rtype.code.value ≡ boxed_type rdata }
    ensures unchanged { (result.rname ≡ rname) × (result.rclass ≡ rclass) × (result.ttl ≡ ttl) × (result.rdata ≡ rdata) }
{
    Record::new(rname, rdata.rtype(), rclass, ttl, rdata)
}
