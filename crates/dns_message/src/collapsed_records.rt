//! Typed records in canonical order, alike ones once.

ghost use Rattle.std.specs.Prelude.{◌≡◌, true, List, IfOk, map};
ghost use Rattle.std.specs.List.{All};
ghost use Rattle.dns_message.specs.Canonical.{canonical_wire, is_not_opt};
ghost use Rattle.dns_message.specs.Order.{collapsed, canonical_list};

use crate::canonical_record::CanonicalRecord;
use std::alloc::{AllocError, Global};

/// The records in canonical order (RFC 4034 section 6), those that are alike once and with the least TTL (RFC 2181 section 5.2).
/// `AllocError` is out of memory; the records are then given up.
pub fn collapse<'a>(
    _alloc: Global,
    mut records: Vec<CanonicalRecord<'a>>,
) -> Result<Vec<CanonicalRecord<'a>>, AllocError>
    ensures octets { IfOk result (λ not_opt. map canonical_wire not_opt.items ≡ map canonical_wire (collapsed records.entry.items)) }
    ensures canonical_list { IfOk result (λ not_opt. map canonical_wire not_opt.items ≡ canonical_list records.entry.items) }
{
    none_is_opt(&records);
    records.sort_unstable();
    records.dedup_by(|later, first| later.alike(first));
    Ok(records)
}

/// Each record is of another type than OPT, as its type says.
fn none_is_opt(records: &[CanonicalRecord<'_>])
    ensures { All (λ r. is_not_opt r ≡ true) records.now }
{
    for record in records {
        let _ = record.rtype();
    }
}
