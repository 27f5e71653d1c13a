//! Records as they are compared and written in canonical form.

ghost use Rattle.std.specs.Prelude.{◌≡◌, ◌≢◌, ◌↔◌, ◌≤◌, true, IsTrue, ◌<◌, ◌^◌, [], ◌∷◌, length, drop, filter, MatchOption, IfOk, OnOk, OnErr, ⊤};
ghost use Rattle.std.proofs.Common.{rules};
ghost use Rattle.std.specs.Borrow.{sem};
ghost use Rattle.std.specs.Cmp.{partial_order_from_own_ties};
ghost use Rattle.std.specs.Cmp.Rules.{comparing};
ghost use Rattle.std.specs.Ordering.{on, as_partial_cmp, eq_by_cmp};
ghost use Rattle.dns_wire.specs.Building.{Builds, LendsRest};
ghost use Rattle.dns_record.specs.Fields.{fields_octets};
ghost use Rattle.dns_record.specs.Seen.{record_seen};
ghost use Rattle.dns_rdata.specs.Data.{IsDataOf};
ghost use Rattle.dns_record.specs.Types.{opt_number};
ghost use Rattle.dns_message.specs.Canonical.{canonical_wire, is_not_opt};
ghost use Rattle.dns_message.specs.Messages.{RecordValue, records_among};
ghost use Rattle.dns_message.specs.Order.{sort_key, sort_key_cmp, alike_cmp, class_and_data_cmp, ttl_cmp, are_alike};
ghost use Rattle.dns_message.specs.Same.{Alike};
ghost use Rattle.dns_message.specs.Seen.{AreSound, HasSoundDataUnlessOpt, data_seen, item_seen, record_value};

mod parts;

use crate::canonical_parts::{build_canonical_record, canonical_size};
use crate::item::{MessageItem, ParsedMessageItem};
use dns_name::{NameBuf, RevNameBuf};
use dns_rdata::RecordData;
use dns_record::{CanonicalRecordData, RType, Record};
use dns_wire::{BuildBytes, TruncationError};
use std::cmp::Ordering;
use std::marker::Model;

/// A record of another type than OPT, to be compared and written in canonical form (RFC 4034 section 6). Its data are borrowed from
/// the message, and its owner is kept from the root on, as owners are compared.
#[derive(Debug, Drop)]
pub struct CanonicalRecord<'a> {
    found: Record<RevNameBuf, RecordData<'a, NameBuf>>,
}

impl<'a> Model for CanonicalRecord<'a> {
    ghost Value = { RecordValue };

    ghost view = { λ r. record_value r.found };

    ghost invariant = { λ r. (r.found.rtype.code.value ≢ opt_number) × AreSound r.found };
}

impl<'a> CanonicalRecord<'a> {
    /// The most canonical octets: 255 of an owner, ten of type, class, TTL and the data's size, and 65,535 of data (RFC 1035
    /// sections 2.3.4 and 3.2.1).
    pub const MAX_SIZE: usize = 65_800;

    /// The record that the item is; `None` exactly for a question and for a record of type OPT, which is a record in form alone
    /// (RFC 6891 section 6.1.1). A record of another type has data of its type, as each has that was read.
    pub fn of(item: ParsedMessageItem<'a>) -> Option<CanonicalRecord<'a>>
        requires { HasSoundDataUnlessOpt item }
        ensures { MatchOption result (filter is_not_opt (records_among (item_seen item.entry ∷ [])) ≡ []) (λ r. filter is_not_opt (records_among (item_seen item.entry ∷ [])) ≡ r ∷ []) }
    {
        match item {
            MessageItem::Answer(found)
            | MessageItem::Authority(found)
            | MessageItem::Additional(found) => CanonicalRecord::of_record(found),
            MessageItem::Question(_) | MessageItem::Edns(_) => None,
        }
    }

    /// The record; none for one of type OPT.
    pub(crate) fn of_record(
        found: Record<RevNameBuf, RecordData<'a, NameBuf>>,
    ) -> Option<CanonicalRecord<'a>>
        requires { found.rtype.code.value ≢ opt_number → AreSound found }
        ensures { MatchOption result (filter is_not_opt (record_value found.entry ∷ []) ≡ []) (λ r. filter is_not_opt (record_value found.entry ∷ []) ≡ r ∷ []) }
    {
        if found.rtype == RType::OPT {
            None
        } else {
            Some(CanonicalRecord { found })
        }
    }

    /// The record with references to its owner and to its data.
    pub(crate) fn parts(&self) -> Record<&RevNameBuf, &RecordData<'a, NameBuf>>
        ensures value { record_seen (λ o. o.now) (λ d. data_seen d.now) result ≡ self.now }
        ensures typed { IsDataOf result.rdata.now result.rtype.code.value }
        ensures short { length (fields_octets (data_seen result.rdata.now)) < 2 ^ 16 }
    {
        let found = &self.found;
        Record::new(
            &found.rname,
            found.rtype,
            found.rclass,
            found.ttl,
            &found.rdata,
        )
    }

    /// Whether the records are alike: the same owner in lowercase, class, type and canonical data. Their TTLs may differ (RFC 2181
    /// section 5.2).
    pub fn alike(&self, other: &CanonicalRecord<'_>) -> bool
        ensures exact { IsTrue result ↔ Alike self.now other.now }
        ensures tested { result ≡ are_alike self.now other.now }
    {
        self.cmp_but_ttl(other).is_eq()
    }

    /// The order by owner, class, type and canonical data, in which alike records tie.
    fn cmp_but_ttl(&self, other: &CanonicalRecord<'_>) -> Ordering
        ensures { result ≡ alike_cmp (sort_key self.now) (sort_key other.now) }
    {
        let owners = self.found.rname.cmp(&other.found.rname);
        if owners.is_ne() {
            return owners;
        }
        self.cmp_class_and_data(other)
    }

    /// The order by class, type and canonical data.
    pub(crate) fn cmp_class_and_data(&self, other: &CanonicalRecord<'_>) -> Ordering
        ensures { result ≡ class_and_data_cmp (sort_key self.now) (sort_key other.now) }
    {
        let (a, b) = (&self.found, &other.found);
        let classes = a.rclass.cmp(&b.rclass);
        if classes.is_ne() {
            return classes;
        }
        // Data are compared by their type first.
        a.rdata.cmp_canonical(&b.rdata)
    }

    /// The order by TTL.
    pub(crate) fn cmp_ttl(&self, other: &CanonicalRecord<'_>) -> Ordering
        ensures { result ≡ ttl_cmp (sort_key self.now) (sort_key other.now) }
    {
        self.found.ttl.cmp(&other.found.ttl)
    }

    /// The number of canonical octets, at most 65,800.
    pub fn size(&self) -> usize
        ensures size { result ≡ length (canonical_wire self.now) }
        ensures short { result ≤ CanonicalRecord.MAX_SIZE }
    {
        self.built_bytes_size()
    }

    /// Writes the canonical octets to the beginning of the buffer. What is after them is borrowed back as it was.
    /// `TruncationError` comes exactly if they are more than the buffer's; what the buffer holds then is unspecified.
    pub fn write<'b>(&self, bytes: &'b mut [u8]) -> Result<&'b mut [u8], TruncationError>
        ensures* written { sem 𝓛 (LendsRest bytes.entry result (canonical_wire self.now)) }
        ensures rest { IfOk result (λ rest. rest.now ≡ drop (length (canonical_wire self.now)) bytes.old) }
        ensures accepted { OnOk result (length (canonical_wire self.now) ≤ length bytes.old) }
        ensures refused { OnErr result (length bytes.old < length (canonical_wire self.now)) }
    {
        match self.put(bytes) {
            Ok(end) => Ok(&mut bytes[end..]),
            Err(error) => Err(error),
        }
    }

    /// Writes the canonical octets to the beginning of the buffer, and gives the place where they end.
    fn put(&self, bytes: &mut [u8]) -> Result<usize, TruncationError>
        ensures { Builds ⊤ (canonical_wire self.now) bytes.old 0 bytes.new result }
    {
        self.build_at(bytes, 0)
    }
}

/// The canonical octets: the owner in lowercase, type, class, TTL, the number of the data's octets, and these (RFC 4034
/// section 6.2).
impl BuildBytes for CanonicalRecord<'_> {
    ghost octets = { canonical_wire };

    fn build_at(&self, bytes: &mut [u8], start: usize) -> Result<usize, TruncationError> {
        build_canonical_record(&self.parts(), bytes, start)
    }

    /// The number of octets, at most 65,800.
    fn built_bytes_size(&self) -> usize
        ensures size { result ≡ length (canonical_wire self.now) }
        ensures short { result ≤ CanonicalRecord.MAX_SIZE }
    {
        canonical_size(&self.parts())
    }
}

impl PartialEq for CanonicalRecord<'_> {
    ghost eq = { eq_by_cmp (on sort_key sort_key_cmp) };

    ghost laws = { Prim.search (comparing, rules) depth 9 };

    /// Whether neither comes before the other. Then the canonical octets are the same.
    fn eq(&self, other: &Self) -> bool {
        self.cmp(other).is_eq()
    }
}

impl Eq for CanonicalRecord<'_> {
    ghost laws = { Prim.search (comparing, rules) depth 9 };
}

impl Ord for CanonicalRecord<'_> {
    ghost cmp = { on sort_key sort_key_cmp };

    ghost total = { Prim.search (comparing, rules) depth 9 };

    ghost matches_partial_cmp = { Prim.search (comparing, rules) depth 9 };

    ghost matches_eq = { Prim.search (comparing, rules) depth 9 };

    /// By owner, label by label from the root on, then by class, type, the data's canonical octets, and TTL (RFC 4034
    /// sections 6.1, 6.3). The first that differs decides, and no octets are written.
    fn cmp(&self, other: &Self) -> Ordering {
        self.cmp_but_ttl(other).then(self.cmp_ttl(other))
    }
}

impl PartialOrd for CanonicalRecord<'_> {
    ghost partial_cmp = { as_partial_cmp (on sort_key sort_key_cmp) };

    ghost laws = { partial_order_from_own_ties (Prim.search (comparing, rules) depth 9) (Prim.search (comparing, rules) depth 9) };

    fn partial_cmp(&self, other: &Self) -> Option<Ordering> {
        Some(self.cmp(other))
    }
}
