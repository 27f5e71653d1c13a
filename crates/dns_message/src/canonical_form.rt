//! A record as its canonical octets.

ghost use Rattle.std.specs.Prelude.{◌≡◌, ◌≤◌, ◌<◌, ◌^◌, IfOk, length, map, reverse};
ghost use Rattle.std.proofs.Common.{rules};
ghost use Rattle.std.specs.Cmp.{partial_order_from_own_ties};
ghost use Rattle.std.specs.Cmp.Rules.{comparing};
ghost use Rattle.std.specs.Ordering.{as_partial_cmp, eq_by_cmp};
ghost use Rattle.dns_wire.specs.Names.{IsName, lowered, name_labels, plain_name};
ghost use Rattle.dns_wire.specs.Reading.{Gives};
ghost use Rattle.dns_record.specs.Data.{data_as};
ghost use Rattle.dns_record.specs.Fields.{named_by};
ghost use Rattle.dns_rdata.specs.Data.{IsDataOf, data_fields};
ghost use Rattle.dns_name.specs.Order.{key_cmp, key_of};
ghost use Rattle.dns_message.specs.Forms.{form_owner_key, span_of};
ghost use Rattle.dns_message.specs.Order.{octets_of_key, sort_key_cmp, alike_cmp};

use crate::canonical_record::CanonicalRecord;
use crate::form_span::FormSpan;
use dns_name::Name;
use dns_rdata::RecordData;
use dns_record::{ParseRecordDataBytes, RClass, RType, TTL};
use dns_wire::ParseError;
use std::cmp::Ordering;
use std::marker::Model;

/// The canonical form of a record of another type than OPT (RFC 4034 section 6.2), with the key of its owner. It borrows both, and is
/// seen as what the record is compared by.
#[derive(Debug, Drop)]
pub struct CanonicalForm<'f> {
    pub(crate) owner_key: &'f [u8],
    pub(crate) octets: &'f [u8],
    pub(crate) class: u16,
    pub(crate) rtype: u16,
    pub(crate) ttl: u32,
}

impl<'f> Model for CanonicalForm<'f> {
    ghost use Rattle.std.specs.Prelude.{◌≡◌};
    ghost use Rattle.dns_message.specs.Order.{SortKey, octets_of_key};
    ghost use Rattle.dns_message.specs.Forms.{form_in, form_owner_key, IsForm};

    ghost Value = { SortKey };

    ghost view = { λ f. form_in f.octets.now f.class f.rtype f.ttl };

    ghost invariant = { λ f. (f.owner_key.now ≡ form_owner_key (form_in f.octets.now f.class f.rtype f.ttl))
        × (f.octets.now ≡ octets_of_key (form_in f.octets.now f.class f.rtype f.ttl))
        × IsForm (form_in f.octets.now f.class f.rtype f.ttl) };
}

impl<'f> CanonicalForm<'f> {
    /// The same form.
    pub(crate) fn again(&self) -> CanonicalForm<'f>
        ensures { result ≡ self.now }
    {
        CanonicalForm {
            owner_key: self.owner_key,
            octets: self.octets,
            class: self.class,
            rtype: self.rtype,
            ttl: self.ttl,
        }
    }

    /// The key of the owner, whose order as octets is the order of owners (RFC 4034 section 6.1): its labels from the root on, each after a 0, in
    /// lowercase, and with octets below `A` one higher. It has at most 255 octets.
    pub fn owner_key(&self) -> &'f [u8]
        ensures key { result.now ≡ form_owner_key self.now }
        ensures short { length result.now ≤ 255 }
        ensures name { IsName (reverse self.now.owner) }
        ensures lowercase { lowered self.now.owner ≡ self.now.owner }
    {
        self.owner_key
    }

    /// The canonical octets, at most 65,800 (RFC 4034 section 6.2).
    pub fn octets(&self) -> &'f [u8]
        ensures octets { result.now ≡ octets_of_key self.now }
        ensures short { length result.now ≤ CanonicalRecord.MAX_SIZE }
    {
        self.octets
    }

    /// The owner in lowercase, of at most 255 octets (RFC 4034 section 6.2).
    pub fn owner(&self) -> Name<'f>
        ensures labels { name_labels result.slice.now ≡ reverse self.now.owner }
        ensures key { key_of result.slice.now ≡ self.now.owner }
    {
        Name {
            slice: &self.octets[..self.owner_key.len()],
        }
    }

    /// The type (RFC 1035 section 3.2.2).
    pub fn rtype(&self) -> RType
        ensures { result.code.value ≡ self.now.rtype }
    {
        RType::from(self.rtype)
    }

    /// The class (RFC 1035 section 3.2.4).
    pub fn rclass(&self) -> RClass
        ensures { result.code.value ≡ self.now.class }
    {
        RClass::from(self.class)
    }

    /// The time to live in seconds (RFC 1035 section 3.2.1, RFC 2181 section 8).
    pub fn ttl(&self) -> TTL
        ensures { result.value.value ≡ self.now.ttl }
    {
        TTL::from(self.ttl)
    }

    /// The canonical octets of the data, which come after the owner and ten octets (RFC 1035 section 3.2.1, RFC 4034 section 6.2).
    pub fn data(&self) -> &'f [u8]
        ensures octets { result.now ≡ self.now.octets }
        ensures short { length result.now < 2 ^ 16 }
    {
        &self.octets[self.owner_key.len() + 10..]
    }

    /// The data, read for their type (RFC 1035 section 3.2.1); those of a type without a format are octets. `ParseError` comes exactly if the
    /// octets are no data of the type.
    pub fn rdata(&self) -> Result<RecordData<'f, Name<'f>>, ParseError>
        ensures exact { Gives (λ v. map (named_by (λ name. name_labels name.slice.now)) (data_fields v)) result (data_as plain_name self.now.rtype self.now.octets) }
        ensures typed { IfOk result (λ v. IsDataOf v self.now.rtype) }
    {
        RecordData::parse_record_data_bytes(self.data(), self.rtype())
    }

    /// How long the parts are, and the numbers.
    pub(crate) fn span(&self) -> FormSpan
        ensures { result ≡ span_of self.now }
    {
        FormSpan {
            owner_size: self.owner_key.len(),
            size: self.octets.len(),
            class: self.class,
            rtype: self.rtype,
            ttl: self.ttl,
        }
    }

    /// The order of the owners.
    fn cmp_owner(&self, other: &CanonicalForm<'_>) -> Ordering
        ensures { result ≡ key_cmp self.now.owner other.now.owner }
    {
        self.owner_key.cmp(other.owner_key)
    }

    /// The order by owner, class, type and canonical data, in which alike records tie.
    fn cmp_but_ttl(&self, other: &CanonicalForm<'_>) -> Ordering
        ensures { result ≡ alike_cmp self.now other.now }
    {
        let owners = self.cmp_owner(other);
        if owners.is_ne() {
            return owners;
        }
        let classes = self.class.cmp(&other.class);
        if classes.is_ne() {
            return classes;
        }
        let types = self.rtype.cmp(&other.rtype);
        if types.is_ne() {
            return types;
        }
        self.data().cmp(other.data())
    }

    /// Whether the records are alike: the same owner in lowercase, class, type and canonical data. Their TTLs may differ (RFC 2181
    /// section 5.2).
    pub fn alike(&self, other: &CanonicalForm<'_>) -> bool
        ensures { result ≡ eq_by_cmp alike_cmp self.now other.now }
    {
        self.cmp_but_ttl(other).is_eq()
    }
}

impl PartialEq for CanonicalForm<'_> {
    ghost eq = { eq_by_cmp sort_key_cmp };

    ghost laws = { Prim.search (comparing, rules) depth 9 };

    /// Whether neither comes before the other. Then the canonical octets are the same.
    fn eq(&self, other: &Self) -> bool {
        self.cmp(other).is_eq()
    }
}

impl Eq for CanonicalForm<'_> {
    ghost laws = { Prim.search (comparing, rules) depth 9 };
}

impl Ord for CanonicalForm<'_> {
    ghost cmp = { sort_key_cmp };

    ghost total = { Prim.search (comparing, rules) depth 9 };

    ghost matches_partial_cmp = { Prim.search (comparing, rules) depth 9 };

    ghost matches_eq = { Prim.search (comparing, rules) depth 9 };

    /// By owner, label by label from the root on, then by class, type, the data's canonical octets, and TTL (RFC 4034
    /// sections 6.1, 6.3).
    fn cmp(&self, other: &Self) -> Ordering {
        self.cmp_but_ttl(other).then(self.ttl.cmp(&other.ttl))
    }
}

impl PartialOrd for CanonicalForm<'_> {
    ghost partial_cmp = { as_partial_cmp sort_key_cmp };

    ghost laws = { partial_order_from_own_ties (Prim.search (comparing, rules) depth 9) (Prim.search (comparing, rules) depth 9) };

    fn partial_cmp(&self, other: &Self) -> Option<Ordering> {
        Some(self.cmp(other))
    }
}
