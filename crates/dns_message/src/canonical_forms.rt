//! Records as their canonical octets, one after another.

ghost use Rattle.std.specs.Prelude.{◌≡◌, ◌≤◌, ◌<◌, ◌+◌, ◌^◌, ◌↔◌, [], ◌∷◌, ◌++◌, List, IfOk, IsTrue, MatchOption, OnErr, OnOk, drop, length, map};
ghost use Rattle.std.specs.Int.{w16, w32, to_be_bytes};
ghost use Rattle.dns_name.specs.Order.{key};
ghost use Rattle.dns_record.specs.Records.{octets_of_parts};
ghost use Rattle.dns_message.specs.Canonical.{canonical_wire};
ghost use Rattle.dns_message.specs.Forms.{AreForms, forms_in};
ghost use Rattle.dns_message.specs.Messages.{RecordValue};
ghost use Rattle.dns_message.specs.Order.{SortKey, sort_key, octets_of_key, collapsed};

use crate::canonical_form::CanonicalForm;
use crate::canonical_list::CanonicalList;
use crate::canonical_owner::CanonicalOwner;
use crate::form_order::sorted;
use crate::form_span::FormSpan;
use crate::last_owner::LastOwner;
use dns_name::NameBuf;
use dns_record::{RClass, RType, TTL};
use std::alloc::{AllocError, Global};
use std::marker::Model;

/// The octets of an owner and of its key for which memory is taken before they are read. More is taken as they need it.
const OWNER_ROOM: usize = 32;

/// The canonical forms of records of other types than OPT (RFC 4034 section 6.2), in the order in which they were added. For each
/// record they take its canonical octets, as many octets as its owner has, and 24 more. They are seen as what the records are compared by.
#[derive(Drop)]
pub struct CanonicalForms {
    owner_keys: Vec<u8>,
    octets: Vec<u8>,
    spans: Vec<FormSpan>,
}

impl Model for CanonicalForms {
    ghost use Rattle.std.specs.Prelude.{List};
    ghost use Rattle.dns_message.specs.Order.{SortKey};
    ghost use Rattle.dns_message.specs.Forms.{forms_in, AreForms};

    ghost Value = { List SortKey };

    ghost view = { λ f. forms_in f.spans.items f.octets.items };

    ghost invariant = { λ f. AreForms (forms_in f.spans.items f.octets.items) f.owner_keys.items f.octets.items f.spans.items };
}

/// The octets between the owner and the data: type, class, TTL, and the number of the data's octets.
pub(crate) fn numbers(rtype: RType, rclass: RClass, ttl: TTL, size: u16) -> [u8; 10]
    ensures { result ≡ to_be_bytes w16 rtype.code.value ++ (to_be_bytes w16 rclass.code.value ++ (to_be_bytes w32 ttl.value.value ++ to_be_bytes w16 size)) }
{
    let [type_high, type_low] = rtype.code.get().to_be_bytes();
    let [class_high, class_low] = rclass.code.get().to_be_bytes();
    let [first, second, third, fourth] = ttl.as_secs().to_be_bytes();
    let [size_high, size_low] = size.to_be_bytes();
    [
        type_high, type_low, class_high, class_low, first, second, third, fourth, size_high,
        size_low,
    ]
}

/// The forms of these spans, whose owners' keys and canonical octets are one after another. `AllocError` is out of memory.
fn split_forms<'f>(
    alloc: Global,
    spans: &[FormSpan],
    owner_keys: &'f [u8],
    octets: &'f [u8],
) -> Result<Vec<CanonicalForm<'f>>, AllocError>
    requires { AreForms (forms_in spans.now octets.now) owner_keys.now octets.now spans.now }
    ensures { IfOk result (λ forms. forms.items ≡ forms_in spans.now octets.now) }
{
    let mut forms = Vec::with_capacity(alloc, spans.len())?;
    let mut keys_left = owner_keys;
    let mut octets_left = octets;
    for span in spans {
        let (owner_key, more_keys) = keys_left.split_at(span.owner_size);
        let (form, more_octets) = octets_left.split_at(span.size);
        forms.push(CanonicalForm {
            owner_key,
            octets: form,
            class: span.class,
            rtype: span.rtype,
            ttl: span.ttl,
        })?;
        keys_left = more_keys;
        octets_left = more_octets;
    }
    Ok(forms)
}

impl CanonicalForms {
    /// No forms.
    pub fn new(alloc: Global) -> CanonicalForms
        ensures { result ≡ [] }
    {
        CanonicalForms {
            owner_keys: Vec::new(alloc),
            octets: Vec::new(alloc),
            spans: Vec::new(alloc),
        }
    }

    /// No forms, in the memory of these, and with memory for those of that many records whose data have that many octets. `AllocError` is out
    /// of memory.
    pub(crate) fn cleared(self, records: usize, size: usize) -> Result<CanonicalForms, AllocError>
        ensures { IfOk result (λ forms. forms ≡ []) }
    {
        let CanonicalForms {
            mut owner_keys,
            mut octets,
            mut spans,
        } = self;
        let owners = records.saturating_mul(OWNER_ROOM);
        owner_keys.clear();
        owner_keys.reserve(owners)?;
        octets.clear();
        octets.reserve(owners.saturating_add(size))?;
        spans.clear();
        spans.reserve(records)?;
        Ok(CanonicalForms {
            owner_keys,
            octets,
            spans,
        })
    }

    /// Puts the form of a record with this owner, type, class and TTL after these. What follows the owner in canonical form, ten octets and the
    /// data, is the first octets and then the last. `AllocError` is out of memory, and puts nothing.
    pub(crate) fn push_canonical(
        &mut self,
        owner: CanonicalOwner<'_>,
        rtype: RType,
        rclass: RClass,
        ttl: TTL,
        first: &[u8],
        last: &[u8],
    ) -> Result<(), AllocError>
        requires rdata { first.now ++ last.now ≡ octets_of_parts [] rtype.code.value rclass.code.value ttl.value.value (drop 10 (first.now ++ last.now)) }
        requires short { length (first.now ++ last.now) < 10 + 2 ^ 16 }
        ensures { OnOk result (self.new ≡ self.old ++ record { owner = key owner.entry; class = rclass.code.value; rtype = rtype.code.value; octets = drop 10 (first.now ++ last.now); ttl = ttl.value.value } ∷ []) }
    {
        let span = FormSpan {
            owner_size: owner.octets().len(),
            size: owner.octets().len() + first.len() + last.len(),
            class: rclass.code.get(),
            rtype: rtype.code.get(),
            ttl: ttl.as_secs(),
        };
        self.owner_keys.reserve(owner.key().len())?;
        self.octets.reserve(span.size)?;
        self.spans.push(span)?;
        self.owner_keys.extend_from_slice(owner.key()).unwrap();
        self.octets.extend_from_slice(owner.octets()).unwrap();
        self.octets.extend_from_slice(first).unwrap();
        self.octets.extend_from_slice(last).unwrap();
        Ok(())
    }

    /// Takes all forms away, and keeps their memory.
    pub fn clear(&mut self)
        ensures { self.new ≡ [] }
    {
        self.owner_keys.clear();
        self.octets.clear();
        self.spans.clear();
    }

    /// Puts the form of a record with this owner, in lowercase, and with these type, class, TTL and canonical octets of its data after these.
    /// `AllocError` is out of memory. The condition is that the data are at most 65,535 octets.
    pub fn push_parts(
        &mut self,
        owner: &NameBuf,
        rtype: RType,
        rclass: RClass,
        ttl: TTL,
        rdata: &[u8],
    ) -> Result<(), AllocError>
        requires { length rdata.now < 2 ^ 16 }
        ensures { OnOk result (self.new ≡ self.old ++ record { owner = key owner.now; class = rclass.code.value; rtype = rtype.code.value; octets = rdata.now; ttl = ttl.value.value } ∷ []) }
    {
        let owner = LastOwner::of(owner);
        let first = numbers(rtype, rclass, ttl, rdata.len() as u16);
        self.push_canonical(owner.owner(), rtype, rclass, ttl, &first, rdata)
    }

    /// The first of the forms; `None` if there are none.
    pub fn first(&self) -> Option<CanonicalForm<'_>>
        ensures { MatchOption result (self.now ≡ []) (λ form. (more : List SortKey) × (self.now ≡ form ∷ more)) }
    {
        let span = self.spans.first()?;
        Some(CanonicalForm {
            owner_key: &self.owner_keys[..span.owner_size],
            octets: &self.octets[..span.size],
            class: span.class,
            rtype: span.rtype,
            ttl: span.ttl,
        })
    }

    /// The number of forms.
    pub fn len(&self) -> usize
        ensures { result ≡ length self.now }
    {
        self.spans.len()
    }

    /// Whether there are no forms.
    pub fn is_empty(&self) -> bool
        ensures { IsTrue result ↔ (length self.now ≡ 0) }
    {
        self.spans.is_empty()
    }

    /// Adds a form after the others. `AllocError` is out of memory, and adds nothing.
    pub fn push(&mut self, form: &CanonicalForm<'_>) -> Result<(), AllocError>
        ensures added { OnOk result (self.new ≡ self.old ++ form.now ∷ []) }
        ensures unchanged { OnErr result (self.new ≡ self.old) }
    {
        self.owner_keys.reserve(form.owner_key.len())?;
        self.octets.reserve(form.octets.len())?;
        self.spans.reserve(1)?;
        self.owner_keys.extend_from_slice(form.owner_key).unwrap();
        self.octets.extend_from_slice(form.octets).unwrap();
        self.spans.push(form.span()).unwrap();
        Ok(())
    }

    /// The forms in the order in which they were added, alike ones too. `AllocError` is out of memory.
    pub fn views(&self, alloc: Global) -> Result<Vec<CanonicalForm<'_>>, AllocError>
        ensures { IfOk result (λ forms. forms.items ≡ self.now) }
    {
        split_forms(alloc, &self.spans, &self.owner_keys, &self.octets)
    }

    /// The list of these forms in canonical order (RFC 4034 section 6), those of alike records once and with the least TTL (RFC 2181
    /// section 5.2). `AllocError` is out of memory.
    pub fn collapsed(&self, alloc: Global) -> Result<CanonicalList<'_>, AllocError>
        ensures keys { IfOk result (λ order. (rs : List RecordValue) → self.now ≡ map sort_key rs → order ≡ map sort_key (collapsed rs)) }
        ensures octets { IfOk result (λ order. (rs : List RecordValue) → self.now ≡ map sort_key rs → map octets_of_key order ≡ map canonical_wire (collapsed rs)) }
    {
        let forms = split_forms(alloc, &self.spans, &self.owner_keys, &self.octets)?;
        let mut forms = sorted(alloc, forms)?;
        forms.dedup_by(|later, first| later.alike(first));
        Ok(CanonicalList { forms })
    }
}
