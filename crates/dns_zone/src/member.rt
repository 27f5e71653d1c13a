//! Which records are in a zone.

ghost use Rattle.std.specs.Prelude.{◌≡◌, reverse};
ghost use Rattle.dns_zone.specs.Zone.{belongs_form, has_soa_form, is_apex, is_at_or_below, is_digest_form, is_of_zone_form, is_soa_form, is_zonemd_form};

use dns_message::CanonicalForm;
use dns_name::RevNameBuf;
use dns_record::{RClass, RType};
use dns_wire::agreement_from_start;

/// The number of ZONEMD in two octets, with which the data of a signature over ZONEMD records begin (RFC 4034 section 3.1.1).
const ZONEMD_COVERED: [u8; 2] = [0, 63];

/// Whether a name is the apex or below it: its last labels are those of the apex, ignoring ASCII case. From the root on, the apex's octets
/// are then the first of the name's.
fn is_at_or_below(owner: &RevNameBuf, apex: &RevNameBuf) -> bool
    ensures { result ≡ is_at_or_below apex.now owner.now }
{
    let owner = owner.as_revname();
    let apex = apex.as_revname();
    let octets = apex.as_bytes();
    agreement_from_start(owner.as_bytes(), octets) == octets.len()
}

/// Whether a name is the apex, ignoring ASCII case.
fn is_apex(owner: &RevNameBuf, apex: &RevNameBuf) -> bool
    ensures { result ≡ is_apex apex.now owner.now }
{
    owner == apex
}

/// The owner of a record, from the root on.
fn owner_of(form: &CanonicalForm<'_>) -> RevNameBuf
    ensures { result ≡ reverse form.now.owner }
{
    form.owner().to_revname()
}

/// Whether a record is a ZONEMD record, or a signature over such records.
fn is_digest_form(form: &CanonicalForm<'_>) -> bool
    ensures { result ≡ is_digest_form form.now }
{
    let rtype = form.rtype();
    rtype == RType::ZONEMD || rtype == RType::RRSIG && form.data().starts_with(&ZONEMD_COVERED)
}

/// Whether a record of another type than OPT is of the zone of the apex, one of the zone's own digests or not: of class IN, and at the apex or
/// below it.
pub fn is_of_zone(form: &CanonicalForm<'_>, apex: &RevNameBuf) -> bool
    ensures { result ≡ is_of_zone_form apex.now form.now }
{
    form.rclass() == RClass::IN && is_at_or_below(&owner_of(form), apex)
}

/// Whether a record of another type than OPT is in the zone of the apex (RFC 8976 section 3.3.1.1): of class IN, at the apex or below it,
/// and at the apex neither a ZONEMD record nor a signature over one.
pub fn belongs(form: &CanonicalForm<'_>, apex: &RevNameBuf) -> bool
    ensures { result ≡ belongs_form apex.now form.now }
{
    let owner = owner_of(form);
    form.rclass() == RClass::IN
        && is_at_or_below(&owner, apex)
        && !(is_apex(&owner, apex) && is_digest_form(form))
}

/// Whether a record is the SOA record of the apex (RFC 1035 section 3.3.13).
pub fn is_soa_of(form: &CanonicalForm<'_>, apex: &RevNameBuf) -> bool
    ensures { result ≡ is_soa_form apex.now form.now }
{
    form.rtype() == RType::SOA && form.rclass() == RClass::IN && is_apex(&owner_of(form), apex)
}

/// Whether a record is a ZONEMD record of the apex (RFC 8976 section 2).
pub fn is_zonemd_of(form: &CanonicalForm<'_>, apex: &RevNameBuf) -> bool
    ensures { result ≡ is_zonemd_form apex.now form.now }
{
    form.rtype() == RType::ZONEMD && form.rclass() == RClass::IN && is_apex(&owner_of(form), apex)
}

/// Whether one of the records is the SOA record of the apex.
pub(crate) fn has_soa(forms: &[CanonicalForm<'_>], apex: &RevNameBuf) -> bool
    ensures { result ≡ has_soa_form apex.now forms.now }
{
    forms.iter().any(|form| is_soa_of(form, apex))
}
