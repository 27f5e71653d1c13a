//! Signatures, and the octets that they are over (RFC 4034 section 3, RFC 4035 section 5.3.2).

ghost use Rattle.std.specs.Prelude.{◌≡◌, ◌≤◌, ◌<◌, ◌++◌, ◌↔◌, [], Some, None, IfOk, IsTrue, OnOk, drop, flat_map, length, reverse, take, if◌then◌else◌};
ghost use Rattle.std.specs.Int.{w32, to_be_bytes};
ghost use Rattle.dns_wire.specs.Names.{name_labels, wire};
ghost use Rattle.dns_record.specs.Records.{octets_of_parts};
ghost use Rattle.dns_denial.specs.Signed.{algorithm, is_signature, is_signed_by, key_tag_field, labels_field, original_ttl, signature_at, signature_field, signed_octets, signed_owner, signed_part, signer, type_covered, without_signature};

use crate::octets::{first_octets, name_at_start, octet_at, octets_from};
use dns_message::CanonicalForm;
use dns_name::Name;
use dns_record::RType;
use std::alloc::{AllocError, Global};
use std::marker::Model;

/// The octets of the data before the signer's name (RFC 4034 section 3.1).
const FIXED_SIZE: usize = 18;

/// A signature: the canonical form of a record of type RRSIG (RFC 4034 section 3). It is seen as what records are compared by.
#[derive(Debug, Drop)]
pub struct Signature<'r, 'f> {
    form: &'r CanonicalForm<'f>,
}

impl<'r, 'f> Model for Signature<'r, 'f> {
    ghost use Rattle.dns_message.specs.Order.{SortKey};

    ghost Value = { SortKey };

    ghost view = { λ s. s.form.now };
}

impl<'r, 'f> Signature<'r, 'f> {
    /// The signature that a form is; `None` if it is of another type.
    pub fn of(form: &'r CanonicalForm<'f>) -> Option<Signature<'r, 'f>>
        ensures { result ≡ (if is_signature form.now then Some form.now else None) }
    {
        if form.rtype() == RType::RRSIG {
            Some(Signature { form })
        } else {
            None
        }
    }

    /// The type of the records that it is over (RFC 4034 section 3.1.1).
    pub fn type_covered(&self) -> RType
        ensures { result.code.value ≡ type_covered self.now.octets }
    {
        let octets = self.form.data();
        RType::from(u16::from(octet_at(octets, 0)) * 256 + u16::from(octet_at(octets, 1)))
    }

    /// The number of the algorithm (RFC 4034 section 3.1.2).
    pub fn algorithm(&self) -> u8
        ensures { result ≡ algorithm self.now.octets }
    {
        octet_at(self.form.data(), 2)
    }

    /// The number of labels of the owner that was signed, without the root and a first label `*` (RFC 4034 section 3.1.3).
    pub fn labels(&self) -> u8
        ensures { result ≡ labels_field self.now.octets }
    {
        octet_at(self.form.data(), 3)
    }

    /// The TTL of the records that it is over, in seconds (RFC 4034 section 3.1.4).
    fn original_ttl(&self) -> u32
        ensures { result ≡ original_ttl self.now.octets }
    {
        let octets = self.form.data();
        u32::from_be_bytes([
            octet_at(octets, 4),
            octet_at(octets, 5),
            octet_at(octets, 6),
            octet_at(octets, 7),
        ])
    }

    /// The tag of the key (RFC 4034 section 3.1.6).
    pub fn key_tag(&self) -> u16
        ensures { result ≡ key_tag_field self.now.octets }
    {
        let octets = self.form.data();
        u16::from(octet_at(octets, 16)) * 256 + u16::from(octet_at(octets, 17))
    }

    /// The signer's name in lowercase, of at most 255 octets (RFC 4034 section 3.1.7).
    pub fn signer(&self) -> Name<'f>
        ensures { name_labels result.slice.now ≡ signer self.now.octets }
    {
        name_at_start(octets_from(self.form.data(), FIXED_SIZE))
    }

    /// The octets of the signature itself (RFC 4034 section 3.1.8).
    pub fn signature(&self) -> &'f [u8]
        ensures { result.now ≡ signature_field self.now.octets }
    {
        let signer = self.signer();
        octets_from(self.form.data(), FIXED_SIZE + signer.len())
    }

    /// Whether the labels field is more than the number of the owner's labels, so that it is over nothing (RFC 4035 section 5.3.1).
    pub fn has_too_many_labels(&self) -> bool
        ensures { IsTrue result ↔ (length self.now.owner < labels_field self.now.octets) }
    {
        usize::from(self.labels()) > label_count(self.form.owner())
    }

    /// Whether this is over a record: the record has its owner, its class, and the type that it covers.
    fn is_over(&self, found: &CanonicalForm<'_>) -> bool
        ensures { result ≡ is_signed_by self.now found.now }
    {
        found.owner() == self.form.owner()
            && (found.rclass() == self.form.rclass() && found.rtype() == self.type_covered())
    }

    /// The data without the signature.
    fn start(&self, alloc: Global) -> Result<Vec<u8>, AllocError>
        ensures { IfOk result (λ start. start.items ≡ without_signature self.now.octets) }
    {
        let mut start = Vec::from_slice(alloc, first_octets(self.form.data(), FIXED_SIZE))?;
        start.extend_from_slice(self.signer().as_bytes())?;
        Ok(start)
    }
}

/// The signature of this number, from 0, among forms; `None` if they have fewer.
pub(crate) fn signature_at<'r, 'f>(
    forms: &'r [CanonicalForm<'f>],
    number: u16,
) -> Option<Signature<'r, 'f>>
    ensures { result ≡ signature_at number forms.now }
{
    let mut left = number;
    for found in forms {
        if let Some(signature) = Signature::of(found) {
            if left == 0 {
                return Some(signature);
            }
            left -= 1;
        }
    }
    None
}

/// The number of a name's labels without the root.
fn label_count(name: Name<'_>) -> usize
    ensures { result ≡ length (name_labels name.entry.slice.now) }
{
    name.labels().count() - 1
}

/// The octets of a name without that many labels at its start.
fn after_labels(name: &[u8], count: usize) -> &[u8]
    requires name { name.now ≡ wire (name_labels name.now) }
    requires few { count ≤ length (name_labels name.now) }
    ensures { result.now ≡ wire (drop count (name_labels name.now)) }
{
    let mut rest = name;
    for _passed in 0..count {
        rest = &rest[1 + usize::from(rest[0])..];
    }
    rest
}

/// The octets of the owner that was signed, by the labels field and the owner.
fn signed_owner(alloc: Global, count: usize, owner: Name<'_>) -> Result<Vec<u8>, AllocError>
    requires { count ≤ length (name_labels owner.slice.now) }
    ensures { IfOk result (λ octets. octets.items ≡ wire (reverse (signed_owner count (reverse (name_labels owner.entry.slice.now))))) }
{
    let passed = label_count(owner) - count;
    if passed == 0 {
        return Vec::from_slice(alloc, owner.as_bytes());
    }
    let mut signed = Vec::from_slice(alloc, b"\x01*")?;
    signed.extend_from_slice(after_labels(owner.as_bytes(), passed))?;
    Ok(signed)
}

/// The canonical octets of a record after its owner.
fn after_owner<'f>(found: &CanonicalForm<'f>) -> &'f [u8]
    ensures { result.now ≡ octets_of_parts [] found.now.rtype found.now.class found.now.ttl found.now.octets }
{
    octets_from(found.octets(), found.owner().len())
}

/// Appends the canonical octets of a record with another owner and TTL, by those after its own owner: two of type, two of class, four of
/// TTL, and the others (RFC 1035 section 3.2.1).
fn push_record(owner: &[u8], ttl: u32, rest: &[u8], signed: &mut Vec<u8>) -> Result<(), AllocError>
    requires { 8 ≤ length rest.now }
    ensures { OnOk result (signed.new.items ≡ signed.old.items ++ (owner.now ++ (take 4 rest.now ++ (to_be_bytes w32 ttl ++ drop 8 rest.now)))) }
{
    signed.extend_from_slice(owner)?;
    signed.extend_from_slice(&rest[..4])?;
    signed.extend_from_slice(&ttl.to_be_bytes())?;
    signed.extend_from_slice(&rest[8..])
}

/// Appends the canonical octets of a record as it was signed, if the signature is over it.
fn push_part(
    signature: &Signature<'_, '_>,
    owner: &[u8],
    found: &CanonicalForm<'_>,
    signed: &mut Vec<u8>,
) -> Result<(), AllocError>
    requires { owner.now ≡ wire (reverse (signed_owner (labels_field signature.now.octets) signature.now.owner)) }
    ensures { OnOk result (signed.new.items ≡ signed.old.items ++ signed_part signature.now found.now) }
{
    if !signature.is_over(found) {
        return Ok(());
    }
    push_record(owner, signature.original_ttl(), after_owner(found), signed)
}

/// Appends the canonical octets of the records that the signature is over, as they were signed.
fn push_parts(
    signature: &Signature<'_, '_>,
    owner: &[u8],
    forms: &[CanonicalForm<'_>],
    signed: &mut Vec<u8>,
) -> Result<(), AllocError>
    requires { owner.now ≡ wire (reverse (signed_owner (labels_field signature.now.octets) signature.now.owner)) }
    ensures { OnOk result (signed.new.items ≡ signed.old.items ++ flat_map (signed_part signature.now) forms.now) }
{
    for found in forms {
        push_part(signature, owner, found, signed)?;
    }
    Ok(())
}

/// The octets that a signature among records is over, by the records' canonical forms: its data without the signature, and each record that
/// it is over, as it was signed (RFC 4035 section 5.3.2, RFC 4034 section 3.1.8.1). The condition is that the labels field is no more than
/// the number of the owner's labels. `AllocError` is out of memory.
pub fn signed_octets(
    alloc: Global,
    forms: &[CanonicalForm<'_>],
    signature: &Signature<'_, '_>,
) -> Result<Vec<u8>, AllocError>
    requires { labels_field signature.now.octets ≤ length signature.now.owner }
    ensures { IfOk result (λ signed. signed.items ≡ signed_octets forms.now signature.now) }
{
    let count = usize::from(signature.labels());
    let owner = signed_owner(alloc, count, signature.form.owner())?;
    let mut signed = signature.start(alloc)?;
    push_parts(signature, &owner, forms, &mut signed)?;
    Ok(signed)
}
