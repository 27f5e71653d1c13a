//! Canonical forms in order.

ghost use Rattle.std.specs.Prelude.{◌≡◌, ◌≤◌, ◌<◌, All, IfOk, length, map, take};
ghost use Rattle.std.specs.List.Sorted.{IsPermutation, IsSorted};
ghost use Rattle.dns_wire.specs.Octets.{Octets};
ghost use Rattle.dns_wire.specs.Reading.{AreOctets};
ghost use Rattle.dns_message.specs.Fronts.{BeginsWith, HasFront, front};
ghost use Rattle.dns_message.specs.Order.{sort_key_cmp};

use crate::canonical_form::CanonicalForm;
use std::alloc::{AllocError, Global};

/// The most forms that are sorted as they are.
const FEW: usize = 20;

/// What is sorted: a form, and the number that eight octets of its owner's key spell, from a place on before which all keys agree.
#[derive(PartialEq, Eq, PartialOrd, Ord, Drop)]
struct FrontedForm<'e, 'f> {
    front: u64,
    form: &'e CanonicalForm<'f>,
}

/// The number that the first eight octets spell, with octets 0 after them if there are fewer.
fn front_of(octets: &[u8]) -> u64
    ensures front { result ≡ front 8 octets.now }
    ensures octets { AreOctets octets.now }
{
    if let Some(first) = octets.first_chunk::<8>() {
        return u64::from_be_bytes(*first);
    }
    let mut padded = [0; 8];
    padded[..octets.len()].copy_from_slice(octets);
    u64::from_be_bytes(padded)
}

/// How many octets a key and the first one begin with alike, at most.
fn shared_with(first: &[u8], key: &[u8], most: usize) -> usize
    requires { most ≤ length first.now }
    ensures fewer { result ≤ most }
    ensures within { result ≤ length key.now }
    ensures same { take result key.now ≡ take result first.now }
{
    let mut shared = most;
    while !key.starts_with(&first[..shared]) {
        shared -= 1;
    }
    shared
}

/// How many octets the keys of all owners begin with alike.
fn shared_octets(forms: &[CanonicalForm<'_>]) -> usize
    ensures { (start : Octets) × All (BeginsWith start result) forms.now }
{
    let Some(first) = forms.first() else {
        return 0;
    };
    let key = first.owner_key();
    let mut shared = key.len();
    for form in forms {
        shared = shared_with(key, form.owner_key(), shared);
    }
    shared
}

/// The forms, each with its number. `AllocError` is out of memory.
fn fronted<'e, 'f>(
    alloc: Global,
    forms: &'e [CanonicalForm<'f>],
) -> Result<Vec<FrontedForm<'e, 'f>>, AllocError>
    ensures forms { IfOk result (λ entries. map (λ e. e.form.now) entries.items ≡ forms.entry.now) }
    ensures fronts { IfOk result (λ entries. (start : Octets) × All (HasFront start) entries.items) }
{
    let shared = shared_octets(forms);
    let mut entries = Vec::with_capacity(alloc, forms.len())?;
    for form in forms {
        entries.push(FrontedForm {
            front: front_of(&form.owner_key()[shared..]),
            form,
        })?;
    }
    Ok(entries)
}

/// The forms alone. `AllocError` is out of memory.
fn without_fronts<'f>(
    alloc: Global,
    entries: &[FrontedForm<'_, 'f>],
) -> Result<Vec<CanonicalForm<'f>>, AllocError>
    ensures { IfOk result (λ forms. forms.items ≡ map (λ e. e.form.now) entries.now) }
{
    let mut forms = Vec::with_capacity(alloc, entries.len())?;
    for entry in entries {
        forms.push(entry.form.again())?;
    }
    Ok(forms)
}

/// The forms in order. `AllocError` is out of memory.
pub(crate) fn sorted<'f>(
    alloc: Global,
    forms: Vec<CanonicalForm<'f>>,
) -> Result<Vec<CanonicalForm<'f>>, AllocError>
    ensures permutation { IfOk result (λ order. IsPermutation forms.entry.items order.items) }
    ensures sorted { IfOk result (λ order. IsSorted sort_key_cmp order.items) }
{
    let mut forms = forms;
    if forms.len() <= FEW {
        forms.sort_unstable();
        return Ok(forms);
    }
    if forms.is_sorted() {
        return Ok(forms);
    }
    let mut entries = fronted(alloc, &forms)?;
    entries.sort_unstable();
    without_fronts(alloc, &entries)
}
