//! The members of a zone that come in canonical order: the last of them, and sums over all.

ghost use Rattle.std.specs.Prelude.{◌≡◌, ◌<◌, ◌-◌, ◌^◌, [], ◌∷◌, ◌++◌, List, OnOk, length, map};
ghost use Rattle.std.specs.List.{concat};
ghost use Rattle.dns_message.specs.Order.{SortKey, octets_of_key};
ghost use Rattle.dns_zonemd.specs.SortedZone.{firsts};
ghost use Rattle.dns_zonemd.specs.States.{HoldsMembers, is_alike_first};
ghost use Rattle.dns_zonemd.specs.Sums.{AreSums};

use crate::report::ZoneSums;
use dns_message::{CanonicalForm, CanonicalForms};
use sha2::{Digest, Sha384, Sha512};
use std::alloc::{AllocError, Global};

/// Whether a record is alike the first of these.
pub(crate) fn is_alike_first(forms: &CanonicalForms, form: &CanonicalForm<'_>) -> bool
    ensures { result ≡ is_alike_first forms.now form.now }
{
    match forms.first() {
        Some(first) => form.alike(&first),
        None => false,
    }
}

/// Puts a record in the place of all these. `AllocError` is out of memory.
pub(crate) fn replace(
    forms: &mut CanonicalForms,
    form: &CanonicalForm<'_>,
) -> Result<(), AllocError>
    ensures { OnOk result (forms.new ≡ form.now ∷ []) }
{
    forms.clear();
    forms.push(form)
}

/// The last member, how many members and canonical octets there are, and two hashers over these octets.
#[derive(Drop)]
pub(crate) struct SortedMembers {
    pub(crate) last: CanonicalForms,
    pub(crate) records: u64,
    pub(crate) octets: u128,
    pub(crate) sha384: Sha384,
    pub(crate) sha512: Sha512,
}

impl SortedMembers {
    /// No members.
    pub(crate) fn new(alloc: Global) -> SortedMembers
        ensures { HoldsMembers [] result }
    {
        SortedMembers {
            last: CanonicalForms::new(alloc),
            records: 0,
            octets: 0,
            sha384: Sha384::new(),
            sha512: Sha512::new(),
        }
    }

    /// Adds a member, unless it is alike the last. `AllocError` is out of memory.
    pub(crate) fn add(&mut self, form: &CanonicalForm<'_>) -> Result<(), AllocError>
        ensures { OnOk result ((ks : List SortKey) → length ks < 2 ^ 64 - 1 → HoldsMembers (firsts ks) self.old → HoldsMembers (firsts (ks ++ form.now ∷ [])) self.new) }
    {
        if is_alike_first(&self.last, form) {
            return Ok(());
        }
        let octets = form.octets();
        self.records = self.records.saturating_add(1);
        self.octets = self.octets.saturating_add(octets.len() as u128);
        self.sha384.update(octets);
        self.sha512.update(octets);
        replace(&mut self.last, form)
    }

    /// The sums over the members.
    pub(crate) fn into_sums(self) -> ZoneSums
        ensures { (ms : List SortKey) → HoldsMembers ms self → AreSums (length ms) (concat (map octets_of_key ms)) result }
    {
        ZoneSums {
            records: self.records,
            octets: self.octets,
            sha384: self.sha384.finalize(),
            sha512: self.sha512.finalize(),
        }
    }
}
