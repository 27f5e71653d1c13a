//! The canonical list of records: their canonical forms in order, alike ones once.

ghost use Rattle.std.specs.Prelude.{◌≡◌, ◌≤◌, ◌<◌, ◌*◌, ◌^◌, ◌↔◌, IsTrue, length, map, nat_eq};
ghost use Rattle.std.proofs.Common.{rules};
ghost use Rattle.std.specs.Cmp.Lexicographic.{pointwise};
ghost use Rattle.std.specs.Cmp.Rules.{comparing};
ghost use Rattle.std.specs.List.{concat};
ghost use Rattle.std.specs.Ordering.{on};
ghost use Rattle.std.specs.Iterator.Runs.{EveryRun, ItemsMapTo};
ghost use Rattle.std.specs.Slice.Iter.{iter_rest, iter_steps};
ghost use Rattle.dns_message.specs.Order.{SortKey, octets_of_key};

use crate::canonical_form::CanonicalForm;
use crate::canonical_record::CanonicalRecord;
use std::marker::Model;
use std::slice;

/// The canonical list of records of other types than OPT: their canonical forms in canonical order (RFC 4034 section 6), those of alike
/// records once and with the least TTL (RFC 2181 section 5.2). It borrows the forms' octets, and is seen as what the records are compared by.
#[derive(Debug, Drop)]
pub struct CanonicalList<'f> {
    pub(crate) forms: Vec<CanonicalForm<'f>>,
}

impl<'f> Model for CanonicalList<'f> {
    ghost use Rattle.std.specs.Prelude.{◌<◌, ◌^◌, List, length, map};
    ghost use Rattle.std.specs.List.{concat};
    ghost use Rattle.dns_message.specs.Order.{SortKey, octets_of_key};

    ghost Value = { List SortKey };

    ghost view = { λ l. l.forms.items };

    ghost invariant = { λ l. length (concat (map octets_of_key l.forms.items)) < 2 ^ 64 };
}

/// How many canonical octets the forms have in all.
fn octets_in(forms: &[CanonicalForm<'_>]) -> usize
    requires { length (concat (map octets_of_key forms.now)) < 2 ^ 64 }
    ensures octets { result ≡ length (concat (map octets_of_key forms.now)) }
    ensures few { result ≤ CanonicalRecord.MAX_SIZE * length forms.now }
{
    let mut total = 0;
    for form in forms {
        total += form.octets().len();
    }
    total
}

/// Whether the forms have the same canonical octets, one by one.
fn have_same_octets(forms: &[CanonicalForm<'_>], others: &[CanonicalForm<'_>]) -> bool
    ensures { result ≡ pointwise (on octets_of_key (pointwise nat_eq)) forms.now others.now }
{
    if forms.len() != others.len() {
        return false;
    }
    for (form, other) in forms.iter().zip(others) {
        if form.octets() != other.octets() {
            return false;
        }
    }
    true
}

impl<'f> CanonicalList<'f> {
    /// The number of records.
    pub fn len(&self) -> usize
        ensures { result ≡ length self.now }
    {
        self.forms.len()
    }

    /// Whether there are no records.
    pub fn is_empty(&self) -> bool
        ensures { IsTrue result ↔ (length self.now ≡ 0) }
    {
        self.forms.is_empty()
    }

    /// The canonical forms of the records, in order.
    pub fn forms(&self) -> &[CanonicalForm<'f>]
        ensures { result.now ≡ self.now }
    {
        &self.forms
    }

    /// Goes through the canonical forms of the records, in order.
    pub fn iter(&self) -> slice::Iter<'_, CanonicalForm<'f>>
        ensures rest { iter_rest result ≡ self.now }
        ensures bound { length (iter_rest result) < 2 ^ 64 }
        ensures runs { EveryRun (iter_steps {A = SortKey}) (λ p. ItemsMapTo p (λ f. f.now) (iter_rest p.from)) }
    {
        self.forms.iter()
    }

    /// The number of the canonical octets of all records, at most 65,800 for each.
    pub fn octet_count(&self) -> usize
        ensures octets { result ≡ length (concat (map octets_of_key self.now)) }
        ensures few { result ≤ CanonicalRecord.MAX_SIZE * length self.now }
    {
        octets_in(&self.forms)
    }
}

impl PartialEq for CanonicalList<'_> {
    ghost eq = { pointwise (on octets_of_key (pointwise nat_eq)) };

    ghost laws = { Prim.search (comparing, rules) depth 9 };

    /// Whether the records have the same canonical octets, in the same order.
    fn eq(&self, other: &Self) -> bool
        ensures eq { result ≡ pointwise (on octets_of_key (pointwise nat_eq)) self.now other.now }
        ensures same { IsTrue result ↔ (map octets_of_key self.now ≡ map octets_of_key other.now) }
    {
        have_same_octets(&self.forms, &other.forms)
    }
}

impl Eq for CanonicalList<'_> {
    ghost laws = { Prim.search (comparing, rules) depth 9 };
}

impl<'l, 'f> IntoIterator for &'l CanonicalList<'f> {
    type Item = &'l CanonicalForm<'f>;

    type IntoIter = slice::Iter<'l, CanonicalForm<'f>>;

    ghost into_iter_gives = { λ list it. (iter_rest it ≡ list.now) × (length (iter_rest it) < 2 ^ 64)
        × EveryRun (iter_steps {A = SortKey}) (λ p. ItemsMapTo p (λ f. f.now) (iter_rest p.from)) };

    /// Goes through the canonical forms of the records, in order.
    fn into_iter(self) -> Self::IntoIter {
        self.iter()
    }
}
