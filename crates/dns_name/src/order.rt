//! The order of names: by labels from the root on, each by its lowered octets (RFC 4034 section 6.1). Names of
//! one zone share their ends, so they are scanned from there.

ghost use Rattle.std.specs.Prelude.{◌≡◌, ◌≤◌, ◌<◌, ◌+◌, ◌*◌, length};
ghost use Rattle.std.proofs.Common.{rules};
ghost use Rattle.std.specs.Cmp.{partial_order_from_own_ties};
ghost use Rattle.std.specs.Cmp.Rules.{comparing};
ghost use Rattle.std.specs.Ordering.{on, as_partial_cmp, eq_by_cmp};
ghost use Rattle.std.specs.Prelude.{ℕ, IfSome, MatchOption, option_map};
ghost use Rattle.std.specs.Option.{option_cmp};
ghost use Rattle.dns_wire.specs.Names.{wire};
ghost use Rattle.dns_wire.specs.Reversed.{relative_labels};
ghost use Rattle.dns_wire.specs.Agreement.{agreeing_end};
ghost use Rattle.dns_label.specs.Order.{label_cmp};
ghost use Rattle.dns_name.specs.Order.{key, key_of, key_cmp};

use crate::name::Name;
use crate::name_buf::NameBuf;
use crate::relative_name::RelativeName;
use crate::steps::Steps;
use dns_wire::{agreement_from_end, compare_lowercase};
use std::cmp::Ordering;
use std::marker::Brand;
use std::sync::ledger::{Blank, Ledger};

/// The label just before the most labels that both end in; `None` if no label precedes these.
/// `agreed` octets agree from the ends of both names on, their roots included. Each label type that is read is a
/// step.
fn labels_before<'a, 'b, L: Ledger>(
    a: RelativeName<'a>,
    b: RelativeName<'b>,
    agreed: usize,
    steps: &mut Steps<L>,
) -> (Option<&'a [u8]>, Option<&'b [u8]>)
    requires { agreed ≡ agreeing_end (wire (relative_labels a.slice.now)) (wire (relative_labels b.slice.now)) }
    ensures order { key_cmp (key (relative_labels a.entry.slice.now)) (key (relative_labels b.entry.slice.now))
        ≡ option_cmp label_cmp (option_map (λ l. l.now) result.0) (option_map (λ l. l.now) result.1) }
    ensures least { steps.old ≤ steps.new }
    ensures most { steps.new ≤ steps.old + length a.entry.slice.now + length b.entry.slice.now }
    ensures labels { IfSome result.0 (λ l. length l.now ≤ length a.entry.slice.now) }
{
    let mut left = a;
    let mut right = b;
    let mut before = None;
    let mut other = None;
    while left.len() != right.len() || left.len() >= agreed {
        steps.add(1);
        if left.len() >= right.len() {
            let Some((label, next)) = left.split_first() else {
                break;
            };
            before = Some(label);
            left = next;
        } else {
            let Some((label, next)) = right.split_first() else {
                break;
            };
            other = Some(label);
            right = next;
        }
    }
    (before, other)
}

/// The order of two labels, of which none comes first. Each pair of octets that is compared is a step.
fn compare_labels<L: Ledger>(
    label: Option<&[u8]>,
    other: Option<&[u8]>,
    steps: &mut Steps<L>,
) -> Ordering
    ensures order { result ≡ option_cmp label_cmp (option_map (λ l. l.now) label.entry) (option_map (λ l. l.now) other.entry) }
    ensures least { steps.old ≤ steps.new }
    ensures most { MatchOption label.entry (steps.new ≡ steps.old) (λ l. steps.new ≤ steps.old + length l.now) }
{
    match (label, other) {
        (Some(label), Some(other)) => {
            steps.add(label.len().min(other.len()));
            compare_lowercase(label, other)
        }
        (Some(_), None) => Ordering::Greater,
        (None, Some(_)) => Ordering::Less,
        (None, None) => Ordering::Equal,
    }
}

/// The order of names, where nobody counts.
fn compare_uncounted<L: Ledger>(name: &Name<'_>, other: &Name<'_>, blank: Blank) -> Ordering
    requires name { blank.name ≡ L.name }
    requires parts { blank.parts ≡ L.parts }
    requires some { 0 < blank.parts }
    ensures { result ≡ key_cmp (key_of name.now.slice.now) (key_of other.now.slice.now) }
{
    let mut steps: Steps<L> = Steps::new(blank);
    name.cmp_counted(other, &mut steps)
}

impl Name<'_> {
    /// The order of the names, as `cmp` has it. A step is a pair of octets compared or a label type read:
    /// they are at least as many as the octets that both names' ends have in common in lowercase, and at
    /// most three for each octet of both.
    pub fn cmp_counted<L: Ledger>(&self, that: &Name<'_>, steps: &mut Steps<L>) -> Ordering
        ensures order { result ≡ key_cmp (key_of self.now.slice.now) (key_of that.now.slice.now) }
        ensures least { steps.old + agreeing_end self.now.slice.now that.now.slice.now ≤ steps.new }
        ensures most { steps.new ≤ steps.old + 3 * (length self.now.slice.now + length that.now.slice.now) }
    {
        let agreed = agreement_from_end(self.as_bytes(), that.as_bytes());
        steps.add(agreed + 1);
        let (label, other) = labels_before(self.relative(), that.relative(), agreed, steps);
        compare_labels(label, other, steps)
    }
}

impl PartialEq for Name<'_> {
    ghost eq = { eq_by_cmp (on (λ v. key_of v.slice.now) key_cmp) };

    ghost laws = { Prim.search (comparing, rules) depth 9 };

    /// Whether the labels are the same, ignoring ASCII case.
    fn eq(&self, other: &Self) -> bool {
        let octets = self.as_bytes();
        let others = other.as_bytes();
        octets.len() == others.len() && agreement_from_end(octets, others) == octets.len()
    }
}

impl Eq for Name<'_> {
    ghost laws = { Prim.search (comparing, rules) depth 9 };
}

impl Ord for Name<'_> {
    ghost cmp = { on (λ v. key_of v.slice.now) key_cmp };

    ghost total = { Prim.search (comparing, rules) depth 9 };

    ghost matches_partial_cmp = { Prim.search (comparing, rules) depth 9 };

    ghost matches_eq = { Prim.search (comparing, rules) depth 9 };

    /// Label order: labels are compared from the root on, each by lowered octets, and a proper prefix
    /// comes first.
    fn cmp(&self, other: &Self) -> Ordering {
        compare_uncounted::<Brand>(self, other, Blank::new(1))
    }
}

impl PartialOrd for Name<'_> {
    ghost partial_cmp = { as_partial_cmp (on (λ v. key_of v.slice.now) key_cmp) };

    ghost laws = { partial_order_from_own_ties (Prim.search (comparing, rules) depth 9) (Prim.search (comparing, rules) depth 9) };

    fn partial_cmp(&self, other: &Self) -> Option<Ordering> {
        Some(self.cmp(other))
    }
}

impl PartialEq for NameBuf {
    ghost eq = { eq_by_cmp (on key key_cmp) };

    ghost laws = { Prim.search (comparing, rules) depth 9 };

    /// Whether the labels are the same, ignoring ASCII case.
    fn eq(&self, other: &Self) -> bool {
        self.as_name() == other.as_name()
    }
}

impl Eq for NameBuf {
    ghost laws = { Prim.search (comparing, rules) depth 9 };
}

impl Ord for NameBuf {
    ghost cmp = { on key key_cmp };

    ghost total = { Prim.search (comparing, rules) depth 9 };

    ghost matches_partial_cmp = { Prim.search (comparing, rules) depth 9 };

    ghost matches_eq = { Prim.search (comparing, rules) depth 9 };

    /// Label order, as of the names as views.
    fn cmp(&self, other: &Self) -> Ordering {
        self.as_name().cmp(&other.as_name())
    }
}

impl PartialOrd for NameBuf {
    ghost partial_cmp = { as_partial_cmp (on key key_cmp) };

    ghost laws = { partial_order_from_own_ties (Prim.search (comparing, rules) depth 9) (Prim.search (comparing, rules) depth 9) };

    fn partial_cmp(&self, other: &Self) -> Option<Ordering> {
        Some(self.cmp(other))
    }
}
