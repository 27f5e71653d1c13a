//! The order of names from the root on, which is that of names in the other layout: by labels from the root
//! on, each in lowercase (RFC 4034 section 6.1).

ghost use Rattle.std.specs.Prelude.{◌≡◌, ◌∷◌, length};
ghost use Rattle.std.proofs.Common.{rules};
ghost use Rattle.std.specs.Cmp.{partial_order_from_own_ties};
ghost use Rattle.std.specs.Cmp.Rules.{comparing};
ghost use Rattle.std.specs.Ordering.{on, as_partial_cmp, eq_by_cmp};
ghost use Rattle.dns_wire.specs.Agreement.{agreeing_prefix};
ghost use Rattle.dns_wire.specs.Names.{lowered};
ghost use Rattle.dns_wire.specs.Reversed.{relative_labels, reversed_name_labels};
ghost use Rattle.dns_label.specs.Order.{label_cmp};
ghost use Rattle.dns_name.specs.Order.{key, key_cmp};

use crate::relative_name::RelativeName;
use crate::rev_name::RevName;
use crate::rev_name_buf::RevNameBuf;
use dns_wire::{agreement_from_start, compare_agreed, compare_lowercase};
use std::cmp::Ordering;

/// The order of two labels. Of their octets as they are written, the octet of their size first, `agreed` agree, and no more.
fn compare_labels(label: &[u8], other: &[u8], agreed: usize) -> Ordering
    requires { agreed ≡ agreeing_prefix (length label.now ∷ label.now) (length other.now ∷ other.now) }
    ensures { result ≡ label_cmp label.now other.now }
{
    if agreed == 0 {
        compare_lowercase(label, other)
    } else {
        compare_agreed(label, other, agreed - 1)
    }
}

/// The order of labels one after another, each in lowercase. The first that differ decide, and fewer
/// labels come first. Labels that lie whole within the octets that agree are passed over.
fn compare_relative(a: RelativeName<'_>, b: RelativeName<'_>) -> Ordering
    ensures { result ≡ key_cmp (lowered (relative_labels a.entry.slice.now)) (lowered (relative_labels b.entry.slice.now)) }
{
    let mut agreed = agreement_from_start(a.slice, b.slice);
    let mut left = a;
    let mut right = b;
    while let Some((label, next)) = left.split_first() {
        let Some((other, last)) = right.split_first() else {
            return Ordering::Greater;
        };
        if agreed <= label.len() {
            return compare_labels(label, other, agreed);
        }
        agreed -= 1 + label.len();
        left = next;
        right = last;
    }
    if right.split_first().is_none() {
        Ordering::Equal
    } else {
        Ordering::Less
    }
}

impl PartialEq for RevName<'_> {
    ghost eq = { eq_by_cmp (on (λ v. key (reversed_name_labels v.slice.now)) key_cmp) };

    ghost laws = { Prim.search (comparing, rules) depth 9 };

    /// Whether the labels are the same, ignoring ASCII case.
    fn eq(&self, other: &Self) -> bool {
        let octets = self.as_bytes();
        let others = other.as_bytes();
        octets.len() == others.len() && agreement_from_start(octets, others) == octets.len()
    }
}

impl Eq for RevName<'_> {
    ghost laws = { Prim.search (comparing, rules) depth 9 };
}

impl Ord for RevName<'_> {
    ghost cmp = { on (λ v. key (reversed_name_labels v.slice.now)) key_cmp };

    ghost total = { Prim.search (comparing, rules) depth 9 };

    ghost matches_partial_cmp = { Prim.search (comparing, rules) depth 9 };

    ghost matches_eq = { Prim.search (comparing, rules) depth 9 };

    /// Label order: labels are compared from the root on, each by lowered octets, and a proper prefix
    /// comes first.
    fn cmp(&self, other: &Self) -> Ordering {
        compare_relative(self.relative(), other.relative())
    }
}

impl PartialOrd for RevName<'_> {
    ghost partial_cmp = { as_partial_cmp (on (λ v. key (reversed_name_labels v.slice.now)) key_cmp) };

    ghost laws = { partial_order_from_own_ties (Prim.search (comparing, rules) depth 9) (Prim.search (comparing, rules) depth 9) };

    fn partial_cmp(&self, other: &Self) -> Option<Ordering> {
        Some(self.cmp(other))
    }
}

impl PartialEq for RevNameBuf {
    ghost eq = { eq_by_cmp (on key key_cmp) };

    ghost laws = { Prim.search (comparing, rules) depth 9 };

    /// Whether the labels are the same, ignoring ASCII case.
    fn eq(&self, other: &Self) -> bool {
        self.as_revname() == other.as_revname()
    }
}

impl Eq for RevNameBuf {
    ghost laws = { Prim.search (comparing, rules) depth 9 };
}

impl Ord for RevNameBuf {
    ghost cmp = { on key key_cmp };

    ghost total = { Prim.search (comparing, rules) depth 9 };

    ghost matches_partial_cmp = { Prim.search (comparing, rules) depth 9 };

    ghost matches_eq = { Prim.search (comparing, rules) depth 9 };

    /// Label order, as of the names as views.
    fn cmp(&self, other: &Self) -> Ordering {
        self.as_revname().cmp(&other.as_revname())
    }
}

impl PartialOrd for RevNameBuf {
    ghost partial_cmp = { as_partial_cmp (on key key_cmp) };

    ghost laws = { partial_order_from_own_ties (Prim.search (comparing, rules) depth 9) (Prim.search (comparing, rules) depth 9) };

    fn partial_cmp(&self, other: &Self) -> Option<Ordering> {
        Some(self.cmp(other))
    }
}
