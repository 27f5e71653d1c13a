//! The order of labels: by their octets in lowercase (RFC 4034 section 6.1).

ghost use Rattle.std.specs.Prelude.{◌≡◌};
ghost use Rattle.std.proofs.Common.{rules};
ghost use Rattle.std.specs.Cmp.{partial_order_from_own_ties};
ghost use Rattle.std.specs.Cmp.Rules.{comparing};
ghost use Rattle.std.specs.Ordering.{on, as_partial_cmp, eq_by_cmp};
ghost use Rattle.dns_label.specs.Labels.{contents_of};
ghost use Rattle.dns_label.specs.Order.{label_cmp};

use crate::label::Label;
use crate::label_buf::LabelBuf;
use dns_wire::compare_lowercase;
use std::cmp::Ordering;

impl PartialEq for Label<'_> {
    ghost eq = { eq_by_cmp (on (λ v. contents_of v.slice.now) label_cmp) };

    ghost laws = { Prim.search (comparing, rules) depth 9 };

    /// Whether the contents are the same, ignoring ASCII case.
    fn eq(&self, other: &Self) -> bool {
        self.contents().eq_ignore_ascii_case(other.contents())
    }
}

impl Eq for Label<'_> {
    ghost laws = { Prim.search (comparing, rules) depth 9 };
}

impl Ord for Label<'_> {
    ghost cmp = { on (λ v. contents_of v.slice.now) label_cmp };

    ghost total = { Prim.search (comparing, rules) depth 9 };

    ghost matches_partial_cmp = { Prim.search (comparing, rules) depth 9 };

    ghost matches_eq = { Prim.search (comparing, rules) depth 9 };

    /// By octets in lowercase; a proper prefix comes first.
    fn cmp(&self, other: &Self) -> Ordering {
        compare_lowercase(self.contents(), other.contents())
    }
}

impl PartialOrd for Label<'_> {
    ghost partial_cmp = { as_partial_cmp (on (λ v. contents_of v.slice.now) label_cmp) };

    ghost laws = { partial_order_from_own_ties (Prim.search (comparing, rules) depth 9) (Prim.search (comparing, rules) depth 9) };

    fn partial_cmp(&self, other: &Self) -> Option<Ordering> {
        Some(self.cmp(other))
    }
}

impl PartialEq for LabelBuf {
    ghost eq = { eq_by_cmp label_cmp };

    ghost laws = { Prim.search (comparing, rules) depth 9 };

    /// Whether the contents are the same, ignoring ASCII case.
    fn eq(&self, other: &Self) -> bool {
        self.as_label() == other.as_label()
    }
}

impl Eq for LabelBuf {
    ghost laws = { Prim.search (comparing, rules) depth 9 };
}

impl Ord for LabelBuf {
    ghost cmp = { label_cmp };

    ghost total = { Prim.search (comparing, rules) depth 9 };

    ghost matches_partial_cmp = { Prim.search (comparing, rules) depth 9 };

    ghost matches_eq = { Prim.search (comparing, rules) depth 9 };

    /// The order of the labels as views.
    fn cmp(&self, other: &Self) -> Ordering {
        self.as_label().cmp(&other.as_label())
    }
}

impl PartialOrd for LabelBuf {
    ghost partial_cmp = { as_partial_cmp label_cmp };

    ghost laws = { partial_order_from_own_ties (Prim.search (comparing, rules) depth 9) (Prim.search (comparing, rules) depth 9) };

    fn partial_cmp(&self, other: &Self) -> Option<Ordering> {
        Some(self.cmp(other))
    }
}
