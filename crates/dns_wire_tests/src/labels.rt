//! Labels that are too long, and labels one after another.

use crate::holds::all_hold;
use dns_label::{Label, LabelIter};
use dns_wire::SplitBytes;

/// Whether the octets begin with no label.
fn is_no_label(octets: &[u8]) -> bool {
    Label::split_bytes(octets).is_err()
}

#[test]
fn labels_of_64_octets_are_refused(rt: HostRuntime) {
    let mut octets = [b'a'; 65];
    octets[0] = 64;
    all_hold(&rt, &[("label-64-refused", is_no_label(&octets))]);
}

/// The lengths of the labels, a digit each.
fn lengths(labels: LabelIter<'_>) -> u64 {
    let mut all = 0u64;
    for label in labels {
        let length = label.contents().len() as u64;
        all = all.wrapping_mul(10).wrapping_add(length);
    }
    all
}

/// The lengths of the labels that the octets are.
fn lengths_of(octets: &[u8]) -> Option<u64> {
    if !LabelIter::are_labels(octets) {
        return None;
    }
    Some(lengths(LabelIter::new(octets)))
}

#[test]
fn labels_come_one_after_another(rt: HostRuntime) {
    all_hold(
        &rt,
        &[
            ("a name", lengths_of(b"\x03www\x02ab\0") == Some(320)),
            ("a pointer", lengths_of(b"\x01a\xc0\x0c").is_none()),
        ],
    );
}
