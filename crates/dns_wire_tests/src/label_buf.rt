//! Labels that own their octets.

use crate::holds::all_hold;
use dns_label::LabelBuf;

/// Whether octets are appended, and letters become lowercase.
fn is_appended() -> bool {
    let mut label = LabelBuf::new();
    let is_ok = label.append(b"eXAM").is_ok() && label.push(b'P').is_ok();
    label.make_lowercase();
    is_ok && label.as_label().as_wire() == b"\x05examp".as_slice()
}

#[test]
fn labels_are_appended_to(rt: HostRuntime) {
    all_hold(&rt, &[("five letters", is_appended())]);
}
