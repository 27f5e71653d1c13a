//! Keys of owners, and canonical forms that are put by the parts of a record.

use crate::assertions::holds;
use dns_message::{CanonicalForms, owner_of_key};
use dns_name::NameBuf;
use dns_record::{RClass, RType, TTL};
use dns_wire::ParseBytes;
use std::alloc::Global;

/// The octets of owners, the same with capitals, and their keys: a 0 for the root and before each label, from the last on, and octets below `A`
/// one higher. They were worked out by hand.
const OWNERS: [(&[u8], &[u8], &[u8]); 9] = [
    (b"\0", b"\0", b"\0"),
    (b"\x07example\0", b"\x07EXAMPLE\0", b"\0\0example"),
    (
        b"\x01a\x07example\0",
        b"\x01A\x07Example\0",
        b"\0\0example\0a",
    ),
    (
        b"\x02ab\x07example\0",
        b"\x02aB\x07Example\0",
        b"\0\0example\0ab",
    ),
    (b"\x02\0\x1f\0", b"\x02\0\x1f\0", b"\0\0\x01\x20"),
    (b"\x01@\x00", b"\x01@\x00", b"\0\0A"),
    (b"\x02az\0", b"\x02AZ\0", b"\0\0az"),
    (b"\x01[\0", b"\x01[\0", b"\0\0["),
    (b"\x01\xff\x019\0", b"\x01\xff\x019\0", b"\0\0:\0\xff"),
];

/// What follows an owner: type 65280, class IN, a TTL of 258 seconds, and no data.
const EMPTY: &[u8] = b"\xff\0\0\x01\0\0\x01\x02\0\0";

/// The canonical form of an empty record of type 65280 at this owner: its owner, its key and its octets are these.
fn is_form(alloc: Global, owner: &[u8], key: &[u8], octets: &[u8]) -> bool {
    let mut forms = CanonicalForms::new(alloc);
    let Ok(name) = NameBuf::parse_bytes(owner) else {
        return false;
    };
    let pushed = forms.push_parts(&name, RType::from(65_280), RClass::IN, TTL::from(258), &[]);
    let is_first = match forms.first() {
        Some(form) => {
            form.owner_key() == key
                && form.owner().as_bytes() == octets
                && &form.octets()[octets.len()..] == EMPTY
        }
        None => false,
    };
    forms.clear();
    pushed.is_ok() && is_first && forms.first().is_none() && forms.is_empty()
}

#[test]
fn keys_of_owners(rt: HostRuntime) {
    for (octets, capitals, key) in OWNERS {
        let read = match owner_of_key(key) {
            Some(owner) => owner.as_name().as_bytes() == octets,
            None => false,
        };
        holds(&rt, read, "the owner of a key");
        let is_form = is_form(rt.alloc(), capitals, key, octets);
        holds(&rt, is_form, "the form of a record");
    }
    holds(&rt, owner_of_key(b"").is_none(), "no octets");
    let long = [0; 256];
    holds(&rt, owner_of_key(&long).is_none(), "256 octets");
    let label = [b'a'; 66];
    holds(&rt, owner_of_key(&label).is_none(), "a label of 65 octets");
}
