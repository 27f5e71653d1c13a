//! Names from the root on.

use crate::assertion::holds;
use crate::names::name;
use dns_name::{CanonicalName, NameBuf, RevNameBuf};

/// Whether the octets of the name from the root on are these.
fn reverses(octets: &[u8], reversed: &[u8]) -> bool {
    name(octets).to_revname().as_revname().as_bytes() == reversed
}

/// Whether the name is the same after it is turned twice.
fn turns_back(octets: &[u8]) -> bool {
    let reversed = RevNameBuf::from(NameBuf::copy_from(name(octets)));
    NameBuf::from(reversed).as_name().as_bytes() == octets
}

#[test]
fn turns_names(rt: HostRuntime) {
    let octets = b"\x07example\x03com\0";
    let reversed = b"\0\x03com\x07example";
    holds(&rt, reverses(octets, reversed), "reversed-octets");
    holds(&rt, turns_back(octets), "reversed-octets, and back");
}

/// How many of 100 octets are left after the name in lowercase, which these are.
fn lowercased<T: CanonicalName>(name: &T, octets: &[u8]) -> Option<usize> {
    let mut buffer = [b'.'; 100];
    let left = match name.build_lowercased_bytes(&mut buffer) {
        Ok(rest) => rest.len(),
        Err(_) => return None,
    };
    if buffer.starts_with(octets) {
        Some(left)
    } else {
        None
    }
}

/// Canonical form (RFC 4034 section 6.2).
#[test]
fn lowercased_into_100(rt: HostRuntime) {
    let name = name(b"\x01E\x03com\0");
    let wanted = b"\x01e\x03com\0";
    holds(
        &rt,
        lowercased(&name, wanted) == Some(93),
        "lowercased-into-100",
    );
    holds(
        &rt,
        lowercased(&name.to_revname(), wanted) == Some(93),
        "lowercased-into-100, from the root on",
    );
}
