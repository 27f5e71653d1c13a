//! Bitmaps of types.

use dns_nsec::TypeBitmaps;
use dns_wire::ParseBytes;

/// The bitmap of RFC 4034 section 4.3.
const FIVE_TYPES: &[u8] =
    b"\0\x06\x40\x01\0\0\0\x03\x04\x1b\0\0\0\0\0\0\0\0\0\0\0\0\0\0\0\0\0\0\0\0\0\0\0\0\0\0\x20";

/// A bitmap of the last type alone.
const LAST_TYPE: &[u8] =
    b"\xff\x20\0\0\0\0\0\0\0\0\0\0\0\0\0\0\0\0\0\0\0\0\0\0\0\0\0\0\0\0\0\0\0\x01";

/// Whether the octets are a bitmap of just these types, in this order.
fn has_types(octets: &[u8], wanted: &[u16]) -> bool {
    let Ok(bitmaps) = TypeBitmaps::parse_bytes(octets) else {
        return false;
    };
    let mut left = wanted.iter();
    for rtype in bitmaps.types() {
        match left.next() {
            Some(code) if *code == rtype.code.get() => {}
            _ => return false,
        }
    }
    left.next().is_none()
}

/// What a row is, a bitmap and its types.
type Row = (&'static str, &'static [u8], &'static [u16]);

/// The bitmap of RFC 4034 section 4.3, that of the apex in RFC 5155 appendix A, and what dnspython writes of the types of
/// the others.
const ROWS: [Row; 7] = [
    ("five-types-in-a-bitmap", FIVE_TYPES, &[1, 15, 46, 47, 1234]),
    (
        "RFC 5155",
        b"\0\x07\x22\x01\0\0\0\x02\x90",
        &[2, 6, 15, 46, 48, 51],
    ),
    ("no types", b"", &[]),
    ("A", b"\0\x01\x40", &[1]),
    ("256", b"\x01\x01\x80", &[256]),
    (
        "ten types",
        b"\0\x07\x62\x01\x80\x08\0\x03\x80\x01\x01\x40",
        &[1, 2, 6, 15, 16, 28, 46, 47, 48, 257],
    ),
    ("65535", LAST_TYPE, &[65_535]),
];

/// Those rows.
fn rows() -> &'static [Row] {
    &ROWS
}

#[test]
fn bitmaps_have_their_types(rt: HostRuntime) {
    for (name, octets, types) in rows() {
        assert!(rt; has_types(octets, types), "{name}");
    }
}
