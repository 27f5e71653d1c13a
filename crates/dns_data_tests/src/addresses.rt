//! Texts of addresses. What is read and printed, and what is refused, is as Python's `ipaddress` and `inet_pton`
//! and `inet_ntop` of glibc have it, except for the forms with dots and for scopes.

use crate::printed_texts::prints;
use dns_plain::{A, Aaaa, AddrParseError};
use std::alloc::Global;
use std::str::FromStr;

/// The text of a row, and what is printed of its address; nothing where it is none.
fn parts_of(row: &str) -> (&str, &str) {
    let mut parts = row.split('=');
    (parts.next().unwrap_or("?"), parts.next().unwrap_or("?"))
}

/// Whether the text is an IPv6 address that is printed so, or no address if nothing is printed.
fn prints_long(alloc: Global, text: &str, printed: &str) -> bool {
    match Aaaa::from_str(text) {
        Ok(address) => prints(alloc, &address, printed),
        Err(AddrParseError) => printed.is_empty(),
    }
}

/// The same of a row, where what is printed is read as the same address.
fn prints_long_row(alloc: Global, row: &str) -> bool {
    let (text, printed) = parts_of(row);
    prints_long(alloc, text, printed) && prints_long(alloc, printed, printed)
}

/// A row is a text and what is printed of its IPv6 address; nothing where it is none.
const LONG: &str = "::=::
::1=::1
1::=1::
2001:db8::1=2001:db8::1
2001:DB8:0:0:0:0:0:1=2001:db8::1
2001:0db8:0000:0000:0000:0000:0000:0001=2001:db8::1
1:2:3:4:5:6:7:8=1:2:3:4:5:6:7:8
::2:3:4:5:6:7:8=0:2:3:4:5:6:7:8
1:2:3:4:5:6:7::=1:2:3:4:5:6:7:0
2001:db8:0:1:1:1:1:1=2001:db8:0:1:1:1:1:1
2001:db8::1:0:0:1=2001:db8::1:0:0:1
2001:0:0:1:0:0:0:1=2001:0:0:1::1
::ffff:c000:201=::ffff:c000:201
fe80::1:0:0:0=fe80::1:0:0:0
0:0:1::=0:0:1::
FFFF:ABCD::=ffff:abcd::
0:1:0:1:0:1:0:1=0:1:0:1:0:1:0:1
a:0:0:b:0:0:c:d=a::b:0:0:c:d
=
1=
:=
:::=
1::2::3=
1:2:3:4:5:6:7=
1:2:3:4:5:6:7:8:9=
1:2:3:4:5:6:7:8::=
::1:2:3:4:5:6:7:8=
12345::=
g::=
:1::=
1:=
1:::2=
 ::1=
::1 =
::1%1=
[::1]=
::/0=
+1::=
::-1=
0x1::=
::ffff:192.0.2.1=
::1.2.3.4=";

#[test]
fn long_addresses_are_printed(rt: HostRuntime) {
    for row in LONG.split('\n') {
        assert!(rt; prints_long_row(rt.alloc(), row), "address-texts: {row}");
    }
}

/// Whether the text of a row is an IPv4 address that is printed so, or no address if nothing is printed.
fn prints_row(alloc: Global, row: &str) -> bool {
    let (text, printed) = parts_of(row);
    match A::from_str(text) {
        Ok(address) => prints(alloc, &address, printed),
        Err(AddrParseError) => printed.is_empty(),
    }
}

/// A row is a text and what is printed of its IPv4 address; nothing where it is none.
const SHORT: &str = "0.0.0.0=0.0.0.0
255.255.255.255=255.255.255.255
192.0.2.1=192.0.2.1
10.20.30.40=10.20.30.40
1.0.0.9=1.0.0.9
=
1=
1.2.3=
1.2.3.4.5=
01.2.3.4=
1.2.3.00=
256.1.1.1=
1.2.3.1000=
1..3.4=
.1.2.3=
1.2.3.4.=
 1.2.3.4=
1.2.3.4 =
+1.2.3.4=
1.2.3.-4=
0x1.2.3.4=
1.2.3.a=
1,2,3,4=";

#[test]
fn addresses_are_printed(rt: HostRuntime) {
    for row in SHORT.split('\n') {
        assert!(rt; prints_row(rt.alloc(), row), "address-texts: {row}");
    }
}

/// Whether the text is an address of these octets: of IPv4 if there are four.
fn has_octets(text: &str, octets: &[u8]) -> bool {
    if octets.len() == 4 {
        match A::from_str(text) {
            Ok(address) => address.octets.as_slice() == octets,
            Err(AddrParseError) => false,
        }
    } else {
        match Aaaa::from_str(text) {
            Ok(address) => address.octets.as_slice() == octets,
            Err(AddrParseError) => false,
        }
    }
}

/// The octets of 192.0.2.65 and 2001:db8::41 are those that dnspython 2.3.0 wrote.
#[test]
fn octets_of_addresses(rt: HostRuntime) {
    let cases: [(&str, &[u8]); 5] = [
        ("192.0.2.1", b"\xc0\0\x02\x01"),
        ("192.0.2.65", b"\xc0\0\x02A"),
        ("2001:db8::1", b"\x20\x01\x0d\xb8\0\0\0\0\0\0\0\0\0\0\0\x01"),
        ("2001:db8::41", b"\x20\x01\x0d\xb8\0\0\0\0\0\0\0\0\0\0\0A"),
        (
            "::ffff:c000:201",
            b"\0\0\0\0\0\0\0\0\0\0\xff\xff\xc0\0\x02\x01",
        ),
    ];
    for (text, octets) in cases {
        assert!(rt; has_octets(text, octets), "address-texts: {text}");
    }
}
