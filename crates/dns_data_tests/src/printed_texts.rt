//! What values and errors are printed as.

use dns_edns::{ClientCookie, CookieError};
use dns_plain::AddrParseError;
use dns_sec::Timestamp;
use std::alloc::Global;
use std::fmt::Display;

/// Whether the value is printed so.
pub(crate) fn prints<T: Display>(alloc: Global, value: &T, printed: &str) -> bool {
    match value.to_string(alloc) {
        Ok(text) => text.as_str() == printed,
        Err(_) => false,
    }
}

/// Whether the value of this name is printed so.
fn prints_value(alloc: Global, name: &str, printed: &str) -> bool {
    match name {
        "client cookie" => {
            let client = ClientCookie::from(*b"\x24\x64\xc4\xab\xcf\x10\xc9\x57");
            prints(alloc, &client, printed)
        }
        "timestamp" => prints(alloc, &Timestamp::from(4_294_967_295), printed),
        "cookie error" => prints(alloc, &CookieError, printed),
        _ => prints(alloc, &AddrParseError, printed),
    }
}

/// A client cookie is printed in capitals, and a timestamp in decimal.
#[test]
fn values_are_printed(rt: HostRuntime) {
    let cases = [
        ("client cookie", "2464C4ABCF10C957"),
        ("timestamp", "4294967295"),
        ("cookie error", "A DNS cookie could not be verified"),
        ("address error", "the address could not be read"),
    ];
    for (name, printed) in cases {
        assert!(rt; prints_value(rt.alloc(), name, printed), "{name}");
    }
}
