//! Cookies, as servers give and take them.

ghost use Rattle.std.specs.Prelude.{◌≡◌, ◌∷◌, []};

use crate::assertions::holds;
use crate::sip_hash::SipHash;
use dns_edns::{Address, ClientCookie, Cookie, KeyedHash};
use dns_record::Serial;
use dns_wire::ParseBytes;

/// The secret of RFC 9018 appendices A.1 to A.3.
const SECRET: [u8; 16] = *b"\xe5\xe9\x73\xe5\xa6\xb2\xa4\x3f\x48\xe7\xdc\x84\x9e\x37\xbf\xcf";

/// The secret of RFC 9018 appendix A.4 before the change.
const OLD_SECRET: [u8; 16] = *b"\xdd\x3b\xdf\x93\x44\xb6\x78\xb1\x85\xa6\xf5\xcb\x60\xfc\xa7\x15";

/// The secret of RFC 9018 appendix A.4 after the change.
const NEW_SECRET: [u8; 16] = *b"\x44\x55\x36\xbc\xd2\x51\x32\x98\x07\x5a\x5d\x37\x96\x63\xc9\x62";

/// The cookie of the client of RFC 9018 appendices A.1 and A.2.
const CLIENT: [u8; 8] = *b"\x24\x64\xc4\xab\xcf\x10\xc9\x57";

/// The cookie of the client of RFC 9018 appendix A.4.
const OTHER_CLIENT: [u8; 8] = *b"\x22\x68\x1a\xb9\x7d\x52\xc2\x98";

/// The address of the client in RFC 9018 appendices A.1 and A.2.
const HERE: Address = Address::V4([198, 51, 100, 100]);

/// The address of the client in RFC 9018 appendix A.3.
const ELSEWHERE: Address = Address::V4([203, 0, 113, 203]);

/// The address of the client in RFC 9018 appendix A.4.
const FAR: Address = Address::V6(
    *b"\x20\x01\x0d\xb8\x02\x20\0\x01\x59\xde\xd0\xf4\x87\x69\x82\xb8",
);

/// The address of the client in the cookies of BIND.
const OF_BIND: Address = Address::V4([127, 0, 0, 1]);

/// The address of the client in the cookies of NSD.
const OF_NSD: Address = Address::V6([0, 0, 0, 0, 0, 0, 0, 0, 0, 0, 0, 0, 0, 0, 0, 1]);

/// The cookie that is given to the client at this address, under this secret, at this moment.
fn given(client: [u8; 8], address: Address, secret: &[u8; 16], time: u32) -> Option<[u8; 24]> {
    let mut octets = [0; 24];
    let client = ClientCookie::from(client);
    let is_given = client
        .respond_into(address, secret, Serial::new(time), &SipHash, &mut octets)
        .is_ok();
    is_given.then_some(octets)
}

/// Whether these octets are a cookie that is taken at an address, under a secret, from a moment up to another.
fn takes(octets: &[u8], address: Address, secret: &[u8; 16], from: u32, until: u32) -> bool {
    match Cookie::parse_bytes(octets) {
        Ok(cookie) => cookie
            .verify(
                address,
                secret,
                Serial::new(from),
                Serial::new(until),
                &SipHash,
            )
            .is_ok(),
        Err(_) => false,
    }
}

/// Where a case is from, the client's cookie and address, the server's secret, the moment, and the hash that the
/// server's cookie ends with.
type Exchange = (&'static str, [u8; 8], Address, [u8; 16], u32, [u8; 8]);

/// Whether the cookie that is given ends with the hash, and is taken at its address and under its secret alone.
fn gives(case: Exchange) -> bool {
    let (_, client, address, secret, from, hash) = case;
    let until = from.wrapping_add(1);
    match given(client, address, &secret, from) {
        Some(octets) => {
            octets.starts_with(&client)
                && octets.ends_with(&hash)
                && takes(&octets, address, &secret, from, until)
                && !takes(&octets, ELSEWHERE, &secret, from, until)
                && !takes(&octets, address, &[0; 16], from, until)
        }
        None => false,
    }
}

/// RFC 9018 appendices A.1, A.2 and A.4, and what BIND 9.18.49 and NSD 4.6.1 gave over the loopback interface.
const EXCHANGES: [Exchange; 6] = [
    (
        "appendix A.1",
        CLIENT,
        HERE,
        SECRET,
        1_559_731_985,
        *b"\x1f\x81\x30\xc3\xee\xe2\x94\x80",
    ),
    (
        "appendix A.2",
        CLIENT,
        HERE,
        SECRET,
        1_559_734_385,
        *b"\xd4\xa5\x64\xa1\x44\x2a\xca\x77",
    ),
    (
        "appendix A.4, old secret",
        OTHER_CLIENT,
        FAR,
        OLD_SECRET,
        1_559_741_817,
        *b"\x26\x55\x6b\xd0\x93\x4c\x72\xf8",
    ),
    (
        "appendix A.4, new secret",
        OTHER_CLIENT,
        FAR,
        NEW_SECRET,
        1_559_741_961,
        *b"\xa6\xbb\x79\xd1\x66\x25\x50\x7a",
    ),
    (
        "BIND",
        CLIENT,
        OF_BIND,
        SECRET,
        1_795_782_031,
        *b"\x70\xae\x14\xf7\xb6\x26\xf5\x22",
    ),
    (
        "NSD",
        [1, 2, 3, 4, 5, 6, 7, 8],
        OF_NSD,
        NEW_SECRET,
        1_795_782_030,
        *b"\x25\x88\xcc\xfa\xd3\x70\x1c\xda",
    ),
];

/// Those cases.
fn exchanges() -> &'static [Exchange] {
    &EXCHANGES
}

#[test]
fn cookies_are_given_as_others_give_them(rt: HostRuntime) {
    for case in exchanges() {
        let name = case.0;
        assert!(rt; gives(*case), "{name}");
    }
}

/// Whether this number of octets of the cookie of RFC 9018 appendix A.3 and an octet after it, with this version, is
/// taken at its address, under its secret and in its time.
fn takes_reserved(size: usize, version: u8) -> bool {
    let mut octets =
        *b"\xfc\x93\xfc\x62\x80\x7d\xdb\x86\x01\xab\xcd\xef\x5c\xf7\x8f\x71\xa3\x14\x22\x7b\x66\x79\xeb\xf5\0";
    octets[8] = version;
    match octets.get(..size) {
        Some(start) => takes(start, ELSEWHERE, &SECRET, 1_559_727_985, 1_559_731_985),
        None => false,
    }
}

/// RFC 9018 appendix A.3: the reserved octets are not looked at, but the hash is over them. Then with fewer octets or
/// one more, and with another version.
#[test]
fn reserved_octets_are_taken_as_they_are(rt: HostRuntime) {
    let cases = [
        (16, 1, false),
        (23, 1, false),
        (24, 1, true),
        (25, 1, false),
        (24, 2, false),
    ];
    for (size, version, wanted) in cases {
        assert!(rt;
            takes_reserved(size, version) == wanted,
            "{size} octets of version {version}"
        );
    }
}

/// The client's cookie, the version and the moment in a cookie.
fn parts(octets: &[u8]) -> Option<([u8; 8], u8, u32)> {
    match Cookie::parse_bytes(octets) {
        Ok(cookie) => Some((
            <[u8; 8]>::from(cookie.request()),
            cookie.version(),
            cookie.timestamp().get(),
        )),
        Err(_) => None,
    }
}

#[test]
fn cookies_have_their_parts(rt: HostRuntime) {
    let octets = b"\x24\x64\xc4\xab\xcf\x10\xc9\x57\x02\0\0\0\x5c\xf7\x9f\x11";
    let wanted = Some((CLIENT, 2, 1_559_731_985));
    holds(&rt, parts(octets) == wanted, "parts");
}

/// A hash that is zero whatever the octets.
struct Zeros;

impl KeyedHash for Zeros {
    ghost keyed = { λ _ _ _. 0 ∷ 0 ∷ 0 ∷ 0 ∷ 0 ∷ 0 ∷ 0 ∷ 0 ∷ [] };

    fn hash(&self, _secret: &[u8; 16], _input: &[u8]) -> [u8; 8] {
        [0; 8]
    }
}

/// The moment of the cookie of RFC 9018 appendix A.1.
const MOMENT: u32 = 1_559_731_985;

/// The cookie that is given at that moment if the hash is zero.
const OF_ZEROS: &[u8] =
    b"\x24\x64\xc4\xab\xcf\x10\xc9\x57\x01\0\0\0\x5c\xf7\x9f\x11\0\0\0\0\0\0\0\0";

/// Whether that cookie is given into the octets.
fn responds_with_zeros(octets: &mut [u8]) -> bool {
    ClientCookie::from(CLIENT)
        .respond_into(HERE, &SECRET, Serial::new(MOMENT), &Zeros, octets)
        .is_ok()
}

/// Whether that cookie is taken from its moment up to another.
fn takes_zeros(until: u32) -> bool {
    let (from, until) = (Serial::new(MOMENT), Serial::new(until));
    match Cookie::parse_bytes(OF_ZEROS) {
        Ok(cookie) => cookie.verify(HERE, &SECRET, from, until, &Zeros).is_ok(),
        Err(_) => false,
    }
}

#[test]
fn cookie_of_eight_zeros(rt: HostRuntime) {
    let mut octets = [0; 24];
    let is_given = responds_with_zeros(&mut octets) && octets.as_slice() == OF_ZEROS;
    holds(&rt, is_given, "cookie-of-eight-zeros: 24 octets");
    let is_refused = !responds_with_zeros(&mut octets[..23]);
    holds(&rt, is_refused, "cookie-of-eight-zeros: 23 octets");
    let is_taken = takes_zeros(MOMENT + 1);
    holds(&rt, is_taken, "cookie-of-eight-zeros: in time");
    let is_refused = !takes_zeros(MOMENT);
    holds(&rt, is_refused, "cookie-of-eight-zeros: too late");
}
