//! EDNS options: what is iterated, compared and written.

use crate::assertions::holds;
use dns_edns::{
    EdnsOption, ExtError, ExtErrorCode, Opt, OptionCode, UnknownOptionData, UnparsedEdnsOption,
};
use dns_wire::{BuildBytes, ParseBytes};

/// A letter for an option: a client cookie, a server cookie, an extended error, other data, or data that do not
/// suit.
fn letter(item: &Result<EdnsOption<'_>, UnparsedEdnsOption<'_>>) -> u8 {
    match item {
        Ok(EdnsOption::ClientCookie(_)) => b'c',
        Ok(EdnsOption::Cookie(_)) => b's',
        Ok(EdnsOption::ExtError(_)) => b'e',
        Ok(EdnsOption::Unknown(_, _)) => b'o',
        Err(_) => b'-',
    }
}

/// Whether the octets are OPT data of just the options of these letters.
fn has_options(octets: &[u8], letters: &[u8]) -> bool {
    let Ok(opt) = Opt::parse_bytes(octets) else {
        return false;
    };
    let mut left = letters.iter();
    for item in opt.options() {
        match left.next() {
            Some(wanted) if *wanted == letter(&item) => {}
            _ => return false,
        }
    }
    left.next().is_none()
}

/// What a row is, octets of OPT data, and the letters of their options.
type Row = (&'static str, &'static [u8], &'static [u8]);

/// Where dnspython 2.3.0 and ldns 1.8.3 both read these data, they give as many options with these codes and
/// octets; they know no lengths of cookies. Cookies of 8 octets and of 16 to 40 octets suit their code (RFC 7873
/// section 4). Extended errors of fewer than two octets, or with a text that is not UTF-8, are read by ldns too, and
/// dnspython refuses the whole record.
const ROWS: [Row; 19] = [
    ("no options", b"", b""),
    ("other data", b"\0\x03\0\x02ns", b"o"),
    ("no octets", b"\0\0\0\0", b"o"),
    ("another code", b"\0\x0c\0\x04\0\0\0\0", b"o"),
    (
        "three-options",
        b"\0\x0a\0\x08\x24\x64\xc4\xab\xcf\x10\xc9\x57\0\x0a\0\x01\0\0\x0f\0\x03\0\0A",
        b"c-e",
    ),
    (
        "three kinds",
        b"\0\x0f\0\x03\0\0A\0\x0a\0\x0812345678\xff\xfe\0\0",
        b"eco",
    ),
    (
        "cookie of 8",
        b"\0\x0a\0\x08\x24\x64\xc4\xab\xcf\x10\xc9\x57",
        b"c",
    ),
    ("cookie of 16", b"\0\x0a\0\x10123456789abcdefg", b"s"),
    (
        "cookie of 40",
        b"\0\x0a\0\x28123456789abcdefg123456789abcdefg12345678",
        b"s",
    ),
    (
        "cookie of 41",
        b"\0\x0a\0\x29123456789abcdefg123456789abcdefg123456789",
        b"-",
    ),
    ("cookie of 0", b"\0\x0a\0\0", b"-"),
    ("cookie of 1", b"\0\x0a\0\x01\0", b"-"),
    (
        "cookie of 9",
        b"\0\x0a\0\x09\x24\x64\xc4\xab\xcf\x10\xc9\x57\0",
        b"-",
    ),
    ("cookie of 15", b"\0\x0a\0\x0f123456789abcdef", b"-"),
    ("error without text", b"\0\x0f\0\x02\0\0", b"e"),
    (
        "error with a NUL at its end",
        b"\0\x0f\0\x04\0\x18A\0",
        b"e",
    ),
    ("error of 0", b"\0\x0f\0\0", b"-"),
    ("error of 1", b"\0\x0f\0\x01\0", b"-"),
    ("text that is not UTF-8", b"\0\x0f\0\x03\0\0\xff", b"-"),
];

/// Those rows.
fn rows() -> &'static [Row] {
    &ROWS
}

#[test]
fn opt_data_are_iterated(rt: HostRuntime) {
    for (name, octets, letters) in rows() {
        assert!(rt; has_options(octets, letters), "{name}");
    }
}

/// Whether the octets of the options after the first of these are the rest.
fn leaves(octets: &[u8], rest: &[u8]) -> bool {
    let Ok(opt) = Opt::parse_bytes(octets) else {
        return false;
    };
    let mut left = opt.options();
    left.next().is_some() && left.remaining() == rest
}

#[test]
fn octets_of_options_remain(rt: HostRuntime) {
    let cookie = b"\0\x0a\0\x01\0\0\x0f\0\x03\0\0A";
    let rest = b"\0\x0f\0\x03\0\0A";
    holds(&rt, leaves(cookie, rest), "one of two options");
}

/// Whether the octets are OPT data of an extended error and of other data after it.
fn equals_two_options(octets: &[u8]) -> bool {
    let options = [
        EdnsOption::ExtError(ExtError::new(ExtErrorCode::OTHER, "A")),
        EdnsOption::Unknown(OptionCode::from(3), UnknownOptionData { octets: b"ns" }),
    ];
    match Opt::parse_bytes(octets) {
        Ok(opt) => opt.eq_options(&options),
        Err(_) => false,
    }
}

#[test]
fn opt_data_are_compared_with_options(rt: HostRuntime) {
    let both = b"\0\x0f\0\x03\0\0A\0\x03\0\x02ns";
    holds(&rt, equals_two_options(both), "both");
}

/// The text of an extended error that is made with this one.
fn text(given: &str) -> Option<&str> {
    ExtError::new(ExtErrorCode::INVALID_DATA, given).text()
}

/// One NUL at the end is left out (RFC 8914 section 2).
#[test]
fn extended_errors_have_their_texts(rt: HostRuntime) {
    holds(&rt, text("A\0\0") == Some("A\0"), "two of NUL");
}

/// Whether the option of these octets is written as them.
fn rewrites_option(octets: &[u8]) -> bool {
    let mut buffer = [0; 32];
    match EdnsOption::parse_bytes(octets) {
        Ok(option) => match option.build_at(&mut buffer, 0) {
            Ok(end) => buffer.get(..end) == Some(octets),
            Err(_) => false,
        },
        Err(_) => false,
    }
}

/// The octets are those that dnspython 2.3.0 writes for the same options.
#[test]
fn options_are_written(rt: HostRuntime) {
    let cases: [(&str, &[u8]); 4] = [
        ("client cookie", b"\0\x0a\0\x0812345678"),
        ("cookie", b"\0\x0a\0\x10123456789abcdefg"),
        ("extended error", b"\0\x0f\0\x03\0\x18A"),
        ("other data", b"\0\x03\0\x02ns"),
    ];
    for (name, octets) in cases {
        assert!(rt; rewrites_option(octets), "{name}");
    }
}
