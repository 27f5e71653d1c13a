//! Types and classes of records: their printed text, and the types whose names are in lowercase in canonical form.

use crate::assertion::holds;
use crate::printing::prints;
use dns_record::{RClass, RType};

/// Types by their numbers, and what they print.
const TYPES: &[(u16, &str)] = &[
    (1, "A"),
    (2, "NS"),
    (5, "CNAME"),
    (6, "SOA"),
    (12, "PTR"),
    (13, "HINFO"),
    (15, "MX"),
    (16, "TXT"),
    (17, "RP"),
    (28, "AAAA"),
    (33, "SRV"),
    (39, "DNAME"),
    (41, "OPT"),
    (43, "DS"),
    (46, "RRSIG"),
    (47, "NSEC"),
    (48, "DNSKEY"),
    (50, "NSEC3"),
    (51, "NSEC3PARAM"),
    (59, "CDS"),
    (60, "CDNSKEY"),
    (63, "ZONEMD"),
    (250, "TSIG"),
    (0, "TYPE0"),
    (65535, "TYPE65535"),
];

/// The names that IANA lists, those of RFC 1035 and RFC 1183, those of later RFCs, and numbers without a name as
/// RFC 3597 section 5 writes them.
#[test]
fn prints_types(rt: HostRuntime) {
    for (number, text) in TYPES {
        assert!(rt; prints(rt.alloc(), &RType::from(*number), text), "{text}");
    }
}

/// Classes by their numbers, and what they print.
const CLASSES: &[(u16, &str)] = &[(1, "IN"), (3, "CH"), (2, "CLASS2"), (65535, "CLASS65535")];

#[test]
fn prints_classes(rt: HostRuntime) {
    for (number, text) in CLASSES {
        assert!(rt; prints(rt.alloc(), &RClass::from(*number), text), "{text}");
    }
    holds(&rt, prints(rt.alloc(), &RClass::CH, "CH"), "the constant");
}

/// Numbers without a name.
#[test]
fn unknown_codes_are_shown(rt: HostRuntime) {
    let rtype = prints(rt.alloc(), &RType::from(265), "TYPE265");
    holds(&rt, rtype, "unknown-codes-shown: a type");
    let rclass = prints(rt.alloc(), &RClass::from(42), "CLASS42");
    holds(&rt, rclass, "unknown-codes-shown: a class");
}

/// Whether names in data of the type are in lowercase in canonical form.
fn is_lowercase(number: u16) -> bool {
    RType::from(number).uses_lowercase_canonical_form()
}

/// The numbers of RFC 1035 section 3.2.2 and its successors, and the list of RFC 4034 section 6.2 as RFC
/// 6840 section 5.1 corrects it.
#[test]
fn nine_types_have_lowercase_names(rt: HostRuntime) {
    let nine = [2, 5, 6, 12, 15, 17, 33, 39, 46];
    for number in 0..=300 {
        assert!(rt; is_lowercase(number) == nine.contains(&number), "{number}");
    }
}
