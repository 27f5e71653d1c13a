//! Data of the further types of RFC 4034 section 6.2 in canonical form, if they are asked for, as ldns 1.8.3 writes them; of AFSDB, RT, PX,
//! NAPTR and KX dnspython 2.3.0 writes the same.

use crate::message_builder::is_pushed;
use dns_message::{CanonicalForms, HeaderFlags, MessageBuilder, read_forms, read_forms_by};
use dns_num::U16;
use dns_record::Formats;
use dns_wire::NameCompressor;
use std::alloc::{AllocError, Global};

/// The owner of the record.
const OWNER: &[u8] = b"\x04Host\x07Example\x03ORG\0";

/// The number of a type, its data with capital letters, and their canonical form.
type Case = (u16, &'static [u8], &'static [u8]);

/// Each further type with a format.
const CASES: &[Case] = &[
    // MD.
    (
        3,
        b"\x04Host\x07Example\x03ORG\0",
        b"\x04host\x07example\x03org\0",
    ),
    // MF.
    (
        4,
        b"\x04Host\x07Example\x03ORG\0",
        b"\x04host\x07example\x03org\0",
    ),
    // MB.
    (
        7,
        b"\x04Host\x07Example\x03ORG\0",
        b"\x04host\x07example\x03org\0",
    ),
    // MG.
    (
        8,
        b"\x04Host\x07Example\x03ORG\0",
        b"\x04host\x07example\x03org\0",
    ),
    // MR.
    (
        9,
        b"\x04Host\x07Example\x03ORG\0",
        b"\x04host\x07example\x03org\0",
    ),
    // MINFO.
    (
        14,
        b"\x05Admin\x07Example\x03ORG\0\x06Errors\x07Example\x03ORG\0",
        b"\x05admin\x07example\x03org\0\x06errors\x07example\x03org\0",
    ),
    // AFSDB.
    (
        18,
        b"\0\x01\x04Host\x07Example\x03ORG\0",
        b"\0\x01\x04host\x07example\x03org\0",
    ),
    // RT.
    (
        21,
        b"\0\x0a\x04Host\x07Example\x03ORG\0",
        b"\0\x0a\x04host\x07example\x03org\0",
    ),
    // SIG.
    (
        24,
        b"\0\x01\x08\x02\0\0\x0e\x10v\x80\xc4\x80c\xb0\xcd\009\x07Example\x03ORG\0\x01\x02\x03",
        b"\0\x01\x08\x02\0\0\x0e\x10v\x80\xc4\x80c\xb0\xcd\009\x07example\x03org\0\x01\x02\x03",
    ),
    // PX.
    (
        26,
        b"\02\x06Map822\x07Example\x03ORG\0\x07MapX400\x07Example\x03ORG\0",
        b"\02\x06map822\x07example\x03org\0\x07mapx400\x07example\x03org\0",
    ),
    // NXT.
    (
        30,
        b"\x04Host\x07Example\x03ORG\0`\0\0\x01",
        b"\x04host\x07example\x03org\0`\0\0\x01",
    ),
    // NAPTR.
    (
        35,
        b"\0d\02\x01S\x07SIP+D2U\x10!^Sip:(.*)$!Sip!\x04_Sip\x04_UDP\x07Example\x03ORG\0",
        b"\0d\02\x01S\x07SIP+D2U\x10!^Sip:(.*)$!Sip!\x04_sip\x04_udp\x07example\x03org\0",
    ),
    // KX.
    (
        36,
        b"\0\x0a\x04Host\x07Example\x03ORG\0",
        b"\0\x0a\x04host\x07example\x03org\0",
    ),
];

/// Names that are a pointer to the owner, or a label and a pointer to what follows the owner's first label. BIND writes MINFO so, NSD MB, MG,
/// MR and MINFO, and Knot MINFO; RFC 3597 section 4 has receivers follow pointers in the others.
const COMPRESSED: &[Case] = &[
    (3, b"\xc0\x0c", b"\x04host\x07example\x03org\0"),
    (4, b"\xc0\x0c", b"\x04host\x07example\x03org\0"),
    (7, b"\xc0\x0c", b"\x04host\x07example\x03org\0"),
    (8, b"\xc0\x0c", b"\x04host\x07example\x03org\0"),
    (9, b"\xc0\x0c", b"\x04host\x07example\x03org\0"),
    (
        14,
        b"\x01A\xc0\x11\xc0\x0c",
        b"\x01a\x07example\x03org\0\x04host\x07example\x03org\0",
    ),
    (18, b"\0\x01\xc0\x0c", b"\0\x01\x04host\x07example\x03org\0"),
    (21, b"\0\x0a\xc0\x0c", b"\0\x0a\x04host\x07example\x03org\0"),
    (
        24,
        b"\0\x01\x08\x02\0\0\x0e\x10v\x80\xc4\x80c\xb0\xcd\009\xc0\x11\x01\x02\x03",
        b"\0\x01\x08\x02\0\0\x0e\x10v\x80\xc4\x80c\xb0\xcd\009\x07example\x03org\0\x01\x02\x03",
    ),
    (
        26,
        b"\0\x32\x01A\xc0\x11\xc0\x0c",
        b"\0\x32\x01a\x07example\x03org\0\x04host\x07example\x03org\0",
    ),
    (
        30,
        b"\x01A\xc0\x11`\0\0\x01",
        b"\x01a\x07example\x03org\0`\0\0\x01",
    ),
    (
        35,
        b"\0d\02\x01S\x07SIP+D2U\x10!^Sip:(.*)$!Sip!\x04_Sip\xc0\x11",
        b"\0d\02\x01S\x07SIP+D2U\x10!^Sip:(.*)$!Sip!\x04_sip\x07example\x03org\0",
    ),
];

/// KX with a pointer to the owner, which RFC 3597 section 4 does not have receivers follow.
const COMPRESSED_KX: &[u8] = b"\0\x0a\xc0\x0c";

/// SIG data up to the signature, with a pointer to the owner for a signer.
const SIGNED: &[u8] = b"\0\x01\x08\x02\0\0\x0e\x10v\x80\xc4\x80c\xb0\xcd\009\xc0\x0c";

/// Whether the first form has these data.
fn has_data(alloc: Global, forms: &CanonicalForms, wanted: &[u8]) -> bool {
    match forms.collapsed(alloc) {
        Ok(order) => match order.forms().first() {
            Some(form) => form.data() == wanted,
            None => false,
        },
        Err(_) => false,
    }
}

/// Whether the message has one form with these data by these formats.
fn reads(alloc: Global, message: &[u8], formats: Formats, wanted: &[u8]) -> bool {
    match read_forms_by(alloc, message, formats) {
        Ok(forms) => has_data(alloc, &forms, wanted),
        Err(_) => false,
    }
}

/// Whether the usual formats give these data.
fn reads_usual(alloc: Global, message: &[u8], wanted: &[u8]) -> bool {
    match read_forms(alloc, message) {
        Ok(forms) => {
            has_data(alloc, &forms, wanted) && reads(alloc, message, Formats::Usual, wanted)
        }
        Err(_) => false,
    }
}

/// Whether data of a type are octets by the usual formats, and have this canonical form by the listed ones.
fn is_listed(alloc: Global, case: &Case) -> bool {
    let (number, data, canonical) = case;
    let mut buffer = [0; 160];
    let mut names = NameCompressor::new();
    let flags = HeaderFlags::default();
    let mut builder = MessageBuilder::new(&mut buffer, &mut names, U16::new(0), flags);
    is_pushed(&mut builder, ('a', OWNER, *number, 60, data))
        && reads_usual(alloc, builder.message().as_bytes(), data)
        && reads(
            alloc,
            builder.message().as_bytes(),
            Formats::Listed,
            canonical,
        )
}

#[test]
fn further_types_are_lowercased_if_asked_for(rt: HostRuntime) {
    for case in CASES {
        assert!(rt; is_listed(rt.alloc(), case), "{}", case.0);
    }
    for case in COMPRESSED {
        assert!(rt; is_listed(rt.alloc(), case), "{} with pointers", case.0);
    }
}

/// Whether data of a type are malformed by the listed formats.
fn is_malformed(alloc: Global, number: u16, data: &[u8]) -> bool {
    let mut buffer = [0; 160];
    let mut names = NameCompressor::new();
    let flags = HeaderFlags::default();
    let mut builder = MessageBuilder::new(&mut buffer, &mut names, U16::new(0), flags);
    is_pushed(&mut builder, ('a', OWNER, number, 60, data))
        && read_forms_by(alloc, builder.message().as_bytes(), Formats::Listed).is_err()
}

#[test]
fn pointers_are_refused_in_kx(rt: HostRuntime) {
    assert!(rt; is_malformed(rt.alloc(), 36, COMPRESSED_KX));
}

/// SIG data with a signature of that many octets.
fn signed_data(alloc: Global, size: usize) -> Result<Vec<u8>, AllocError> {
    let mut data = Vec::from_slice(alloc, SIGNED)?;
    data.resize(SIGNED.len().saturating_add(size), 7)?;
    Ok(data)
}

/// Whether a SIG record with a signature of that many octets is refused by the listed formats; none is by the usual ones.
fn is_too_long(alloc: Global, size: usize) -> Result<bool, AllocError> {
    let data = signed_data(alloc, size)?;
    let mut buffer = vec![in alloc; 0; 65_600]?;
    let mut names = NameCompressor::new();
    let flags = HeaderFlags::default();
    let mut builder = MessageBuilder::new(&mut buffer, &mut names, U16::new(0), flags);
    let pushed = is_pushed(&mut builder, ('a', OWNER, 24, 60, &data));
    let message = builder.message().as_bytes();
    Ok(
        pushed
            && read_forms(alloc, message).is_ok()
            && read_forms_by(alloc, message, Formats::Listed).is_err(),
    )
}

#[test]
fn data_of_more_octets_than_a_size_says_are_refused(rt: HostRuntime) {
    // 18 octets, a signer of 18 in full, and 65,499 of a signature are 65,535.
    assert!(rt; matches!(is_too_long(rt.alloc(), 65_499), Ok(false)));
    assert!(rt; matches!(is_too_long(rt.alloc(), 65_500), Ok(true)));
}

/// SIG and NXT end in octets of any number, and so are whole after their names.
fn ends_after(number: u16) -> usize {
    match number {
        24 => 3,
        30 => 4,
        _ => 0,
    }
}

/// Whether data that are cut at each octet are malformed data of their type, up to the cut after which they are whole.
fn are_malformed_cut(alloc: Global, number: u16, data: &[u8]) -> bool {
    let whole = data.len().saturating_sub(ends_after(number));
    for size in 0..data.len() {
        if is_malformed(alloc, number, &data[..size]) != (size < whole) {
            return false;
        }
    }
    true
}

#[test]
fn further_data_cut_at_each_octet_are_malformed(rt: HostRuntime) {
    for (number, data, _) in CASES {
        assert!(rt; are_malformed_cut(rt.alloc(), *number, data), "{number}");
    }
}
