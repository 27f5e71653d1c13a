//! Record data of each type, as other software writes them.

/// The number of a type, octets of its data, and their canonical octets.
pub(crate) type Case = (u16, &'static [u8], &'static [u8]);

/// In the order of types and canonical octets. `to_wire` and `to_digestable` of dnspython 2.3.0 wrote the octets, except
/// those of the last type, which dnspython does not know, and those of OPT, which has no text form: these are two options as
/// RFC 7873 section 4 and RFC 8914 section 2 have them.
const RDATA: [Case; 23] = [
    (1, b"\xc0\0\x02A", b"\xc0\0\x02A"),
    (
        2,
        b"\x03Ns1\x07Example\x03COM\0",
        b"\x03ns1\x07example\x03com\0",
    ),
    (5, b"\x05Alias\x07Example\0", b"\x05alias\x07example\0"),
    (
        6,
        b"\x03Ns1\x07Example\0\x0bHost-Master\x07Example\0x\xa3\xf1u\0\0\x1c \0\0\x0e\x10\0\x12u\0\0\0\x0e\x10",
        b"\x03ns1\x07example\0\x0bhost-master\x07example\0x\xa3\xf1u\0\0\x1c \0\0\x0e\x10\0\x12u\0\0\0\x0e\x10",
    ),
    (12, b"\x04Host\x07Example\0", b"\x04host\x07example\0"),
    (13, b"\x0aVAX-11/780\x04Unix", b"\x0aVAX-11/780\x04Unix"),
    (
        15,
        b"\0\x0a\x04Mail\x07Example\0",
        b"\0\x0a\x04mail\x07example\0",
    ),
    (16, b"\x09Some Text\0\x01B", b"\x09Some Text\0\x01B"),
    (
        17,
        b"\x05Admin\x07Example\0\x04Info\x07Example\0",
        b"\x05admin\x07example\0\x04info\x07example\0",
    ),
    (
        28,
        b" \x01\x0d\xb8\0\0\0\0\0\0\0\0\0\0\0A",
        b" \x01\x0d\xb8\0\0\0\0\0\0\0\0\0\0\0A",
    ),
    (
        33,
        b"\0\x0a\0<\x13\xc4\x03Big\x07Example\x03COM\0",
        b"\0\x0a\0<\x13\xc4\x03big\x07example\x03com\0",
    ),
    (39, b"\x07Frobozz\x07Example\0", b"\x07frobozz\x07example\0"),
    (
        41,
        b"\0\x0a\0\x08$d\xc4\xab\xcf\x10\xc9W\0\x0f\0\x03\0\0A",
        b"\0\x0a\0\x08$d\xc4\xab\xcf\x10\xc9W\0\x0f\0\x03\0\0A",
    ),
    (
        43,
        b"\xecE\x05\x01+\xb1\x83\xaf_\x22X\x81y\xa5;\x0a\x98c\x1f\xad\x1a)!\x18",
        b"\xecE\x05\x01+\xb1\x83\xaf_\x22X\x81y\xa5;\x0a\x98c\x1f\xad\x1a)!\x18",
    ),
    (
        46,
        b"\0\x01\x05\x03\0\x01Q\x80>|\x9d\xd7>U\x10\xd7\x0aR\x07Example\x03COM\0\x01\x02\x03",
        b"\0\x01\x05\x03\0\x01Q\x80>|\x9d\xd7>U\x10\xd7\x0aR\x07example\x03com\0\x01\x02\x03",
    ),
    (
        47,
        b"\x04Host\x07Example\x03COM\0\0\x06@\x01\0\0\0\x03\x04\x1b\0\0\0\0\0\0\0\0\0\0\0\0\0\0\0\0\0\0\0\0\0\0\0\0\0\0 ",
        b"\x04Host\x07Example\x03COM\0\0\x06@\x01\0\0\0\x03\x04\x1b\0\0\0\0\0\0\0\0\0\0\0\0\0\0\0\0\0\0\0\0\0\0\0\0\0\0 ",
    ),
    (
        48,
        b"\x01\0\x03\x05\x01\x03\xd2*l\xa7\x7f5\xb8\x93 o",
        b"\x01\0\x03\x05\x01\x03\xd2*l\xa7\x7f5\xb8\x93 o",
    ),
    (
        50,
        b"\x01\x01\0\x0c\x04\xaa\xbb\xcc\xdd\x14\x17N\xb2@\x9f\xe2\x8b\xcbH\x87\xa1\x83o\x95\x7f\x0a\x84%\xe2{\0\x06@\0\0\0\0\x02",
        b"\x01\x01\0\x0c\x04\xaa\xbb\xcc\xdd\x14\x17N\xb2@\x9f\xe2\x8b\xcbH\x87\xa1\x83o\x95\x7f\x0a\x84%\xe2{\0\x06@\0\0\0\0\x02",
    ),
    (
        51,
        b"\x01\0\0\x0c\x04\xaa\xbb\xcc\xdd",
        b"\x01\0\0\x0c\x04\xaa\xbb\xcc\xdd",
    ),
    (
        59,
        b"\xeey\x0d\x02Z\x98N[L\x8b~\x9b\xa2W\xe1\xbbl\xa4\xda\x9a^F\xba\x97\xb9\xa5\x9d\xb2\xa2\x88\x86\xebg\x82\x11\xfd",
        b"\xeey\x0d\x02Z\x98N[L\x8b~\x9b\xa2W\xe1\xbbl\xa4\xda\x9a^F\xba\x97\xb9\xa5\x9d\xb2\xa2\x88\x86\xebg\x82\x11\xfd",
    ),
    (
        60,
        b"\x01\x01\x03\x0f\xf8\xb7\x0c\x0e\x83\xf9\xa4@f\xbc\xafx\xd4m\xba\0L.\xac\x83\xd8N\x88$i\x80'F\x10\xb3\x0dx",
        b"\x01\x01\x03\x0f\xf8\xb7\x0c\x0e\x83\xf9\xa4@f\xbc\xafx\xd4m\xba\0L.\xac\x83\xd8N\x88$i\x80'F\x10\xb3\x0dx",
    ),
    (
        63,
        b"xH\xb7\x8c\x01\x01\xfe\xbe=L\xe2\xec/\xfaK\xa9\x9dF\xcdi\xd6\xd2\x97\x11\xe5R\x17\x05{\xee~\xb1\xa7\xb6A\xa4{\xa7\xfe\xd2\xdd[\x97\xaeI\x9f\xaf\xa4\xf2,k\xd6G\xde",
        b"xH\xb7\x8c\x01\x01\xfe\xbe=L\xe2\xec/\xfaK\xa9\x9dF\xcdi\xd6\xd2\x97\x11\xe5R\x17\x05{\xee~\xb1\xa7\xb6A\xa4{\xa7\xfe\xd2\xdd[\x97\xaeI\x9f\xaf\xa4\xf2,k\xd6G\xde",
    ),
    (65280, b"\x01\x02\xff", b"\x01\x02\xff"),
];

/// Other data of some types.
const OTHERS: [Case; 12] = [
    // Names in lowercase, and octets outside them as they are (RFC 4034 section 6.2): `A` among the numbers stays.
    (
        6,
        b"\x02NS\0\x04HosT\0ABCDEFGHIJKLMNOPQRST",
        b"\x02ns\0\x04host\0ABCDEFGHIJKLMNOPQRST",
    ),
    // The rows up to the next comment are as `to_wire` and `to_digestable` of dnspython 2.3.0 wrote them. A signer's name is in
    // lowercase, and a next name keeps its case (RFC 6840 section 5.1). RRSIG A 5 3 86400 20030322173103 20030220173103 2642
    // Example.COM. oJB1Wg==
    (
        46,
        b"\0\x01\x05\x03\0\x01Q\x80>|\x9d\xd7>U\x10\xd7\x0aR\x07Example\x03COM\0\xa0\x90uZ",
        b"\0\x01\x05\x03\0\x01Q\x80>|\x9d\xd7>U\x10\xd7\x0aR\x07example\x03com\0\xa0\x90uZ",
    ),
    // NSEC Host.Example.com. A
    (
        47,
        b"\x04Host\x07Example\x03com\0\0\x01\x40",
        b"\x04Host\x07Example\x03com\0\0\x01\x40",
    ),
    // DNSKEY 256 3 5 AQPSKmynfzW4kyBv015MUG2DeIQ3
    (
        48,
        b"\x01\0\x03\x05\x01\x03\xd2*l\xa7\x7f5\xb8\x93 o\xd3^LPm\x83x\x847",
        b"\x01\0\x03\x05\x01\x03\xd2*l\xa7\x7f5\xb8\x93 o\xd3^LPm\x83x\x847",
    ),
    // The NSEC3 of RFC 5155 appendix A for the apex.
    (
        50,
        b"\x01\x01\0\x0c\x04\xaa\xbb\xcc\xdd\x14\x17\x4e\xb2\x40\x9f\xe2\x8b\xcb\x48\x87\xa1\x83\x6f\x95\x7f\x0a\x84\x25\xe2\x7b\0\x07\x22\x01\0\0\0\x02\x90",
        b"\x01\x01\0\x0c\x04\xaa\xbb\xcc\xdd\x14\x17\x4e\xb2\x40\x9f\xe2\x8b\xcb\x48\x87\xa1\x83\x6f\x95\x7f\x0a\x84\x25\xe2\x7b\0\x07\x22\x01\0\0\0\x02\x90",
    ),
    // The CDNSKEY 0 3 0 AA== of RFC 8078 section 4.
    (60, b"\0\0\x03\0\0", b"\0\0\x03\0\0"),
    // The ZONEMD of RFC 8976 appendix A.1.
    (
        63,
        b"xH\xb9\x1c\x01\x01\xc6\x80\x90\xd9\x0az\xedqk\xc4Y\xf94\x0e=|\x13p\xd4\xd2K~/\xc3\xa1\xdd\xc0\xb9\xa8qS\xb9\xa9q;<\x9a\xe5\xcc'w\x7f\x98\xb8\xe70\x04L",
        b"xH\xb9\x1c\x01\x01\xc6\x80\x90\xd9\x0az\xedqk\xc4Y\xf94\x0e=|\x13p\xd4\xd2K~/\xc3\xa1\xdd\xc0\xb9\xa8qS\xb9\xa9q;<\x9a\xe5\xcc'w\x7f\x98\xb8\xe70\x04L",
    ),
    // One option of any data, and the least data of some types: the last field is empty if it may be.
    (41, b"\0\x03\0\x02ns", b"\0\x03\0\x02ns"),
    (
        46,
        b"\0\x01\x05\x03\0\x01\x51\x80\0\0\0\x02\0\0\0\x01\x0a\x52\x01a\0",
        b"\0\x01\x05\x03\0\x01\x51\x80\0\0\0\x02\0\0\0\x01\x0a\x52\x01a\0",
    ),
    (47, b"\x01a\0\0\x02\0\x08", b"\x01a\0\0\x02\0\x08"),
    (50, b"\x01\0\0\0\0\0", b"\x01\0\0\0\0\0"),
    (63, b"\0\0\0\x01\x01\x01ab", b"\0\0\0\x01\x01\x01ab"),
];

/// The data of each type.
pub(crate) fn rdata() -> &'static [Case] {
    &RDATA
}

/// The other data.
pub(crate) fn other_rdata() -> &'static [Case] {
    &OTHERS
}

/// The number of a type, and octets that are no data of it.
const MALFORMED: [(u16, &[u8]); 25] = [
    // A pointer in SRV, in DNAME and to a signer.
    (33, b"\0\x01\0\x02\0\x03\xc0\x0c"),
    (39, b"\xc0\x0c"),
    (
        46,
        b"\0\x01\x05\x03\0\x01\x51\x80\0\0\0\x02\0\0\0\x01\x0a\x52\xc0\x0c",
    ),
    // Options that neither dnspython 2.3.0 nor ldns 1.8.3 reads.
    (41, b"\0"),
    (41, b"\0\0\0"),
    (41, b"\0\x03\0\0\0"),
    (41, b"\0\x03\0\x03\xaa"),
    (41, b"\0\x03\0\x03\xaa\xaa"),
    (41, b"\0\x0a\0\x0812345678\0\x0f\0\x03\0\0A\0\x03\0\x02\xaa"),
    // NSEC without types; an octet after its bitmap, and after that of NSEC3.
    (47, b"\0"),
    (47, b"\x01a\0\0\x02\0\x08*"),
    (50, b"\x01\0\0\0\0\0\0"),
    // Windows that are cut or empty, with a last octet of 0, with more than 32 octets or with one less than it says (RFC 4034
    // section 4.1.2), or whose numbers do not rise.
    (47, b"\0\0"),
    (47, b"\0\0\0"),
    (47, b"\0\0\x01"),
    (47, b"\0\0\x02\x40"),
    (47, b"\0\0\x01\x40\x01"),
    (47, b"\0\0\x01\0"),
    (47, b"\0\0\x02\x40\0"),
    (47, b"\0\0\x01\x40\0\x01\x40"),
    (47, b"\0\x01\x01\x40\0\x01\x40"),
    (
        47,
        b"\0\x01\x21\x01\x01\x01\x01\x01\x01\x01\x01\x01\x01\x01\x01\x01\x01\x01\x01\x01\x01\x01\x01\x01\x01\x01\x01\x01\x01\x01\x01\x01\x01\x01\x01\x01",
    ),
    (
        47,
        b"\0\x01\x20\x01\x01\x01\x01\x01\x01\x01\x01\x01\x01\x01\x01\x01\x01\x01\x01\x01\x01\x01\x01\x01\x01\x01\x01\x01\x01\x01\x01\x01\x01\x01",
    ),
    // Three octets of CDS and of CDNSKEY.
    (59, b"\0\0\0"),
    (60, b"\0\0\0"),
];

/// Octets that are no data of their types.
pub(crate) fn malformed_rdata() -> &'static [(u16, &'static [u8])] {
    &MALFORMED
}
