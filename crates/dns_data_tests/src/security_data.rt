//! The fields of the data of DNSSEC.

use crate::assertions::holds;
use dns_nsec::{Nsec, Nsec3, Nsec3Param};
use dns_record::RType;
use dns_sec::{DNSKey, Ds, Rrsig, ZoneMD};
use dns_wire::ParseBytes;

/// The DS of RFC 4034 section 5.4, as `to_wire` of dnspython 2.3.0 writes it.
const DIGEST: &[u8] = b"\xecE\x05\x01+\xb1\x83\xaf_\x22X\x81y\xa5;\x0a\x98c\x1f\xad\x1a)!\x18";

/// The ZONEMD of RFC 8976 appendix A.1, as `to_wire` of dnspython 2.3.0 writes it.
const ZONE_DIGEST: &[u8] =
    b"xH\xb9\x1c\x01\x01\xc6\x80\x90\xd9\x0az\xedqk\xc4Y\xf94\x0e=|\x13p\xd4\xd2K~/\xc3\xa1\
    \xdd\xc0\xb9\xa8qS\xb9\xa9q;<\x9a\xe5\xcc'w\x7f\x98\xb8\xe70\x04L";

/// The DNSKEY 256 3 5 AQPSKmynfzW4kyBv015MUG2DeIQ3, as `to_wire` of dnspython 2.3.0 writes it.
const KEY: &[u8] = b"\x01\0\x03\x05\x01\x03\xd2*l\xa7\x7f5\xb8\x93 o\xd3^LPm\x83x\x847";

/// The RRSIG A 5 3 86400 20030322173103 20030220173103 2642 Example.COM. oJB1Wg==, as `to_wire` of dnspython 2.3.0
/// writes it.
const SIGNATURE: &[u8] =
    b"\0\x01\x05\x03\0\x01Q\x80>|\x9d\xd7>U\x10\xd7\x0aR\x07Example\x03COM\0\xa0\x90uZ";

/// The NSEC Host.Example.com. A, as dnspython writes it.
const NEXT_NAME: &[u8] = b"\x04Host\x07Example\x03com\0\0\x01\x40";

/// The NSEC3 of RFC 5155 appendix A for the apex, as dnspython writes it.
const HASHED: &[u8] =
    b"\x01\x01\0\x0c\x04\xaa\xbb\xcc\xdd\x14\x17\x4e\xb2\x40\x9f\xe2\x8b\xcb\x48\x87\xa1\x83\x6f\x95\x7f\x0a\x84\x25\xe2\x7b\0\x07\x22\x01\0\0\0\x02\x90";

/// NSEC3PARAM data with the salt of RFC 5155 appendix A.
const PARAMETERS: &[u8] = b"\x01\0\0\x0c\x04\xaa\xbb\xcc\xdd";

/// The key tag, the algorithm, the digest type and the size of the digest of DS data.
fn ds_fields(octets: &[u8]) -> Option<(u16, u8, u8, usize)> {
    match Ds::parse_bytes(octets) {
        Ok(data) => Some((
            data.keytag.get(),
            data.algorithm.code,
            data.digest_type.code,
            data.digest.len(),
        )),
        Err(_) => None,
    }
}

/// The serial number, the scheme, the hash algorithm and the size of the digest of ZONEMD data.
fn zonemd_fields(octets: &[u8]) -> Option<(u32, u8, u8, usize)> {
    match ZoneMD::<&[u8]>::parse_bytes(octets) {
        Ok(data) => Some((
            data.serial.get(),
            data.scheme.code,
            data.hash_alg.code,
            data.digest.len(),
        )),
        Err(_) => None,
    }
}

/// The flags, the protocol, the algorithm and the size of the key of DNSKEY data.
fn key_fields(octets: &[u8]) -> Option<(u16, u8, u8, usize)> {
    match DNSKey::parse_bytes(octets) {
        Ok(data) => Some((
            data.flags.bits(),
            data.protocol,
            data.algorithm.code,
            data.key.len(),
        )),
        Err(_) => None,
    }
}

/// The fields that RFC 4034 section 5.4 and RFC 8976 appendix A.1 print, and those of a key.
#[test]
fn digests_and_keys_have_their_fields(rt: HostRuntime) {
    let zone_fields = Some((2_018_031_900, 1, 1, 48));
    holds(&rt, ds_fields(DIGEST) == Some((60_485, 5, 1, 20)), "DS");
    holds(&rt, zonemd_fields(ZONE_DIGEST) == zone_fields, "ZONEMD");
    holds(&rt, key_fields(KEY) == Some((256, 3, 5, 21)), "DNSKEY");
}

/// The type covered, the algorithm, the labels and the original TTL of RRSIG data.
fn signed_fields(octets: &[u8]) -> Option<(u16, u8, u8, u32)> {
    match Rrsig::parse_bytes(octets) {
        Ok(data) => Some((
            data.type_covered().code.get(),
            data.algorithm.code,
            data.labels,
            data.original_ttl().as_secs(),
        )),
        Err(_) => None,
    }
}

/// The expiration, the inception and the key tag of RRSIG data.
fn signing_fields(octets: &[u8]) -> Option<(u32, u32, u16)> {
    match Rrsig::parse_bytes(octets) {
        Ok(data) => Some((
            data.expiration().into_int(),
            data.inception.get(),
            data.key_tag(),
        )),
        Err(_) => None,
    }
}

/// Whether RRSIG data have this signer and this signature.
fn is_signed(octets: &[u8], signer: &[u8], signature: &[u8]) -> bool {
    match Rrsig::parse_bytes(octets) {
        Ok(data) => data.signer.as_bytes() == signer && data.signature == signature,
        Err(_) => false,
    }
}

#[test]
fn signatures_have_their_fields(rt: HostRuntime) {
    let signing = Some((1_048_354_263, 1_045_762_263, 2642));
    let signed = Some((1, 5, 3, 86_400));
    let is_signed = is_signed(SIGNATURE, b"\x07Example\x03COM\0", b"\xa0\x90\x75\x5a");
    holds(&rt, signed_fields(SIGNATURE) == signed, "what is signed");
    holds(
        &rt,
        signing_fields(SIGNATURE) == signing,
        "when and by which key",
    );
    holds(&rt, is_signed, "signer and signature");
}

/// Whether A and NS are among the types of NSEC data with this next name.
fn next_types(octets: &[u8], name: &[u8]) -> Option<(bool, bool)> {
    match Nsec::parse_bytes(octets) {
        Ok(data) if data.next_name().as_bytes() == name => {
            let types = data.types();
            Some((types.contains(RType::A), types.contains(RType::NS)))
        }
        _ => None,
    }
}

/// The algorithm, the flags and the iterations of NSEC3 data.
fn hashing(octets: &[u8]) -> Option<(u8, u8, u16)> {
    match Nsec3::parse_bytes(octets) {
        Ok(data) => Some((
            data.algorithm().code,
            data.flags().bits(),
            data.iterations(),
        )),
        Err(_) => None,
    }
}

/// Whether NSEC3 data have this salt, this hash of the next owner and this bitmap.
fn has_hashed(octets: &[u8], salt: &[u8], next_owner: &[u8], bitmap: &[u8]) -> bool {
    match Nsec3::parse_bytes(octets) {
        Ok(data) => {
            data.salt().into_data() == salt
                && data.next_owner().into_data() == next_owner
                && data.types().slice == bitmap
        }
        Err(_) => false,
    }
}

/// The algorithm, the flags, the opt-out and the iterations of NSEC3PARAM data with this salt.
fn parameters(octets: &[u8], salt: &[u8]) -> Option<(u8, u8, bool, u16)> {
    match Nsec3Param::parse_bytes(octets) {
        Ok(data) if data.salt().into_data() == salt => Some((
            data.hash_algorithm().code,
            data.flags().bits(),
            data.opt_out_flag(),
            data.iterations(),
        )),
        _ => None,
    }
}

/// The salt, and the hash of the next owner and the bitmap of the apex in RFC 5155 appendix A. A next name keeps its
/// case.
#[test]
fn denials_have_their_fields(rt: HostRuntime) {
    let (name, salt) = (b"\x04Host\x07Example\x03com\0", b"\xaa\xbb\xcc\xdd");
    let next_owner =
        b"\x17\x4e\xb2\x40\x9f\xe2\x8b\xcb\x48\x87\xa1\x83\x6f\x95\x7f\x0a\x84\x25\xe2\x7b";
    let has_hashed = has_hashed(HASHED, salt, next_owner, b"\0\x07\x22\x01\0\0\0\x02\x90");
    let wanted = Some((1, 0, false, 12));
    holds(
        &rt,
        next_types(NEXT_NAME, name) == Some((true, false)),
        "NSEC",
    );
    holds(&rt, hashing(HASHED) == Some((1, 1, 12)), "NSEC3");
    holds(&rt, has_hashed, "octets of NSEC3");
    holds(&rt, parameters(PARAMETERS, salt) == wanted, "NSEC3PARAM");
}
