//! Flags of keys, of hashed owners and of EDNS.

use crate::assertions::holds;
use dns_edns::EdnsFlags;
use dns_nsec::Nsec3Flags;
use dns_sec::DNSKeyFlags;

/// The bits of the flags of a zone's key, and whether they are those of such a key and of a secure entry point.
fn key_flags(entry_point: bool) -> (u16, bool, bool) {
    let flags = DNSKeyFlags::default()
        .set_zone_key(true)
        .set_secure_entry_point(entry_point);
    (
        flags.bits(),
        flags.is_zone_key(),
        flags.is_secure_entry_point(),
    )
}

/// The bits of the flags of an opt-out, and whether they are such.
fn opt_out() -> (u8, bool) {
    let flags = Nsec3Flags::default().set_optout(true);
    (flags.bits(), flags.is_optout())
}

/// The bits of the flags with the bit DO, and whether it is set.
fn dnssec_ok() -> (u16, bool) {
    let flags = EdnsFlags::default().set_dnssec_ok(true);
    (flags.bits(), flags.is_dnssec_ok())
}

/// 256 and 257 are the flags of the keys in RFC 4034 section 2.3 and RFC 3757 section 2; the opt-out is the last bit
/// (RFC 5155 section 3.1.2.1), and DO the first of the 16 (RFC 3225 section 3).
#[test]
fn flags_have_their_bits(rt: HostRuntime) {
    holds(&rt, key_flags(false) == (256, true, false), "256");
    holds(&rt, key_flags(true) == (257, true, true), "257");
    holds(&rt, opt_out() == (1, true), "opt-out");
    holds(&rt, dnssec_ok() == (0x8000, true), "DO");
}
