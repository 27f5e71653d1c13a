//! Which ZONEMD records of a zone are verified (RFC 8976 section 4).

ghost use Rattle.std.specs.Prelude.{◌≡◌, ℕ, OnOk, ◌++◌, nat_eq, slice_index};
ghost use Rattle.dns_wire.specs.Octets.{Octets};
ghost use Rattle.std.specs.Cmp.Lexicographic.{pointwise};
ghost use Rattle.dns_zonemd.specs.Sums.{AreSums};
ghost use Rattle.dns_zonemd.specs.Verdicts.{count_kind, digest_by, first_number, has_serial, is_supported, is_verified, same_kind, soa_serial, verdict, verdict_line, zonemd_algorithm, zonemd_digest, zonemd_scheme};

use crate::report::ZoneSums;
use dns_message::CanonicalForm;
use std::alloc::{AllocError, Global};

/// The octet at a place; 0 if there is none.
fn octet_at(octets: &[u8], index: usize) -> u8
    ensures { result ≡ slice_index octets.now index }
{
    match octets.get(index) {
        Some(octet) => *octet,
        None => 0,
    }
}

/// The number in the first four octets.
fn first_number(octets: &[u8]) -> u32
    ensures { result ≡ first_number octets.now }
{
    u32::from_be_bytes([
        octet_at(octets, 0),
        octet_at(octets, 1),
        octet_at(octets, 2),
        octet_at(octets, 3),
    ])
}

/// The serial of a SOA record: the first of the five numbers that end its data (RFC 1035 section 3.3.13).
fn soa_serial(soa: &CanonicalForm<'_>) -> u32
    ensures { result ≡ soa_serial soa.now }
{
    let octets = soa.data();
    first_number(&octets[octets.len().saturating_sub(20)..])
}

/// The scheme of a ZONEMD record (RFC 8976 section 2.2.2).
fn scheme_of(zonemd: &CanonicalForm<'_>) -> u8
    ensures { result ≡ zonemd_scheme zonemd.now }
{
    octet_at(zonemd.data(), 4)
}

/// The hash algorithm of a ZONEMD record (RFC 8976 section 2.2.3).
fn algorithm_of(zonemd: &CanonicalForm<'_>) -> u8
    ensures { result ≡ zonemd_algorithm zonemd.now }
{
    octet_at(zonemd.data(), 5)
}

/// Whether two ZONEMD records have the same scheme and hash algorithm.
fn same_kind(zonemd: &CanonicalForm<'_>, other: &CanonicalForm<'_>) -> bool
    ensures { result ≡ same_kind zonemd.now other.now }
{
    scheme_of(zonemd) == scheme_of(other) && algorithm_of(zonemd) == algorithm_of(other)
}

/// Whether the scheme and the hash algorithm of a ZONEMD record are among those that are verified.
fn is_supported(zonemd: &CanonicalForm<'_>) -> bool
    ensures { result ≡ is_supported zonemd.now }
{
    let algorithm = algorithm_of(zonemd);
    scheme_of(zonemd) == 1 && (algorithm == 1 || algorithm == 2)
}

/// How many of the ZONEMD records have the scheme and the hash algorithm of this.
fn count_kind(zonemds: &[CanonicalForm<'_>], zonemd: &CanonicalForm<'_>) -> usize
    ensures { result ≡ count_kind zonemds.now zonemd.now }
{
    let mut count = 0;
    for other in zonemds {
        if same_kind(zonemd, other) {
            count += 1;
        }
    }
    count
}

/// Whether the serial of a ZONEMD record is that of one of the SOA records.
fn has_serial(soas: &[CanonicalForm<'_>], zonemd: &CanonicalForm<'_>) -> bool
    ensures { result ≡ has_serial soas.now zonemd.now }
{
    let serial = first_number(zonemd.data());
    soas.iter().any(|soa| soa_serial(soa) == serial)
}

/// Whether the digest of a ZONEMD record is the zone's.
fn has_digest(sums: &ZoneSums, zonemd: &CanonicalForm<'_>) -> bool
    ensures { (records : ℕ) (stream : Octets) → AreSums records stream sums.now → result ≡ pointwise nat_eq (zonemd_digest zonemd.now) (digest_by (zonemd_algorithm zonemd.now) stream) }
{
    let octets = zonemd.data();
    let digest = &octets[octets.len().min(6)..];
    if algorithm_of(zonemd) == 1 {
        digest == sums.sha384.as_slice()
    } else {
        digest == sums.sha512.as_slice()
    }
}

/// Whether a ZONEMD record is verified: alone of its kind, with the serial of the SOA record and the zone's digest.
fn is_verified(
    soas: &[CanonicalForm<'_>],
    zonemds: &[CanonicalForm<'_>],
    sums: &ZoneSums,
    zonemd: &CanonicalForm<'_>,
) -> bool
    ensures { (records : ℕ) (stream : Octets) → AreSums records stream sums.now → result ≡ is_verified soas.now zonemds.now stream zonemd.now }
{
    count_kind(zonemds, zonemd) == 1 && has_serial(soas, zonemd) && has_digest(sums, zonemd)
}

/// What is said of a ZONEMD record.
fn verdict(
    soas: &[CanonicalForm<'_>],
    zonemds: &[CanonicalForm<'_>],
    sums: &ZoneSums,
    zonemd: &CanonicalForm<'_>,
) -> &'static str
    ensures { (records : ℕ) (stream : Octets) → AreSums records stream sums.now → result.now ≡ verdict soas.now zonemds.now stream zonemd.now }
{
    if !is_supported(zonemd) {
        "unsupported"
    } else if is_verified(soas, zonemds, sums, zonemd) {
        "verified"
    } else {
        "differs"
    }
}

/// Adds the line for a ZONEMD record to a text: its serial, scheme and hash algorithm, and what is said of it.
pub(crate) fn push_verdict(
    alloc: Global,
    soas: &[CanonicalForm<'_>],
    zonemds: &[CanonicalForm<'_>],
    sums: &ZoneSums,
    zonemd: &CanonicalForm<'_>,
    text: &mut Vec<u8>,
) -> Result<(), AllocError>
    ensures { (records : ℕ) (stream : Octets) → AreSums records stream sums.now → OnOk result (text.new.items ≡ text.old.items ++ verdict_line soas.now zonemds.now stream zonemd.now) }
{
    let line = format!(in alloc;
        "zonemd {} {} {} {}\n",
        first_number(zonemd.data()),
        scheme_of(zonemd),
        algorithm_of(zonemd),
        verdict(soas, zonemds, sums, zonemd)
    )?;
    text.extend_from_slice(line.as_bytes())
}
