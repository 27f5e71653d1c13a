//! What NSEC and NSEC3 records say of a name (RFC 4034 section 4, RFC 5155 section 7).

ghost use Rattle.std.specs.Prelude.{◌≡◌, ◌≤◌, length};
ghost use Rattle.std.specs.Cmp.Lexicographic.{slice_cmp};
ghost use Rattle.std.specs.Ordering.{nat_cmp};
ghost use Rattle.dns_wire.specs.Names.{name_labels};
ghost use Rattle.dns_denial.specs.Coverage.{coverage_by, coverage_in, coverage_word, first_label, hash_iterations, hash_salt, is_computed, next_hash, nsec_coverage, nsec3_coverage};
ghost use Rattle.dns_denial.specs.Unbase32.{hash_of_text};

use crate::nsec3::nsec3_hash;
use crate::octets::{first_octets, name_at_start, octet_at, octets_from};
use crate::unbase32::unbase32hex;
use dns_message::CanonicalForm;
use dns_name::Name;
use std::cmp::Ordering;

/// The number of SHA-1 among the algorithms of NSEC3 (RFC 5155 section 11).
const SHA1: u8 = 1;

/// The most iterations with which hashes are computed.
const MOST_ITERATIONS: u16 = 500;

/// What a record says of a name.
#[derive(Clone, Copy, Debug, PartialEq, Eq)]
pub(crate) enum Coverage {
    /// The owner is the name, or the owner's hash is the name's.
    Matches,
    /// The name lies between the owner and the next one.
    Covers,
    /// Neither.
    No,
    /// No hash is computed.
    Unknown,
}

impl Coverage {
    /// The word for it, and LF.
    pub fn word(self) -> &'static [u8]
        ensures { result.now ≡ coverage_word self }
    {
        match self {
            Coverage::Matches => b"matches\n",
            Coverage::Covers => b"covers\n",
            Coverage::No => b"no\n",
            Coverage::Unknown => b"unknown\n",
        }
    }
}

/// What is said of a name on a circle, by the order of the owner and the next one, of the owner and the name, and of the name and the next
/// one. The last owner of a zone is not before its next one, which is the first (RFC 4034 section 4.1.1).
fn coverage_by(owner_next: Ordering, owner_name: Ordering, name_next: Ordering) -> Coverage
    ensures { result ≡ coverage_by owner_next owner_name name_next }
{
    let (after, before) = (owner_name.is_lt(), name_next.is_lt());
    let between = if owner_next.is_lt() {
        after && before
    } else {
        after || before
    };
    if owner_name.is_eq() {
        Coverage::Matches
    } else if between {
        Coverage::Covers
    } else {
        Coverage::No
    }
}

/// What an NSEC record says of a name, in the order of names (RFC 4034 section 6.1).
pub(crate) fn nsec_coverage(found: &CanonicalForm<'_>, name: Name<'_>) -> Coverage
    ensures { result ≡ nsec_coverage (name_labels name.entry.slice.now) found.now }
{
    let owner = found.owner();
    let next = name_at_start(found.data());
    coverage_by(owner.cmp(&next), owner.cmp(&name), name.cmp(&next))
}

/// The hash whose text is the owner's first label; `None` if it is that of none.
fn owner_hash(owner: Name<'_>) -> Option<[u8; 20]>
    ensures { result ≡ hash_of_text (first_label (name_labels owner.entry.slice.now)) }
{
    let octets = owner.as_bytes();
    unbase32hex(first_octets(octets_from(octets, 1), usize::from(octet_at(octets, 0))))
}

/// The number of iterations in the data of an NSEC3 record.
fn hash_iterations(octets: &[u8]) -> u16
    ensures { result ≡ hash_iterations octets.now }
{
    u16::from(octet_at(octets, 2)) * 256 + u16::from(octet_at(octets, 3))
}

/// The salt in the data of an NSEC3 record.
fn hash_salt(octets: &[u8]) -> &[u8]
    ensures value { result.now ≡ hash_salt octets.now }
    ensures short { length result.now ≤ 255 }
{
    first_octets(octets_from(octets, 5), usize::from(octet_at(octets, 4)))
}

/// The next hash in the data of an NSEC3 record.
fn next_hash(octets: &[u8]) -> &[u8]
    ensures { result.now ≡ next_hash octets.now }
{
    let after_salt = octets_from(octets_from(octets, 5), usize::from(octet_at(octets, 4)));
    first_octets(
        octets_from(after_salt, 1),
        usize::from(octet_at(after_salt, 0)),
    )
}

/// Whether the hashes of a record are computed, by its data: by SHA-1, with few iterations, and the next hash is one (RFC 5155 section 11).
fn is_computed(octets: &[u8]) -> bool
    ensures { result ≡ is_computed octets.now }
{
    octet_at(octets, 0) == SHA1
        && hash_iterations(octets) <= MOST_ITERATIONS
        && next_hash(octets).len() == 20
}

/// What is said of a name by hashes: the owner's, the next one, and the name's.
fn hashed_coverage(owner: &[u8], next: &[u8], hash: &[u8]) -> Coverage
    ensures { result ≡ coverage_in (slice_cmp nat_cmp) owner.now next.now hash.now }
{
    coverage_by(owner.cmp(next), owner.cmp(hash), hash.cmp(next))
}

/// What an NSEC3 record says of a name, in the order of hashes (RFC 5155 section 3.1.7).
pub(crate) fn nsec3_coverage(found: &CanonicalForm<'_>, name: Name<'_>) -> Coverage
    ensures { result ≡ nsec3_coverage (name_labels name.entry.slice.now) found.now }
{
    let octets = found.data();
    if !is_computed(octets) {
        return Coverage::Unknown;
    }
    match owner_hash(found.owner()) {
        Some(owner) => {
            let hash = nsec3_hash(name, hash_salt(octets), hash_iterations(octets));
            hashed_coverage(owner.as_slice(), next_hash(octets), hash.as_slice())
        }
        None => Coverage::Unknown,
    }
}
