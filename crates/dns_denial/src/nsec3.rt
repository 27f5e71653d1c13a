//! The hash of an owner name for NSEC3 (RFC 5155 section 5).

ghost use Rattle.std.specs.Prelude.{◌≡◌, ◌≤◌, ◌++◌, length};
ghost use Rattle.sha1.specs.Sha1.{sha1};
ghost use Rattle.dns_wire.specs.Names.{name_labels};
ghost use Rattle.dns_denial.specs.Hashes.{iterated_hash, nsec3_hash_of};

use dns_name::{CanonicalName, Name};
use sha1::Sha1;

/// SHA-1 of the octets with the salt after them.
fn salted(octets: &[u8], salt: &[u8]) -> [u8; 20]
    ensures { result ≡ sha1 (octets.now ++ salt.now) }
{
    let mut hasher = Sha1::new();
    hasher.update(octets);
    hasher.update(salt);
    hasher.finalize()
}

/// The hash of octets with the salt, and as often again of the hash with the salt as there are iterations.
fn iterated(octets: &[u8], salt: &[u8], iterations: u16) -> [u8; 20]
    ensures { result ≡ iterated_hash octets.now salt.now iterations }
{
    let mut hash = salted(octets, salt);
    for _done in 0..iterations {
        hash = salted(&hash, salt);
    }
    hash
}

/// The hash of an owner name for NSEC3 (RFC 5155 section 5): SHA-1 of the name's octets in lowercase with the salt after them, and as often
/// again of the hash with the salt after it as there are iterations. The condition is that the salt has at most 255 octets, as its size
/// is in one octet (RFC 5155 section 3.2).
pub fn nsec3_hash(name: Name<'_>, salt: &[u8], iterations: u16) -> [u8; 20]
    requires { length salt.now ≤ 255 }
    ensures { result ≡ nsec3_hash_of (name_labels name.entry.slice.now) salt.now iterations }
{
    let mut octets = [0; Name::MAX_SIZE];
    let size = name.build_lowercased_at(&mut octets, 0).unwrap();
    iterated(&octets[..size], salt, iterations)
}
