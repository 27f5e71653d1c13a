//! Hashes of names for NSEC3, and tags of keys.

ghost use Rattle.std.specs.Prelude.{◌≡◌, ◌≢◌, ◌<◌, ◌≤◌, ◌⊎◌, ◌↔◌, IsTrue, length};
ghost use Rattle.dns_wire.specs.Octets.{Labels};
ghost use Rattle.dns_denial.specs.Hashes.{nsec3_hash_of};
ghost use Rattle.dns_denial.specs.KeyTags.{is_rsa_md5, tag};
ghost use Rattle.nelgvasti.specs.Calls.{HasName, HasNoName};

use crate::answers::{DONE, USAGE};
use dns_denial::{key_tag, nsec3_hash};
use dns_name::Name;
use dns_wire::ParseBytes;

/// A hash of 20 octets.
#[repr(C)]
#[derive(Clone, Copy, Debug, PartialEq, Eq)]
pub struct Nsec3Hash {
    /// The octets.
    pub octets: [u8; 20],
}

/// The most octets of a salt (RFC 5155 section 3.2).
const MOST_SALT: usize = 255;

/// The most octets of a record's data (RFC 1035 section 3.2.1).
const MOST_DATA: usize = 65_535;

/// Writes the hash of a name for NSEC3 (RFC 5155 section 5).
#[unsafe(no_mangle)]
pub extern "C" fn nelgvasti_nsec3_hash(
    name: &[u8],
    salt: &[u8],
    iterations: u16,
    hash: &mut Nsec3Hash,
) -> u32
    ensures done { result ≡ DONE → (labels : Labels) × HasName name.now labels × (length salt.now ≤ 255)
        × (hash.new.octets ≡ nsec3_hash_of labels salt.now iterations) }
    ensures usage { result ≡ USAGE → HasNoName name.now ⊎ (255 < length salt.now) }
    ensures unwritten { result ≢ DONE → hash.new ≡ hash.old }
    ensures expected { (result ≡ DONE) ⊎ (result ≡ USAGE) }
{
    let Ok(name) = Name::parse_bytes(name) else {
        return USAGE;
    };
    if salt.len() > MOST_SALT {
        return USAGE;
    }
    *hash = Nsec3Hash {
        octets: nsec3_hash(name, salt, iterations),
    };
    DONE
}

/// Writes the tag of a key by the data of its DNSKEY record (RFC 4034 appendix B). A key of algorithm 1, RSA/MD5, is refused, as its tag is
/// taken in another way (RFC 4034 appendix B.1).
#[unsafe(no_mangle)]
pub extern "C" fn nelgvasti_key_tag(rdata: &[u8], number: &mut u16) -> u32
    ensures done { result ≡ DONE → number.new ≡ tag rdata.now }
    ensures usage { (result ≡ USAGE) ↔ ((65535 < length rdata.now) ⊎ IsTrue (is_rsa_md5 rdata.now)) }
    ensures unwritten { result ≢ DONE → number.new ≡ number.old }
    ensures expected { (result ≡ DONE) ⊎ (result ≡ USAGE) }
{
    let is_rsa_md5 = rdata.len() > 3 && rdata[3] == 1;
    if rdata.len() > MOST_DATA || is_rsa_md5 {
        return USAGE;
    }
    *number = key_tag(rdata);
    DONE
}
