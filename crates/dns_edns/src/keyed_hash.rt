//! Hashes under a secret.

ghost use Rattle.std.specs.Prelude.{◌≡◌, ◌++◌, ℕ, List, length};
ghost use Rattle.dns_edns.specs.Addresses.{address_octets};

use crate::address::Address;

/// A function of a secret and some octets, as SipHash-2-4 (RFC 9018 section 4.4).
pub trait KeyedHash {
    /// The function.
    ghost keyed: { Self → List ℕ → List ℕ → List ℕ };

    /// The hash of the octets under the secret.
    fn hash(&self, secret: &[u8; 16], input: &[u8]) -> [u8; 8]
        ensures { result ≡ keyed self.now secret.now input.now };
}

/// The hash of the 16 octets before a server cookie's hash, and of the client's address after them (RFC
/// 9018 section 4.4).
pub(crate) fn server_hash<H: KeyedHash>(
    prefix: &[u8; 16],
    addr: &Address,
    secret: &[u8; 16],
    hash: &H,
) -> [u8; 8]
    ensures { result ≡ H.keyed hash.now secret.now (prefix.now ++ address_octets addr.now) }
{
    let octets = addr.octets();
    let end = 16 + octets.len();
    let mut input = [0; 32];
    input[..16].copy_from_slice(prefix);
    input[16..end].copy_from_slice(octets);
    hash.hash(secret, &input[..end])
}
