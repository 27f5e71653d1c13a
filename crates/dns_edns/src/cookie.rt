//! Cookies of servers.

ghost use Rattle.dns_wire.specs.ReadingLemmas.{plain_ends};
ghost use Rattle.dns_edns.specs.CookiesLemmas.{cookie_leaves};
ghost use Rattle.std.specs.Prelude.{◌≡◌, ◌≤◌, ◌↔◌, ℕ, List, [], length, IsOk, IsErr, IsTrue, ⊤};
ghost use Rattle.dns_wire.specs.Reading.{plain_at};
ghost use Rattle.dns_edns.specs.Addresses.{address_octets};
ghost use Rattle.dns_edns.specs.Cookies.{cookie, request_in, version_in, timestamp_in, IsWithin, IsTaken, IsRefused};

use crate::address::Address;
use crate::client_cookie::ClientCookie;
use crate::error::CookieError;
use crate::keyed_hash::{KeyedHash, server_hash};
use dns_record::Serial;
use dns_wire::{BuildBytes, ParseBytes, ParseError, TruncationError, put};
use std::cmp::Ordering;

/// The cookie of a client, and that of a server after it: 16 to 40 octets (RFC 7873 section 4.2). A server
/// cookie is a version, three octets that are reserved, the time when it was made, and a hash (RFC 9018
/// section 4).
#[derive(Clone, Copy, Debug, PartialEq, Eq, Hash)]
pub struct Cookie<'a> {
    slice: &'a [u8],
    ghost long: { 16 ≤ length slice.now },
    ghost short: { length slice.now ≤ 40 },
}

impl<'a> Cookie<'a> {
    ghost use Rattle.dns_edns.specs.Seen.{cookie_octets};

    /// The cookie of the client.
    pub fn request(&self) -> ClientCookie
        ensures { result.octets ≡ request_in (cookie_octets self.now) }
    {
        match self.slice.first_chunk::<8>() {
            Some(octets) => ClientCookie { octets: *octets },
            None => ClientCookie { octets: [0; 8] },
        }
    }

    /// The version of the server cookie, which is 1 in RFC 9018 section 4.1.
    pub fn version(&self) -> u8
        ensures { result ≡ version_in (cookie_octets self.now) }
    {
        self.slice[8]
    }

    /// When the server cookie was made, in seconds since the beginning of 1970, without leap seconds (RFC 9018
    /// section 4.3).
    pub fn timestamp(&self) -> Serial
        ensures { result.0.value ≡ timestamp_in (cookie_octets self.now) }
    {
        let octets = [
            self.slice[12],
            self.slice[13],
            self.slice[14],
            self.slice[15],
        ];
        Serial::new(u32::from_be_bytes(octets))
    }

    /// Whether the server made it itself, for this address, in the time from `from` up to before `until`. The error
    /// comes exactly if the version is not 1, the hash has not eight octets, the time is another by
    /// `Serial::partial_cmp`, or the hash is not that of the other octets and the address (RFC 9018 section 4).
    pub fn verify<H: KeyedHash>(
        &self,
        addr: Address,
        secret: &[u8; 16],
        from: Serial,
        until: Serial,
        hash: &H,
    ) -> Result<(), CookieError>
        ensures accepted { IsOk result ↔ IsTaken (H.keyed hash.now secret.now) (address_octets addr) from.0.value until.0.value (cookie_octets self.now) }
        ensures refused { IsErr result ↔ IsRefused (H.keyed hash.now secret.now) (address_octets addr) from.0.value until.0.value (cookie_octets self.now) }
    {
        let Some((prefix, hashed)) = self.slice.split_first_chunk::<16>() else {
            return Err(CookieError);
        };
        if self.version() != 1 || hashed.len() != 8 || !self.is_within(from, until) {
            return Err(CookieError);
        }
        if server_hash(prefix, &addr, secret, hash).as_slice() == hashed {
            Ok(())
        } else {
            Err(CookieError)
        }
    }

    /// Whether it was made at `from` or later, and before `until`.
    fn is_within(&self, from: Serial, until: Serial) -> bool
        ensures { IsTrue result ↔ IsWithin from.0.value until.0.value (timestamp_in (cookie_octets self.now)) }
    {
        let time = self.timestamp();
        let is_since = matches!(
            from.partial_cmp(&time),
            Some(Ordering::Less | Ordering::Equal)
        );
        is_since && matches!(time.partial_cmp(&until), Some(Ordering::Less))
    }
}

/// `ParseError` comes exactly below 16 octets and above 40.
impl<'a> ParseBytes<'a> for Cookie<'a> {
    ghost use Rattle.dns_edns.specs.Seen.{cookie_octets};

    ghost Seen = { List ℕ };

    ghost seen = { cookie_octets };

    ghost reads = { cookie };

    ghost reads_at = { plain_at cookie };

    ghost leaves_rest = { cookie_leaves };

    ghost ends_within = { plain_ends cookie cookie_leaves };

    fn parse_bytes(bytes: &'a [u8]) -> Result<Cookie<'a>, ParseError> {
        if bytes.len() < 16 || bytes.len() > 40 {
            return Err(ParseError);
        }
        Ok(Cookie { slice: bytes })
    }
}

impl BuildBytes for Cookie<'_> {
    ghost use Rattle.dns_edns.specs.Seen.{cookie_octets};

    ghost octets = { cookie_octets };

    fn build_at(&self, bytes: &mut [u8], start: usize) -> Result<usize, TruncationError> {
        put(self.slice, bytes, start)
    }

    fn built_bytes_size(&self) -> usize {
        self.slice.len()
    }
}
