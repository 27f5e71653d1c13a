//! Cookies of clients.

ghost use Rattle.dns_wire.specs.ReadingLemmas.{octets_leave, plain_ends};
ghost use Rattle.std.specs.Prelude.{◌≡◌, ◌≤◌, ◌<◌, ℕ, List, [], length, drop, IfOk, OnOk, OnErr, Some, ⊤};
ghost use Rattle.std.specs.List.{flat_map};
ghost use Rattle.std.specs.Borrow.{sem};
ghost use Rattle.dns_wire.specs.Building.{Builds, LendsRest};
ghost use Rattle.dns_wire.specs.Reading.{octets, plain_at};
ghost use Rattle.dns_edns.specs.Addresses.{address_octets};
ghost use Rattle.dns_edns.specs.Cookies.{unhashed, response};
ghost use Rattle.dns_edns.specs.Digits.{capital_digits};

use crate::address::Address;
use crate::keyed_hash::{KeyedHash, server_hash};
use crate::unknown_option::UnknownOptionData;
use dns_record::Serial;
use dns_wire::{AsBytes, BuildBytes, ParseBytes, ParseError, SplitBytes, TruncationError, put};
use std::fmt;

/// The cookie of a client: eight octets (RFC 7873 section 4.1).
#[derive(Clone, Copy, Debug, PartialEq, Eq, Hash)]
pub struct ClientCookie {
    /// The octets.
    pub octets: [u8; 8],
}

impl ClientCookie {
    /// Writes the cookie that a server gives for this one at a place of the buffer, and gives the place where it ends:
    /// 24 octets, which are this cookie, version 1, three zeros, the moment, the most significant octet first, and the
    /// hash of these 16 octets with those of the address after them (RFC 9018 section 4). `TruncationError` comes exactly
    /// if fewer than 24 octets are free; those before the place are then as before.
    pub fn respond_at<H: KeyedHash>(
        &self,
        addr: Address,
        secret: &[u8; 16],
        now: Serial,
        hash: &H,
        bytes: &mut [u8],
        start: usize,
    ) -> Result<usize, TruncationError>
        requires { start ≤ length bytes.old }
        ensures written { Builds ⊤ (response (H.keyed hash.now secret.now) self.now.octets now.0.value (address_octets addr)) bytes.old start bytes.new result }
        ensures size { length (response (H.keyed hash.now secret.now) self.now.octets now.0.value (address_octets addr)) ≡ 24 }
    {
        let response = self.response(addr, secret, now, hash);
        UnknownOptionData { octets: &response }.build_at(bytes, start)
    }

    /// Writes the cookie that a server gives for this one to the beginning of the buffer, as `respond_at` does. What
    /// is after its 24 octets is borrowed back as it was. `TruncationError` comes exactly if the buffer has fewer than 24
    /// octets; what it holds then is unspecified.
    pub fn respond_into<'b, H: KeyedHash>(
        &self,
        addr: Address,
        secret: &[u8; 16],
        now: Serial,
        hash: &H,
        bytes: &'b mut [u8],
    ) -> Result<&'b mut [u8], TruncationError>
        ensures* written { sem 𝓛 (LendsRest bytes.entry result (response (H.keyed hash.now secret.now) self.now.octets now.0.value (address_octets addr))) }
        ensures rest { IfOk result (λ rest. rest.now ≡ drop 24 bytes.old) }
        ensures accepted { OnOk result (24 ≤ length bytes.old) }
        ensures refused { OnErr result (length bytes.old < 24) }
    {
        match self.put_response(addr, secret, now, hash, bytes) {
            Ok(end) => Ok(&mut bytes[end..]),
            Err(error) => Err(error),
        }
    }

    /// Writes the cookie that a server gives for this one to the beginning of the buffer.
    fn put_response<H: KeyedHash>(
        &self,
        addr: Address,
        secret: &[u8; 16],
        now: Serial,
        hash: &H,
        bytes: &mut [u8],
    ) -> Result<usize, TruncationError>
        ensures { (length (response (H.keyed hash.now secret.now) self.now.octets now.0.value (address_octets addr)) ≡ 24) × Builds ⊤ (response (H.keyed hash.now secret.now) self.now.octets now.0.value (address_octets addr)) bytes.old 0 bytes.new result }
    {
        self.respond_at(addr, secret, now, hash, bytes, 0)
    }

    /// The octets of the cookie that a server gives for this one.
    fn response<H: KeyedHash>(
        &self,
        addr: Address,
        secret: &[u8; 16],
        now: Serial,
        hash: &H,
    ) -> [u8; 24]
        ensures { result ≡ response (H.keyed hash.now secret.now) self.now.octets now.0.value (address_octets addr) }
    {
        let prefix = self.unhashed(now);
        let hashed = server_hash(&prefix, &addr, secret, hash);
        let mut octets = [0; 24];
        octets[..16].copy_from_slice(&prefix);
        octets[16..].copy_from_slice(&hashed);
        octets
    }

    /// What comes before the hash of a server cookie.
    fn unhashed(&self, now: Serial) -> [u8; 16]
        ensures { result ≡ unhashed self.now.octets now.0.value }
    {
        let mut prefix = [0; 16];
        prefix[..8].copy_from_slice(&self.octets);
        let time = now.get().to_be_bytes();
        prefix[8..].copy_from_slice(&[1, 0, 0, 0, time[0], time[1], time[2], time[3]]);
        prefix
    }
}

impl From<[u8; 8]> for ClientCookie {
    ghost from_gives = { λ plain v. v.octets ≡ plain };

    fn from(octets: [u8; 8]) -> ClientCookie {
        ClientCookie { octets }
    }
}

impl From<ClientCookie> for [u8; 8] {
    ghost from_gives = { λ v plain. plain ≡ v.octets };

    fn from(cookie: ClientCookie) -> [u8; 8] {
        cookie.octets
    }
}

impl AsBytes for ClientCookie {
    fn as_bytes(&self) -> &[u8] {
        &self.octets
    }
}

impl<'a> ParseBytes<'a> for ClientCookie {
    ghost Seen = { List ℕ };

    ghost seen = { λ v. v.octets };

    ghost reads = { octets 8 };

    ghost reads_at = { plain_at (octets 8) };

    ghost leaves_rest = { octets_leave 8 };

    ghost ends_within = { plain_ends (octets 8) (octets_leave 8) };

    fn parse_bytes(bytes: &'a [u8]) -> Result<ClientCookie, ParseError> {
        let octets = <[u8; 8]>::parse_bytes(bytes)?;
        Ok(ClientCookie { octets })
    }
}

impl<'a> SplitBytes<'a> for ClientCookie {
    fn split_bytes(bytes: &'a [u8]) -> Result<(ClientCookie, &'a [u8]), ParseError> {
        let (octets, rest) = <[u8; 8]>::split_bytes(bytes)?;
        Ok((ClientCookie { octets }, rest))
    }
}

impl BuildBytes for ClientCookie {
    ghost octets = { λ v. v.octets };

    fn build_at(&self, bytes: &mut [u8], start: usize) -> Result<usize, TruncationError> {
        put(&self.octets, bytes, start)
    }

    fn built_bytes_size(&self) -> usize {
        8
    }
}

impl fmt::Display for ClientCookie {
    ghost output = { λ v. Some (flat_map capital_digits v.octets) };

    /// As 16 hexadecimal digits in capitals.
    fn fmt<W: fmt::Write>(&self, f: &mut fmt::Formatter<W>) -> fmt::Result {
        for octet in self.octets {
            write!(f, "{octet:02X}")?;
        }
        Ok(())
    }
}
