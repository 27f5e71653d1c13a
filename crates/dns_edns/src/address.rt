//! Addresses of clients.

ghost use Rattle.std.specs.Prelude.{◌≡◌, ◌≤◌, length};
ghost use Rattle.dns_edns.specs.Addresses.{address_octets};

/// The address that a client sends from.
#[derive(Clone, Copy, Debug)]
pub enum Address {
    /// One of IPv4, as four octets.
    V4([u8; 4]),
    /// One of IPv6, as 16 octets.
    V6([u8; 16]),
}

impl Address {
    /// The octets, 4 or 16.
    pub(crate) fn octets(&self) -> &[u8]
        ensures octets { result.now ≡ address_octets self.now }
        ensures short { length result.now ≤ 16 }
    {
        match self {
            Address::V4(octets) => octets,
            Address::V6(octets) => octets,
        }
    }
}
