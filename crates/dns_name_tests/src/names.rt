//! Names as octets.

use dns_name::Name;
use dns_wire::ParseBytes;

/// The name that the octets are, or the root if they are none.
pub(crate) fn name(octets: &[u8]) -> Name<'_> {
    match Name::parse_bytes(octets) {
        Ok(name) => name,
        Err(_) => Name::root(),
    }
}
