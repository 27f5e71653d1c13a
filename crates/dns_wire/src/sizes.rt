//! The numbers that the wire format fixes.

/// The octets of a message's header, which a pointer's offset counts and a place in the contents does not
/// (RFC 1035 section 4.1.1).
pub const HEADER_SIZE: usize = 12;

/// The most octets of a label (RFC 1035 section 2.3.4).
pub const MAX_LABEL_SIZE: usize = 63;

/// What the first octet of a pointer is at least: its two high bits are 1 (RFC 1035 section 4.1.4).
pub const POINTER_TAG: u8 = 192;

/// The last place that a pointer reaches: its offset has 14 bits, and counts the header too.
pub const LAST_PLACE: usize = 16_371;

/// The most places of names that a message keeps.
pub const MAX_PLACES: usize = 128;
