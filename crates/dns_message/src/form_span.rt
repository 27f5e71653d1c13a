//! How long the parts of a canonical form are, and its numbers.

/// The sizes of a canonical form's parts in octets, and its class, type and TTL.
#[derive(Clone, Copy, Debug)]
pub(crate) struct FormSpan {
    /// The octets of the owner, and of its key.
    pub(crate) owner_size: usize,
    /// The canonical octets.
    pub(crate) size: usize,
    pub(crate) class: u16,
    pub(crate) rtype: u16,
    pub(crate) ttl: u32,
}
