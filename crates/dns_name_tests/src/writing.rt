//! Values written in a message.

use dns_wire::{BuildInMessage, NameCompressor};

/// Where the value ends that is written at the start of a message, if names can then point to these offsets.
pub(crate) fn end_in_message<T: BuildInMessage>(
    value: &T,
    contents: &mut [u8],
    places: &[u16],
) -> Option<usize> {
    let mut compressor = NameCompressor::new();
    match value.build_in_message(contents, 0, &mut compressor) {
        Ok(end) => {
            if compressor.places() == places {
                Some(end)
            } else {
                None
            }
        }
        Err(_) => None,
    }
}
