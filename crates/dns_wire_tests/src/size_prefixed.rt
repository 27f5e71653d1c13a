//! Data after the number of their octets.

use crate::holds::all_hold;
use dns_num::{SizePrefixed, U16};
use dns_wire::{BuildBytes, SplitBytes};

/// Whether an octet and a text are written after the size of both in two octets.
fn writes_parts(octet: u8, text: &str, octets: &[u8]) -> bool {
    let mut buffer = [0xee; 10];
    let parts = SizePrefixed::<U16, (u8, &str)>::new((octet, text));
    match parts.build_at(&mut buffer, 1) {
        Ok(end) => &buffer[1..end] == octets && buffer[0] == 0xee && buffer[9] == 0xee,
        Err(_) => false,
    }
}

/// Whether the text is after its size in one octet, and these octets are left.
fn splits_text(octets: &[u8], wanted: &str, left: &[u8]) -> bool {
    match SizePrefixed::<u8, &str>::split_bytes(octets) {
        Ok((text, rest)) => text.into_data() == wanted && rest == left,
        Err(_) => false,
    }
}

#[test]
fn data_are_written_and_read_after_their_size(rt: HostRuntime) {
    let is_written = writes_parts(7, "Hello", b"\0\x06\x07Hello");
    all_hold(
        &rt,
        &[
            ("an octet and a text", is_written),
            ("a text", splits_text(b"\x05Hello!", "Hello", b"!")),
        ],
    );
}
