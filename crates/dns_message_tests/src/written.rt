//! What values write, through the bounds of their traits.

use dns_record::CanonicalRecordData;
use dns_wire::BuildBytes;

/// Whether the value writes these octets.
pub(crate) fn writes<T: BuildBytes>(value: &T, wanted: &[u8]) -> bool {
    let mut buffer = [0; 128];
    match value.build_at(&mut buffer, 0) {
        Ok(end) => buffer.get(..end) == Some(wanted),
        Err(_) => false,
    }
}

/// Whether these are the canonical octets of the value.
pub(crate) fn writes_canonical<T: CanonicalRecordData>(value: &T, wanted: &[u8]) -> bool {
    let mut buffer = [0; 128];
    match value.build_canonical_at(&mut buffer, 0) {
        Ok(end) => buffer.get(..end) == Some(wanted),
        Err(_) => false,
    }
}
