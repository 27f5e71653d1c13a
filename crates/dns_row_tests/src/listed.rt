//! Rows of the digests of zones by the types of RFC 4034 section 6.2.

use crate::fields::Row;
use dns_command::PrintError;
use dns_name::RevNameBuf;
use dns_record::Formats;
use dns_text::octets_of;
use dns_zone::{ZoneDigest, ZoneRefusal, zone_digest_by};
use std::alloc::Global;
use std::io;

/// The digest of the zone of an apex, for the message that a text spells.
fn listed_digest(
    alloc: Global,
    apex: &RevNameBuf,
    text: &str,
) -> Result<ZoneDigest, PrintError<ZoneRefusal>> {
    let message = octets_of(alloc, text.as_bytes())?;
    zone_digest_by(alloc, &[&message], apex, Formats::Listed)
}

/// Prints the digest of the zone of an apex, or why there is none.
pub(crate) fn show_listed(rt: &impl Print, alloc: Global, row: Row<'_>) -> io::Result<()> {
    let Ok(apex) = RevNameBuf::parse_str(row.first.as_bytes()) else {
        return println!(rt; "{}: no apex", row.name);
    };
    match listed_digest(alloc, &apex, row.second) {
        Ok(found) => {
            println!(rt;
                "{}: {}",
                row.name,
                hex::encode(alloc, found.digest.as_slice())?
            )
        }
        Err(error) => println!(rt; "{}: {error:?}", row.name),
    }
}
