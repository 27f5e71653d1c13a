//! What is printed for the sorted records of a zone.

ghost use Rattle.std.specs.Prelude.{◌≡◌, ◌++◌, ℕ, IfOk, OnOk, flat_map};
ghost use Rattle.dns_wire.specs.Octets.{Octets};
ghost use Rattle.dns_zonemd.specs.Sums.{AreSums};
ghost use Rattle.dns_zonemd.specs.Verdicts.{sums_text, verdict_line};

use crate::verdict::push_verdict;
use dns_message::CanonicalForm;
use std::alloc::{AllocError, Global};

/// How many members a zone has, how many canonical octets these have, and the digests of these octets.
#[derive(Clone, Copy, Debug)]
pub(crate) struct ZoneSums {
    pub(crate) records: u64,
    pub(crate) octets: u128,
    pub(crate) sha384: [u8; 48],
    pub(crate) sha512: [u8; 64],
}

/// The lines for the sums.
fn sums_text(alloc: Global, sums: &ZoneSums) -> Result<Vec<u8>, AllocError>
    ensures { IfOk result (λ text. (records : ℕ) (stream : Octets) → AreSums records stream sums.now → text.items ≡ sums_text records stream) }
{
    let sha384 = hex::encode(alloc, sums.sha384.as_slice())?;
    let sha512 = hex::encode(alloc, sums.sha512.as_slice())?;
    let text = format!(in alloc;
        "records {} octets {}\nsha384 {}\nsha512 {}\n",
        sums.records, sums.octets, sha384, sha512
    )?;
    Ok(text.into_bytes())
}

/// The text for the sums over a zone's members and for its ZONEMD records.
pub(crate) fn report_text(
    alloc: Global,
    sums: &ZoneSums,
    soas: &[CanonicalForm<'_>],
    zonemds: &[CanonicalForm<'_>],
) -> Result<Vec<u8>, AllocError>
    ensures { IfOk result (λ text. (records : ℕ) (stream : Octets) → AreSums records stream sums.now
        → text.items ≡ sums_text records stream ++ flat_map (verdict_line soas.now zonemds.now stream) zonemds.now) }
{
    let mut text = sums_text(alloc, sums)?;
    for zonemd in zonemds {
        push_verdict(alloc, soas, zonemds, sums, zonemd, &mut text)?;
    }
    Ok(text)
}
