//! Parts of octets, of which there may be fewer.

ghost use Rattle.std.specs.Prelude.{◌≡◌, ◌≤◌, drop, length, slice_index, take};
ghost use Rattle.dns_wire.specs.Names.{name_labels, plain_name};
ghost use Rattle.dns_denial.specs.Coverage.{name_before};

use dns_name::Name;
use dns_wire::SplitBytes;

/// The octet of an index, and 0 if there are fewer octets.
pub(crate) fn octet_at(octets: &[u8], index: usize) -> u8
    ensures { result ≡ slice_index octets.now index }
{
    match octets.get(index) {
        Some(octet) => *octet,
        None => 0,
    }
}

/// The octets from an index on; none if there are fewer.
pub(crate) fn octets_from(octets: &[u8], start: usize) -> &[u8]
    ensures { result.now ≡ drop start octets.now }
{
    &octets[start.min(octets.len())..]
}

/// That many octets from the first on, or all if there are fewer.
pub(crate) fn first_octets(octets: &[u8], count: usize) -> &[u8]
    ensures octets { result.now ≡ take count octets.now }
    ensures most { length result.now ≤ count }
{
    &octets[..count.min(octets.len())]
}

/// The name at the start of octets; the root if they begin with no name.
pub(crate) fn name_at_start(octets: &[u8]) -> Name<'_>
    ensures { name_labels result.slice.now ≡ name_before (plain_name octets.now) }
{
    match Name::split_bytes(octets) {
        Ok((name, _)) => name,
        Err(_) => Name::root(),
    }
}
