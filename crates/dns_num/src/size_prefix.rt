//! Numbers that say how many octets follow.

ghost use Rattle.std.specs.Prelude.{◌≡◌, ◌<◌, ◌≤◌, ◌^◌, ◌++◌, ◌⊎◌, ◌↔◌, length, drop, Some, IfOk, IsTrue};
ghost use Rattle.std.proofs.Common.{inl, inr, refl};
ghost use Rattle.std.specs.Int.{Width, w8, w16, byte_len, to_be_bytes};
ghost use Rattle.dns_wire.specs.Reading.{Gives, number, plain_at};

use crate::number16::U16;
use dns_wire::ParseError;

/// A number of one or two octets that says how many octets follow.
pub trait SizePrefix: Sized + Drop {
    /// How wide the number is.
    ghost number_width: { Width };

    /// Of how many octets the number is, 1 or 2.
    fn width() -> usize
        ensures { result ≡ byte_len number_width };

    /// The number in the first octets, the most significant first.
    fn read_size(bytes: &[u8]) -> usize
        requires { byte_len number_width ≤ length bytes.now }
        ensures { number number_width bytes.now ≡ Some (result, drop (byte_len number_width) bytes.now) };

    /// Puts the number into the first octets, the most significant first. All other octets stay.
    fn write_size(size: usize, bytes: &mut [u8])
        requires room { byte_len number_width ≤ length bytes.old }
        requires says { size < 256 ^ byte_len number_width }
        ensures { bytes.new ≡ to_be_bytes number_width size ++ drop (byte_len number_width) bytes.old };

    /// It has one octet or two.
    ghost one_or_two: { (number_width ≡ w8) ⊎ (number_width ≡ w16) };
}

impl SizePrefix for u8 {
    ghost number_width = { w8 };

    fn width() -> usize {
        1
    }

    fn read_size(bytes: &[u8]) -> usize {
        bytes[0] as usize
    }

    fn write_size(size: usize, bytes: &mut [u8]) {
        bytes[0] = size as u8;
    }

    ghost one_or_two = { inl refl };
}

impl SizePrefix for U16 {
    ghost number_width = { w16 };

    fn width() -> usize {
        2
    }

    fn read_size(bytes: &[u8]) -> usize {
        u16::from_be_bytes([bytes[0], bytes[1]]) as usize
    }

    fn write_size(size: usize, bytes: &mut [u8]) {
        bytes[..2].copy_from_slice(&(size as u16).to_be_bytes());
    }

    ghost one_or_two = { inr refl };
}

/// Whether the prefix can say the size.
pub(crate) fn can_say<S: SizePrefix>(size: usize) -> bool
    ensures { IsTrue result ↔ (size < 256 ^ byte_len S.number_width) }
{
    size >> (8 * S::width()) == 0
}

/// Reads the prefix, and gives the octets after it. `ParseError` comes exactly if there are too few.
pub(crate) fn split_size<S: SizePrefix>(bytes: &[u8]) -> Result<(usize, &[u8]), ParseError>
    ensures exact { Gives (λ x. (x.0, x.1.now)) result (number S.number_width bytes.now) }
    ensures within { IfOk result (λ x. length x.1.now ≤ length bytes.now) }
{
    let width = S::width();
    if bytes.len() < width {
        return Err(ParseError);
    }
    Ok((S::read_size(bytes), &bytes[width..]))
}

/// Reads the prefix at a place in a message, and gives the place after it. `ParseError` comes exactly where
/// too few octets stand there.
pub(crate) fn split_size_at<S: SizePrefix>(
    contents: &[u8],
    start: usize,
) -> Result<(usize, usize), ParseError>
    ensures exact { Gives (λ x. x) result (plain_at (number S.number_width) contents.now start) }
    ensures within { IfOk result (λ x. (start ≤ x.1) × (x.1 ≤ length contents.now)) }
{
    if contents.len() < start {
        return Err(ParseError);
    }
    let (_, after) = contents.split_at(start);
    let (size, rest) = split_size::<S>(after)?;
    Ok((size, contents.len() - rest.len()))
}
