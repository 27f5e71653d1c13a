//! Which formats of RDATA a call goes by.

ghost use Rattle.std.specs.Prelude.{◌≡◌};
ghost use Rattle.nelgvasti.specs.Formats.{formats_of};

use dns_record::Formats;

/// The formats of the calls that have no such argument.
pub const USUAL: u32 = 0;

/// And those of the further types whose names are in lowercase in canonical form (RFC 4034 section 6.2), as signers have them.
pub const LISTED: u32 = 1;

/// The formats that a number names; `None` if it is another number.
pub(crate) fn formats_of(number: u32) -> Option<Formats>
    ensures { result ≡ formats_of number }
{
    match number {
        USUAL => Some(Formats::Usual),
        LISTED => Some(Formats::Listed),
        _ => None,
    }
}
