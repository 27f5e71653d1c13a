//! Going over the strings of TXT data.

ghost use Rattle.std.specs.Prelude.{◌≡◌, ⊤};
ghost use Rattle.std.specs.Iterator.{YieldsFirstBy, item_count};
ghost use Rattle.dns_record.specs.CharStrs.{octets_of};
ghost use Rattle.dns_record.specs.Strings.{strings_in};

use dns_record::CharStr;
use dns_wire::SplitBytes;
use std::alloc::AllocError;
use std::marker::Model;

/// The strings of TXT data, in order (RFC 1035 section 3.3.14). It is seen as the strings that are still to
/// come, without their length octets.
#[derive(Debug, Drop)]
pub struct TxtIter<'a> {
    octets: &'a [u8],
}

impl<'a> Model for TxtIter<'a> {
    ghost use Rattle.std.specs.Prelude.{List};
    ghost use Rattle.dns_record.specs.Strings.{strings_in};
    ghost use Rattle.dns_wire.specs.Octets.{Octets};

    ghost Value = { List Octets };

    ghost view = { λ i. strings_in i.octets.now };
}

impl<'a> TxtIter<'a> {
    /// Goes over the strings at the start of the octets.
    pub(crate) fn new(octets: &'a [u8]) -> TxtIter<'a>
        ensures { result ≡ strings_in octets.entry.now }
    {
        TxtIter { octets }
    }
}

impl<'a> Iterator for TxtIter<'a> {
    type Item = CharStr<'a>;

    ghost next_gives = { YieldsFirstBy (λ string. octets_of string.slice.now) (λ strings. strings) };

    ghost remaining = { item_count (λ strings. strings) };

    /// The next string. It is `None` if none is left, and then always.
    fn next(&mut self) -> Option<CharStr<'a>> {
        match CharStr::split_bytes(self.octets) {
            Ok((string, rest)) => {
                self.octets = rest;
                Some(string)
            }
            Err(_) => None,
        }
    }
}

impl<'a> Clone for TxtIter<'a> {
    ghost is_clone = { λ a b. b ≡ a };

    ghost is_infallible = { λ _. ⊤ };

    fn clone(&self) -> Result<TxtIter<'a>, AllocError> {
        Ok(TxtIter {
            octets: self.octets,
        })
    }
}
