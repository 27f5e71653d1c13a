//! Reading several values.

ghost use Rattle.std.specs.Prelude.{map};
ghost use Rattle.dns_wire.specs.Lists.{GivesList, list_of};

use crate::parse::SplitBytes;
use std::alloc::Global;

/// Why a list could not be read.
#[derive(Clone, Copy, Debug, PartialEq, Eq)]
pub enum ListError {
    /// One of the values was not read.
    Parse,
    /// Memory ran out.
    Memory,
}

/// Reads `n` values one after another, and gives the octets after them. `Parse` comes exactly if one of
/// them is not read; `Memory` may come in place of any answer.
pub fn split_list<'a, T: SplitBytes<'a>>(
    alloc: Global,
    bytes: &'a [u8],
    n: usize,
) -> Result<(Vec<T>, &'a [u8]), ListError>
    ensures { GivesList (λ x. (map T.seen x.0.items, x.1.now)) result (list_of T.reads n bytes.now) }
{
    let mut values = Vec::new(alloc);
    let mut rest = bytes;
    let mut left = n;
    while left > 0 {
        let Ok((value, next)) = T::split_bytes(rest) else {
            return Err(ListError::Parse);
        };
        let Ok(()) = values.push(value) else {
            return Err(ListError::Memory);
        };
        rest = next;
        left -= 1;
    }
    Ok((values, rest))
}
