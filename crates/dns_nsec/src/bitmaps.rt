//! Bitmaps of types.

ghost use Rattle.dns_wire.specs.ReadingLemmas.{plain_ends};
ghost use Rattle.dns_record.specs.DataLemmas.{bitmap_leaves};
ghost use Rattle.std.specs.Prelude.{◌≡◌, ◌↔◌, ◌∷◌, IsTrue, Contains, ℕ, List, [], true, length, ◌≤◌, ◌<◌, IfSome, MatchOption, ⊤};
ghost use Rattle.std.proofs.Props.{props};
ghost use Rattle.dns_wire.specs.Reading.{plain_at};
ghost use Rattle.dns_record.specs.InPlace.{WindowsFrom};
ghost use Rattle.dns_record.specs.TypeBitMaps.{is_bitmap, bitmap};
ghost use Rattle.dns_nsec.specs.Bitmaps.{IsMarked, types_in, windows_in};
ghost use Rattle.dns_nsec.specs.Seen.{window_seen};

use crate::laws::types_of_bitmaps;
use crate::type_iter::TypeIter;
use crate::window::Window;
use dns_record::{RType, are_windows};
use dns_wire::{AsBytes, BuildBytes, ParseBytes, ParseError, TruncationError, put};

/// The types that there are at a name, as windows of bits whose numbers strictly rise (RFC 4034
/// section 4.1.2). A window has 1 to 32 octets of bits, the last of them not 0.
#[derive(Clone, Copy, Debug, PartialEq, Eq, Hash)]
pub struct TypeBitmaps<'a> {
    /// The windows: for each its number, the number of its octets of bits, and these.
    pub slice: &'a [u8],
    ghost is_bitmap: { is_bitmap slice.now ≡ true } by { Prim.hlevel props },
}

impl<'a> TypeBitmaps<'a> {
    /// The types, strictly rising (`types_of_bitmaps`).
    pub fn types(&self) -> TypeIter<'a>
        ensures { result ≡ types_in self.now.slice.now }
    {
        TypeIter::new(*self)
    }

    /// The same as `types`.
    pub fn iter(&self) -> TypeIter<'a>
        ensures { result ≡ types_in self.now.slice.now }
    {
        TypeIter::new(*self)
    }

    /// Whether the type is among them.
    pub fn contains(&self, rtype: RType) -> bool
        ensures among { IsTrue result ↔ Contains (types_in self.now.slice.now) rtype.code.value }
        ensures marked { IsTrue result ↔ IsMarked self.now.slice.now rtype.code.value }
    {
        let code = rtype.code.get() as usize;
        let mut rest = *self;
        while let Some((window, later)) = rest.split_first() {
            if window.number as usize == code / 256 {
                return window.is_set(code % 256);
            }
            rest = later;
        }
        false
    }

    /// Whether there is no type, which is the same as no window (`types_of_bitmaps`).
    pub fn is_empty(&self) -> bool
        ensures { IsTrue result ↔ (types_in self.now.slice.now ≡ []) }
    {
        has_no_type(self.slice)
    }

    /// The first window, and the windows after it; `None` if there is no window.
    pub(crate) fn split_first(&self) -> Option<(Window<'a>, TypeBitmaps<'a>)>
        ensures windows { MatchOption result (windows_in self.now.slice.now ≡ [])
            (λ x. windows_in self.now.slice.now ≡ window_seen x.0 ∷ windows_in x.1.slice.now) }
        ensures few { IfSome result (λ x. length x.0.bits.now ≤ 32) }
        ensures shorter { IfSome result (λ x. length x.1.slice.now < length self.now.slice.now) }
        ensures rise { WindowsFrom 0 (windows_in self.now.slice.now) }
    {
        match Window::split(0, self.slice) {
            Ok((window, rest)) => Some((window, TypeBitmaps { slice: rest })),
            Err(_) => None,
        }
    }
}

/// Whether there is no type in a bitmap, which is the same as no window.
fn has_no_type(octets: &[u8]) -> bool
    requires { is_bitmap octets.now ≡ true }
    ensures { IsTrue result ↔ (types_in octets.now ≡ []) }
{
    types_of_bitmaps();
    octets.is_empty()
}

impl<'a> ParseBytes<'a> for TypeBitmaps<'a> {
    ghost Seen = { List ℕ };

    ghost seen = { λ v. v.slice.now };

    ghost reads = { bitmap };

    ghost reads_at = { plain_at bitmap };

    ghost leaves_rest = { bitmap_leaves };

    ghost ends_within = { plain_ends bitmap bitmap_leaves };

    fn parse_bytes(bytes: &'a [u8]) -> Result<TypeBitmaps<'a>, ParseError> {
        if are_windows(bytes) {
            Ok(TypeBitmaps { slice: bytes })
        } else {
            Err(ParseError)
        }
    }
}

impl AsBytes for TypeBitmaps<'_> {
    fn as_bytes(&self) -> &[u8] {
        self.slice
    }
}

impl BuildBytes for TypeBitmaps<'_> {
    ghost octets = { λ v. v.slice.now };

    fn build_at(&self, bytes: &mut [u8], start: usize) -> Result<usize, TruncationError> {
        put(self.slice, bytes, start)
    }

    fn built_bytes_size(&self) -> usize {
        self.slice.len()
    }
}
