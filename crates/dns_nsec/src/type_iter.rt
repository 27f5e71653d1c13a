//! Going over the types of a bitmap.

ghost use Rattle.std.specs.Prelude.{◌≡◌, ⊤};
ghost use Rattle.std.specs.Iterator.{YieldsFirstBy, item_count};
ghost use Rattle.dns_nsec.specs.Bitmaps.{types_in};

use crate::bitmaps::TypeBitmaps;
use crate::window::Window;
use dns_record::RType;
use std::alloc::AllocError;
use std::marker::Model;

/// The types of a bitmap in rising order. It is seen as the types that are still to come.
#[derive(Debug, Drop)]
pub struct TypeIter<'a> {
    window: Window<'a>,
    place: usize,
    rest: TypeBitmaps<'a>,
}

impl<'a> Model for TypeIter<'a> {
    ghost use Rattle.std.specs.Prelude.{◌≤◌, ◌++◌, ℕ, List, length};
    ghost use Rattle.dns_nsec.specs.Bitmaps.{types_from, types_in};

    ghost Value = { List ℕ };

    ghost view = { λ i. types_from i.window.number i.window.bits.now i.place ++ types_in i.rest.slice.now };

    ghost invariant = { λ i. (length i.window.bits.now ≤ 32) × (i.place ≤ 256) };
}

impl<'a> TypeIter<'a> {
    /// Goes over the types of the bitmap.
    pub(crate) fn new(types: TypeBitmaps<'a>) -> TypeIter<'a>
        ensures { result ≡ types_in types.entry.slice.now }
    {
        TypeIter {
            window: Window::empty(),
            place: 0,
            rest: types,
        }
    }
}

impl<'a> Iterator for TypeIter<'a> {
    type Item = RType;

    ghost next_gives = { YieldsFirstBy (λ rtype. rtype.code.value) (λ types. types) };

    ghost remaining = { item_count (λ types. types) };

    /// The next type. It is `None` if none is left, and then always.
    fn next(&mut self) -> Option<RType> {
        let mut window = self.window;
        let mut from = self.place;
        let mut rest = self.rest;
        loop {
            if let Some(place) = window.next_set(from) {
                self.window = window;
                self.place = place + 1;
                self.rest = rest;
                return Some(window.rtype(place));
            }
            let (trailing, later) = rest.split_first()?;
            window = trailing;
            from = 0;
            rest = later;
        }
    }
}

impl<'a> Clone for TypeIter<'a> {
    ghost is_clone = { λ a b. b ≡ a };

    ghost is_infallible = { λ _. ⊤ };

    fn clone(&self) -> Result<TypeIter<'a>, AllocError> {
        Ok(TypeIter {
            window: self.window,
            place: self.place,
            rest: self.rest,
        })
    }
}
