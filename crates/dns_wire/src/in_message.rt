//! Writing values in a message, where names are written once and pointed to from then on.

ghost use Rattle.std.specs.Prelude.{◌≤◌, List, ℕ, [], ◌∷◌, length, take, Option, None, ⊤};
ghost use Rattle.dns_wire.specs.Compression.{CompressedWrite, FitsIn};
ghost use Rattle.dns_wire.specs.InMessage.{BuildsIn, then_fits, list_fits};
ghost use Rattle.dns_wire.specs.Layout.{LayoutPart, LayoutMatches, octets_writes, then_writes, list_writes, both_layouts};
ghost use Rattle.dns_wire.specs.LayoutLemmas.{then_matches};

use crate::build::{BuildBytes, put};
use crate::compression::NameCompressor;
use crate::error::TruncationError;
use std::rc::Rc;

/// A type whose values are written in a message, where names that were written before can be pointed to.
pub trait BuildInMessage {
    /// What is written after contents if names at these places are known: the octets, and the places
    /// afterwards.
    ghost writes: { Self → CompressedWrite };

    /// All its prefixed data fit their prefixes, if it is written after contents and names at these
    /// places are known.
    ghost fits_in: { Self → List ℕ → List ℕ → Type 0 } = { λ _ _ _. ⊤ };

    /// The value's layout, if it is known: names that are compressed, and octets as they are.
    ghost layout: { Self → Option (List LayoutPart) } = { λ _. None };

    /// Writes the value at a place of the contents, which are the octets after the header, and gives the
    /// place where it ends. The compressor knows names before `start`, and afterwards those of the value
    /// too. It is accepted exactly if the prefixed data fit and the octets are at most those from
    /// `start` on. After `TruncationError` the octets before `start` and the compressor are as before.
    fn build_in_message(
        &self,
        contents: &mut [u8],
        start: usize,
        compressor: &mut NameCompressor,
    ) -> Result<usize, TruncationError>
        requires room { start ≤ length contents.old }
        requires known { FitsIn compressor.old (take start contents.old) }
        ensures { BuildsIn (fits_in self.now (take start contents.old) compressor.old)
            (writes self.now (take start contents.old) compressor.old)
            contents.old start compressor.old contents.new compressor.new result };

    /// Writes the values one after another at a place of the contents, and gives the place where they end.
    /// Each can point to names of those before it. After `TruncationError` the octets before `start` and
    /// the compressor are as before.
    fn build_all_in_message(
        values: &[Self],
        contents: &mut [u8],
        start: usize,
        compressor: &mut NameCompressor,
    ) -> Result<usize, TruncationError>
    where
        Self: Sized,
        requires room { start ≤ length contents.old }
        requires known { FitsIn compressor.old (take start contents.old) }
        ensures { BuildsIn (list_fits fits_in writes values.now (take start contents.old) compressor.old)
            (list_writes writes values.now (take start contents.old) compressor.old)
            contents.old start compressor.old contents.new compressor.new result }
    {
        let count = compressor.places().len();
        let mut end = start;
        for value in values {
            match value.build_in_message(contents, end, compressor) {
                Ok(next) => end = next,
                Err(error) => {
                    compressor.truncate(count);
                    return Err(error);
                }
            }
        }
        Ok(end)
    }

    /// If the layout is known, what is written is what its parts write one after another.
    ghost layout_matches: { (v : Self) → LayoutMatches (layout v) (writes v) };
}

/// Writes a value whole at a place of the contents, and gives the place where it ends. The compressor stays as
/// it is. It is accepted and refused as `build_at` is.
pub fn build_whole<T: BuildBytes>(
    value: &T,
    contents: &mut [u8],
    start: usize,
    compressor: &NameCompressor,
) -> Result<usize, TruncationError>
    requires room { start ≤ length contents.old }
    requires known { FitsIn compressor.now (take start contents.old) }
    ensures { BuildsIn (T.fits value.now) (octets_writes (T.octets value.now) (take start contents.old) compressor.now)
        contents.old start compressor.now contents.new compressor.now result }
{
    // It is passed so that the contract can say what becomes of its places.
    let _places = compressor;
    value.build_at(contents, start)
}

/// One octet.
impl BuildInMessage for u8 {
    ghost writes = { λ v. octets_writes (v ∷ []) };

    ghost layout_matches = { λ _. tt };

    fn build_in_message(
        &self,
        contents: &mut [u8],
        start: usize,
        _compressor: &mut NameCompressor,
    ) -> Result<usize, TruncationError> {
        put(&[*self], contents, start)
    }

    /// Writes all the octets by one copy.
    fn build_all_in_message(
        values: &[u8],
        contents: &mut [u8],
        start: usize,
        _compressor: &mut NameCompressor,
    ) -> Result<usize, TruncationError> {
        put(values, contents, start)
    }
}

/// No octets.
impl BuildInMessage for () {
    ghost writes = { λ _. octets_writes [] };

    ghost layout_matches = { λ _. tt };

    fn build_in_message(
        &self,
        _contents: &mut [u8],
        start: usize,
        _compressor: &mut NameCompressor,
    ) -> Result<usize, TruncationError> {
        Ok(start)
    }
}

/// What the reference leads to.
impl<T: BuildInMessage> BuildInMessage for &T {
    ghost writes = { λ v. T.writes v.now };

    ghost fits_in = { λ v. T.fits_in v.now };

    ghost layout = { λ v. T.layout v.now };

    ghost layout_matches = { λ v. T.layout_matches v.now };

    fn build_in_message(
        &self,
        contents: &mut [u8],
        start: usize,
        compressor: &mut NameCompressor,
    ) -> Result<usize, TruncationError> {
        (**self).build_in_message(contents, start, compressor)
    }
}

/// What the box holds.
impl<T: BuildInMessage> BuildInMessage for Box<T> {
    ghost writes = { λ v. T.writes v.value };

    ghost fits_in = { λ v. T.fits_in v.value };

    ghost layout = { λ v. T.layout v.value };

    ghost layout_matches = { λ v. T.layout_matches v.value };

    fn build_in_message(
        &self,
        contents: &mut [u8],
        start: usize,
        compressor: &mut NameCompressor,
    ) -> Result<usize, TruncationError> {
        self.as_ref().build_in_message(contents, start, compressor)
    }
}

/// What the pointer leads to.
impl<T: BuildInMessage> BuildInMessage for Rc<T> {
    ghost writes = { λ v. T.writes v.value };

    ghost fits_in = { λ v. T.fits_in v.value };

    ghost layout = { λ v. T.layout v.value };

    ghost layout_matches = { λ v. T.layout_matches v.value };

    fn build_in_message(
        &self,
        contents: &mut [u8],
        start: usize,
        compressor: &mut NameCompressor,
    ) -> Result<usize, TruncationError> {
        (**self).build_in_message(contents, start, compressor)
    }
}

/// Two values, one after the other.
impl<A: BuildInMessage, B: BuildInMessage> BuildInMessage for (A, B) {
    ghost writes = { λ v. then_writes (A.writes v.0) (B.writes v.1) };

    ghost fits_in = { λ v. then_fits (A.fits_in v.0) (A.writes v.0) (B.fits_in v.1) };

    ghost layout = { λ v. both_layouts (A.layout v.0) (B.layout v.1) };

    ghost layout_matches = { λ v. then_matches (A.writes v.0) (B.writes v.1) (A.layout v.0) (B.layout v.1) (A.layout_matches v.0) (B.layout_matches v.1) };

    fn build_in_message(
        &self,
        contents: &mut [u8],
        start: usize,
        compressor: &mut NameCompressor,
    ) -> Result<usize, TruncationError> {
        let known = compressor.places().len();
        let middle = self.0.build_in_message(contents, start, compressor)?;
        match self.1.build_in_message(contents, middle, compressor) {
            Ok(end) => Ok(end),
            Err(error) => {
                compressor.truncate(known);
                Err(error)
            }
        }
    }
}
