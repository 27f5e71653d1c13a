//! A character string as a view over its octets.

ghost use Rattle.std.specs.Prelude.{◌≡◌, ◌≤◌, ◌↔◌, ℕ, List, [], length, Some, None, IsTrue, ⊤};
ghost use Rattle.std.proofs.Props.{props};
ghost use Rattle.std.specs.Cmp.{on_equiv, partial_equiv_from_equiv};
ghost use Rattle.std.specs.Cmp.Lexicographic.{on_texts_equal, slice_cmp};
ghost use Rattle.std.specs.Ordering.{nat_cmp, on};
ghost use Rattle.std.specs.Str.{str_to_ascii_lowercase};
ghost use Rattle.dns_record.specs.DataLemmas.{character_string_leaves};
ghost use Rattle.dns_wire.specs.Layout.{octets_writes};
ghost use Rattle.dns_wire.specs.Reading.{all_of};
ghost use Rattle.dns_record.specs.CharStrs.{charstr_wire, octets_of, same_charstr};
ghost use Rattle.dns_record.specs.CharStrHashing.{charstr_writes, same_charstrs_alike};
ghost use Rattle.dns_record.specs.CharacterStrings.{character_string};

use crate::charstr_buf::CharStrBuf;
use dns_wire::{
    BuildBytes, BuildInMessage, NameCompressor, ParseError, ReadPlainValue, TruncationError,
    build_whole, put,
};
use std::cmp::Ordering;
use std::hash::{Hash, Hasher};

/// A character string: an octet with the number of the others, and that many octets (RFC 1035 section 3.3).
/// What contracts see of it are the octets after that number.
#[derive(Clone, Copy, Debug)]
pub struct CharStr<'a> {
    /// The length octet and the octets.
    pub slice: &'a [u8],
    ghost is_charstr: { all_of (character_string slice.now) ≡ Some (octets_of slice.now) } by { Prim.hlevel props },
}

impl<'a> CharStr<'a> {
    /// The octets without the length octet, from 0 to 255.
    pub fn octets(&self) -> &'a [u8]
        ensures octets { result.now ≡ octets_of self.now.slice.now }
        ensures short { length result.now ≤ 255 }
    {
        let size = self.slice[0] as usize;
        &self.slice[1..1 + size]
    }

    /// The length octet and the octets.
    pub(crate) fn wire(&self) -> &'a [u8]
        ensures octets { result.now ≡ self.now.slice.now }
        ensures wire { result.now ≡ charstr_wire (octets_of self.now.slice.now) }
    {
        self.slice
    }

    /// The order of the two as they are on the wire: the shorter comes first (RFC 4034 section 6.3).
    pub fn cmp_composed(&self, other: &CharStr<'_>) -> Ordering
        ensures { result ≡ slice_cmp nat_cmp (charstr_wire (octets_of self.now.slice.now)) (charstr_wire (octets_of other.now.slice.now)) }
    {
        self.wire().cmp(other.wire())
    }

    /// The number of octets, from 0 to 255, the length octet not counted.
    pub fn len(&self) -> usize
        ensures size { result ≡ length (octets_of self.now.slice.now) }
        ensures short { result ≤ 255 }
    {
        self.octets().len()
    }

    /// Whether there are no octets but the length octet.
    pub fn is_empty(&self) -> bool
        ensures { IsTrue result ↔ (octets_of self.now.slice.now ≡ []) }
    {
        self.octets().is_empty()
    }
}

impl<'a> ReadPlainValue<'a> for CharStr<'a> {
    ghost Seen = { List ℕ };

    ghost seen = { λ v. octets_of v.slice.now };

    ghost reads = { character_string };

    ghost leaves_rest = { character_string_leaves };

    fn read_plain(bytes: &'a [u8]) -> Result<(CharStr<'a>, &'a [u8]), ParseError> {
        let [size, trailing @ ..] = bytes else {
            return Err(ParseError);
        };
        let size = *size as usize;
        if trailing.len() < size {
            return Err(ParseError);
        }
        let (slice, rest) = bytes.split_at(1 + size);
        Ok((CharStr { slice }, rest))
    }
}

impl BuildBytes for CharStr<'_> {
    ghost octets = { λ v. charstr_wire (octets_of v.slice.now) };

    fn build_at(&self, bytes: &mut [u8], start: usize) -> Result<usize, TruncationError> {
        put(self.wire(), bytes, start)
    }

    /// The number of octets, from 1 to 256.
    fn built_bytes_size(&self) -> usize
        ensures size { result ≡ length (charstr_wire (octets_of self.now.slice.now)) }
        ensures short { result ≤ 256 }
    {
        1 + self.len()
    }
}

/// Whole, with no name in it.
impl BuildInMessage for CharStr<'_> {
    ghost writes = { λ v. octets_writes (charstr_wire (octets_of v.slice.now)) };

    ghost layout_matches = { λ _. tt };

    fn build_in_message(
        &self,
        contents: &mut [u8],
        start: usize,
        compressor: &mut NameCompressor,
    ) -> Result<usize, TruncationError> {
        build_whole(self, contents, start, compressor)
    }
}

impl PartialEq for CharStr<'_> {
    ghost eq = { on (λ v. octets_of v.slice.now) same_charstr };

    ghost laws = { partial_equiv_from_equiv (on_equiv (λ v. octets_of v.slice.now) (on_texts_equal str_to_ascii_lowercase)) };

    /// Whether the octets are the same, ignoring ASCII case (RFC 1035 section 2.3.3). Equal strings may have
    /// unequal canonical octets, which keep the case (RFC 4034 section 6.2).
    fn eq(&self, other: &Self) -> bool {
        self.octets().eq_ignore_ascii_case(other.octets())
    }
}

impl Eq for CharStr<'_> {
    ghost laws = { on_equiv (λ v. octets_of v.slice.now) (on_texts_equal str_to_ascii_lowercase) };
}

impl Hash for CharStr<'_> {
    ghost hash_input = { λ v. charstr_writes (octets_of v.slice.now) };

    ghost respects_eq = { λ a b same. same_charstrs_alike (octets_of a.slice.now) (octets_of b.slice.now) same };

    /// Feeds the length octet and the octets in lowercase, in one write.
    fn hash<H: Hasher>(&self, state: &mut H) {
        let mut lowered = CharStrBuf::copy_from(*self);
        lowered.octets_mut().make_ascii_lowercase();
        state.write(lowered.wire_bytes());
    }
}
