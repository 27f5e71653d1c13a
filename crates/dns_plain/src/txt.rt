//! Texts.

ghost use Rattle.std.specs.Prelude.{◌≡◌, ◌≤◌, ◌<◌, ◌^◌, ℕ, List, [], ◌∷◌, length, map, take, Option, Some, IfOk, true, ⊤};
ghost use Rattle.std.proofs.Props.{props};
ghost use Rattle.std.specs.Cmp.{on_equiv, partial_equiv_from_equiv};
ghost use Rattle.std.specs.Cmp.Lexicographic.{lists_equiv, on_texts_equal};
ghost use Rattle.std.specs.Ordering.{on};
ghost use Rattle.std.specs.Str.{str_to_ascii_lowercase};
ghost use Rattle.std.proofs.Common.{◌∙◌, ap};
ghost use Rattle.std.proofs.lemmas.List.{append-nil};
ghost use Rattle.dns_wire.specs.Building.{Builds};
ghost use Rattle.dns_wire.specs.Compression.{FitsIn};
ghost use Rattle.dns_wire.specs.InMessage.{BuildsIn};
ghost use Rattle.dns_wire.specs.Layout.{octets_writes};
ghost use Rattle.dns_wire.specs.Layout.LayoutPart.{OctetsPart};
ghost use Rattle.dns_wire.specs.LayoutLemmas.{part_matches};
ghost use Rattle.dns_wire.specs.Reading.{Gives, all_of, all_at, plain_at};
ghost use Rattle.dns_record.specs.Canonical.{ranked_cmp};
ghost use Rattle.dns_record.specs.CharStrs.{same_charstr};
ghost use Rattle.dns_record.specs.Fields.{Field, canonical_octets};
ghost use Rattle.dns_record.specs.Kinds.{fields_of, no_name};
ghost use Rattle.dns_record.specs.DataLemmas.{uncompressed_leave, uncompressed_end};
ghost use Rattle.dns_record.specs.Formats.{rdata_format};
ghost use Rattle.dns_record.specs.CharacterStrings.{is_txt_data, character_strings_octets};
ghost use Rattle.dns_record.proofs.Sizes.{canonical_long};
ghost use Rattle.dns_record.specs.Strings.{strings_in, same_strings, strings_writes, same_strings_alike};
ghost use Rattle.dns_plain.specs.Types.{txt_fields};

use crate::txt_iter::TxtIter;
use dns_record::{CanonicalRecordData, DataOfType, RType, are_character_strings};
use dns_wire::{
    AsBytes, BuildBytes, BuildInMessage, NameCompressor, ParseBytes, ParseError, ParseMessageBytes,
    TruncationError, build_whole, parse_without_compression, put, whole,
};
use std::cmp::Ordering;
use std::hash::{Hash, Hasher};

/// Texts: one character string or more, of at most 65,535 octets in all (RFC 1035 section 3.3.14).
#[derive(Clone, Copy, Debug)]
pub struct Txt<'a> {
    /// The strings one after another, each after its length octet.
    pub slice: &'a [u8],
    ghost is_txt: { is_txt_data slice.now ≡ true } by { Prim.hlevel props },
}

impl<'a> Txt<'a> {
    /// Goes over the strings in order, from 1 to 65,535.
    pub fn iter(&self) -> TxtIter<'a>
        ensures strings { result ≡ strings_in self.now.slice.now }
        ensures whole { character_strings_octets result ≡ self.now.slice.now }
        ensures few { length result ≤ 65535 }
    {
        TxtIter::new(self.slice)
    }
}

impl AsBytes for Txt<'_> {
    fn as_bytes(&self) -> &[u8] {
        self.slice
    }
}

/// `ParseError` comes exactly if the octets are none, or more than 65,535, or strings don't fill them.
impl<'a> ParseBytes<'a> for Txt<'a> {
    ghost Seen = { List Field };

    ghost seen = { λ v. txt_fields v.slice.now };

    ghost reads = { fields_of no_name (rdata_format 16) };

    ghost reads_at = { plain_at (fields_of no_name (rdata_format 16)) };

    ghost leaves_rest = { uncompressed_leave (rdata_format 16) };

    ghost ends_within = { uncompressed_end (rdata_format 16) };

    fn parse_bytes(bytes: &'a [u8]) -> Result<Txt<'a>, ParseError> {
        if are_character_strings(bytes) {
            Ok(Txt { slice: bytes })
        } else {
            Err(ParseError)
        }
    }
}

impl<'a> ParseMessageBytes<'a> for Txt<'a> {
    fn parse_message_bytes(contents: &'a [u8], start: usize) -> Result<Txt<'a>, ParseError> {
        parse_without_compression(contents, start)
    }
}

impl<'a> DataOfType<'a> for Txt<'a> {
    ghost number = { 16 };

    fn rtype() -> RType
        ensures { result.code.value ≡ 16 }
    {
        RType::TXT
    }
}

impl BuildBytes for Txt<'_> {
    ghost octets = { λ v. v.slice.now };

    fn build_at(&self, bytes: &mut [u8], start: usize) -> Result<usize, TruncationError> {
        put(self.slice, bytes, start)
    }

    fn built_bytes_size(&self) -> usize {
        self.slice.len()
    }
}

/// Uncompressed, as one part.
impl BuildInMessage for Txt<'_> {
    ghost writes = { λ v. octets_writes v.slice.now };

    ghost layout = { λ v. Some (OctetsPart v.slice.now ∷ []) };

    ghost layout_matches = { λ v. part_matches (OctetsPart v.slice.now) };

    fn build_in_message(
        &self,
        contents: &mut [u8],
        start: usize,
        compressor: &mut NameCompressor,
    ) -> Result<usize, TruncationError> {
        build_whole(self, contents, start, compressor)
    }
}

impl CanonicalRecordData for Txt<'_> {
    ghost canonical = { λ v. canonical_octets 16 (txt_fields v.slice.now) };

    ghost as_long = { λ v. canonical_long 16 (txt_fields v.slice.now) ∙ ap length (append-nil v.slice.now) };

    fn build_canonical_at(&self, bytes: &mut [u8], start: usize) -> Result<usize, TruncationError> {
        self.build_at(bytes, start)
    }

    fn cmp_canonical(&self, other: &Self) -> Ordering {
        self.slice.cmp(other.slice)
    }
}

impl PartialEq for Txt<'_> {
    ghost eq = { on (λ v. strings_in v.slice.now) same_strings };

    ghost laws = { partial_equiv_from_equiv (on_equiv (λ v. strings_in v.slice.now) (lists_equiv (on_texts_equal str_to_ascii_lowercase))) };

    /// Whether the strings are the same in order, ignoring ASCII case (RFC 1035 section 2.3.3).
    fn eq(&self, other: &Self) -> bool {
        let mut strings = self.iter();
        let mut others = other.iter();
        while let Some(string) = strings.next() {
            let Some(other) = others.next() else {
                return false;
            };
            if string != other {
                return false;
            }
        }
        others.next().is_none()
    }
}

impl Eq for Txt<'_> {
    ghost laws = { on_equiv (λ v. strings_in v.slice.now) (lists_equiv (on_texts_equal str_to_ascii_lowercase)) };
}

impl Hash for Txt<'_> {
    ghost hash_input = { λ v. strings_writes (strings_in v.slice.now) };

    ghost respects_eq = { λ a b same. same_strings_alike (strings_in a.slice.now) (strings_in b.slice.now) same };

    /// Feeds each string in order: its length octet and its octets in lowercase, in one write.
    fn hash<H: Hasher>(&self, state: &mut H) {
        let mut strings = self.iter();
        while let Some(string) = strings.next() {
            string.hash(state);
        }
    }
}
