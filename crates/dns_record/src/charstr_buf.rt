//! A character string with its octets.

ghost use Rattle.dns_record.specs.DataLemmas.{character_string_leaves};
ghost use Rattle.std.specs.Prelude.{◌≡◌, ◌≤◌, ℕ, List, [], length, None, ⊤};
ghost use Rattle.std.specs.Borrow.{sem};
ghost use Rattle.std.specs.Cmp.{partial_equiv_from_equiv};
ghost use Rattle.std.specs.Cmp.Lexicographic.{on_texts_equal};
ghost use Rattle.std.specs.Str.{str_to_ascii_lowercase};
ghost use Rattle.dns_wire.specs.Layout.{octets_writes};
ghost use Rattle.dns_record.specs.CharStrs.{FitsCharacterString, charstr_wire, octets_of, same_charstr};
ghost use Rattle.dns_record.specs.CharStrTexts.{charstr_of};
ghost use Rattle.dns_record.specs.CharacterStrings.{character_string};

use crate::charstr::CharStr;
use crate::charstr_error::CharStrParseError;
use dns_wire::{
    BuildBytes, BuildInMessage, NameCompressor, ParseError, ReadPlainValue, SplitBytes, Storage,
    TruncationError, build_whole,
};
use std::alloc::AllocError;
use std::marker::Model;
use std::str::FromStr;

/// The most octets of a string, its length octet not counted (RFC 1035 section 3.3).
const MAX_SIZE: usize = 255;

/// A character string that owns its octets, and is seen as those without the length octet. It takes no
/// memory.
#[derive(Debug, Drop)]
pub struct CharStrBuf {
    storage: Storage<256>,
}

impl Model for CharStrBuf {
    ghost use Rattle.std.specs.Prelude.{◌≡◌, ◌<◌, ℕ, List, length, slice_index};
    ghost use Rattle.dns_wire.specs.Storage.{stored};

    ghost Value = { List ℕ };

    ghost view = { λ b. stored b.storage.octets };

    ghost invariant = { λ b. (slice_index b.storage.octets 0 < 256) × (length b.storage.octets ≡ 256) };
}

impl CharStrBuf {
    ghost use Rattle.dns_record.specs.CharStrLends.{LendsOctets};

    /// A copy of the string.
    pub fn copy_from(charstr: CharStr<'_>) -> CharStrBuf
        ensures { result ≡ octets_of charstr.entry.slice.now }
    {
        CharStrBuf::with_octets(charstr.octets())
    }

    /// The string of these octets.
    fn with_octets(octets: &[u8]) -> CharStrBuf
        requires { FitsCharacterString octets.now }
        ensures { result ≡ octets.now }
    {
        let mut wire = [0; 256];
        wire[0] = octets.len() as u8;
        wire[1..1 + octets.len()].copy_from_slice(octets);
        CharStrBuf {
            storage: Storage { octets: wire },
        }
    }

    /// The length octet and the octets, from 1 to 256.
    pub fn wire_bytes(&self) -> &[u8]
        ensures wire { result.now ≡ charstr_wire self.now }
        ensures short { length result.now ≤ 256 }
    {
        let size = self.storage.octets[0] as usize;
        &self.storage.octets[..1 + size]
    }

    /// The string as a view.
    pub fn as_charstr(&self) -> CharStr<'_>
        ensures { octets_of result.slice.now ≡ self.now }
    {
        CharStr {
            slice: self.wire_bytes(),
        }
    }

    /// The octets without the length octet, for writing. Their number stays.
    pub fn octets_mut(&mut self) -> &mut [u8]
        ensures* writes_back { sem 𝓛 (LendsOctets self.entry result) }
        ensures value { result.now ≡ self.old }
    {
        let size = self.storage.octets[0] as usize;
        self.storage.part_mut(1, 1 + size)
    }
}

impl FromStr for CharStrBuf {
    type Err = CharStrParseError;

    ghost from_str_gives = { λ text result. result ≡ charstr_of text };

    /// Reads the string of the text's octets. `InvalidChar` comes exactly if a backslash is in the
    /// text, since escapes are not read, and else `Overlong` exactly above 255 octets.
    fn from_str(s: &str) -> Result<CharStrBuf, CharStrParseError> {
        let octets = s.as_bytes();
        if octets.contains(&b'\\') {
            return Err(CharStrParseError::InvalidChar);
        }
        if octets.len() > MAX_SIZE {
            return Err(CharStrParseError::Overlong);
        }
        Ok(CharStrBuf::with_octets(octets))
    }
}

impl Clone for CharStrBuf {
    ghost is_clone = { λ a b. b ≡ a };

    ghost is_infallible = { λ _. ⊤ };

    fn clone(&self) -> Result<CharStrBuf, AllocError> {
        Ok(CharStrBuf {
            storage: self.storage,
        })
    }
}

impl<'a> ReadPlainValue<'a> for CharStrBuf {
    ghost Seen = { List ℕ };

    ghost seen = { λ v. v };

    ghost reads = { character_string };

    ghost leaves_rest = { character_string_leaves };

    fn read_plain(bytes: &'a [u8]) -> Result<(CharStrBuf, &'a [u8]), ParseError> {
        let (charstr, rest) = CharStr::split_bytes(bytes)?;
        Ok((CharStrBuf::copy_from(charstr), rest))
    }
}

impl BuildBytes for CharStrBuf {
    ghost octets = { λ v. charstr_wire v };

    fn build_at(&self, bytes: &mut [u8], start: usize) -> Result<usize, TruncationError> {
        self.as_charstr().build_at(bytes, start)
    }

    /// The number of octets, from 1 to 256.
    fn built_bytes_size(&self) -> usize
        ensures size { result ≡ length (charstr_wire self.now) }
        ensures short { result ≤ 256 }
    {
        self.as_charstr().built_bytes_size()
    }
}

/// Whole, with no name in it.
impl BuildInMessage for CharStrBuf {
    ghost writes = { λ v. octets_writes (charstr_wire v) };

    ghost layout_matches = { λ _. tt };

    fn build_in_message(
        &self,
        contents: &mut [u8],
        start: usize,
        compressor: &mut NameCompressor,
    ) -> Result<usize, TruncationError> {
        build_whole(self, contents, start, compressor)
    }
}

impl PartialEq for CharStrBuf {
    ghost eq = { same_charstr };

    ghost laws = { partial_equiv_from_equiv (on_texts_equal str_to_ascii_lowercase) };

    /// Whether the octets are the same, ignoring ASCII case (RFC 1035 section 2.3.3).
    fn eq(&self, other: &Self) -> bool {
        self.as_charstr() == other.as_charstr()
    }
}

impl Eq for CharStrBuf {
    ghost laws = { on_texts_equal str_to_ascii_lowercase };
}
