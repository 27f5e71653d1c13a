//! Record data as they are.

ghost use Rattle.std.specs.Prelude.{◌≡◌, ◌<◌, ◌^◌, ℕ, List, [], ◌∷◌, length, Some, ⊤};
ghost use Rattle.std.proofs.Props.{props};
ghost use Rattle.dns_wire.specs.Layout.{octets_writes};
ghost use Rattle.dns_wire.specs.Layout.LayoutPart.{OctetsPart};
ghost use Rattle.dns_wire.specs.LayoutLemmas.{part_matches};
ghost use Rattle.dns_record.specs.Unparsed.{few, few_in};

use crate::record_data::{ParseRecordData, ParseRecordDataBytes};
use crate::rtype::RType;
use dns_wire::{
    AsBytes, BuildBytes, BuildInMessage, NameCompressor, ParseError, TruncationError, build_whole,
    put,
};

/// The most octets of a record's data: their number is sent in 16 bits (RFC 1035 section 3.2.1).
pub const MAX_DATA_SIZE: usize = 65_535;

/// The data of a record as they are, whatever its type: at most 65,535 octets, which is what a record's
/// size can say (RFC 1035 section 3.2.1). Pointers in them are octets like others.
#[derive(Clone, Copy, Debug)]
pub struct UnparsedRecordData<'a> {
    octets: &'a [u8],
    ghost short: { length octets.now < 2 ^ 16 },
}

impl<'a> UnparsedRecordData<'a> {
    /// The octets.
    pub fn octets(&self) -> &'a [u8]
        ensures octets { result.now ≡ self.now.octets.now }
        ensures short { length result.now < 2 ^ 16 }
    {
        self.octets
    }
}

/// `ParseError` comes exactly above 65,535 octets.
impl<'a> ParseRecordDataBytes<'a> for UnparsedRecordData<'a> {
    ghost Seen = { List ℕ };

    ghost seen = { λ v. v.octets.now };

    ghost reads_as = { λ _ bytes. few bytes };

    ghost reads_in = { λ _ contents at. few_in contents at };

    ghost is_of = { λ _ _. ⊤ };

    fn parse_record_data_bytes(
        bytes: &'a [u8],
        _rtype: RType,
    ) -> Result<UnparsedRecordData<'a>, ParseError> {
        if bytes.len() > MAX_DATA_SIZE {
            return Err(ParseError);
        }
        Ok(UnparsedRecordData { octets: bytes })
    }
}

/// `ParseError` comes exactly if there are more than 65,535 octets from the place on, or the place is
/// after the end.
impl<'a> ParseRecordData<'a> for UnparsedRecordData<'a> {
    fn parse_record_data(
        contents: &'a [u8],
        start: usize,
        rtype: RType,
    ) -> Result<UnparsedRecordData<'a>, ParseError> {
        if contents.len() < start {
            return Err(ParseError);
        }
        UnparsedRecordData::parse_record_data_bytes(&contents[start..], rtype)
    }
}

impl AsBytes for UnparsedRecordData<'_> {
    fn as_bytes(&self) -> &[u8] {
        self.octets()
    }
}

impl BuildBytes for UnparsedRecordData<'_> {
    ghost octets = { λ v. v.octets.now };

    fn build_at(&self, bytes: &mut [u8], start: usize) -> Result<usize, TruncationError> {
        put(self.octets(), bytes, start)
    }

    fn built_bytes_size(&self) -> usize {
        self.octets().len()
    }
}

/// Whole, with no name in it.
impl BuildInMessage for UnparsedRecordData<'_> {
    ghost writes = { λ v. octets_writes (v.octets.now) };

    ghost layout = { λ v. Some (OctetsPart v.octets.now ∷ []) };

    ghost layout_matches = { λ v. part_matches (OctetsPart v.octets.now) };

    fn build_in_message(
        &self,
        contents: &mut [u8],
        start: usize,
        compressor: &mut NameCompressor,
    ) -> Result<usize, TruncationError> {
        build_whole(self, contents, start, compressor)
    }
}
