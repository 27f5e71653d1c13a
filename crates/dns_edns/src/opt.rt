//! Data of OPT records.

ghost use Rattle.std.specs.Prelude.{◌≡◌, ◌↔◌, ◌≤◌, ◌<◌, ◌^◌, ℕ, List, [], ◌∷◌, length, map, take, Option, Some, Ok, IfOk, IsTrue, true, ⊤};
ghost use Rattle.std.proofs.Props.{props};
ghost use Rattle.std.proofs.Common.{ap, ◌∙◌};
ghost use Rattle.std.proofs.lemmas.List.{append-nil};
ghost use Rattle.dns_wire.specs.Building.{Builds};
ghost use Rattle.dns_wire.specs.Compression.{FitsIn};
ghost use Rattle.dns_wire.specs.InMessage.{BuildsIn};
ghost use Rattle.dns_wire.specs.Layout.{octets_writes};
ghost use Rattle.dns_wire.specs.Layout.LayoutPart.{OctetsPart};
ghost use Rattle.dns_wire.specs.LayoutLemmas.{part_matches};
ghost use Rattle.dns_wire.specs.Reading.{Gives, all_of, all_at, plain_at};
ghost use Rattle.dns_record.specs.Canonical.{ranked_cmp};
ghost use Rattle.dns_record.specs.Fields.{Field, canonical_octets};
ghost use Rattle.dns_record.specs.Kinds.{fields_of, no_name};
ghost use Rattle.dns_record.specs.DataLemmas.{uncompressed_leave, uncompressed_end};
ghost use Rattle.dns_record.proofs.Sizes.{canonical_long};
ghost use Rattle.dns_record.specs.Options.{is_option_data};
ghost use Rattle.dns_record.specs.Formats.{rdata_format};
ghost use Rattle.dns_edns.specs.Suiting.{items_in};
ghost use Rattle.dns_edns.specs.Types.{opt_fields};

use crate::edns_option::{EdnsOption, is_same};
use crate::options_iter::EdnsOptionsIter;
use dns_record::{CanonicalRecordData, DataOfType, RType};
use dns_wire::{
    AsBytes, BuildBytes, BuildInMessage, NameCompressor, ParseBytes, ParseError, ParseMessageBytes,
    TruncationError, build_whole, parse_without_compression, put,
};
use std::cmp::Ordering;

/// Options one after another, perhaps none, of at most 65,535 octets in all (RFC 6891 section 6.1.2).
#[derive(Clone, Copy, Debug, PartialEq, Eq, Hash)]
pub struct Opt<'a> {
    /// The options: for each its code, the number of its octets, and these.
    pub slice: &'a [u8],
    ghost is_opt: { is_option_data slice.now ≡ true } by { Prim.hlevel props },
}

impl<'a> Opt<'a> {
    /// The options in order.
    #[tactic(auto, unfolding(dns_record::specs::Options::is_option_data))]
    pub fn options(&self) -> EdnsOptionsIter<'a>
        ensures { result ≡ items_in self.now.slice.now }
    {
        EdnsOptionsIter::new(self.slice)
    }

    /// No options.
    #[tactic(auto, unfolding(dns_record::specs::Options::is_option_data, dns_record::specs::Options::is_options, dns_record::specs::Options::options_of, dns_record::specs::Options::options_within))]
    pub fn empty() -> Opt<'a>
        ensures { result.slice.now ≡ [] }
    {
        Opt { slice: &[] }
    }
}

impl Opt<'_> {
    ghost use Rattle.dns_edns.specs.Suiting.{seen_option};

    /// Whether the options are these, in this order, and the data of each suit its code.
    pub fn eq_options(&self, that: &[EdnsOption<'_>]) -> bool
        ensures { IsTrue result ↔ (items_in self.now.slice.now ≡ map (λ option. Ok (seen_option option)) that.now) }
    {
        let mut left = self.options();
        for option in that {
            match left.next() {
                Some(found) if is_same(&found, option) => {}
                _ => return false,
            }
        }
        left.next().is_none()
    }
}

impl AsBytes for Opt<'_> {
    fn as_bytes(&self) -> &[u8] {
        self.slice
    }
}

/// `ParseError` comes exactly if the octets are more than 65,535, or options don't fill them.
impl<'a> ParseBytes<'a> for Opt<'a> {
    ghost Seen = { List Field };

    ghost seen = { λ v. opt_fields v.slice.now };

    ghost reads = { fields_of no_name (rdata_format 41) };

    ghost reads_at = { plain_at (fields_of no_name (rdata_format 41)) };

    ghost leaves_rest = { uncompressed_leave (rdata_format 41) };

    ghost ends_within = { uncompressed_end (rdata_format 41) };

    #[tactic(auto, unfolding(dns_record::specs::Options::is_option_data))]
    fn parse_bytes(bytes: &'a [u8]) -> Result<Opt<'a>, ParseError> {
        if bytes.len() <= 65_535 && EdnsOptionsIter::is_options(bytes) {
            Ok(Opt { slice: bytes })
        } else {
            Err(ParseError)
        }
    }
}

impl<'a> ParseMessageBytes<'a> for Opt<'a> {
    fn parse_message_bytes(contents: &'a [u8], start: usize) -> Result<Opt<'a>, ParseError> {
        parse_without_compression(contents, start)
    }
}

impl<'a> DataOfType<'a> for Opt<'a> {
    ghost number = { 41 };

    fn rtype() -> RType
        ensures { result.code.value ≡ 41 }
    {
        RType::OPT
    }
}

impl BuildBytes for Opt<'_> {
    ghost octets = { λ v. v.slice.now };

    fn build_at(&self, bytes: &mut [u8], start: usize) -> Result<usize, TruncationError> {
        put(self.slice, bytes, start)
    }

    fn built_bytes_size(&self) -> usize {
        self.slice.len()
    }
}

/// Uncompressed, as one part.
impl BuildInMessage for Opt<'_> {
    ghost writes = { λ v. octets_writes v.slice.now };

    ghost layout = { λ v. Some (OctetsPart v.slice.now ∷ []) };

    ghost layout_matches = { λ v. part_matches (OctetsPart v.slice.now) };

    fn build_in_message(
        &self,
        contents: &mut [u8],
        start: usize,
        compressor: &mut NameCompressor,
    ) -> Result<usize, TruncationError> {
        build_whole(self, contents, start, compressor)
    }
}

impl CanonicalRecordData for Opt<'_> {
    ghost canonical = { λ v. canonical_octets 41 (opt_fields v.slice.now) };

    ghost as_long = { λ v. canonical_long 41 (opt_fields v.slice.now) ∙ ap length (append-nil v.slice.now) };

    fn build_canonical_at(&self, bytes: &mut [u8], start: usize) -> Result<usize, TruncationError> {
        self.build_at(bytes, start)
    }

    fn cmp_canonical(&self, other: &Self) -> Ordering {
        self.slice.cmp(other.slice)
    }
}
