//! Pointers to names.

ghost use Rattle.std.specs.Prelude.{◌≡◌, ◌≤◌, ◌<◌, ◌^◌, ℕ, List, [], ◌∷◌, ◌++◌, length, map, Option, IfOk, ⊤};
ghost use Rattle.std.specs.Fn.{FnOnceTakesAt, FnOnceReturnsAt};
ghost use Rattle.std.proofs.Common.{◌∙◌, ap, sym};
ghost use Rattle.std.proofs.lemmas.List.{append-nil};
ghost use Rattle.dns_wire.specs.Names.{wire};
ghost use Rattle.dns_wire.specs.Reading.{Gives, all_of, all_at};
ghost use Rattle.dns_record.specs.Canonical.{ranked_cmp};
ghost use Rattle.dns_record.specs.Fields.{FieldOf, named_by, canonical_octets};
ghost use Rattle.dns_record.specs.InMessage.{fields_write, fields_fit, fields_layout};
ghost use Rattle.dns_record.specs.Kinds.{fields_of, fields_in};
ghost use Rattle.dns_record.specs.Kinds.Kind.{CompressibleName};
ghost use Rattle.dns_record.specs.DataLemmas.{fields_leave, fields_end};
ghost use Rattle.dns_record.specs.Formats.{rdata_format};
ghost use Rattle.dns_record.proofs.FieldLayoutLemmas.{fields_match};
ghost use Rattle.dns_record.proofs.Sizes.{canonical_long};
ghost use Rattle.dns_basic.specs.Types.{ptr_fields};

use dns_name::{CanonicalName, Lowercased};
use dns_record::{CanonicalRecordData, DataOfType, RType};
use dns_wire::{
    BuildBytes, BuildInMessage, NameCompressor, ParseError, ParseName, ReadMessageValue, ReadValue,
    SplitBytes, SplitMessageBytes, TruncationError,
};
use std::cmp::Ordering;

/// The name that the owner represents (RFC 1035 section 3.3.12).
#[derive(Clone, Copy, Debug, PartialEq, Eq, PartialOrd, Ord, Hash, Drop)]
pub struct Ptr<N> {
    /// The name.
    pub name: N,
}

impl<N> Ptr<N> {
    /// The data with what the function makes of the name.
    pub fn map_name<R, F: FnOnce(N) -> R>(self, f: F) -> Ptr<R>
        requires { F.pre f self.name }
        ensures name { F.post f self.name result.name }
    {
        Ptr { name: f(self.name) }
    }

    /// The data with what the function makes of a reference to the name.
    pub fn map_name_by_ref<'r, R, F: FnOnce(&'r N) -> R>(&'r self, f: F) -> Ptr<R>
        requires { FnOnceTakesAt F.FnOnce f self.now.name }
        ensures name { FnOnceReturnsAt F.FnOnce f self.now.name result.name }
    {
        Ptr {
            name: f(&self.name),
        }
    }
}

impl<'a, N: ParseName<'a>> ReadValue<'a> for Ptr<N> {
    ghost Seen = { List (FieldOf N.Seen) };

    ghost seen = { λ v. map (named_by N.seen) (ptr_fields v) };

    ghost reads = { fields_of N.reads (rdata_format 12) };

    ghost reads_at = { fields_in N.reads_at (rdata_format 12) };

    ghost leaves_rest = { fields_leave N.reads N.leaves_rest (rdata_format 12) };

    ghost ends_within = { fields_end N.reads_at N.ends_within CompressibleName [] };

    fn read_prefix(bytes: &'a [u8]) -> Result<(Ptr<N>, &'a [u8]), ParseError> {
        let (name, rest) = N::split_bytes(bytes)?;
        let value = Ptr { name };
        Ok((value, rest))
    }
}

impl<'a, N: ParseName<'a> + SplitMessageBytes<'a>> ReadMessageValue<'a> for Ptr<N> {
    fn read_in_message(contents: &'a [u8], start: usize) -> Result<(Ptr<N>, usize), ParseError> {
        let (name, end) = N::split_message_bytes(contents, start)?;
        let value = Ptr { name };
        Ok((value, end))
    }
}

impl<'a, N: ParseName<'a>> DataOfType<'a> for Ptr<N> {
    ghost number = { 12 };

    fn rtype() -> RType {
        RType::PTR
    }
}

impl<N: BuildBytes> BuildBytes for Ptr<N> {
    ghost octets = { λ v. N.octets v.name };

    ghost fits = { λ v. N.fits v.name };

    fn build_at(&self, bytes: &mut [u8], start: usize) -> Result<usize, TruncationError> {
        self.name.build_at(bytes, start)
    }

    fn built_bytes_size(&self) -> usize {
        self.name.built_bytes_size()
    }
}

/// The name as its type writes it in a message.
impl<N: BuildInMessage> BuildInMessage for Ptr<N> {
    ghost writes = { λ v. fields_write N.writes (ptr_fields v) };

    ghost fits_in = { λ v. fields_fit N.fits_in N.writes (ptr_fields v) };

    ghost layout = { λ v. fields_layout N.layout (ptr_fields v) };

    ghost layout_matches = { λ v. fields_match N.writes N.layout N.layout_matches (ptr_fields v) };

    fn build_in_message(
        &self,
        contents: &mut [u8],
        start: usize,
        compressor: &mut NameCompressor,
    ) -> Result<usize, TruncationError> {
        (&self.name, ()).build_in_message(contents, start, compressor)
    }
}

/// The fields in order, the name in lowercase.
impl<N: CanonicalName> CanonicalRecordData for Ptr<N> {
    ghost canonical = { λ v. canonical_octets 12 (map (named_by N.name) (ptr_fields v)) };

    ghost as_long = { λ v. canonical_long 12 (map (named_by N.name) (ptr_fields v)) ∙ ap length (append-nil (wire (N.name v.name)) ∙ sym (N.octets_are v.name)) };

    fn build_canonical_at(&self, bytes: &mut [u8], start: usize) -> Result<usize, TruncationError> {
        let name = Lowercased { name: &self.name };
        (name, ()).build_at(bytes, start)
    }

    fn cmp_canonical(&self, other: &Self) -> Ordering {
        self.name.cmp_lowercase_composed(&other.name)
    }
}
