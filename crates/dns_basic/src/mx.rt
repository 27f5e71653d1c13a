//! Mail exchanges.

ghost use Rattle.std.specs.Prelude.{◌≡◌, ◌≤◌, ◌<◌, ◌^◌, ℕ, List, [], ◌∷◌, ◌++◌, length, map, Option, IfOk, ⊤};
ghost use Rattle.std.specs.Int.{w16, to_be_bytes};
ghost use Rattle.std.specs.Fn.{FnOnceTakesAt, FnOnceReturnsAt};
ghost use Rattle.std.proofs.Common.{◌∙◌, ap, sym};
ghost use Rattle.std.proofs.lemmas.List.{append-nil};
ghost use Rattle.dns_wire.specs.Names.{wire};
ghost use Rattle.dns_wire.specs.Reading.{Gives, all_of, all_at};
ghost use Rattle.dns_record.specs.Canonical.{ranked_cmp};
ghost use Rattle.dns_record.specs.Fields.{FieldOf, named_by, canonical_octets};
ghost use Rattle.dns_record.specs.InMessage.{fields_write, fields_fit, fields_layout};
ghost use Rattle.dns_record.specs.Kinds.{fields_of, fields_in};
ghost use Rattle.dns_record.specs.Kinds.Kind.{Number, CompressibleName};
ghost use Rattle.dns_record.specs.DataLemmas.{fields_leave, fields_end};
ghost use Rattle.dns_record.specs.Formats.{rdata_format};
ghost use Rattle.dns_record.proofs.FieldLayoutLemmas.{fields_match};
ghost use Rattle.dns_record.proofs.Sizes.{canonical_long};
ghost use Rattle.dns_basic.specs.Types.{mx_fields};

use dns_name::{CanonicalName, Lowercased};
use dns_num::U16;
use dns_record::{CanonicalRecordData, DataOfType, RType};
use dns_wire::{
    BuildBytes, BuildInMessage, NameCompressor, ParseError, ParseName, ReadMessageValue, ReadValue,
    SplitBytes, SplitMessageBytes, TruncationError,
};
use std::cmp::Ordering;

/// A host that takes mail for the owner (RFC 1035 section 3.3.9).
#[derive(Clone, Copy, Debug, PartialEq, Eq, PartialOrd, Ord, Hash, Drop)]
pub struct Mx<N> {
    /// Its place among the owner's exchanges: the lowest is tried first.
    pub preference: U16,
    /// The host's name.
    pub exchange: N,
}

impl<N> Mx<N> {
    /// The data with what the function makes of the name.
    pub fn map_name<R, F: FnOnce(N) -> R>(self, f: F) -> Mx<R>
        requires { F.pre f self.exchange }
        ensures name { F.post f self.exchange result.exchange }
        ensures unchanged { (result.preference ≡ self.preference) }
    {
        Mx {
            preference: self.preference,
            exchange: f(self.exchange),
        }
    }

    /// The data with what the function makes of a reference to the name.
    pub fn map_name_by_ref<'r, R, F: FnOnce(&'r N) -> R>(&'r self, f: F) -> Mx<R>
        requires { FnOnceTakesAt F.FnOnce f self.now.exchange }
        ensures name { FnOnceReturnsAt F.FnOnce f self.now.exchange result.exchange }
        ensures unchanged { (result.preference ≡ self.now.preference) }
    {
        Mx {
            preference: self.preference,
            exchange: f(&self.exchange),
        }
    }
}

impl<'a, N: ParseName<'a>> ReadValue<'a> for Mx<N> {
    ghost Seen = { List (FieldOf N.Seen) };

    ghost seen = { λ v. map (named_by N.seen) (mx_fields v) };

    ghost reads = { fields_of N.reads (rdata_format 15) };

    ghost reads_at = { fields_in N.reads_at (rdata_format 15) };

    ghost leaves_rest = { fields_leave N.reads N.leaves_rest (rdata_format 15) };

    ghost ends_within = { fields_end N.reads_at N.ends_within (Number w16) (CompressibleName ∷ []) };

    fn read_prefix(bytes: &'a [u8]) -> Result<(Mx<N>, &'a [u8]), ParseError> {
        let (preference, rest) = U16::split_bytes(bytes)?;
        let (exchange, rest) = N::split_bytes(rest)?;
        let value = Mx {
            preference,
            exchange,
        };
        Ok((value, rest))
    }
}

impl<'a, N: ParseName<'a> + SplitMessageBytes<'a>> ReadMessageValue<'a> for Mx<N> {
    fn read_in_message(contents: &'a [u8], start: usize) -> Result<(Mx<N>, usize), ParseError> {
        let (preference, at) = U16::split_message_bytes(contents, start)?;
        let (exchange, end) = N::split_message_bytes(contents, at)?;
        let value = Mx {
            preference,
            exchange,
        };
        Ok((value, end))
    }
}

impl<'a, N: ParseName<'a>> DataOfType<'a> for Mx<N> {
    ghost number = { 15 };

    fn rtype() -> RType {
        RType::MX
    }
}

impl<N: BuildBytes> BuildBytes for Mx<N> {
    ghost octets = { λ v. to_be_bytes w16 v.preference.value ++ N.octets v.exchange };

    ghost fits = { λ v. N.fits v.exchange };

    fn build_at(&self, bytes: &mut [u8], start: usize) -> Result<usize, TruncationError> {
        (&self.preference, &self.exchange).build_at(bytes, start)
    }

    fn built_bytes_size(&self) -> usize {
        self.exchange.built_bytes_size() + 2
    }
}

/// The name as its type writes it in a message, all else whole.
impl<N: BuildInMessage> BuildInMessage for Mx<N> {
    ghost writes = { λ v. fields_write N.writes (mx_fields v) };

    ghost fits_in = { λ v. fields_fit N.fits_in N.writes (mx_fields v) };

    ghost layout = { λ v. fields_layout N.layout (mx_fields v) };

    ghost layout_matches = { λ v. fields_match N.writes N.layout N.layout_matches (mx_fields v) };

    fn build_in_message(
        &self,
        contents: &mut [u8],
        start: usize,
        compressor: &mut NameCompressor,
    ) -> Result<usize, TruncationError> {
        (&self.preference, (&self.exchange, ())).build_in_message(contents, start, compressor)
    }
}

/// The fields in order, the name in lowercase.
impl<N: CanonicalName> CanonicalRecordData for Mx<N> {
    ghost canonical = { λ v. canonical_octets 15 (map (named_by N.name) (mx_fields v)) };

    ghost as_long = { λ v. canonical_long 15 (map (named_by N.name) (mx_fields v)) ∙ ap (λ (l : List ℕ). length (to_be_bytes w16 v.preference.value ++ l)) (append-nil (wire (N.name v.exchange)) ∙ sym (N.octets_are v.exchange)) };

    fn build_canonical_at(&self, bytes: &mut [u8], start: usize) -> Result<usize, TruncationError> {
        let exchange = Lowercased {
            name: &self.exchange,
        };
        (&self.preference, (exchange, ())).build_at(bytes, start)
    }

    fn cmp_canonical(&self, other: &Self) -> Ordering {
        match self.preference.compare(&other.preference) {
            Ordering::Equal => self.exchange.cmp_lowercase_composed(&other.exchange),
            decided => decided,
        }
    }
}
