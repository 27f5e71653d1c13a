//! Responsible persons.

ghost use Rattle.std.specs.Prelude.{◌≡◌, ◌≤◌, ◌<◌, ◌^◌, ℕ, List, [], ◌∷◌, ◌++◌, length, map, Option, IfOk, ⊤};
ghost use Rattle.std.specs.Fn.{CalledAt, TakesAt};
ghost use Rattle.std.proofs.Common.{◌∙◌, ap};
ghost use Rattle.dns_wire.specs.Reading.{Gives, all_of, all_at};
ghost use Rattle.dns_wire.specs.Names.{wire};
ghost use Rattle.dns_record.specs.Canonical.{ranked_cmp};
ghost use Rattle.dns_record.specs.Fields.{FieldOf, named_by, canonical_octets};
ghost use Rattle.dns_record.specs.InMessage.{fields_write, fields_fit, fields_layout};
ghost use Rattle.dns_record.specs.Kinds.{fields_of, fields_in};
ghost use Rattle.dns_record.specs.Kinds.Kind.{CompressibleName};
ghost use Rattle.dns_record.specs.DataLemmas.{fields_leave, fields_end};
ghost use Rattle.dns_record.specs.Formats.{rdata_format};
ghost use Rattle.dns_record.proofs.FieldLayoutLemmas.{fields_match};
ghost use Rattle.dns_record.proofs.Sizes.{canonical_long};
ghost use Rattle.dns_basic.specs.Calls.{TakesNextAt};
ghost use Rattle.dns_basic.specs.Types.{rp_fields};
ghost use Rattle.dns_basic.specs.NamePairLemmas.{both_names};

use dns_name::{CanonicalName, Lowercased};
use dns_record::{CanonicalRecordData, DataOfType, RType};
use dns_wire::{
    BuildBytes, BuildInMessage, NameCompressor, ParseError, ParseName, ReadMessageValue, ReadValue,
    SplitBytes, SplitMessageBytes, TruncationError,
};
use std::cmp::Ordering;

/// Who is responsible for the owner (RFC 1183 section 2.2).
#[derive(Clone, Copy, Debug, PartialEq, Eq, Hash, Drop)]
pub struct Rp<N> {
    /// The mailbox, as a name: its first label is what comes before the `@`.
    pub mailbox: N,
    /// The owner of TXT records about the person, and the root if there are none.
    pub texts: N,
}

impl<N> Rp<N> {
    /// The data with what the function makes of the names, called on them in this order.
    pub fn map_names<R, F: FnMut(N) -> R>(self, mut f: F) -> Rp<R>
        requires first { F.pre f self.mailbox }
        requires second { (r : R) (between : F) → F.step f self.mailbox r between → F.pre between self.texts }
        ensures names { (between : F) × (last : F) × F.step f self.mailbox result.mailbox between × F.step between self.texts result.texts last }
    {
        let mailbox = f(self.mailbox);
        let texts = f(self.texts);
        Rp { mailbox, texts }
    }

    /// The data with what the function makes of references to the names, called on them in this order.
    pub fn map_names_by_ref<'r, R, F: FnMut(&'r N) -> R>(&'r self, mut f: F) -> Rp<R>
        requires first { TakesAt F.FnMut f self.now.mailbox }
        requires second { TakesNextAt F.FnMut f self.now.mailbox self.now.texts }
        ensures names { (between : F) × (last : F) × CalledAt F.FnMut f self.now.mailbox result.mailbox between × CalledAt F.FnMut between self.now.texts result.texts last }
    {
        let mailbox = f(&self.mailbox);
        let texts = f(&self.texts);
        Rp { mailbox, texts }
    }
}

impl<'a, N: ParseName<'a>> ReadValue<'a> for Rp<N> {
    ghost Seen = { List (FieldOf N.Seen) };

    ghost seen = { λ v. map (named_by N.seen) (rp_fields v) };

    ghost reads = { fields_of N.reads (rdata_format 17) };

    ghost reads_at = { fields_in N.reads_at (rdata_format 17) };

    ghost leaves_rest = { fields_leave N.reads N.leaves_rest (rdata_format 17) };

    ghost ends_within = { fields_end N.reads_at N.ends_within CompressibleName (CompressibleName ∷ []) };

    fn read_prefix(bytes: &'a [u8]) -> Result<(Rp<N>, &'a [u8]), ParseError> {
        let (mailbox, rest) = N::split_bytes(bytes)?;
        let (texts, rest) = N::split_bytes(rest)?;
        let value = Rp { mailbox, texts };
        Ok((value, rest))
    }
}

impl<'a, N: ParseName<'a> + SplitMessageBytes<'a>> ReadMessageValue<'a> for Rp<N> {
    fn read_in_message(contents: &'a [u8], start: usize) -> Result<(Rp<N>, usize), ParseError> {
        let (mailbox, at) = N::split_message_bytes(contents, start)?;
        let (texts, end) = N::split_message_bytes(contents, at)?;
        let value = Rp { mailbox, texts };
        Ok((value, end))
    }
}

impl<'a, N: ParseName<'a>> DataOfType<'a> for Rp<N> {
    ghost number = { 17 };

    fn rtype() -> RType {
        RType::RP
    }
}

impl<N: BuildBytes> BuildBytes for Rp<N> {
    ghost octets = { λ v. N.octets v.mailbox ++ N.octets v.texts };

    ghost fits = { λ v. N.fits v.mailbox × N.fits v.texts };

    fn build_at(&self, bytes: &mut [u8], start: usize) -> Result<usize, TruncationError> {
        (&self.mailbox, &self.texts).build_at(bytes, start)
    }

    fn built_bytes_size(&self) -> usize {
        self.mailbox.built_bytes_size() + self.texts.built_bytes_size()
    }
}

/// The names as their type writes them in a message, all else whole.
impl<N: BuildInMessage> BuildInMessage for Rp<N> {
    ghost writes = { λ v. fields_write N.writes (rp_fields v) };

    ghost fits_in = { λ v. fields_fit N.fits_in N.writes (rp_fields v) };

    ghost layout = { λ v. fields_layout N.layout (rp_fields v) };

    ghost layout_matches = { λ v. fields_match N.writes N.layout N.layout_matches (rp_fields v) };

    fn build_in_message(
        &self,
        contents: &mut [u8],
        start: usize,
        compressor: &mut NameCompressor,
    ) -> Result<usize, TruncationError> {
        (&self.mailbox, (&self.texts, ())).build_in_message(contents, start, compressor)
    }
}

/// The fields in order, the names in lowercase.
impl<N: CanonicalName> CanonicalRecordData for Rp<N> {
    ghost canonical = { λ v. canonical_octets 17 (map (named_by N.name) (rp_fields v)) };

    ghost as_long = { λ v. canonical_long 17 (map (named_by N.name) (rp_fields v)) ∙ ap length (both_names (wire (N.name v.mailbox)) (wire (N.name v.texts)) (N.octets v.mailbox) (N.octets v.texts) (N.octets_are v.mailbox) (N.octets_are v.texts)) };

    fn build_canonical_at(&self, bytes: &mut [u8], start: usize) -> Result<usize, TruncationError> {
        let mailbox = Lowercased {
            name: &self.mailbox,
        };
        let texts = Lowercased { name: &self.texts };
        (mailbox, (texts, ())).build_at(bytes, start)
    }

    fn cmp_canonical(&self, other: &Self) -> Ordering {
        match self.mailbox.cmp_lowercase_composed(&other.mailbox) {
            Ordering::Equal => self.texts.cmp_lowercase_composed(&other.texts),
            decided => decided,
        }
    }
}
