//! Name servers.

ghost use Rattle.std.specs.Prelude.{◌≡◌, ◌≤◌, ◌<◌, ◌^◌, ℕ, List, [], ◌∷◌, ◌++◌, length, map, Option, IfOk, ⊤};
ghost use Rattle.std.specs.Fn.{FnOnceTakesAt, FnOnceReturnsAt};
ghost use Rattle.std.proofs.Common.{◌∙◌, ap, sym};
ghost use Rattle.std.proofs.lemmas.List.{append-nil};
ghost use Rattle.dns_wire.specs.Names.{wire};
ghost use Rattle.dns_wire.specs.Reading.{Gives, all_of, all_at};
ghost use Rattle.dns_record.specs.Canonical.{ranked_cmp};
ghost use Rattle.dns_record.specs.Fields.{FieldOf, named_by, canonical_octets};
ghost use Rattle.dns_record.specs.InMessage.{fields_write, fields_fit, fields_layout};
ghost use Rattle.dns_record.specs.Kinds.{fields_of, fields_in};
ghost use Rattle.dns_record.specs.Kinds.Kind.{CompressibleName};
ghost use Rattle.dns_record.specs.DataLemmas.{fields_leave, fields_end};
ghost use Rattle.dns_record.specs.Formats.{rdata_format};
ghost use Rattle.dns_record.proofs.FieldLayoutLemmas.{fields_match};
ghost use Rattle.dns_record.proofs.Sizes.{canonical_long};
ghost use Rattle.dns_basic.specs.Types.{ns_fields};

use dns_name::{CanonicalName, Lowercased};
use dns_record::{CanonicalRecordData, DataOfType, RType};
use dns_wire::{
    BuildBytes, BuildInMessage, NameCompressor, ParseError, ParseName, ReadMessageValue, ReadValue,
    SplitBytes, SplitMessageBytes, TruncationError,
};
use std::cmp::Ordering;

/// The name of a server that is authoritative for the owner (RFC 1035 section 3.3.11).
#[derive(Clone, Copy, Debug, PartialEq, Eq, PartialOrd, Ord, Hash, Drop)]
pub struct Ns<N> {
    /// The server.
    pub server: N,
}

impl<N> Ns<N> {
    /// The data with what the function makes of the name.
    pub fn map_name<R, F: FnOnce(N) -> R>(self, f: F) -> Ns<R>
        requires { F.pre f self.server }
        ensures name { F.post f self.server result.server }
    {
        Ns {
            server: f(self.server),
        }
    }

    /// The data with what the function makes of a reference to the name.
    pub fn map_name_by_ref<'r, R, F: FnOnce(&'r N) -> R>(&'r self, f: F) -> Ns<R>
        requires { FnOnceTakesAt F.FnOnce f self.now.server }
        ensures name { FnOnceReturnsAt F.FnOnce f self.now.server result.server }
    {
        Ns {
            server: f(&self.server),
        }
    }
}

impl<'a, N: ParseName<'a>> ReadValue<'a> for Ns<N> {
    ghost Seen = { List (FieldOf N.Seen) };

    ghost seen = { λ v. map (named_by N.seen) (ns_fields v) };

    ghost reads = { fields_of N.reads (rdata_format 2) };

    ghost reads_at = { fields_in N.reads_at (rdata_format 2) };

    ghost leaves_rest = { fields_leave N.reads N.leaves_rest (rdata_format 2) };

    ghost ends_within = { fields_end N.reads_at N.ends_within CompressibleName [] };

    fn read_prefix(bytes: &'a [u8]) -> Result<(Ns<N>, &'a [u8]), ParseError> {
        let (server, rest) = N::split_bytes(bytes)?;
        let value = Ns { server };
        Ok((value, rest))
    }
}

impl<'a, N: ParseName<'a> + SplitMessageBytes<'a>> ReadMessageValue<'a> for Ns<N> {
    fn read_in_message(contents: &'a [u8], start: usize) -> Result<(Ns<N>, usize), ParseError> {
        let (server, end) = N::split_message_bytes(contents, start)?;
        let value = Ns { server };
        Ok((value, end))
    }
}

impl<'a, N: ParseName<'a>> DataOfType<'a> for Ns<N> {
    ghost number = { 2 };

    fn rtype() -> RType {
        RType::NS
    }
}

impl<N: BuildBytes> BuildBytes for Ns<N> {
    ghost octets = { λ v. N.octets v.server };

    ghost fits = { λ v. N.fits v.server };

    fn build_at(&self, bytes: &mut [u8], start: usize) -> Result<usize, TruncationError> {
        self.server.build_at(bytes, start)
    }

    fn built_bytes_size(&self) -> usize {
        self.server.built_bytes_size()
    }
}

/// The name as its type writes it in a message.
impl<N: BuildInMessage> BuildInMessage for Ns<N> {
    ghost writes = { λ v. fields_write N.writes (ns_fields v) };

    ghost fits_in = { λ v. fields_fit N.fits_in N.writes (ns_fields v) };

    ghost layout = { λ v. fields_layout N.layout (ns_fields v) };

    ghost layout_matches = { λ v. fields_match N.writes N.layout N.layout_matches (ns_fields v) };

    fn build_in_message(
        &self,
        contents: &mut [u8],
        start: usize,
        compressor: &mut NameCompressor,
    ) -> Result<usize, TruncationError> {
        (&self.server, ()).build_in_message(contents, start, compressor)
    }
}

/// The fields in order, the name in lowercase.
impl<N: CanonicalName> CanonicalRecordData for Ns<N> {
    ghost canonical = { λ v. canonical_octets 2 (map (named_by N.name) (ns_fields v)) };

    ghost as_long = { λ v. canonical_long 2 (map (named_by N.name) (ns_fields v)) ∙ ap length (append-nil (wire (N.name v.server)) ∙ sym (N.octets_are v.server)) };

    fn build_canonical_at(&self, bytes: &mut [u8], start: usize) -> Result<usize, TruncationError> {
        let server = Lowercased { name: &self.server };
        (server, ()).build_at(bytes, start)
    }

    fn cmp_canonical(&self, other: &Self) -> Ordering {
        self.server.cmp_lowercase_composed(&other.server)
    }
}
