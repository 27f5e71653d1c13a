//! Starts of zones.

ghost use Rattle.std.specs.Prelude.{◌≡◌, ◌≤◌, ◌<◌, ◌^◌, ℕ, List, [], ◌∷◌, ◌++◌, length, map, Option, IfOk, ⊤};
ghost use Rattle.std.specs.Int.{w32, to_be_bytes};
ghost use Rattle.std.specs.Fn.{CalledAt, TakesAt};
ghost use Rattle.std.proofs.Common.{◌∙◌, ap};
ghost use Rattle.dns_wire.specs.Reading.{Gives, all_of, all_at};
ghost use Rattle.dns_wire.specs.Names.{wire};
ghost use Rattle.dns_record.specs.Canonical.{ranked_cmp};
ghost use Rattle.dns_record.specs.Fields.{FieldOf, named_by, canonical_octets};
ghost use Rattle.dns_record.specs.InMessage.{fields_write, fields_fit, fields_layout};
ghost use Rattle.dns_record.specs.Kinds.{fields_of, fields_in};
ghost use Rattle.dns_record.specs.Kinds.Kind.{Number, CompressibleName};
ghost use Rattle.dns_record.specs.DataLemmas.{fields_leave, fields_end};
ghost use Rattle.dns_record.specs.Formats.{rdata_format};
ghost use Rattle.dns_record.proofs.FieldLayoutLemmas.{fields_match};
ghost use Rattle.dns_record.proofs.Sizes.{canonical_long};
ghost use Rattle.dns_basic.specs.Calls.{TakesNextAt};
ghost use Rattle.dns_basic.specs.Types.{soa_fields};
ghost use Rattle.dns_basic.specs.NamePairLemmas.{names_and_numbers};

use dns_name::{CanonicalName, Lowercased};
use dns_num::U32;
use dns_record::{CanonicalRecordData, DataOfType, RType, Serial};
use dns_wire::{
    BuildBytes, BuildInMessage, NameCompressor, ParseError, ParseName, ReadMessageValue, ReadValue,
    SplitBytes, SplitMessageBytes, TruncationError,
};
use std::cmp::Ordering;

/// What a zone is, and how its secondaries keep up with it (RFC 1035 section 3.3.13).
#[derive(Clone, Copy, Debug, PartialEq, Eq, Hash, Drop)]
pub struct Soa<N> {
    /// The server from which the others have the zone.
    pub mname: N,
    /// The mailbox of who is responsible, as a name: its first label is what comes before the `@`.
    pub rname: N,
    /// The version of the zone, which rises with each change (RFC 1982).
    pub serial: Serial,
    /// After how many seconds a secondary asks again.
    pub refresh: U32,
    /// After how many seconds it does if that failed.
    pub retry: U32,
    /// After how many seconds it gives the zone up.
    pub expire: U32,
    /// For how many seconds a negative answer may be kept (RFC 2308 section 4).
    pub minimum: U32,
}

impl<N> Soa<N> {
    /// The data with what the function makes of the names, called on them in this order.
    pub fn map_names<R, F: FnMut(N) -> R>(self, mut f: F) -> Soa<R>
        requires first { F.pre f self.mname }
        requires second { (r : R) (between : F) → F.step f self.mname r between → F.pre between self.rname }
        ensures names { (between : F) × (last : F) × F.step f self.mname result.mname between × F.step between self.rname result.rname last }
        ensures unchanged { (result.serial ≡ self.serial) × (result.refresh ≡ self.refresh) × (result.retry ≡ self.retry) × (result.expire ≡ self.expire) × (result.minimum ≡ self.minimum) }
    {
        let mname = f(self.mname);
        let rname = f(self.rname);
        Soa {
            mname,
            rname,
            serial: self.serial,
            refresh: self.refresh,
            retry: self.retry,
            expire: self.expire,
            minimum: self.minimum,
        }
    }

    /// The data with what the function makes of references to the names, called on them in this order.
    pub fn map_names_by_ref<'r, R, F: FnMut(&'r N) -> R>(&'r self, mut f: F) -> Soa<R>
        requires first { TakesAt F.FnMut f self.now.mname }
        requires second { TakesNextAt F.FnMut f self.now.mname self.now.rname }
        ensures names { (between : F) × (last : F) × CalledAt F.FnMut f self.now.mname result.mname between × CalledAt F.FnMut between self.now.rname result.rname last }
        ensures unchanged { (result.serial ≡ self.now.serial) × (result.refresh ≡ self.now.refresh) × (result.retry ≡ self.now.retry) × (result.expire ≡ self.now.expire) × (result.minimum ≡ self.now.minimum) }
    {
        let mname = f(&self.mname);
        let rname = f(&self.rname);
        Soa {
            mname,
            rname,
            serial: self.serial,
            refresh: self.refresh,
            retry: self.retry,
            expire: self.expire,
            minimum: self.minimum,
        }
    }
}

impl<'a, N: ParseName<'a>> ReadValue<'a> for Soa<N> {
    ghost Seen = { List (FieldOf N.Seen) };

    ghost seen = { λ v. map (named_by N.seen) (soa_fields v) };

    ghost reads = { fields_of N.reads (rdata_format 6) };

    ghost reads_at = { fields_in N.reads_at (rdata_format 6) };

    ghost leaves_rest = { fields_leave N.reads N.leaves_rest (rdata_format 6) };

    ghost ends_within = { fields_end N.reads_at N.ends_within CompressibleName (CompressibleName ∷ Number w32 ∷ Number w32 ∷ Number w32 ∷ Number w32 ∷ Number w32 ∷ []) };

    fn read_prefix(bytes: &'a [u8]) -> Result<(Soa<N>, &'a [u8]), ParseError> {
        let (mname, rest) = N::split_bytes(bytes)?;
        let (rname, rest) = N::split_bytes(rest)?;
        let (serial, rest) = Serial::split_bytes(rest)?;
        let (refresh, rest) = U32::split_bytes(rest)?;
        let (retry, rest) = U32::split_bytes(rest)?;
        let (expire, rest) = U32::split_bytes(rest)?;
        let (minimum, rest) = U32::split_bytes(rest)?;
        let value = Soa {
            mname,
            rname,
            serial,
            refresh,
            retry,
            expire,
            minimum,
        };
        Ok((value, rest))
    }
}

impl<'a, N: ParseName<'a> + SplitMessageBytes<'a>> ReadMessageValue<'a> for Soa<N> {
    fn read_in_message(contents: &'a [u8], start: usize) -> Result<(Soa<N>, usize), ParseError> {
        let (mname, at) = N::split_message_bytes(contents, start)?;
        let (rname, at) = N::split_message_bytes(contents, at)?;
        let (serial, at) = Serial::split_message_bytes(contents, at)?;
        let (refresh, at) = U32::split_message_bytes(contents, at)?;
        let (retry, at) = U32::split_message_bytes(contents, at)?;
        let (expire, at) = U32::split_message_bytes(contents, at)?;
        let (minimum, end) = U32::split_message_bytes(contents, at)?;
        let value = Soa {
            mname,
            rname,
            serial,
            refresh,
            retry,
            expire,
            minimum,
        };
        Ok((value, end))
    }
}

impl<'a, N: ParseName<'a>> DataOfType<'a> for Soa<N> {
    ghost number = { 6 };

    fn rtype() -> RType {
        RType::SOA
    }
}

impl<N: BuildBytes> BuildBytes for Soa<N> {
    ghost octets = { λ v. N.octets v.mname ++ (N.octets v.rname ++ (to_be_bytes w32 v.serial.0.value ++ (to_be_bytes w32 v.refresh.value ++ (to_be_bytes w32 v.retry.value ++ (to_be_bytes w32 v.expire.value ++ to_be_bytes w32 v.minimum.value))))) };

    ghost fits = { λ v. N.fits v.mname × N.fits v.rname };

    fn build_at(&self, bytes: &mut [u8], start: usize) -> Result<usize, TruncationError> {
        let limits = (&self.expire, &self.minimum);
        let numbers = (&self.serial, (&self.refresh, (&self.retry, limits)));
        (&self.mname, (&self.rname, numbers)).build_at(bytes, start)
    }

    fn built_bytes_size(&self) -> usize {
        self.mname.built_bytes_size() + self.rname.built_bytes_size() + 20
    }
}

/// The names as their type writes them in a message, all else whole.
impl<N: BuildInMessage> BuildInMessage for Soa<N> {
    ghost writes = { λ v. fields_write N.writes (soa_fields v) };

    ghost fits_in = { λ v. fields_fit N.fits_in N.writes (soa_fields v) };

    ghost layout = { λ v. fields_layout N.layout (soa_fields v) };

    ghost layout_matches = { λ v. fields_match N.writes N.layout N.layout_matches (soa_fields v) };

    fn build_in_message(
        &self,
        contents: &mut [u8],
        start: usize,
        compressor: &mut NameCompressor,
    ) -> Result<usize, TruncationError> {
        let limits = (&self.expire, (&self.minimum, ()));
        let numbers = (&self.serial, (&self.refresh, (&self.retry, limits)));
        (&self.mname, (&self.rname, numbers)).build_in_message(contents, start, compressor)
    }
}

/// The fields in order, the names in lowercase.
impl<N: CanonicalName> CanonicalRecordData for Soa<N> {
    ghost canonical = { λ v. canonical_octets 6 (map (named_by N.name) (soa_fields v)) };

    ghost as_long = { λ v. canonical_long 6 (map (named_by N.name) (soa_fields v)) ∙ ap length (names_and_numbers (wire (N.name v.mname)) (wire (N.name v.rname)) (N.octets v.mname) (N.octets v.rname) (to_be_bytes w32 v.serial.0.value) (to_be_bytes w32 v.refresh.value) (to_be_bytes w32 v.retry.value) (to_be_bytes w32 v.expire.value) (to_be_bytes w32 v.minimum.value) (N.octets_are v.mname) (N.octets_are v.rname)) };

    fn build_canonical_at(&self, bytes: &mut [u8], start: usize) -> Result<usize, TruncationError> {
        let mname = Lowercased { name: &self.mname };
        let rname = Lowercased { name: &self.rname };
        let limits = (&self.expire, (&self.minimum, ()));
        let numbers = (&self.serial, (&self.refresh, (&self.retry, limits)));
        (mname, (rname, numbers)).build_at(bytes, start)
    }

    fn cmp_canonical(&self, other: &Self) -> Ordering {
        match self.mname.cmp_lowercase_composed(&other.mname) {
            Ordering::Equal => {}
            decided => return decided,
        }
        match self.rname.cmp_lowercase_composed(&other.rname) {
            Ordering::Equal => {}
            decided => return decided,
        }
        match self.serial.0.compare(&other.serial.0) {
            Ordering::Equal => {}
            decided => return decided,
        }
        match self.refresh.compare(&other.refresh) {
            Ordering::Equal => {}
            decided => return decided,
        }
        match self.retry.compare(&other.retry) {
            Ordering::Equal => {}
            decided => return decided,
        }
        match self.expire.compare(&other.expire) {
            Ordering::Equal => {}
            decided => return decided,
        }
        self.minimum.compare(&other.minimum)
    }
}
