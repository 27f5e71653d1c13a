//! Record data in one piece of memory that lives on its own.

ghost use Rattle.std.specs.Prelude.{◌≡◌, ◌≤◌, ◌<◌, ◌^◌, ℕ, List, Some, length, map, true, vec_len, IfOk, IfErr};
ghost use Rattle.std.proofs.Props.{props};
ghost use Rattle.dns_wire.specs.Names.{plain_name, name_labels, wire};
ghost use Rattle.dns_wire.specs.Reading.{AreOctets};
ghost use Rattle.dns_record.specs.Data.{data_as};
ghost use Rattle.dns_record.specs.Fields.{named_by, canonical_octets};
ghost use Rattle.dns_boxed.specs.Boxed.{is_readable, spelled_fields, IsWhy};
ghost use Rattle.dns_rdata.specs.Data.{data_fields, type_number, written_fields, IsDataOf, NamesFit};

use crate::box_error::BoxError;
use dns_name::Name;
use dns_rdata::{
    RecordData, data_of_any_type_are_equal_by_fields, data_of_any_type_are_hashed_by_fields,
};
use dns_record::{CanonicalRecordData, ParseRecordDataBytes, RType};
use dns_wire::{BuildBytes, BuildInMessage, NameCompressor, TruncationError, put};
use std::alloc::{AllocError, Global};
use std::cmp::Ordering;
use std::hash::{Hash, Hasher};

/// Whether the RDATA format of the type reads all the octets.
fn reads(bytes: &[u8], rtype: RType) -> bool
    ensures { result ≡ is_readable rtype.code.value bytes.now }
{
    match RecordData::<Name<'_>>::parse_record_data_bytes(bytes, rtype) {
        Ok(_) => true,
        Err(_) => false,
    }
}

/// Writes the octets of data over octets that are as many.
fn write_whole<N: BuildBytes>(content: &RecordData<'_, N>, octets: &mut [u8])
    requires fits { NamesFit N.fits content.now }
    requires as_many { length octets.old ≡ length (written_fields N.octets (data_fields content.now)) }
    ensures { octets.new ≡ written_fields N.octets (data_fields content.now) }
{
    content.build_at(octets, 0).unwrap();
}

/// Record data of any type in one piece of memory: at most 65,535 octets, all of which the RDATA format of their type reads, with
/// their names whole.
#[derive(Debug, Drop)]
pub struct BoxedRecordData {
    rtype: RType,
    octets: Vec<u8>,
    ghost short: { vec_len octets < 2 ^ 16 },
    ghost octal: { AreOctets octets.items } by { Prim.hlevel props },
    ghost readable: { is_readable rtype.code.value octets.items ≡ true } by { Prim.hlevel props },
}

impl BoxedRecordData {
    ghost use Rattle.dns_boxed.specs.BoxedValue.{boxed_type, boxed_octets};

    /// Keeps the octets of these data, names whole. `TooLong` comes exactly above 65,535 octets, before memory is taken.
    /// `Unreadable` comes if the RDATA format of the type doesn't read the octets, as those of NSEC without a type (RFC 4034 section
    /// 4.1.2), or unknown octets under the number of a type that has others. `Memory` is out of memory.
    pub fn make<N: BuildBytes>(
        alloc: Global,
        content: &RecordData<'_, N>,
    ) -> Result<BoxedRecordData, BoxError>
        requires countable { length (written_fields N.octets (data_fields content.now)) < 2 ^ 64 }
        requires fits { NamesFit N.fits content.now }
        ensures octets { IfOk result (λ boxed. boxed_octets boxed ≡ written_fields N.octets (data_fields content.now)) }
        ensures typed { IfOk result (λ boxed. boxed_type boxed ≡ type_number content.now) }
        ensures short { IfOk result (λ _. length (written_fields N.octets (data_fields content.now)) ≤ 65535) }
        ensures readable { IfOk result (λ _. is_readable (type_number content.now) (written_fields N.octets (data_fields content.now)) ≡ true) }
        ensures refused { IfErr result (λ why. IsWhy why (type_number content.now) (written_fields N.octets (data_fields content.now))) }
    {
        let size = content.built_bytes_size();
        if size > 65_535 {
            return Err(BoxError::TooLong);
        }
        let rtype = content.rtype();
        let mut octets = vec![in alloc; 0; size]?;
        write_whole(content, &mut octets);
        if !reads(octets.as_slice(), rtype) {
            return Err(BoxError::Unreadable);
        }
        Ok(BoxedRecordData { rtype, octets })
    }

    /// Keeps these octets under this type. `TooLong` comes exactly above 65,535 octets, before memory is taken. `Unreadable`
    /// comes if the RDATA format of the type doesn't read them. `Memory` is out of memory.
    pub fn parse(alloc: Global, bytes: &[u8], rtype: RType) -> Result<BoxedRecordData, BoxError>
        ensures octets { IfOk result (λ boxed. boxed_octets boxed ≡ bytes.now) }
        ensures typed { IfOk result (λ boxed. boxed_type boxed ≡ rtype.code.value) }
        ensures short { IfOk result (λ _. length bytes.now ≤ 65535) }
        ensures readable { IfOk result (λ _. is_readable rtype.code.value bytes.now ≡ true) }
        ensures refused { IfErr result (λ why. IsWhy why rtype.code.value bytes.now) }
    {
        if bytes.len() > 65_535 {
            return Err(BoxError::TooLong);
        }
        if !reads(bytes, rtype) {
            return Err(BoxError::Unreadable);
        }
        let octets = Vec::from_slice(alloc, bytes)?;
        Ok(BoxedRecordData { rtype, octets })
    }

    /// The same data in their own memory, from where theirs is.
    pub fn try_clone(&self) -> Result<BoxedRecordData, AllocError>
        ensures octets { IfOk result (λ copy. boxed_octets copy ≡ boxed_octets self.now) }
        ensures typed { IfOk result (λ copy. boxed_type copy ≡ boxed_type self.now) }
    {
        let octets = self.octets.clone()?;
        Ok(BoxedRecordData {
            rtype: self.rtype,
            octets,
        })
    }

    /// The type.
    pub fn rtype(&self) -> RType
        ensures { result.code.value ≡ boxed_type self.now }
    {
        self.rtype
    }

    /// The octets, names whole.
    pub fn bytes(&self) -> &[u8]
        ensures octets { result.now ≡ boxed_octets self.now }
        ensures short { length result.now < 2 ^ 16 }
        ensures readable { is_readable (boxed_type self.now) result.now ≡ true }
    {
        self.octets.as_slice()
    }

    /// The data, as they are read from the octets. What they write are these octets.
    pub fn get(&self) -> RecordData<'_, Name<'_>>
        ensures read { data_as plain_name (boxed_type self.now) (boxed_octets self.now) ≡ Some (map (named_by (λ name. name_labels name.slice.now)) (data_fields result)) }
        ensures typed { IsDataOf result (boxed_type self.now) }
        ensures written { written_fields (λ name. wire (name_labels name.slice.now)) (data_fields result) ≡ boxed_octets self.now }
    {
        RecordData::parse_record_data_bytes(self.bytes(), self.rtype).unwrap()
    }
}

impl BuildBytes for BoxedRecordData {
    ghost octets = { λ v. v.octets.items };

    fn build_at(&self, bytes: &mut [u8], start: usize) -> Result<usize, TruncationError> {
        put(self.bytes(), bytes, start)
    }

    fn built_bytes_size(&self) -> usize {
        self.bytes().len()
    }
}

/// As the data that the octets spell: names that pointers may lead through are shared, though they are kept whole.
impl BuildInMessage for BoxedRecordData {
    ghost use Rattle.std.specs.Prelude.{[], ◌∷◌};
    ghost use Rattle.dns_wire.specs.Compression.{compressed_name_writes};
    ghost use Rattle.dns_wire.specs.Layout.LayoutPart.{NamePart};
    ghost use Rattle.dns_wire.specs.LayoutLemmas.{part_matches};
    ghost use Rattle.dns_record.specs.InMessage.{fields_write, fields_layout};
    ghost use Rattle.dns_record.proofs.FieldLayoutLemmas.{fields_match};
    ghost use Rattle.dns_boxed.specs.Boxed.{spelled_fields};

    ghost writes = { λ v. fields_write compressed_name_writes (spelled_fields v.rtype.code.value v.octets.items) };

    ghost layout = { λ v. fields_layout (λ labels. Some (NamePart labels ∷ [])) (spelled_fields v.rtype.code.value v.octets.items) };

    ghost layout_matches = { λ v. fields_match compressed_name_writes (λ labels. Some (NamePart labels ∷ [])) (λ labels. part_matches (NamePart labels)) (spelled_fields v.rtype.code.value v.octets.items) };

    fn build_in_message(
        &self,
        contents: &mut [u8],
        start: usize,
        compressor: &mut NameCompressor,
    ) -> Result<usize, TruncationError> {
        self.get().build_in_message(contents, start, compressor)
    }
}

/// Those of the fields that the octets spell, by the type.
impl CanonicalRecordData for BoxedRecordData {
    ghost use Rattle.dns_boxed.specs.ReadableOctets.{spelled_long};

    ghost canonical = { λ v. canonical_octets v.rtype.code.value (spelled_fields v.rtype.code.value v.octets.items) };

    ghost rank = { λ v. v.rtype.code.value };

    ghost as_long = { λ v. spelled_long v.rtype.code.value v.octets.items v.octal v.readable };

    fn build_canonical_at(&self, bytes: &mut [u8], start: usize) -> Result<usize, TruncationError> {
        self.get().build_canonical_at(bytes, start)
    }

    fn cmp_canonical(&self, other: &Self) -> Ordering {
        self.get().cmp_canonical(&other.get())
    }
}

/// The same type, and the same fields, as `RecordData` compares them.
impl PartialEq for BoxedRecordData {
    ghost use Rattle.std.specs.Cmp.{partial_equiv_from_equiv, on_equiv};
    ghost use Rattle.std.specs.Ordering.{on};
    ghost use Rattle.dns_rdata.specs.Alike.{same_name, same_content};
    ghost use Rattle.dns_boxed.specs.Boxed.{spelled_content};
    ghost use Rattle.dns_boxed.specs.ContentSameness.{content_equiv};

    ghost eq = { on (λ v. spelled_content v.rtype.code.value v.octets.items) (same_content same_name) };

    ghost laws = { partial_equiv_from_equiv (on_equiv (λ v. spelled_content v.rtype.code.value v.octets.items) content_equiv) };

    fn eq(&self, other: &Self) -> bool {
        data_of_any_type_are_equal_by_fields::<Name<'_>>();
        self.get() == other.get()
    }
}

impl Eq for BoxedRecordData {
    ghost use Rattle.std.specs.Cmp.{on_equiv};
    ghost use Rattle.dns_boxed.specs.Boxed.{spelled_content};
    ghost use Rattle.dns_boxed.specs.ContentSameness.{content_equiv};

    ghost laws = { on_equiv (λ v. spelled_content v.rtype.code.value v.octets.items) content_equiv };
}

/// What `RecordData` feeds.
impl Hash for BoxedRecordData {
    ghost use Rattle.dns_name.specs.Hashing.{name_writes};
    ghost use Rattle.dns_rdata.specs.Alike.{content_writes};
    ghost use Rattle.dns_boxed.specs.Boxed.{spelled_content};
    ghost use Rattle.dns_boxed.specs.ContentSameness.{spelled_alike};

    ghost hash_input = { λ v. content_writes name_writes (spelled_content v.rtype.code.value v.octets.items) };

    ghost respects_eq = { λ a b same. spelled_alike a.rtype.code.value b.rtype.code.value a.octets.items b.octets.items a.readable b.readable same };

    fn hash<H: Hasher>(&self, state: &mut H) {
        data_of_any_type_are_hashed_by_fields::<Name<'_>>();
        self.get().hash(state);
    }
}
