//! The definitions of this crate in other words.

ghost use Rattle.std.specs.Prelude.{◌≡◌, ◌↔◌, IsTrue};
ghost use Rattle.dns_boxed.specs.Boxed.{AreReadAs};
ghost use Rattle.dns_boxed.specs.BoxedValue.{boxed_type, boxed_octets};
ghost use Rattle.dns_boxed.specs.declared.boxed_record_data.BoxedRecordData.{BoxedRecordData};
ghost use Rattle.dns_name.specs.declared.name.Name.{Name};
ghost use Rattle.dns_rdata.specs.declared.record_data.RecordData.{RecordData};
ghost use Rattle.dns_wire.specs.Octets.{Octets, Places};

use crate::box_error::BoxError;
use crate::boxed_record_data::BoxedRecordData;
use dns_name::Name;
use dns_rdata::{
    RecordData, data_of_any_type_are_equal_by_fields, data_of_any_type_are_hashed_by_fields,
};
use dns_record::CanonicalRecordData;
use dns_wire::BuildInMessage;
use std::hash::Hash;

/// Boxed data are, for each trait, as the data that are read from them, which `get` gives: their canonical octets and their rank,
/// by which they compare (RFC 4034 sections 6.2 and 6.3), what they are equal to, what they feed a hasher, and what they write in a
/// message (RFC 1035 section 4.1.4).
pub fn boxed_data_are_as_read()
    ensures canonical { (boxed : BoxedRecordData) (read : RecordData Name) → AreReadAs (boxed_type boxed) (boxed_octets boxed) read →
        ⟦<BoxedRecordData as CanonicalRecordData>⟧.canonical boxed ≡ ⟦<RecordData<'static, Name<'static>> as CanonicalRecordData>⟧.canonical read }
    ensures rank { (boxed : BoxedRecordData) (read : RecordData Name) → AreReadAs (boxed_type boxed) (boxed_octets boxed) read →
        ⟦<BoxedRecordData as CanonicalRecordData>⟧.rank boxed ≡ ⟦<RecordData<'static, Name<'static>> as CanonicalRecordData>⟧.rank read }
    ensures equal { (boxed other : BoxedRecordData) (read also : RecordData Name) →
        AreReadAs (boxed_type boxed) (boxed_octets boxed) read → AreReadAs (boxed_type other) (boxed_octets other) also →
        ⟦<BoxedRecordData as PartialEq>⟧.eq boxed other ≡ ⟦<RecordData<'static, Name<'static>> as PartialEq>⟧.eq read also }
    ensures fed { (boxed : BoxedRecordData) (read : RecordData Name) → AreReadAs (boxed_type boxed) (boxed_octets boxed) read →
        ⟦<BoxedRecordData as Hash>⟧.hash_input boxed ≡ ⟦<RecordData<'static, Name<'static>> as Hash>⟧.hash_input read }
    ensures built { (boxed : BoxedRecordData) (read : RecordData Name) (contents : Octets) (places : Places) → AreReadAs (boxed_type boxed) (boxed_octets boxed) read →
        ⟦<BoxedRecordData as BuildInMessage>⟧.writes boxed contents places ≡ ⟦<RecordData<'static, Name<'static>> as BuildInMessage>⟧.writes read contents places }
{
    data_of_any_type_are_equal_by_fields::<Name<'_>>();
    data_of_any_type_are_hashed_by_fields::<Name<'_>>();
}

/// Errors are equal exactly if they are the same.
pub fn equal_errors()
    ensures boxed { (a b : _) → IsTrue (⟦<BoxError as PartialEq>⟧.eq a b) ↔ (a ≡ b) }
{}
