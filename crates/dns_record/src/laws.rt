//! The definitions of this crate in other words.

ghost use Rattle.std.specs.Prelude.{◌≡◌, ◌↔◌, ◌<◌, ◌+◌, ◌-◌, ◌^◌, ◌⊎◌, ℕ, List, Some, None, length};
ghost use Rattle.std.specs.declared.cmp.Ordering.TheVariants.{Less, Equal, Greater};
ghost use Rattle.dns_wire.specs.Octets.{Octets, Labels};
ghost use Rattle.dns_wire.specs.Pointers.{name_at};
ghost use Rattle.dns_record.specs.Fields.{Field, fields_octets};
ghost use Rattle.dns_record.specs.InPlace.{FieldsAt, DataAt, QuestionAt, RecordAt};
ghost use Rattle.dns_record.specs.Kinds.{Kind, fields_in};
ghost use Rattle.dns_record.specs.Data.{data_in};
ghost use Rattle.dns_record.specs.Questions.{QuestionOf, question_in};
ghost use Rattle.dns_record.specs.Records.{RecordOf, record_in};
ghost use Rattle.dns_record.specs.Serials.{serial_cmp};

/// What is read in a message, its names with their pointers followed, is what is there: fields of the
/// kinds of an RDATA format, one after another; the data of a type, which end where the record does; a question, and a
/// record (RFC 1035 sections 3.3, 4.1.2 and 4.1.3).
pub fn items_in_words()
    ensures fields { (kinds : List Kind) (contents : Octets) (at : ℕ) (fields : List Field) (end : ℕ) →
        (fields_in name_at kinds contents at ≡ Some (fields, end)) ↔ FieldsAt kinds contents at fields end }
    ensures content { (rtype : ℕ) (contents : Octets) (at : ℕ) (fields : List Field) →
        (data_in name_at rtype contents at ≡ Some fields) ↔ DataAt rtype contents at fields }
    ensures question { (contents : Octets) (at : ℕ) (question : QuestionOf Labels) (end : ℕ) →
        (question_in name_at contents at ≡ Some (question, end)) ↔ QuestionAt contents at question end }
    ensures whole { (contents : Octets) (at : ℕ) (found : RecordOf Labels (List Field)) (end : ℕ) →
        (record_in name_at (data_in name_at) contents at ≡ Some (found, end)) ↔ RecordAt contents at found end }
{}

/// Data that take up fewer than 65,536 octets have fewer than 65,536 octets when their names are written
/// whole. So a record that was read can be written again without pointers (RFC 4034 section 6.2).
#[tactic(auto, using(crate::proofs::Sizes::data_short_at))]
pub fn whole_data_are_short()
    ensures { (rtype : ℕ) (contents : Octets) (at : ℕ) (fields : List Field) → length contents < at + 2 ^ 16 →
        DataAt rtype contents at fields → length (fields_octets fields) < 2 ^ 16 }
{}

/// Two serial numbers compare as RFC 1982 section 3.2 says: they are equal if their values are. The first is less if
/// it is below the other by less than 2^31, or above it by more; it is greater if it is below the other by more than 2^31,
/// or above it by less. If they are 2^31 apart, neither holds.
pub fn serial_numbers_compare()
    ensures equal { (a b : ℕ) → a < 2 ^ 32 → b < 2 ^ 32 → (serial_cmp a b ≡ Some Equal) ↔ (a ≡ b) }
    ensures less { (a b : ℕ) → a < 2 ^ 32 → b < 2 ^ 32 →
        (serial_cmp a b ≡ Some Less) ↔ (((a < b) × (b - a < 2 ^ 31)) ⊎ ((b < a) × (2 ^ 31 < a - b))) }
    ensures greater { (a b : ℕ) → a < 2 ^ 32 → b < 2 ^ 32 →
        (serial_cmp a b ≡ Some Greater) ↔ (((a < b) × (2 ^ 31 < b - a)) ⊎ ((b < a) × (a - b < 2 ^ 31))) }
    ensures neither { (a b : ℕ) → a < 2 ^ 32 → b < 2 ^ 32 →
        (serial_cmp a b ≡ None) ↔ (((a < b) × (b - a ≡ 2 ^ 31)) ⊎ ((b < a) × (a - b ≡ 2 ^ 31))) }
{}
