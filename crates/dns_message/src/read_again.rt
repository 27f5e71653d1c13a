//! What is built in a message is read again.

ghost use Rattle.std.specs.Prelude.{◌≡◌, ◌+◌, ◌<◌, ◌≤◌, ◌^◌, ◌++◌, ℕ, IsTrue, List, [], ◌∷◌, Some, length, map};
ghost use Rattle.dns_wire.specs.Compression.{FitsIn, compressed_name_writes};
ghost use Rattle.dns_wire.specs.Names.{IsName};
ghost use Rattle.std.specs.Int.{to_be_bytes};
ghost use Rattle.std.specs.List.{AllByRecursion};
ghost use Rattle.dns_wire.specs.Layout.{LayoutPart, octets_writes};
ghost use Rattle.dns_wire.specs.Layout.LayoutPart.{NamePart, OctetsPart};
ghost use Rattle.dns_num.specs.InMessage.{zeros, sized_compressed_writes};
ghost use Rattle.dns_message.specs.LayoutRead.{IsLayoutPart, LayoutAt};
ghost use Rattle.dns_record.specs.Fields.{named_by};
ghost use Rattle.dns_record.specs.InMessage.{question_writes, fixed_header, record_writes, fields_write};
ghost use Rattle.dns_record.specs.Seen.{record_seen};
ghost use Rattle.dns_record.specs.declared.record.Record.{Record};
ghost use Rattle.dns_edns.specs.Flags.{flag_bits};
ghost use Rattle.dns_rdata.specs.Data.{data_fields};
ghost use Rattle.dns_rdata.specs.Edns.{edns_seen, edns_octets};
ghost use Rattle.dns_rdata.specs.declared.edns_record.EdnsRecord.{EdnsRecord};
ghost use Rattle.dns_rdata.specs.declared.record_data.RecordData.{RecordData};
ghost use Rattle.dns_message.specs.Built.{built, field_part, ReadAgain, QuestionAgain};
ghost use Rattle.dns_message.specs.Canonical.{record_octets};
ghost use Rattle.dns_message.specs.Messages.{RecordValue};
ghost use Rattle.dns_message.specs.Seen.{edns_value};
ghost use Rattle.dns_message.specs.WellFormed.{WellFormed};
ghost use Rattle.dns_wire.specs.Octets.{Octets, Labels, Places};
ghost use Rattle.dns_wire.specs.Reading.{AreOctets};
ghost use Rattle.dns_record.specs.Options.{is_option_data};

use dns_num::SizePrefix;
use dns_wire::BuildInMessage;

/// A value that has a layout is read again where it was written in a message, whatever is written after it: each compressed name
/// except for ASCII case, since the name that it points to may have another, and all other octets as they are (RFC 1035 section
/// 4.1.4).
pub fn layouts_are_read<T: BuildInMessage>()
    ensures { (v : T) (layout : List LayoutPart) (contents : Octets) (places : Places) (more : Octets) →
        T.layout v ≡ Some layout → AllByRecursion IsLayoutPart layout → FitsIn places contents →
        LayoutAt ((contents ++ (T.writes v contents places).0) ++ more) (length contents) layout (length contents + length (T.writes v contents places).0) }
{}

/// Data after their size are read again where they were written in a message, part by part: the size that is in place of
/// the zeros is no part of a name.
pub fn prefixed_layouts_are_read<S: SizePrefix, T: BuildInMessage>()
    ensures { (v : T) (layout : List LayoutPart) (contents : Octets) (places : Places) (more : Octets) →
        T.layout v ≡ Some layout → AllByRecursion IsLayoutPart layout → FitsIn places contents →
        LayoutAt ((contents ++ (sized_compressed_writes S.number_width (T.writes v) contents places).0) ++ more) (length contents)
        (OctetsPart (to_be_bytes S.number_width (length (T.writes v (contents ++ zeros S.number_width) places).0)) ∷ layout)
        (length contents + length (sized_compressed_writes S.number_width (T.writes v) contents places).0) }
{}

/// A record with data of any type writes in a message what its parts do, if each of its names says that
/// it is compressed: the owner, the numbers, and after their size the fields.
pub fn records_are_built<N: BuildInMessage>()
    ensures { (name : N → Labels) → ((n : N) → N.layout n ≡ Some (NamePart (name n) ∷ [])) →
        (r : Record N (RecordData N)) →
        record_writes (N.writes r.rname) (fixed_header r.rtype.code.value r.rclass.code.value r.ttl.value.value) (fields_write N.writes (data_fields r.rdata))
        ≡ built (record_seen name (λ v. map (named_by name) (data_fields v)) r) }
{}

/// A record with a name and data of any types writes in a message what a record of these fields does, if its owner says that it is
/// compressed, and its data have a part for each field.
pub fn records_with_layouts_are_built<N: BuildInMessage, D: BuildInMessage>()
    ensures { (owner : N) (content : D) (r : RecordValue) → N.layout owner ≡ Some (NamePart r.owner ∷ []) → D.layout content ≡ Some (map field_part r.content) →
        record_writes (N.writes owner) (fixed_header r.rtype r.class r.ttl) (D.writes content) ≡ built r }
{}

/// An EDNS record whose data are these octets writes in a message what the record that it is writes (RFC 6891 section 6.1.2). A
/// message keeps no more than 128 places of names.
pub fn edns_records_are_built<D>()
    ensures { (r : EdnsRecord D) (octets contents : Octets) (places : Places) →
        length places ≤ 128 → r.ext_rcode < 2 ^ 8 → r.version < 2 ^ 8 → flag_bits r.flags < 2 ^ 16 →
        octets_writes (edns_octets r octets) contents places ≡ built (edns_value (edns_seen (λ _. octets) r)) contents places }
{}

/// The record that an EDNS record is, if its data are options, is well formed; so a push of it is one of such a record (RFC 6891
/// section 6.1.2).
pub fn edns_records_are_well_formed<D>()
    ensures { (r : EdnsRecord D) (octets : Octets) →
        r.max_udp_payload.value < 2 ^ 16 → r.ext_rcode < 2 ^ 8 → r.version < 2 ^ 8 → flag_bits r.flags < 2 ^ 16 →
        AreOctets octets → IsTrue (is_option_data octets) → WellFormed (edns_value (edns_seen (λ _. octets) r)) }
{}

/// A well formed record that was built in a message is read again where it is, whatever is written
/// after it, as the same record when both are lowercased: except for ASCII case in its owner and in names of the
/// types of `RType::uses_lowercase_canonical_form` (RFC 1035 section 4.1.4).
pub fn built_records_are_read()
    ensures { (r : RecordValue) (contents : Octets) (places : Places) (more : Octets) → WellFormed r → FitsIn places contents →
        ReadAgain ((contents ++ (built r contents places).0) ++ more) (length contents) r (length contents + length (built r contents places).0) }
{}

/// A question that was built in a message is read again where it is, with the same name except for ASCII
/// case, the same type and the same class.
pub fn built_questions_are_read()
    ensures { (labels : Labels) (qtype class : ℕ) (contents : Octets) (places : Places) (more : Octets) → IsName labels → qtype < 2 ^ 16 → class < 2 ^ 16 → FitsIn places contents →
        QuestionAgain ((contents ++ (question_writes (compressed_name_writes labels) qtype class contents places).0) ++ more) (length contents) labels qtype class
        (length contents + length (question_writes (compressed_name_writes labels) qtype class contents places).0) }
{}

/// Shared names make nothing longer: a record that is built has no more octets than with its names whole.
pub fn built_records_are_no_longer()
    ensures { (r : RecordValue) (contents : Octets) (places : Places) → length (built r contents places).0 ≤ length (record_octets r) }
{}
