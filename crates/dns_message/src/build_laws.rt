//! What follows from the definitions of messages that are built.

ghost use Rattle.std.specs.Prelude.{◌≡◌, ◌<◌, ◌+◌, ◌^◌, ◌++◌, ℕ, List, [], ◌∷◌, Some, IsTrue, IsFalse, length, take, replicate, set};
ghost use Rattle.std.specs.Int.{w16, to_be_bytes};
ghost use Rattle.dns_wire.specs.Compression.{CompressedWrite, FitsIn, compressed_name_writes};
ghost use Rattle.dns_wire.specs.Names.{IsName, lowered};
ghost use Rattle.dns_wire.specs.Layout.{octets_writes};
ghost use Rattle.dns_wire.specs.Octets.{Octets, Labels};
ghost use Rattle.dns_wire.specs.Reading.{AreOctets};
ghost use Rattle.dns_record.specs.InMessage.{question_writes};
ghost use Rattle.dns_record.specs.Options.{is_option_data};
ghost use Rattle.dns_edns.specs.Flags.{flag_bits};
ghost use Rattle.dns_rdata.specs.Edns.{edns_seen, edns_octets};
ghost use Rattle.dns_rdata.specs.declared.edns_record.EdnsRecord.{EdnsRecord};
ghost use Rattle.dns_message.specs.Built.{built};
ghost use Rattle.dns_message.specs.Canonical.{lowercase_names};
ghost use Rattle.dns_message.specs.WellFormed.{WellFormed};
ghost use Rattle.dns_message.specs.Building.{Draft, drafted, count_in, has_later, pushed};
ghost use Rattle.dns_message.specs.Messages.{Item, Question, RecordValue, counts_of, item_at, message_reading, records_among};
ghost use Rattle.dns_message.specs.Messages.Item.{QuestionItem, RecordItem};
ghost use Rattle.dns_message.specs.Messages.Reading.{Whole};
ghost use Rattle.dns_message.specs.Seen.{edns_value};
ghost use Rattle.dns_wire.specs.declared.sizes.TheConstants.{HEADER_SIZE};

/// Octets after an item change nothing of how it is read: names lead back, and data are read within their size (RFC 1035
/// sections 4.1.3 and 4.1.4).
pub fn octets_after_items()
    ensures { (section : ℕ) (contents more : Octets) (at : ℕ) (item : Item) (end : ℕ) →
        item_at section contents at ≡ Some (item, end) → item_at section (contents ++ more) at ≡ Some (item, end) }
{}

/// A new message, of an id, flags and four counts of zero, is read whole and has no items (RFC 1035 section 4.1.1).
pub fn new_messages_are_empty()
    ensures { (draft : Draft) (id flags : ℕ) →
        draft.header ≡ to_be_bytes w16 id ++ to_be_bytes w16 flags ++ replicate 8 0 → draft.contents ≡ [] →
        message_reading (drafted draft) ≡ Whole [] 0 }
{}

/// A push that is accepted leaves a header of 12 octets, with the id and the flags that it had and with the counts that it had,
/// but one more item in the section of the push (RFC 1035 section 4.1.1).
pub fn pushes_count_one_more()
    ensures size { (section : ℕ) (writes : CompressedWrite) (draft : Draft) → section < 4 → length draft.header ≡ HEADER_SIZE →
        length (pushed section writes draft).header ≡ HEADER_SIZE }
    ensures octets { (section : ℕ) (writes : CompressedWrite) (draft : Draft) → AreOctets draft.header →
        AreOctets (pushed section writes draft).header }
    ensures prefix { (section : ℕ) (writes : CompressedWrite) (draft : Draft) → section < 4 → length draft.header ≡ HEADER_SIZE →
        take 4 (pushed section writes draft).header ≡ take 4 draft.header }
    ensures counts { (section : ℕ) (writes : CompressedWrite) (draft : Draft) → section < 4 → length draft.header ≡ HEADER_SIZE →
        count_in section draft.header < 65535 →
        counts_of (pushed section writes draft).header ≡ set (counts_of draft.header) section (count_in section draft.header + 1) }
{}

/// Let a message be read whole, with its items ending where its contents do, and let a push be accepted. If the octets that it
/// writes are read after the contents as an item of its section, the message is then read whole as the items that it had and
/// this one, and they end where the new contents do (RFC 1035 section 4.1). Its records are those that it had, and then the
/// item, if that is a record.
pub fn pushes_add_an_item()
    ensures item { (section : ℕ) (writes : CompressedWrite) (draft : Draft) (items : List Item) (item : Item) →
        section < 4 → length draft.header ≡ HEADER_SIZE → IsFalse (has_later section draft.header) → count_in section draft.header < 65535 →
        message_reading (drafted draft) ≡ Whole items (length draft.contents) →
        item_at section (pushed section writes draft).contents (length draft.contents) ≡ Some (item, length (pushed section writes draft).contents) →
        message_reading (drafted (pushed section writes draft)) ≡ Whole (items ++ item ∷ []) (length (pushed section writes draft).contents) }
    ensures question_item { (items : List Item) (question : Question) → records_among (items ++ QuestionItem question ∷ []) ≡ records_among items }
    ensures record_item { (items : List Item) (found : RecordValue) → records_among (items ++ RecordItem found ∷ []) ≡ records_among items ++ found ∷ [] }
{}

/// Let a message be read whole, with its items ending where its contents do, and let a well formed record be pushed whose owner and
/// whose names that pointers may lead through are compressed. The message is then read whole as the items that it had and a record
/// that is this one when both are lowercased, and they end where the new contents do (RFC 1035 section 4.1.4).
pub fn pushed_records_are_read()
    ensures { (section : ℕ) (draft : Draft) (items : List Item) (r : RecordValue) →
        0 < section → section < 4 → length draft.header ≡ HEADER_SIZE → IsFalse (has_later section draft.header) → count_in section draft.header < 65535 →
        message_reading (drafted draft) ≡ Whole items (length draft.contents) → FitsIn draft.places draft.contents → WellFormed r →
        (there : RecordValue) × (lowercase_names there ≡ lowercase_names r)
        × (message_reading (drafted (pushed section (built r) draft)) ≡ Whole (items ++ RecordItem there ∷ []) (length (pushed section (built r) draft).contents)) }
{}

/// The same for a question whose name is compressed: its type and class are the same, and its name is, except for ASCII case.
pub fn pushed_questions_are_read()
    ensures { (draft : Draft) (items : List Item) (labels : Labels) (qtype class : ℕ) →
        length draft.header ≡ HEADER_SIZE → IsFalse (has_later 0 draft.header) → count_in 0 draft.header < 65535 →
        message_reading (drafted draft) ≡ Whole items (length draft.contents) → FitsIn draft.places draft.contents →
        IsName labels → qtype < 2 ^ 16 → class < 2 ^ 16 →
        (there : Labels) × (lowered there ≡ lowered labels)
        × (message_reading (drafted (pushed 0 (question_writes (compressed_name_writes labels) qtype class) draft))
        ≡ Whole (items ++ QuestionItem (record { name = there; qtype = qtype; class = class }) ∷ []) (length (pushed 0 (question_writes (compressed_name_writes labels) qtype class) draft).contents)) }
{}

/// The same for an EDNS record whose data are options, among the additional records: the message is then read whole as the items
/// that it had and exactly this record, since its owner is the root and its data have no names (RFC 6891 section 6.1.2).
pub fn pushed_edns_are_read<D>()
    ensures { (draft : Draft) (items : List Item) (r : EdnsRecord D) (octets : Octets) →
        length draft.header ≡ HEADER_SIZE → count_in 3 draft.header < 65535 →
        message_reading (drafted draft) ≡ Whole items (length draft.contents) → FitsIn draft.places draft.contents →
        r.max_udp_payload.value < 2 ^ 16 → r.ext_rcode < 2 ^ 8 → r.version < 2 ^ 8 → flag_bits r.flags < 2 ^ 16 →
        AreOctets octets → IsTrue (is_option_data octets) →
        message_reading (drafted (pushed 3 (octets_writes (edns_octets r octets)) draft))
        ≡ Whole (items ++ RecordItem (edns_value (edns_seen (λ _. octets) r)) ∷ []) (length (pushed 3 (octets_writes (edns_octets r octets)) draft).contents) }
{}
