//! What follows from the definitions.

ghost use Rattle.std.specs.Prelude.{◌≡◌, ◌≤◌, ◌<◌, ◌⊎◌, ◌↔◌, ℕ, List, [], false, Some, None, Ok, Err, length, map, nat_eq, IsTrue, ◌&&◌};
ghost use Rattle.std.specs.Cmp.{IsTotalOrder};
ghost use Rattle.std.specs.Hash.{u16};
ghost use Rattle.std.specs.List.{All, Contains, concat};
ghost use Rattle.std.specs.List.Sorted.{IsPermutation};
ghost use Rattle.std.specs.declared.cmp.Ordering.TheVariants.{Equal};
ghost use Rattle.dns_wire.specs.Octets.{Octets};
ghost use Rattle.dns_wire.specs.Reading.{AreOctets};
ghost use Rattle.dns_record.specs.InPlace.{QuestionAt, RecordAt};
ghost use Rattle.dns_message.specs.Canonical.{canonical_wire, lowercase_names, plain_record};
ghost use Rattle.dns_message.specs.Counted.{IsCounted, IsEarlier, ComesBefore};
ghost use Rattle.dns_message.specs.Headers.{header_bits};
ghost use Rattle.dns_record.specs.FurtherFormats.{data_by, further_by};
ghost use Rattle.dns_message.specs.Messages.{BadAt, Item, Question, RecordValue, StopsAt, Valid, ValidBy, counted_slots, item_at, message_reading, with_item};
ghost use Rattle.dns_message.specs.Messages.Item.{QuestionItem, RecordItem};
ghost use Rattle.dns_message.specs.Messages.Reading.{Stopped, Whole};
ghost use Rattle.dns_message.specs.Order.{record_cmp, Before, alike_cmp, sort_key, are_alike, canonical_list};
ghost use Rattle.dns_message.specs.Parsing.{parsed_message, given_count, next_start, has_ended, ahead, Parsed, GivesNext};
ghost use Rattle.dns_message.specs.Seen.{item_seen};
ghost use Rattle.dns_message.specs.declared.parser.MessageParser.{MessageParser};
ghost use Rattle.dns_message.specs.declared.parser.ItemPosition.{ItemPosition};
ghost use Rattle.dns_wire.specs.declared.error.ParseError.{ParseError};
ghost use Rattle.dns_message.specs.Same.{Alike, IsLeast, Same, least};
ghost use Rattle.dns_message.specs.Sorted.{Climbs};
ghost use Rattle.dns_message.specs.WellFormed.{WellFormed};
ghost use Rattle.dns_message.specs.Worded.{ItemAt, FailsAt, ReadsWhole};
ghost use Rattle.dns_wire.specs.declared.sizes.TheConstants.{HEADER_SIZE};

use crate::build_error::MessageBuildError;
use crate::canon_error::CanonError;
use crate::canonical_record::CanonicalRecord;
use crate::header::HeaderFlags;
use crate::message::MAX_MESSAGE_SIZE;
use crate::parser::ItemPosition;
use dns_name::{Name, NameBuf, RevNameBuf};
use dns_rdata::RecordData;
use dns_record::{Formats, Record};
use dns_wire::ParseBytes;
use std::hash::Hash;

/// Each message is one of three things: shorter than its header; valid, with one list of records; or bad at
/// one item, the first that is not read.
pub fn three_kinds_of_messages()
    ensures some { (m : Octets) → (length m < HEADER_SIZE) ⊎ (((rs : List RecordValue) × Valid m rs) ⊎ ((s i : ℕ) × BadAt m s i)) }
    ensures one_list { (m : Octets) (rs ss : List RecordValue) → Valid m rs → Valid m ss → rs ≡ ss }
    ensures one_stop { (m : Octets) (s i p t j q : ℕ) → StopsAt m s i p → StopsAt m t j q → (s ≡ t) × (i ≡ j) × (p ≡ q) }
    ensures not_short { (m : Octets) (rs : List RecordValue) → Valid m rs → HEADER_SIZE ≤ length m }
    ensures stops_not_short { (m : Octets) (s i p : ℕ) → StopsAt m s i p → HEADER_SIZE ≤ length m }
    ensures stops_not_valid { (m : Octets) (s i p : ℕ) (rs : List RecordValue) → StopsAt m s i p → Valid m rs → ⊥ }
{}

/// The reading of a message in words: it stops at an item exactly if all items that are counted before
/// come one after another and none is at the item's place; it is whole exactly if all counted items
/// come one after another. In section 0 a question is read exactly if it is there, and in the others a
/// record exactly if it is there (RFC 1035 sections 4.1.2 to 4.1.4). At a place one item is read at the
/// most.
pub fn readings_in_words()
    ensures stops { (m : Octets) (s i p : ℕ) → StopsAt m s i p ↔ FailsAt m s i p }
    ensures whole { (m : Octets) (items : List Item) (end : ℕ) → (message_reading m ≡ Whole items end) ↔ ReadsWhole m items end }
    ensures one { (section : ℕ) (contents : Octets) (at : ℕ) (item other : Item) (end last : ℕ) →
        item_at section contents at ≡ Some (item, end) → item_at section contents at ≡ Some (other, last) → (item ≡ other) × (end ≡ last) }
    ensures question_item { (contents : Octets) (at : ℕ) (question : Question) (end : ℕ) →
        (item_at 0 contents at ≡ Some (QuestionItem question, end)) ↔ QuestionAt contents at question end }
    ensures record_item { (section : ℕ) (contents : Octets) (at : ℕ) (found : RecordValue) (end : ℕ) → 0 < section →
        (item_at section contents at ≡ Some (RecordItem found, end)) ↔ RecordAt contents at found end }
{}

/// An item is read at a place exactly if it is there: in section 0 a question, and in the others a record (RFC 1035
/// sections 4.1.2 to 4.1.4). At a place there is at most one item.
pub fn items_in_words()
    ensures read { (section : ℕ) (contents : Octets) (at : ℕ) (item : Item) (end : ℕ) →
        (item_at section contents at ≡ Some (item, end)) ↔ ItemAt section contents at item end }
    ensures one { (section : ℕ) (contents : Octets) (at : ℕ) (item other : Item) (end last : ℕ) →
        ItemAt section contents at item end → ItemAt section contents at other last → (item ≡ other) × (end ≡ last) }
{}

/// Which items of a message are counted: those of the four sections whose index is below the section's count in the header
/// (RFC 1035 section 4.1.1). Of two such items one is before the other exactly if its section is smaller, or its
/// section is the same and its index is smaller; and each occurs once.
pub fn counted_items()
    ensures counted { (m : Octets) (section index : ℕ) → HEADER_SIZE ≤ length m →
        Contains (counted_slots m) (section, index) ↔ IsCounted m section index }
    ensures order { (m : Octets) (section index other_section other_index : ℕ) → IsCounted m section index → IsCounted m other_section other_index →
        ComesBefore (section, index) (other_section, other_index) (counted_slots m) ↔ IsEarlier (section, index) (other_section, other_index) }
    ensures once { (m : Octets) (section index : ℕ) → ComesBefore (section, index) (section, index) (counted_slots m) → ⊥ }
{}

/// A record that is read in a message is well formed, and so is each record of a valid message (RFC 1035 section 3.2.1).
pub fn records_that_are_read_are_well_formed()
    ensures record_item { (section : ℕ) (contents : Octets) (at : ℕ) (found : RecordValue) (end : ℕ) → AreOctets contents →
        item_at section contents at ≡ Some (RecordItem found, end) → WellFormed found }
    ensures valid { (m : Octets) (rs : List RecordValue) → AreOctets m → Valid m rs → All WellFormed rs }
{}

/// Well formed records have equal canonical octets exactly if they are equal when lowercased (RFC 4034 section 6.2).
pub fn equal_canonical_octets()
    ensures { (r s : RecordValue) → WellFormed r → WellFormed s → (canonical_wire r ≡ canonical_wire s) ↔ (lowercase_names r ≡ lowercase_names s) }
{}

/// The canonical octets of a well formed record are read back as the lowercased record, and nothing is left over (RFC 4034
/// section 6.2). To fold it again changes nothing.
pub fn canonical_octets_are_read_back()
    ensures back { (r : RecordValue) → WellFormed r → plain_record (canonical_wire r) ≡ Some (lowercase_names r, []) }
    ensures well_formed { (r : RecordValue) → WellFormed r → WellFormed (lowercase_names r) }
    ensures octets { (r : RecordValue) → WellFormed r → AreOctets (canonical_wire r) }
    ensures again { (r : RecordValue) → canonical_wire (lowercase_names r) ≡ canonical_wire r }
    ensures twice { (r : RecordValue) → lowercase_names (lowercase_names r) ≡ lowercase_names r }
{}

/// So `Record::split_bytes`, for names and data without pointers, gives the lowercased record of the canonical octets of a well formed
/// one, and nothing is left over.
pub fn canonical_records_are_split_back()
    ensures { (r : RecordValue) → WellFormed r →
        ⟦<Record<Name<'static>, RecordData<'static, Name<'static>>> as ParseBytes<'static>>⟧.reads (canonical_wire r) ≡ Some (lowercase_names r, []) }
{}

/// The order of records is total, and neither of two well formed records is before the other exactly if
/// their canonical octets are equal.
pub fn order_of_records()
    ensures total { IsTotalOrder record_cmp }
    ensures ties { (r s : RecordValue) → WellFormed r → WellFormed s → (record_cmp r s ≡ Equal) ↔ (canonical_wire r ≡ canonical_wire s) }
    ensures before { (r s : RecordValue) → WellFormed r → WellFormed s → (Before r s ⊎ Before s r) ⊎ (canonical_wire r ≡ canonical_wire s) }
{}

/// Records are tested as alike exactly if they are: the same owner in lowercase, class, type and canonical data (RFC 2181 section
/// 5.2). Of well formed records those with equal canonical octets are alike.
pub fn alike_records()
    ensures tested { (r s : RecordValue) → IsTrue (are_alike r s) ↔ Alike r s }
    ensures octets { (r s : RecordValue) → WellFormed r → WellFormed s → canonical_wire r ≡ canonical_wire s → Alike r s }
{}

/// The canonical list has the canonical octets of exactly those records, other than OPT and lowercased, to which no alike record has a
/// smaller TTL, each once, in order by owner, class, type and data (RFC 4034 section 6, RFC 2181 section 5.2). It is one,
/// whatever order the records come in.
pub fn canonical_lists()
    ensures octets { (rs : List RecordValue) → canonical_list rs ≡ map canonical_wire (least rs) }
    ensures least { (rs : List RecordValue) → All WellFormed rs → (x : RecordValue) → Contains (least rs) x ↔ IsLeast rs x }
    ensures climbs { (rs : List RecordValue) → Climbs alike_cmp (map sort_key (least rs)) }
    ensures one { (rs ss : List RecordValue) → IsPermutation rs ss → canonical_list rs ≡ canonical_list ss }
{}

/// Lists of records are the same exactly if the records with the least TTLs, in order, are one list.
pub fn same_records()
    ensures { (rs ss : List RecordValue) → All WellFormed rs → All WellFormed ss → Same rs ss ↔ (least rs ≡ least ss) }
{}

/// Canonical lists are equal exactly if the records are the same (RFC 4034 section 6); so are those of two valid messages.
pub fn equal_outputs()
    ensures records { (rs ss : List RecordValue) → All WellFormed rs → All WellFormed ss → (canonical_list rs ≡ canonical_list ss) ↔ Same rs ss }
    ensures messages { (m n : Octets) (rs ss : List RecordValue) → AreOctets m → AreOctets n → Valid m rs → Valid n ss →
        (canonical_list rs ≡ canonical_list ss) ↔ Same rs ss }
{}

/// Canonical octets one after another are those of one list alone, though nothing stands between two records (RFC 8976 section 3.3.1.2).
/// So the canonical octets of two valid messages, one after another, are equal exactly if their records are the same.
pub fn canonical_streams()
    ensures one { (rs ss : List RecordValue) → All WellFormed rs → All WellFormed ss → (concat (canonical_list rs) ≡ concat (canonical_list ss)) ↔ (canonical_list rs ≡ canonical_list ss) }
    ensures records { (rs ss : List RecordValue) → All WellFormed rs → All WellFormed ss → (concat (canonical_list rs) ≡ concat (canonical_list ss)) ↔ Same rs ss }
    ensures messages { (m n : Octets) (rs ss : List RecordValue) → AreOctets m → AreOctets n → Valid m rs → Valid n ss →
        (concat (canonical_list rs) ≡ concat (canonical_list ss)) ↔ Same rs ss }
{}

/// A message without records of the further types of RFC 4034 section 6.2 is valid by both tables of formats or by neither, and has the same
/// records by both. So its canonical forms are the same.
pub fn same_formats()
    ensures { (m : Octets) (rs : List RecordValue) → All (λ r. further_by Formats.Listed r.rtype ≡ None) rs → ValidBy (data_by Formats.Listed) m rs ↔ Valid m rs }
{}

/// The items that a parser gives are those of its message, in order: one that was just made has the whole message ahead; an item
/// that it gives was the next of those ahead; if it refuses one, it is at this one that the message stops; and if it gives
/// none, nothing was ahead (RFC 1035 section 4.1).
pub fn parsers_read_messages()
    ensures start { (p : MessageParser) → HEADER_SIZE ≤ length (parsed_message p) → given_count p ≡ 0 → next_start p ≡ 0 → has_ended p ≡ false →
        ahead p ≡ message_reading (parsed_message p) }
    ensures more { (old new : MessageParser) (position : ItemPosition) (item : Parsed) → parsed_message new ≡ parsed_message old →
        GivesNext {E = ParseError} old (Some (position, Ok item)) new → ahead old ≡ with_item (item_seen item) (ahead new) }
    ensures refused { (old new : MessageParser) (position : ItemPosition) (error : ParseError) →
        GivesNext old (Some (position, Err error)) new → ahead old ≡ Stopped [] position.section position.index (next_start old) }
    ensures over { (old new : MessageParser) → GivesNext {E = ParseError} old None new → ahead old ≡ Whole [] (next_start old) }
{}

/// A record is read as the same whichever way its owner is kept, from its first label on or from the root on.
pub fn owners_in_either_layout()
    ensures { (contents : Octets) (at : ℕ) →
        ⟦<Record<NameBuf, RecordData<'static, NameBuf>> as ParseBytes<'static>>⟧.reads_at contents at
        ≡ ⟦<Record<RevNameBuf, RecordData<'static, NameBuf>> as ParseBytes<'static>>⟧.reads_at contents at }
{}

/// The flags of a header are equal if their bits are, feed a hasher these as a number, and have none by default (RFC 1035
/// section 4.1.1).
pub fn header_flags()
    ensures equal { (a b : _) → ⟦<HeaderFlags as PartialEq>⟧.eq a b ≡ nat_eq (header_bits a) (header_bits b) }
    ensures fed { (v : _) → ⟦<HeaderFlags as Hash>⟧.hash_input v ≡ u16 (header_bits v) }
    ensures none { (v : _) → ⟦<HeaderFlags as Default>⟧.is_default v → header_bits v ≡ 0 }
{}

/// Errors are equal exactly if they are the same.
pub fn equal_errors()
    ensures build { (a b : _) → IsTrue (⟦<MessageBuildError as PartialEq>⟧.eq a b) ↔ (a ≡ b) }
    ensures canon { (a b : _) → IsTrue (⟦<CanonError as PartialEq>⟧.eq a b) ↔ (a ≡ b) }
{}

/// Positions of items are equal if section and index are.
pub fn equal_positions()
    ensures { (a b : _) → ⟦<ItemPosition as PartialEq>⟧.eq a b ≡ (nat_eq a.section b.section && nat_eq a.index b.index) }
{}

/// A message has at most 65,535 octets (RFC 1035 section 4.2.2), and the canonical octets of a record are at most 65,800.
pub fn limits()
    ensures message { MAX_MESSAGE_SIZE ≡ 65535 }
    ensures canonical { CanonicalRecord.MAX_SIZE ≡ 65800 }
{}
