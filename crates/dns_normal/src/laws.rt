//! What follows from the definitions.

ghost use Rattle.std.specs.Prelude.{◌≡◌, ◌≤◌, ◌<◌, ◌↔◌, ℕ, List, [], ◌∷◌, Some, None, codes, length, IsTrue};
ghost use Rattle.std.specs.List.{All};
ghost use Rattle.dns_text.specs.Hexadecimal.{Spells, SpellsNothing};
ghost use Rattle.dns_wire.specs.Octets.{Octets};
ghost use Rattle.dns_wire.specs.Reading.{AreOctets};
ghost use Rattle.dns_message.specs.Messages.{BadAt, RecordValue, Valid};
ghost use Rattle.dns_message.specs.Order.{canonical_list};
ghost use Rattle.dns_message.specs.Same.{Same};
ghost use Rattle.dns_message.specs.WellFormed.{WellFormed};
ghost use Rattle.dns_normal.specs.Normal.{normal_form};
ghost use Rattle.dns_command.specs.Texts.{HasRecords};
ghost use Rattle.dns_normal.specs.Texts.{PrintsNormal, command_of, normal_outcome, outcome_of};
ghost use Rattle.dns_message.specs.declared.message.TheConstants.{MAX_MESSAGE_SIZE};
ghost use Rattle.dns_text.specs.declared.transfer.TheConstants.{MESSAGE_TEXT_LIMIT};
ghost use Rattle.dns_wire.specs.declared.sizes.TheConstants.{HEADER_SIZE};

use crate::refusal::NormalReason;
use crate::status::NormalStatus;

/// Lists of records that are the same have one normal form. If it is no more than 65,535 octets, other records have another one.
pub fn equal_normal_forms()
    ensures same { (rs ss : List RecordValue) → All WellFormed rs → All WellFormed ss → Same rs ss → normal_form rs ≡ normal_form ss }
    ensures different { (rs ss : List RecordValue) → All WellFormed rs → All WellFormed ss → length (normal_form rs) ≤ MAX_MESSAGE_SIZE → normal_form rs ≡ normal_form ss → Same rs ss }
    ensures printed { (t u printed other : Octets) (rs ss : List RecordValue) → HasRecords t rs → HasRecords u ss → Same rs ss →
        PrintsNormal tt t printed → PrintsNormal tt u other → printed ≡ other }
{}

/// A normal form of no more than 65,535 octets is a valid message with the same records, so it has the same canonical list, and it is its
/// own normal form (RFC 1035 section 4.1, RFC 4034 section 6).
pub fn normal_forms_are_read()
    ensures octets { (rs : List RecordValue) → All WellFormed rs → AreOctets (normal_form rs) }
    ensures read { (rs : List RecordValue) → All WellFormed rs → length (normal_form rs) ≤ MAX_MESSAGE_SIZE →
        (ss : List RecordValue) × Valid (normal_form rs) ss × Same rs ss × (canonical_list ss ≡ canonical_list rs) × (normal_form ss ≡ normal_form rs) }
{}

/// What is printed for a text that is not refused is a text that is not refused, and for which it is printed itself.
pub fn normalised_twice()
    ensures accepted { (t printed : Octets) → normal_outcome (Some tt) t ≡ outcome_of NormalStatus.Done → PrintsNormal tt t printed →
        normal_outcome (Some tt) printed ≡ outcome_of NormalStatus.Done }
    ensures itself { (t printed other : Octets) → normal_outcome (Some tt) t ≡ outcome_of NormalStatus.Done → PrintsNormal tt t printed →
        PrintsNormal tt printed other → other ≡ printed }
{}

/// The words of the command are `normal` alone.
pub fn words_of_normal()
    ensures { (words : List Octets) → (command_of words ≡ Some tt) ↔ (words ≡ codes "normal" ∷ []) }
{}

/// The status that a text calls for, in words, for each that one calls for. A text over the limit is refused first, then one that is no
/// digits, then a message that is not valid, and at last a normal form of more than 65,535 octets.
pub fn normal_statuses_in_words()
    ensures done { (t : Octets) → (normal_outcome (Some tt) t ≡ outcome_of NormalStatus.Done)
        ↔ ((length t ≤ MESSAGE_TEXT_LIMIT) × ((rs : List RecordValue) × HasRecords t rs × (length (normal_form rs) ≤ MAX_MESSAGE_SIZE))) }
    ensures too_large { (t : Octets) → (normal_outcome (Some tt) t ≡ outcome_of NormalStatus.TooLarge)
        ↔ ((length t ≤ MESSAGE_TEXT_LIMIT) × ((rs : List RecordValue) × HasRecords t rs × (MAX_MESSAGE_SIZE < length (normal_form rs)))) }
    ensures short { (t : Octets) → (normal_outcome (Some tt) t ≡ outcome_of NormalStatus.Short)
        ↔ ((length t ≤ MESSAGE_TEXT_LIMIT) × ((m : Octets) × Spells t m × (length m < HEADER_SIZE))) }
    ensures item { (t : Octets) (section index : ℕ) → (normal_outcome (Some tt) t ≡ outcome_of (NormalStatus.Item section index))
        ↔ ((length t ≤ MESSAGE_TEXT_LIMIT) × ((m : Octets) × Spells t m × BadAt m section index)) }
    ensures bad_hex { (t : Octets) → (normal_outcome (Some tt) t ≡ outcome_of NormalStatus.BadHex) ↔ ((length t ≤ MESSAGE_TEXT_LIMIT) × SpellsNothing t) }
    ensures too_long { (t : Octets) → (normal_outcome (Some tt) t ≡ outcome_of NormalStatus.TooLong) ↔ (MESSAGE_TEXT_LIMIT < length t) }
    ensures usage { (t : Octets) → normal_outcome None t ≡ outcome_of NormalStatus.Usage }
{}

/// Statuses are equal exactly if they are the same, and so are refusals.
pub fn equal_statuses()
    ensures status { (a b : _) → IsTrue (⟦<NormalStatus as PartialEq>⟧.eq a b) ↔ (a ≡ b) }
    ensures reason { (a b : _) → IsTrue (⟦<NormalReason as PartialEq>⟧.eq a b) ↔ (a ≡ b) }
{}
