//! What follows from the definitions.

ghost use Rattle.std.specs.Prelude.{◌≡◌, ◌≢◌, ◌≤◌, ◌<◌, ◌↔◌, ℕ, true, false, List, [], ◌∷◌, Some, None, Ok, codes, decimal, length, IsTrue};
ghost use Rattle.dns_text.specs.Hexadecimal.{Spells, SpellsNothing};
ghost use Rattle.dns_wire.specs.Octets.{Octets, Labels};
ghost use Rattle.dns_wire.specs.Reading.{AreOctets};
ghost use Rattle.dns_message.specs.Messages.{BadAt, RecordValue};
ghost use Rattle.dns_message.specs.Same.{Same};
ghost use Rattle.dns_name.specs.Text.{parsed_name};
ghost use Rattle.std.specs.declared.cmp.Ordering.{Ordering};
ghost use Rattle.std.specs.declared.cmp.Ordering.TheVariants.{Equal};
ghost use Rattle.dns_denial.specs.Coverage.{LiesBetween, coverage_by};
ghost use Rattle.dns_denial.specs.Base32.{base32hex_of};
ghost use Rattle.dns_command.specs.Texts.{HasRecords};
ghost use Rattle.dns_denial.specs.Texts.{HasTooManyLabels, LacksSignature, PrintsDenial, Suits, denial_outcome, denial_reads, members, outcome_of};
ghost use Rattle.dns_denial.specs.Unbase32.{hash_of_text};
ghost use Rattle.dns_denial.specs.Words.{IsSalt, command_of};
ghost use Rattle.dns_text.specs.declared.transfer.TheConstants.{MESSAGE_TEXT_LIMIT};

use crate::coverage::Coverage;
use crate::refusal::DenialReason;
use crate::status::DenialStatus;
use crate::words::DenialCommand;

/// Messages with the same records have the same output, whatever the order of their records and the case of letters where it does not
/// count.
pub fn equal_outputs()
    ensures { (command : _) (t u printed other : Octets) (rs ss : List RecordValue) → HasRecords t rs → HasRecords u ss → Same rs ss →
        PrintsDenial command t printed → PrintsDenial command u other → printed ≡ other }
{}

/// A text is read as the hash whose text it is, so the text of a hash is read back as the hash, and is that of no other (RFC 4648 section
/// 7).
pub fn hashes_are_read_back()
    ensures { (text xs : List ℕ) → (hash_of_text text ≡ Some xs) ↔ (AreOctets xs × (length xs ≡ 20) × (base32hex_of xs ≡ text)) }
{}

/// In each order, what is said of a name is that it matches exactly if it is equal to the owner, and that it is covered exactly if it is
/// not, and lies between the owner and the next one on a circle. So none is both.
pub fn matches_and_covers_exclude_each_other()
    ensures matches { (owner_next owner_name name_next : Ordering) → (coverage_by owner_next owner_name name_next ≡ Coverage.Matches) ↔ (owner_name ≡ Equal) }
    ensures covers { (owner_next owner_name name_next : Ordering) → (coverage_by owner_next owner_name name_next ≡ Coverage.Covers)
        ↔ ((owner_name ≢ Equal) × LiesBetween owner_next owner_name name_next) }
    ensures apart { (owner_next owner_name name_next : Ordering) → coverage_by owner_next owner_name name_next ≡ Coverage.Matches →
        coverage_by owner_next owner_name name_next ≢ Coverage.Covers }
{}

/// The words of each command: `hash`, the text of a name, a salt and a number in its own decimal digits; `covers` and the text of a name;
/// `signed` and a number in its own decimal digits; and `keytags` alone.
pub fn words_of_denial()
    ensures hash { (words : List Octets) (name : Labels) (salt : Octets) (count : ℕ) → (command_of words ≡ Some (DenialCommand.Hash name salt count))
        ↔ ((text word : Octets) × (words ≡ codes "hash" ∷ text ∷ word ∷ decimal count ∷ []) × (parsed_name text ≡ Ok name) × IsSalt word salt × (count ≤ 65535)) }
    ensures covers { (words : List Octets) (name : Labels) → (command_of words ≡ Some (DenialCommand.Covers name))
        ↔ ((text : Octets) × (words ≡ codes "covers" ∷ text ∷ []) × (parsed_name text ≡ Ok name)) }
    ensures signed { (words : List Octets) (number : ℕ) → (command_of words ≡ Some (DenialCommand.Signed number))
        ↔ ((words ≡ codes "signed" ∷ decimal number ∷ []) × (number ≤ 65535)) }
    ensures key_tags { (words : List Octets) → (command_of words ≡ Some DenialCommand.KeyTags) ↔ (words ≡ codes "keytags" ∷ []) }
{}

/// The status that a text calls for, in words, for each that one calls for. For a command that reads a message, a text over the limit is
/// refused first, then one that is no digits, and then a message that is not valid. At last `signed` refuses a message with no signature of
/// its number, and a signature whose labels field is more than the number of its owner's labels. Where none is read, nothing is refused.
pub fn denial_statuses_in_words()
    ensures unread { (command : _) (t : Octets) → denial_reads command ≡ false → length t ≤ MESSAGE_TEXT_LIMIT → denial_outcome (Some command) t ≡ outcome_of DenialStatus.Done }
    ensures done { (command : _) (t : Octets) → denial_reads command ≡ true → (denial_outcome (Some command) t ≡ outcome_of DenialStatus.Done)
        ↔ ((length t ≤ MESSAGE_TEXT_LIMIT) × ((rs : List RecordValue) × HasRecords t rs × Suits command (members rs))) }
    ensures short { (command : _) (t : Octets) → denial_reads command ≡ true → (denial_outcome (Some command) t ≡ outcome_of DenialStatus.Short)
        ↔ ((length t ≤ MESSAGE_TEXT_LIMIT) × ((m : Octets) × Spells t m × (length m < 12))) }
    ensures item { (command : _) (t : Octets) (section index : ℕ) → denial_reads command ≡ true → (denial_outcome (Some command) t ≡ outcome_of (DenialStatus.Item section index))
        ↔ ((length t ≤ MESSAGE_TEXT_LIMIT) × ((m : Octets) × Spells t m × BadAt m section index)) }
    ensures bad_hex { (command : _) (t : Octets) → denial_reads command ≡ true → (denial_outcome (Some command) t ≡ outcome_of DenialStatus.BadHex)
        ↔ ((length t ≤ MESSAGE_TEXT_LIMIT) × SpellsNothing t) }
    ensures too_long { (command : _) (t : Octets) → denial_reads command ≡ true → (denial_outcome (Some command) t ≡ outcome_of DenialStatus.TooLong) ↔ (MESSAGE_TEXT_LIMIT < length t) }
    ensures no_signature { (command : _) (t : Octets) → denial_reads command ≡ true → (denial_outcome (Some command) t ≡ outcome_of DenialStatus.NoSignature)
        ↔ ((length t ≤ MESSAGE_TEXT_LIMIT) × ((rs : List RecordValue) × HasRecords t rs × LacksSignature command (members rs))) }
    ensures too_many_labels { (command : _) (t : Octets) → denial_reads command ≡ true → (denial_outcome (Some command) t ≡ outcome_of DenialStatus.TooManyLabels)
        ↔ ((length t ≤ MESSAGE_TEXT_LIMIT) × ((rs : List RecordValue) × HasRecords t rs × HasTooManyLabels command (members rs))) }
    ensures usage { (t : Octets) → denial_outcome None t ≡ outcome_of DenialStatus.Usage }
{}

/// Statuses are equal exactly if they are the same, and so are reasons.
pub fn equal_statuses()
    ensures status { (a b : _) → IsTrue (⟦<DenialStatus as PartialEq>⟧.eq a b) ↔ (a ≡ b) }
    ensures reason { (a b : _) → IsTrue (⟦<DenialReason as PartialEq>⟧.eq a b) ↔ (a ≡ b) }
{}
