//! What follows from the definitions.

ghost use Rattle.std.specs.Prelude.{◌≡◌, ◌≤◌, ◌<◌, ◌⊎◌, ◌↔◌, ℕ, List, [], ◌∷◌, ◌++◌, Some, None, codes, decimal, length, IsTrue};
ghost use Rattle.dns_text.specs.declared.transfer.TheConstants.{MESSAGE_TEXT_LIMIT};
ghost use Rattle.dns_text.specs.Hexadecimal.{Spells, SpellsNothing, lines};
ghost use Rattle.dns_message.specs.Messages.{RecordValue, Valid, BadAt};
ghost use Rattle.dns_message.specs.Order.{canonical_list};
ghost use Rattle.dns_message.specs.Same.{Same};
ghost use Rattle.dns_canon.specs.Run.{Prints};
ghost use Rattle.dns_canon.specs.Parts.{before_lf, after_lf, first_text, second_text, HasParts};
ghost use Rattle.dns_canon.specs.ExpectedStatus.{expected_status, SpellsBoth};
ghost use Rattle.dns_canon.specs.Words.{command_of};
ghost use Rattle.dns_canon.specs.declared.words.TheConstants.{LIMIT_OF_TWO, MOST_RECORDS};
ghost use Rattle.dns_wire.specs.Octets.{Octets};
ghost use Rattle.dns_wire.specs.declared.sizes.TheConstants.{HEADER_SIZE};

use crate::status::Status;
use crate::words::Command;

/// The words of a command are these and no others; the number of `make` is at most 1,000, in decimal digits without a
/// sign or a zero before.
pub fn words_of_commands()
    ensures canon { (words : List Octets) → (command_of words ≡ Some Command.Canon) ↔ (words ≡ codes "canon" ∷ []) }
    ensures same { (words : List Octets) → (command_of words ≡ Some Command.Same) ↔ (words ≡ codes "same" ∷ []) }
    ensures make { (words : List Octets) (count : ℕ) →
        (command_of words ≡ Some (Command.Make count)) ↔ ((count ≤ MOST_RECORDS) × (words ≡ codes "make" ∷ decimal count ∷ [])) }
{}

/// What `same` prints for a text whose parts spell two valid messages: `same` and LF exactly if they have the same records,
/// and else `different` and LF.
pub fn sameness_in_words()
    ensures same { (t m n : Octets) (rs ss : List RecordValue) → Spells (first_text t) m → Spells (second_text t) n → Valid m rs → Valid n ss →
        Prints Command.Same t (codes "same" ++ 10 ∷ []) ↔ Same rs ss }
    ensures different { (t m n : Octets) (rs ss : List RecordValue) → Spells (first_text t) m → Spells (second_text t) n → Valid m rs → Valid n ss →
        Prints Command.Same t (codes "different" ++ 10 ∷ []) ↔ (¬ Same rs ss) }
    ensures no_others { (t printed : Octets) → Prints Command.Same t printed →
        (printed ≡ codes "same" ++ 10 ∷ []) ⊎ (printed ≡ codes "different" ++ 10 ∷ []) }
{}

/// What `canon` prints for two texts that spell valid messages is the same exactly if these carry the same records.
pub fn equal_lines()
    ensures { (t u m n : Octets) (rs ss : List RecordValue) → Spells t m → Spells u n → Valid m rs → Valid n ss → (lines (canonical_list rs) ≡ lines (canonical_list ss)) ↔ Same rs ss }
{}

/// A text is parted at its first LF; if there is none, the first part is the text, and the second is empty.
pub fn parted_texts()
    ensures { (text first second : Octets) → HasParts text first second ↔ ((before_lf text ≡ first) × (after_lf text ≡ second)) }
{}

/// The expected status on a text in words, for each status that one calls for: first on the text of one message, and then on that of
/// two. A refusal of the second comes only if the first is valid. `make` reads no text, and its expected status is `Done`.
pub fn expected_statuses_in_words()
    ensures done { (t : Octets) → (expected_status (Some Command.Canon) t ≡ Status.Done)
        ↔ ((length t ≤ MESSAGE_TEXT_LIMIT) × (m : Octets) × (rs : List RecordValue) × Spells t m × Valid m rs) }
    ensures short { (t : Octets) (message : ℕ) → (expected_status (Some Command.Canon) t ≡ Status.Short message)
        ↔ ((message ≡ 0) × (length t ≤ MESSAGE_TEXT_LIMIT) × (m : Octets) × Spells t m × (length m < HEADER_SIZE)) }
    ensures item { (t : Octets) (message section index : ℕ) → (expected_status (Some Command.Canon) t ≡ Status.Item message section index)
        ↔ ((message ≡ 0) × (length t ≤ MESSAGE_TEXT_LIMIT) × (m : Octets) × Spells t m × BadAt m section index) }
    ensures bad_hex { (t : Octets) → (expected_status (Some Command.Canon) t ≡ Status.BadHex) ↔ ((length t ≤ MESSAGE_TEXT_LIMIT) × SpellsNothing t) }
    ensures too_long { (t : Octets) → (expected_status (Some Command.Canon) t ≡ Status.TooLong) ↔ (MESSAGE_TEXT_LIMIT < length t) }
    ensures same_done { (t : Octets) → (expected_status (Some Command.Same) t ≡ Status.Done)
        ↔ ((m n : Octets) × (rs ss : List RecordValue) × SpellsBoth t m n × Valid m rs × Valid n ss) }
    ensures same_short { (t : Octets) (message : ℕ) → (expected_status (Some Command.Same) t ≡ Status.Short message)
        ↔ ((m n : Octets) × SpellsBoth t m n
        × (((message ≡ 0) × (length m < HEADER_SIZE)) ⊎ ((message ≡ 1) × (rs : List RecordValue) × Valid m rs × (length n < HEADER_SIZE)))) }
    ensures same_item { (t : Octets) (message section index : ℕ) → (expected_status (Some Command.Same) t ≡ Status.Item message section index)
        ↔ ((m n : Octets) × SpellsBoth t m n
        × (((message ≡ 0) × BadAt m section index) ⊎ ((message ≡ 1) × (rs : List RecordValue) × Valid m rs × BadAt n section index))) }
    ensures same_bad_hex { (t : Octets) → (expected_status (Some Command.Same) t ≡ Status.BadHex)
        ↔ ((length t ≤ LIMIT_OF_TWO) × (SpellsNothing (first_text t) ⊎ SpellsNothing (second_text t))) }
    ensures same_too_long { (t : Octets) → (expected_status (Some Command.Same) t ≡ Status.TooLong) ↔ (LIMIT_OF_TWO < length t) }
    ensures make_done { (count : ℕ) → expected_status (Some (Command.Make count)) [] ≡ Status.Done }
    ensures usage { (t : Octets) → expected_status None t ≡ Status.Usage }
{}

/// Statuses and commands are equal exactly if they are the same.
pub fn equal_statuses()
    ensures status { (a b : _) → IsTrue (⟦<Status as PartialEq>⟧.eq a b) ↔ (a ≡ b) }
    ensures command { (a b : _) → IsTrue (⟦<Command as PartialEq>⟧.eq a b) ↔ (a ≡ b) }
{}

/// A text of two messages has at most 262,144 octets, and a message that is made has at most 1,000 records.
pub fn limits()
    ensures two { LIMIT_OF_TWO ≡ 262144 }
    ensures records { MOST_RECORDS ≡ 1000 }
{}
