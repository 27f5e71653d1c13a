//! The definitions of this crate in other words, and when outcomes and refusals are equal.

ghost use Rattle.std.specs.Prelude.{◌≡◌, ◌↔◌, List, IsTrue};
ghost use Rattle.std.specs.List.{All};
ghost use Rattle.dns_wire.specs.Octets.{Octets};
ghost use Rattle.dns_wire.specs.Reading.{AreOctets};
ghost use Rattle.dns_text.specs.Hexadecimal.{lines};
ghost use Rattle.dns_message.specs.Messages.{RecordValue, Valid};
ghost use Rattle.dns_message.specs.Order.{canonical_list};
ghost use Rattle.dns_message.specs.Same.{Same};
ghost use Rattle.dns_message.specs.WellFormed.{WellFormed};

use crate::outcome::{Outcome, PrintError, PutError};
use crate::refusal::{OneMessage, Refusal};

/// Lists of octets have one text only if they are one (RFC 4648 section 8). So the texts of two valid messages are equal
/// exactly if their records are the same.
pub fn canonical_texts()
    ensures lists { (ls ks : List Octets) → All AreOctets ls → All AreOctets ks → (lines ls ≡ lines ks) ↔ (ls ≡ ks) }
    ensures one { (rs ss : List RecordValue) → All WellFormed rs → All WellFormed ss → (lines (canonical_list rs) ≡ lines (canonical_list ss)) ↔ (canonical_list rs ≡ canonical_list ss) }
    ensures messages { (m n : Octets) (rs ss : List RecordValue) → AreOctets m → AreOctets n → Valid m rs → Valid n ss →
        (lines (canonical_list rs) ≡ lines (canonical_list ss)) ↔ Same rs ss }
{}

/// Outcomes, and errors of printing, are equal exactly if they are the same, if that is so of the refusals that they hold.
pub fn equal_outcomes<R: PartialEq>()
    ensures outcome { ((r s : R) → IsTrue (R.eq r s) ↔ (r ≡ s)) → (a b : _) → IsTrue (⟦<Outcome<R> as PartialEq>⟧.eq a b) ↔ (a ≡ b) }
    ensures print { ((r s : R) → IsTrue (R.eq r s) ↔ (r ≡ s)) → (a b : _) → IsTrue (⟦<PrintError<R> as PartialEq>⟧.eq a b) ↔ (a ≡ b) }
    ensures put { ((r s : R) → IsTrue (R.eq r s) ↔ (r ≡ s)) → (a b : _) → IsTrue (⟦<PutError<R> as PartialEq>⟧.eq a b) ↔ (a ≡ b) }
{}

/// Refusals are equal exactly if they are the same, if that is so of the messages and the reasons that they hold.
pub fn equal_refusals<M: PartialEq, R: PartialEq>()
    ensures refusal { ((m n : M) → IsTrue (M.eq m n) ↔ (m ≡ n)) → ((r s : R) → IsTrue (R.eq r s) ↔ (r ≡ s)) → (a b : _) → IsTrue (⟦<Refusal<M, R> as PartialEq>⟧.eq a b) ↔ (a ≡ b) }
    ensures one_message { (a b : _) → IsTrue (⟦<OneMessage as PartialEq>⟧.eq a b) ↔ (a ≡ b) }
{}
