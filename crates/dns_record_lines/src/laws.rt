//! What follows from the definitions.

ghost use Rattle.std.specs.Prelude.{◌≡◌, ◌↔◌, true};
ghost use Rattle.std.specs.Cmp.Lexicographic.{slice_cmp};
ghost use Rattle.std.specs.Ordering.{nat_cmp};
ghost use Rattle.dns_wire.specs.Octets.{Octets};
ghost use Rattle.dns_message.specs.Canonical.{canonical_wire, is_not_opt};
ghost use Rattle.dns_message.specs.Messages.{RecordValue};
ghost use Rattle.dns_message.specs.Order.{SortKey, record_cmp, sort_key, sort_key_cmp};
ghost use Rattle.dns_message.specs.WellFormed.{WellFormed};
ghost use Rattle.dns_record_lines.specs.RecordLines.{IsLineOf, IsRecord, record_line};

/// Lines are ordered as octets exactly as their records are in canonical order (RFC 4034 section 6).
pub fn lines_are_sorted()
    ensures forms { (j k : SortKey) → IsRecord j → IsRecord k → slice_cmp nat_cmp (record_line j) (record_line k) ≡ sort_key_cmp j k }
    ensures records { (r s : RecordValue) → WellFormed r → WellFormed s → is_not_opt r ≡ true → is_not_opt s ≡ true
        → slice_cmp nat_cmp (record_line (sort_key r)) (record_line (sort_key s)) ≡ record_cmp r s }
{}

/// Equal lines are those of equal records: records whose canonical octets are the same.
pub fn equal_lines()
    ensures forms { (j k : SortKey) → IsRecord j → IsRecord k → record_line j ≡ record_line k → j ≡ k }
    ensures records { (r s : RecordValue) → WellFormed r → WellFormed s → is_not_opt r ≡ true → is_not_opt s ≡ true
        → (record_line (sort_key r) ≡ record_line (sort_key s)) ↔ (canonical_wire r ≡ canonical_wire s) }
{}

/// The line of each well formed record of another type than OPT is read back: it is the line of that record, and of no other.
pub fn lines_are_read_back()
    ensures read { (r : RecordValue) → WellFormed r → is_not_opt r ≡ true → IsLineOf (record_line (sort_key r)) (sort_key r) }
    ensures one { (line : Octets) (j k : SortKey) → IsLineOf line j → IsLineOf line k → j ≡ k }
{}
