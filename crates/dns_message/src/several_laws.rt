//! What follows of several messages.

ghost use Rattle.std.specs.Prelude.{◌≡◌, ◌↔◌, ℕ, List, Some, None, map};
ghost use Rattle.dns_message.specs.Messages.{RecordValue, message_by, message_reading};
ghost use Rattle.dns_message.specs.Refusals.{first_refused};
ghost use Rattle.dns_message.specs.Several.{AreValid, AreValidBy, IsFirstRefused, IsFirstRefusedBy};
ghost use Rattle.dns_record.specs.FurtherFormats.{data_by};
ghost use Rattle.dns_record.specs.declared.formats.Formats.{Formats};
ghost use Rattle.dns_message.specs.declared.canon_error.CanonError.{CanonError};
ghost use Rattle.dns_wire.specs.Octets.{Octets};

/// Of several messages the first that is refused is the one that is refused while all before it are valid, and none is refused exactly if
/// all are valid; the same by whatever formats of RDATA.
pub fn first_refusals_in_words()
    ensures refused { (messages : List Octets) (number : ℕ) (error : CanonError) →
        (first_refused 0 (map message_reading messages) ≡ Some (number, error)) ↔ IsFirstRefused messages number error }
    ensures none { (messages : List Octets) →
        (first_refused 0 (map message_reading messages) ≡ None) ↔ ((records : List (List RecordValue)) × AreValid messages records) }
    ensures refused_by { (formats : Formats) (messages : List Octets) (number : ℕ) (error : CanonError) →
        (first_refused 0 (map (message_by (data_by formats)) messages) ≡ Some (number, error)) ↔ IsFirstRefusedBy (data_by formats) messages number error }
    ensures none_by { (formats : Formats) (messages : List Octets) →
        (first_refused 0 (map (message_by (data_by formats)) messages) ≡ None) ↔ ((records : List (List RecordValue)) × AreValidBy (data_by formats) messages records) }
{}
