//! What pushes leave, one after another, accepted or refused.

ghost use Rattle.std.specs.Prelude.{◌≡◌, ◌↔◌, List, ◌++◌, Result, IsOk, IsTrue, length, map};
ghost use Rattle.std.specs.List.{AllByRecursion};
ghost use Rattle.dns_wire.specs.Compression.{FitsIn};
ghost use Rattle.dns_message.specs.Building.{Draft, drafted, PushResults};
ghost use Rattle.dns_message.specs.Canonical.{lowercase_names};
ghost use Rattle.dns_message.specs.Messages.{Item, RecordValue, message_reading, records_among, Valid};
ghost use Rattle.dns_message.specs.Messages.Reading.{Whole};
ghost use Rattle.dns_message.specs.Order.{canonical_list};
ghost use Rattle.dns_message.specs.Pushes.{Push, IsPush, push_section, push_writes, is_accepted, after_pushes, accepted_records};
ghost use Rattle.dns_message.specs.declared.build_error.MessageBuildError.{MessageBuildError};
ghost use Rattle.dns_wire.specs.declared.sizes.TheConstants.{HEADER_SIZE};

use dns_wire::BuildInMessage;

/// A push of an item whose prefixed data fit their prefixes gives `Ok` exactly if no later section has an item, its section has
/// fewer than 65,535, and its octets are no more than the free ones.
pub fn results_of_pushes<T: BuildInMessage, A>()
    ensures { (push : Push) (draft : Draft) (item : T) (result : Result A MessageBuildError) →
        T.fits_in item draft.contents draft.places → PushResults (push_section push) (T.fits_in item) (push_writes push) draft result →
        IsOk result ↔ IsTrue (is_accepted push draft) }
{}

/// Let a message be read whole, with its items ending where its contents do, and let pushes follow, each of a question or of a well
/// formed record. After them the message is read whole as the items that it had and others after them, which end where the
/// contents do then, and whose records are those of the pushes that were accepted, when both are lowercased. So the canonical list
/// of its records is that of the records that it had and those of the pushes that were accepted (RFC 4034 section 6).
pub fn lists_of_pushes_are_read()
    ensures items { (pushes : List Push) (draft : Draft) (items : List Item) →
        AllByRecursion IsPush pushes → length draft.header ≡ HEADER_SIZE →
        message_reading (drafted draft) ≡ Whole items (length draft.contents) → FitsIn draft.places draft.contents →
        (later : List Item) × (map lowercase_names (records_among later) ≡ map lowercase_names (accepted_records pushes draft))
        × (message_reading (drafted (after_pushes pushes draft)) ≡ Whole (items ++ later) (length (after_pushes pushes draft).contents)) }
    ensures canonical { (pushes : List Push) (draft : Draft) (items : List Item) (rs : List RecordValue) →
        AllByRecursion IsPush pushes → length draft.header ≡ HEADER_SIZE →
        message_reading (drafted draft) ≡ Whole items (length draft.contents) → FitsIn draft.places draft.contents →
        Valid (drafted (after_pushes pushes draft)) rs → canonical_list rs ≡ canonical_list (records_among items ++ accepted_records pushes draft) }
{}
