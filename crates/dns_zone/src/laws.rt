//! What follows from the definitions.

ghost use Rattle.std.specs.Prelude.{◌≡◌, ◌≤◌, ◌<◌, ◌↔◌, ℕ, true, List, [], ◌∷◌, Some, None, Ok, codes, length, IsTrue};
ghost use Rattle.std.specs.List.{All, Any};
ghost use Rattle.dns_text.specs.Hexadecimal.{SpellsNothing};
ghost use Rattle.dns_name.specs.Text.{parsed_name};
ghost use Rattle.dns_message.specs.Messages.{RecordValue};
ghost use Rattle.dns_message.specs.Order.{sort_key};
ghost use Rattle.dns_message.specs.Same.{Same};
ghost use Rattle.dns_message.specs.WellFormed.{WellFormed};
ghost use Rattle.dns_message.specs.declared.canon_error.CanonError.TheVariants as canon;
ghost use Rattle.dns_wire.specs.Octets.{Octets, Labels};
ghost use Rattle.dns_zone.specs.Texts.{HasRecords, PrintsZone, RefusesMessage, apex_of, outcome_of, texts_in, zone_outcome};
ghost use Rattle.dns_zone.specs.Zone.{HasSoa, IsAtOrBelow, IsInZone, has_soa, in_zone, internet_number, is_in_zone, is_of_zone_form, stream, zone_text};
ghost use Rattle.dns_zone.specs.declared.refusal.TheConstants.{ZONE_TEXT_LIMIT};

use crate::digest::ZoneDigest;
use crate::refusal::ZoneReason;
use crate::status::ZoneStatus;

/// A record is a member exactly if it is in the zone: of class IN, of another type than OPT, and at the apex or below it, and at the
/// apex neither a ZONEMD record nor a signature over one (RFC 8976 section 3.3.1.1).
pub fn members_in_words()
    ensures { (apex : Labels) (r : RecordValue) → (is_in_zone apex r ≡ true) ↔ IsInZone apex r }
{}

/// A record is of the zone, one of the zone's own digests or not, exactly if it is of class IN and at the apex or below it.
pub fn records_of_zones()
    ensures { (apex : Labels) (r : RecordValue) → (is_of_zone_form apex (sort_key r) ≡ true) ↔ ((r.class ≡ internet_number) × IsAtOrBelow apex r.owner) }
{}

/// Records have the SOA record of the apex exactly if one of them is.
pub fn apex_soas()
    ensures { (apex : Labels) (rs : List RecordValue) → (has_soa apex rs ≡ true) ↔ HasSoa apex rs }
{}

/// Two inputs that have the same records in the zone have the same text, whatever the order of their messages and records, and however
/// these are divided.
pub fn equal_zones()
    ensures texts { (apex : Labels) (rs ss : List RecordValue) → Same (in_zone apex rs) (in_zone apex ss) → zone_text apex rs ≡ zone_text apex ss }
    ensures printed { (apex : Labels) (t u printed other : Octets) (rs ss : List RecordValue) → HasRecords t rs → HasRecords u ss → Same (in_zone apex rs) (in_zone apex ss) →
        PrintsZone apex t printed → PrintsZone apex u other → printed ≡ other }
{}

/// Lists of records that are the same have the same records in the zone of an apex. So two inputs whose messages have the same records have
/// the same text.
pub fn same_zones()
    ensures zones { (apex : Labels) (rs ss : List RecordValue) → Same rs ss → Same (in_zone apex rs) (in_zone apex ss) }
    ensures printed { (apex : Labels) (t u printed other : Octets) (rs ss : List RecordValue) → HasRecords t rs → HasRecords u ss → Same rs ss →
        PrintsZone apex t printed → PrintsZone apex u other → printed ≡ other }
{}

/// What a digest is taken of tells the records in the zone, though nothing stands between two records: two lists of well formed
/// records, and so two inputs, have the same octets to be digested exactly if they have the same records in the zone (RFC 8976 section 3.3.1.2).
pub fn equal_streams()
    ensures records { (apex : Labels) (rs ss : List RecordValue) → All WellFormed rs → All WellFormed ss → (stream apex rs ≡ stream apex ss) ↔ Same (in_zone apex rs) (in_zone apex ss) }
    ensures texts { (apex : Labels) (t u : Octets) (rs ss : List RecordValue) → HasRecords t rs → HasRecords u ss → (stream apex rs ≡ stream apex ss) ↔ Same (in_zone apex rs) (in_zone apex ss) }
{}

/// The words of the command are `zone` and the text of a name, and no others.
pub fn words_of_zones()
    ensures { (words : List Octets) (apex : Labels) → (apex_of words ≡ Some apex) ↔ ((text : Octets) × (words ≡ codes "zone" ∷ text ∷ []) × (parsed_name text ≡ Ok apex)) }
{}

/// The status that a text calls for, in words, for each that one calls for. A text over the limit is refused first, then a line that is no
/// digits, then the first message that is not valid, and at last messages without the SOA record of the apex.
pub fn zone_statuses_in_words()
    ensures done { (apex : Labels) (t : Octets) → (zone_outcome (Some apex) t ≡ outcome_of ZoneStatus.Done)
        ↔ ((length t ≤ ZONE_TEXT_LIMIT) × ((rs : List RecordValue) × HasRecords t rs × HasSoa apex rs)) }
    ensures no_soa { (apex : Labels) (t : Octets) → (zone_outcome (Some apex) t ≡ outcome_of ZoneStatus.NoSoa)
        ↔ ((length t ≤ ZONE_TEXT_LIMIT) × ((rs : List RecordValue) × HasRecords t rs × ¬ HasSoa apex rs)) }
    ensures short { (apex : Labels) (t : Octets) (message : ℕ) → (zone_outcome (Some apex) t ≡ outcome_of (ZoneStatus.Short message))
        ↔ ((length t ≤ ZONE_TEXT_LIMIT) × RefusesMessage t message canon.Short) }
    ensures item { (apex : Labels) (t : Octets) (message section index : ℕ) → (zone_outcome (Some apex) t ≡ outcome_of (ZoneStatus.Item message section index))
        ↔ ((length t ≤ ZONE_TEXT_LIMIT) × RefusesMessage t message (canon.Item section index)) }
    ensures bad_hex { (apex : Labels) (t : Octets) → (zone_outcome (Some apex) t ≡ outcome_of ZoneStatus.BadHex)
        ↔ ((length t ≤ ZONE_TEXT_LIMIT) × Any SpellsNothing (texts_in t)) }
    ensures too_long { (apex : Labels) (t : Octets) → (zone_outcome (Some apex) t ≡ outcome_of ZoneStatus.TooLong) ↔ (ZONE_TEXT_LIMIT < length t) }
    ensures usage { (t : Octets) → zone_outcome None t ≡ outcome_of ZoneStatus.Usage }
{}

/// Statuses are equal exactly if they are the same, and so are reasons and digests.
pub fn equal_statuses()
    ensures status { (a b : _) → IsTrue (⟦<ZoneStatus as PartialEq>⟧.eq a b) ↔ (a ≡ b) }
    ensures reason { (a b : _) → IsTrue (⟦<ZoneReason as PartialEq>⟧.eq a b) ↔ (a ≡ b) }
    ensures digest { (a b : _) → IsTrue (⟦<ZoneDigest as PartialEq>⟧.eq a b) ↔ (a ≡ b) }
{}

/// The text of a zone has at most 4,194,304 octets.
pub fn limits()
    ensures { ZONE_TEXT_LIMIT ≡ 4194304 }
{}
