//! What follows from the definitions.

ghost use Rattle.std.specs.Prelude.{◌≡◌, ◌≢◌, ◌↔◌, true, List, [], length, map, IsTrue};
ghost use Rattle.dns_wire.specs.Octets.{Octets, Labels};
ghost use Rattle.dns_record.specs.FurtherFormats.{data_by};
ghost use Rattle.dns_record.specs.declared.formats.Formats.{Formats};
ghost use Rattle.dns_message.specs.Order.{SortKey, octets_of_key};
ghost use Rattle.dns_message.specs.Several.{all_records_by};
ghost use Rattle.dns_zone.specs.Zone.{has_soa, members, stream};
ghost use Rattle.dns_zonemd.specs.SortedZone.{HaveZoneOf, InOrder, sorted_members, sorted_soas, sorted_stream};

use crate::refusal::LineRefusal;

/// Records that come in canonical order have the members that the digest of a zone is taken of, whatever messages they came from, in
/// whatever order, and however often each came, with those outside the zone or without: the canonical octets of their members are those of the
/// zone's members. So the members are as many, and the digest is taken of the same octets. And the records, even in any order, have the SOA
/// record of the apex exactly if the messages have it. A message that is not valid counts as one without records.
pub fn members_of_sorted_records()
    ensures members { (apex : Labels) (formats : Formats) (messages : List Octets) (ks : List SortKey) → InOrder ks → HaveZoneOf apex formats messages ks
        → map octets_of_key (sorted_members apex ks) ≡ members apex (all_records_by (data_by formats) messages) }
    ensures count { (apex : Labels) (formats : Formats) (messages : List Octets) (ks : List SortKey) → InOrder ks → HaveZoneOf apex formats messages ks
        → length (sorted_members apex ks) ≡ length (members apex (all_records_by (data_by formats) messages)) }
    ensures stream { (apex : Labels) (formats : Formats) (messages : List Octets) (ks : List SortKey) → InOrder ks → HaveZoneOf apex formats messages ks
        → sorted_stream apex ks ≡ stream apex (all_records_by (data_by formats) messages) }
    ensures soa { (apex : Labels) (formats : Formats) (messages : List Octets) (ks : List SortKey)
        → HaveZoneOf apex formats messages ks
        → (has_soa apex (all_records_by (data_by formats) messages) ≡ true) ↔ (sorted_soas apex ks ≢ []) }
{}

/// Refusals are equal exactly if they are the same.
pub fn equal_refusals()
    ensures { (a b : _) → IsTrue (⟦<LineRefusal as PartialEq>⟧.eq a b) ↔ (a ≡ b) }
{}
