//! The definitions of this crate in other words.

ghost use Rattle.std.specs.Prelude.{◌≡◌, ◌≤◌, ◌<◌, ◌↔◌, ◌+◌, ◌-◌, ◌^◌, ◌++◌, ℕ, List, [], ◌∷◌, Some, length, flat_map};
ghost use Rattle.dns_wire.specs.Agreement.{EndAlike, agreeing_end};
ghost use Rattle.dns_wire.specs.InMessage.{list_fits, EachFits};
ghost use Rattle.dns_wire.specs.Names.{IsName, wire, plain_name};
ghost use Rattle.dns_wire.specs.Layout.{octets_writes, then_writes, list_writes};
ghost use Rattle.dns_wire.specs.Octets.{Octets, Labels, Places};
ghost use Rattle.dns_wire.specs.Pointers.{Segment, NameAt, label_type_count, name_at};
ghost use Rattle.dns_wire.specs.Reading.{plain_at};

use crate::in_message::BuildInMessage;
use crate::sizes::{HEADER_SIZE, LAST_PLACE, MAX_LABEL_SIZE, MAX_PLACES, POINTER_TAG};

/// The header has 12 octets, and a label at most 63. A pointer begins with two bits 1; its other 14 count the
/// header too, and so the last place that it reaches is 16,371 (RFC 1035 sections 2.3.4, 4.1.1 and 4.1.4).
pub fn fixed_numbers()
    ensures header { HEADER_SIZE ≡ 12 }
    ensures label { MAX_LABEL_SIZE ≡ 63 }
    ensures tag { POINTER_TAG ≡ 2 ^ 7 + 2 ^ 6 }
    ensures reach { LAST_PLACE + HEADER_SIZE ≡ 2 ^ 14 - 1 }
    ensures places { MAX_PLACES ≡ 128 }
{}

/// A name is read exactly if its octets are at the start. It is one name, and has at most 255
/// octets. What is written is read back whole (RFC 1035 sections 2.3.4 and 3.1).
pub fn plain_names()
    ensures spelled { (bytes : Octets) (labels : Labels) (rest : Octets) →
        plain_name bytes ≡ Some (labels, rest) → IsName labels × (bytes ≡ wire labels ++ rest) }
    ensures read { (labels : Labels) (rest : Octets) →
        IsName labels → plain_name (wire labels ++ rest) ≡ Some (labels, rest) }
    ensures short { (bytes : Octets) (labels : Labels) (rest : Octets) →
        plain_name bytes ≡ Some (labels, rest) → length (wire labels) ≤ 255 }
    ensures one { (contents : Octets) (at : ℕ) (labels others : Labels) (end other : ℕ) →
        plain_at plain_name contents at ≡ Some (labels, end) →
        plain_at plain_name contents at ≡ Some (others, other) → (labels ≡ others) × (end ≡ other) }
{}

/// A name is read in a message exactly if the rules of pointers read it (RFC 1035 section 4.1.4).
pub fn names_follow_pointers()
    ensures follows { (contents : Octets) (at : ℕ) (labels : Labels) (end : ℕ) →
        name_at contents at ≡ Some (labels, end) → NameAt contents at labels end }
    ensures read { (contents : Octets) (at : ℕ) (labels : Labels) (end : ℕ) →
        NameAt contents at labels end → name_at contents at ≡ Some (labels, end) }
{}

/// What the rules of pointers read at a place is one name, of at most 255 octets. At least an octet of it
/// is at the place, and none after the contents.
pub fn names_in_messages()
    ensures one { (contents : Octets) (at : ℕ) (labels others : Labels) (end other : ℕ) →
        NameAt contents at labels end → NameAt contents at others other → (labels ≡ others) × (end ≡ other) }
    ensures name { (contents : Octets) (at : ℕ) (labels : Labels) (end : ℕ) →
        NameAt contents at labels end → IsName labels }
    ensures within { (contents : Octets) (at : ℕ) (labels : Labels) (end : ℕ) →
        NameAt contents at labels end → (at < end) × (end ≤ length contents) }
{}

/// No chain of pointers is endless, as each leads to a segment that begins before its own. A reading goes
/// over a label type for each label, one for the root, and one for each pointer, of which there are no more than
/// places before the segment: 128 label types of a name, and its place, are the most.
pub fn pointers_lead_back()
    ensures segment { (contents : Octets) (start at : ℕ) (labels : Labels) (end : ℕ)
        (reads : Segment contents start at labels end) → label_type_count reads ≤ length labels + start + 1 }
    ensures name { (contents : Octets) (at : ℕ) (labels : Labels) (end : ℕ)
        (found : NameAt contents at labels end) → label_type_count found.reads ≤ 128 + at }
{}

/// Octets after the contents change no name that is read in them.
pub fn added_octets()
    ensures follows { (contents more : Octets) (at : ℕ) (labels : Labels) (end : ℕ) →
        NameAt contents at labels end → NameAt (contents ++ more) at labels end }
    ensures read { (contents more : Octets) (at : ℕ) (labels : Labels) (end : ℕ) →
        name_at contents at ≡ Some (labels, end) → name_at (contents ++ more) at ≡ Some (labels, end) }
{}

/// Two lists of octets that end alike, ignoring ASCII case (RFC 4343 section 3), agree that far from their ends: the
/// octets that agree are the longest common suffix of the two in lowercase.
pub fn common_suffixes()
    ensures common { (xs ys : List ℕ) → EndAlike xs ys (agreeing_end xs ys) }
    ensures longest { (xs ys : List ℕ) (count : ℕ) → EndAlike xs ys count → count ≤ agreeing_end xs ys }
{}

/// A list of octets is written as these octets, in a message too.
pub fn lists_of_octets()
    ensures plain { (bytes : Octets) → flat_map (λ b. b ∷ []) bytes ≡ bytes }
    ensures in_message { (bytes contents : Octets) (places : Places) →
        list_writes (λ b. octets_writes (b ∷ [])) bytes contents places ≡ (bytes, places) }
{}

/// What a list writes in a message: one value alone what it writes by itself, and a list that is cut in two
/// anywhere what its start writes, and then its rest. It fits exactly if each of its values fits after
/// those before it.
pub fn lists_in_messages<T: BuildInMessage>()
    ensures one { (value : T) (contents : Octets) (places : Places) →
        list_writes T.writes (value ∷ []) contents places ≡ T.writes value contents places }
    ensures cut { (prefix back : List T) (contents : Octets) (places : Places) →
        list_writes T.writes (prefix ++ back) contents places
        ≡ then_writes (list_writes T.writes prefix) (list_writes T.writes back) contents places }
    ensures fits { (values : List T) (contents : Octets) (places : Places) →
        list_fits T.fits_in T.writes values contents places ↔ EachFits T.fits_in T.writes values contents places }
{}
