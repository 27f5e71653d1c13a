//! The definitions of this crate in other words.

ghost use Rattle.std.specs.Prelude.{◌≡◌, ◌<◌, ◌≤◌, ◌↔◌, ◌+◌, ◌++◌, ℕ, length, take, Some};
ghost use Rattle.std.specs.Str.{str_to_ascii_lowercase};
ghost use Rattle.std.specs.declared.cmp.Ordering.TheVariants.{Less, Equal};
ghost use Rattle.dns_wire.specs.Names.{IsName, wire, lowered, name_labels};
ghost use Rattle.dns_wire.specs.Octets.{Octets, Labels};
ghost use Rattle.dns_wire.specs.Reversed.{reversed_wire, reversed_name, reversed_name_labels};
ghost use Rattle.dns_wire.specs.Pointers.{name_at};
ghost use Rattle.dns_label.specs.Order.{Precedes};
ghost use Rattle.dns_name.specs.Composed.{octets_cmp, composed_cmp, lowercase_composed_cmp};
ghost use Rattle.dns_name.specs.Order.{key, key_cmp};
ghost use Rattle.dns_name.specs.Unparsed.{Unparsed, IsUnparsed, unparsed_wire, unparsed_name, unparsed_at, end_offset, LeadsBack, Continued};

use crate::name::Name;
use crate::name_buf::NameBuf;
use crate::rev_name::RevName;
use crate::rev_name_buf::RevNameBuf;
use crate::unparsed_name::UnparsedName;

/// A name has at most 255 octets, whichever way they go (RFC 1035 section 2.3.4), and an unparsed one at most 256, since a
/// pointer has one octet more than the root.
pub fn name_sizes()
    ensures name { Name.MAX_SIZE ≡ 255 }
    ensures reversed { RevName.MAX_SIZE ≡ 255 }
    ensures unparsed { UnparsedName.MAX_SIZE ≡ 256 }
{}

/// Octets come before others exactly if they have the smaller octet at the first place at which the two
/// differ, or end there (RFC 4034 section 6.3). In the order by octets two names tie exactly if they are
/// one name, and in the order by lowercase octets exactly if they are one in lowercase. A name's octets in lowercase are those of the
/// name in lowercase (RFC 4034 section 6.2).
pub fn orders_by_octets()
    ensures less { (octets others : Octets) →
        (octets_cmp octets others ≡ Less) ↔ Precedes ◌<◌ octets others }
    ensures ties { (a b : Labels) →
        IsName a → IsName b → (composed_cmp a b ≡ Equal) ↔ (a ≡ b) }
    ensures small_ties { (a b : Labels) →
        IsName a → IsName b → (lowercase_composed_cmp a b ≡ Equal) ↔ (lowered a ≡ lowered b) }
    ensures small { (labels : Labels) →
        IsName labels → str_to_ascii_lowercase (wire labels) ≡ wire (lowered labels) }
{}

/// A name comes before another exactly if, from the root on, it has the smaller label at the first place
/// at which the two differ, or ends there; of two labels in lowercase the smaller is the one that
/// `dns_label::order_of_labels` puts first (RFC 4034 section 6.1). Two names tie exactly if they are one in
/// lowercase letters.
pub fn label_order()
    ensures less { (a b : Labels) →
        (key_cmp (key a) (key b) ≡ Less) ↔ Precedes (Precedes ◌<◌) (key a) (key b) }
    ensures ties { (a b : Labels) →
        (key_cmp (key a) (key b) ≡ Equal) ↔ (lowered a ≡ lowered b) }
{}

/// Names have one order, whichever way their octets go: views of the same labels compare alike, and so
/// do the buffers, and both as label order.
pub fn one_order(a: &Name<'_>, b: &Name<'_>, c: &RevName<'_>, d: &RevName<'_>)
    requires first { name_labels a.now.slice.now ≡ reversed_name_labels c.now.slice.now }
    requires second { name_labels b.now.slice.now ≡ reversed_name_labels d.now.slice.now }
    ensures views { ⟦<Name<'static> as Ord>⟧.cmp a.now b.now ≡ ⟦<RevName<'static> as Ord>⟧.cmp c.now d.now }
    ensures buffers { (labels others : Labels) →
        ⟦<NameBuf as Ord>⟧.cmp labels others ≡ ⟦<RevNameBuf as Ord>⟧.cmp labels others }
    ensures label_order { (labels others : Labels) →
        ⟦<NameBuf as Ord>⟧.cmp labels others ≡ key_cmp (key labels) (key others) }
{}

/// Labels are read from the root on exactly if they are a name whose octets are these: the root's, and
/// the labels' from the last to the first.
pub fn reversed_names()
    ensures spelled { (bytes : Octets) (labels : Labels) →
        reversed_name bytes ≡ Some labels → IsName labels × (bytes ≡ reversed_wire labels) }
    ensures read { (labels : Labels) →
        IsName labels → reversed_name (reversed_wire labels) ≡ Some labels }
    ensures as_long { (labels : Labels) →
        length (reversed_wire labels) ≡ length (wire labels) }
{}

/// An unparsed name is read exactly if its octets are at the start. In a message it is read exactly
/// if they are at the place, and its pointer, if it has one, leads after the header and before that
/// place.
pub fn unparsed_names()
    ensures spelled { (bytes : Octets) (name : Unparsed) (rest : Octets) →
        unparsed_name bytes ≡ Some (name, rest) → IsUnparsed name × (bytes ≡ unparsed_wire name ++ rest) }
    ensures read { (name : Unparsed) (rest : Octets) →
        IsUnparsed name → unparsed_name (unparsed_wire name ++ rest) ≡ Some (name, rest) }
    ensures occurs { (contents : Octets) (start : ℕ) (name : Unparsed) (end : ℕ) →
        unparsed_at contents start ≡ Some (name, end) →
        IsUnparsed name × (start ≤ end) × (take end contents ≡ take start contents ++ unparsed_wire name) × LeadsBack start (end_offset name) }
    ensures found { (before rest : Octets) (name : Unparsed) →
        IsUnparsed name → LeadsBack (length before) (end_offset name) →
        unparsed_at (before ++ (unparsed_wire name ++ rest)) (length before) ≡ Some (name, length before + length (unparsed_wire name)) }
{}

/// A name is read at a place exactly if an unparsed name is read there, and the pointer of that, if it has
/// one, leads to a name that is read as the rest, within 255 octets in all (RFC 1035 section 4.1.4). Both end
/// at one place.
pub fn unparsed_names_continue()
    ensures { (contents : Octets) (start : ℕ) (labels : Labels) (end : ℕ) →
        (name_at contents start ≡ Some (labels, end)) ↔ Continued contents start labels end }
{}
