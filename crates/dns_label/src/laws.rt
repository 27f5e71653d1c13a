//! The definitions of this crate in other words.

ghost use Rattle.std.specs.Prelude.{◌≡◌, ◌<◌, ◌↔◌, ◌++◌, [], Some};
ghost use Rattle.std.specs.List.{AllByRecursion};
ghost use Rattle.std.specs.Str.{str_to_ascii_lowercase};
ghost use Rattle.std.specs.declared.cmp.Ordering.TheVariants.{Less, Equal};
ghost use Rattle.dns_wire.specs.Names.{labels_wire};
ghost use Rattle.dns_label.specs.Labels.{AreLabels, FitsLabel, label_wire, sequence_labels, plain_label};
ghost use Rattle.dns_label.specs.Order.{label_cmp, Precedes};
ghost use Rattle.dns_wire.specs.Octets.{Octets, Labels};

use crate::label::Label;
use crate::label_buf::LabelBuf;

/// A label has at most 63 octets (RFC 1035 section 2.3.4), and by default it is empty.
pub fn label_sizes()
    ensures most { Label.MAX_SIZE ≡ 63 }
    ensures default { (label : Octets) → ⟦<LabelBuf as Default>⟧.is_default label ↔ (label ≡ []) }
{}

/// A label is read exactly if its octets are at the start: its length, which is at most 63, and that
/// many octets (RFC 1035 section 3.1).
pub fn one_label()
    ensures spelled { (bytes contents rest : Octets) →
        plain_label bytes ≡ Some (contents, rest) → FitsLabel contents × (bytes ≡ label_wire contents ++ rest) }
    ensures read { (contents rest : Octets) →
        FitsLabel contents → plain_label (label_wire contents ++ rest) ≡ Some (contents, rest) }
{}

/// Octets are labels one after another exactly if they are the octets of labels of at most 63 octets,
/// each after its length. They are so of one list of labels only, and it is the one that is read.
pub fn labels_fill()
    ensures spelled { (octets : Octets) → AreLabels octets →
        AllByRecursion FitsLabel (sequence_labels octets) × (octets ≡ labels_wire (sequence_labels octets)) }
    ensures read { (labels : Labels) → AllByRecursion FitsLabel labels →
        AreLabels (labels_wire labels) × (sequence_labels (labels_wire labels) ≡ labels) }
{}

/// A label comes before another exactly if, in lowercase, it has the smaller octet at the first place
/// at which the two differ, or is a proper prefix of the other (RFC 4034 section 6.1). Two labels tie exactly
/// if they are one in lowercase.
pub fn order_of_labels()
    ensures less { (label other : Octets) →
        (label_cmp label other ≡ Less) ↔ Precedes ◌<◌ (str_to_ascii_lowercase label) (str_to_ascii_lowercase other) }
    ensures ties { (label other : Octets) →
        (label_cmp label other ≡ Equal) ↔ (str_to_ascii_lowercase label ≡ str_to_ascii_lowercase other) }
{}
