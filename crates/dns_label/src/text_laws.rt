//! The text of labels in other words (RFC 1035 section 5.1).

ghost use Rattle.std.specs.Prelude.{◌≡◌, ◌≢◌, ◌↔◌, ◌⊎◌, ◌++◌, [], ◌∷◌, ℕ, Ok, Err};
ghost use Rattle.dns_wire.specs.Octets.{Octets};
ghost use Rattle.dns_wire.specs.Reading.{AreOctets};
ghost use Rattle.dns_label.specs.Labels.{FitsLabel};
ghost use Rattle.dns_label.specs.declared.text_error.LabelParseError.TheVariants as parse_errors;
ghost use Rattle.dns_label.specs.declared.text_error.LabelSplitError.TheVariants as split_errors;
ghost use Rattle.dns_label.specs.declared.text_error.LabelSplitError.TheVariants.{InvalidChar};
ghost use Rattle.dns_label.specs.Text.{BeginsForeign, EndsLabel, GoesOn, IsCutEscape, IsForeign, IsUnescapedText, IsWrongEscape, SpellsLabel, SpellsMore, parsed_label, shown_label, split_label};

/// A text is read as a label exactly if it spells the label's octets, of which there are at most 63. At
/// the start of a text a label is read exactly if such a text is there, and an octet follows that no
/// text of a label has, so that `InvalidChar` never comes.
pub fn label_texts()
    ensures parsed { (text contents : Octets) →
        (parsed_label text ≡ Ok contents) ↔ (SpellsLabel text contents × FitsLabel contents) }
    ensures split { (text contents rest : Octets) → split_label text ≡ Ok (contents, rest) →
        (prefix : Octets) × (text ≡ prefix ++ rest) × SpellsLabel prefix contents × FitsLabel contents × (rest ≢ []) × EndsLabel rest }
    ensures prefix { (text contents rest : Octets) (octet : ℕ) → SpellsLabel text contents → FitsLabel contents → IsForeign octet →
        split_label (text ++ octet ∷ rest) ≡ Ok (contents, octet ∷ rest) }
    ensures never { (text : Octets) → split_label text ≢ Err InvalidChar }
{}

/// Why a text is refused as a label, by the first fault from the left: the 64th octet of a label
/// (`Overlong`), an escape that the end of the text cuts (`PartialEscape`, and `ShortInput` if more text
/// may follow), a backslash before what is no escape (`InvalidEscape`), or an octet that no text of a label
/// has (`InvalidChar`). At the start of a text that ends after the label, `ShortInput` comes too.
pub fn label_text_errors()
    ensures overlong { (text : Octets) → (parsed_label text ≡ Err parse_errors.Overlong) ↔ SpellsMore 63 text }
    ensures partial { (text : Octets) → (parsed_label text ≡ Err parse_errors.PartialEscape) ↔ GoesOn 63 IsCutEscape text }
    ensures escape { (text : Octets) → (parsed_label text ≡ Err parse_errors.InvalidEscape) ↔ GoesOn 63 IsWrongEscape text }
    ensures character { (text : Octets) → (parsed_label text ≡ Err parse_errors.InvalidChar) ↔ GoesOn 63 BeginsForeign text }
    ensures split_overlong { (text : Octets) → (split_label text ≡ Err split_errors.Overlong) ↔ SpellsMore 63 text }
    ensures split_escape { (text : Octets) → (split_label text ≡ Err split_errors.InvalidEscape) ↔ GoesOn 63 IsWrongEscape text }
    ensures split_short { (text : Octets) → (split_label text ≡ Err split_errors.ShortInput)
        ↔ (GoesOn 63 IsCutEscape text ⊎ GoesOn 63 (λ rest. rest ≡ []) text) }
{}

/// What is printed of a label is read as that label, by itself and before an octet that no text of a
/// label has.
pub fn printed_labels_are_read()
    ensures parsed { (contents : Octets) → AreOctets contents → FitsLabel contents →
        parsed_label (shown_label contents) ≡ Ok contents }
    ensures split { (contents rest : Octets) (octet : ℕ) → AreOctets contents → FitsLabel contents → IsForeign octet →
        split_label (shown_label contents ++ octet ∷ rest) ≡ Ok (contents, octet ∷ rest) }
{}

/// What is printed of a label is in plain spelling, and a text in plain spelling that is read as a label is
/// what is printed of it.
pub fn plain_texts_are_printed()
    ensures printed { (contents : Octets) → AreOctets contents → IsUnescapedText (shown_label contents) }
    ensures read { (text contents : Octets) → IsUnescapedText text → parsed_label text ≡ Ok contents →
        text ≡ shown_label contents }
{}
