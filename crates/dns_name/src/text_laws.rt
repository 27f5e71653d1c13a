//! The text of names in other words (RFC 1035 section 5.1), and names as JSON strings.

ghost use Rattle.std.specs.Prelude.{◌≡◌, ◌≢◌, ◌↔◌, ◌⊎◌, ◌++◌, [], ◌∷◌, Ok, Err, ⊤};
ghost use Rattle.std.specs.List.{AllByRecursion};
ghost use Rattle.serde_json.specs.Data.{string};
ghost use Rattle.serde_json.specs.Find.{as_str};
ghost use Rattle.dns_wire.specs.Names.{IsName};
ghost use Rattle.dns_wire.specs.Octets.{Octets, Labels};
ghost use Rattle.dns_wire.specs.Reading.{AreOctets};
ghost use Rattle.dns_name.specs.Json.{name_of_string};
ghost use Rattle.dns_label.specs.Text.{GoesOn, IsCutEscape, IsWrongEscape, SpellsMore};
ghost use Rattle.dns_name.specs.declared.text_error.NameParseError.TheVariants as errors;
ghost use Rattle.dns_name.specs.declared.text_error.NameSplitError.TheVariants as split_errors;
ghost use Rattle.dns_name.specs.declared.text_error.NameSplitError.TheVariants.{InvalidChar};
ghost use Rattle.dns_name.specs.Text.{AfterLabels, AreUnescapedTexts, EmptyNext, EndsName, InvalidNext, LongNext, NextLabel, RelativeNext, SpellsLabels, parsed_name, shown_name, split_name};

/// A text is read as a name exactly if it spells the name's labels with a dot after each, and they are a
/// name. At the start of a text a name is read exactly if such a text is there, and an octet follows
/// that no text of a name has, so that `InvalidChar` never comes.
pub fn name_texts()
    ensures parsed { (text : Octets) (labels : Labels) →
        (parsed_name text ≡ Ok labels) ↔ (SpellsLabels text labels × IsName labels) }
    ensures split { (text rest : Octets) (labels : Labels) → split_name text ≡ Ok (labels, rest) →
        (prefix : Octets) × (text ≡ prefix ++ rest) × SpellsLabels prefix labels × IsName labels × (rest ≢ []) × EndsName rest }
    ensures prefix { (text rest : Octets) (labels : Labels) → SpellsLabels text labels → IsName labels → rest ≢ [] → EndsName rest →
        split_name (text ++ rest) ≡ Ok (labels, rest) }
    ensures never { (text : Octets) → split_name text ≢ Err InvalidChar }
{}

/// Why a text is refused as a name, by the first fault from the left. Labels may be wrong as by themselves, but a 64th octet is
/// `OverlongLabel`. `EmptyLabel` is a dot where a label should begin, `Overlong` a label with which the name has more than 255
/// octets, `Relative` the end of the text after a label that no dot follows, and `InvalidChar` an octet that no text of a name
/// has.
pub fn name_text_errors()
    ensures overlong_label { (text : Octets) → (parsed_name text ≡ Err errors.OverlongLabel) ↔ AfterLabels (λ _ rest. SpellsMore 63 rest) text }
    ensures partial { (text : Octets) → (parsed_name text ≡ Err errors.PartialEscape) ↔ AfterLabels (λ _ rest. GoesOn 63 IsCutEscape rest) text }
    ensures escape { (text : Octets) → (parsed_name text ≡ Err errors.InvalidEscape) ↔ AfterLabels (λ _ rest. GoesOn 63 IsWrongEscape rest) text }
    ensures empty { (text : Octets) → (parsed_name text ≡ Err errors.EmptyLabel) ↔ AfterLabels EmptyNext text }
    ensures overlong { (text : Octets) → (parsed_name text ≡ Err errors.Overlong) ↔ AfterLabels (LongNext (λ _. ⊤)) text }
    ensures relative { (text : Octets) → (parsed_name text ≡ Err errors.Relative) ↔ AfterLabels (RelativeNext (λ rest. rest ≡ [])) text }
    ensures character { (text : Octets) → (parsed_name text ≡ Err errors.InvalidChar) ↔ AfterLabels InvalidNext text }
{}

/// Why the start of a text is refused as a name: as `name_text_errors` has it of the whole text, but a text that ends where the
/// name might go on is `ShortInput`, and a label before an octet that no text of a name has is `Relative`.
pub fn name_start_errors()
    ensures overlong_label { (text : Octets) → (split_name text ≡ Err split_errors.OverlongLabel) ↔ AfterLabels (λ _ rest. SpellsMore 63 rest) text }
    ensures escape { (text : Octets) → (split_name text ≡ Err split_errors.InvalidEscape) ↔ AfterLabels (λ _ rest. GoesOn 63 IsWrongEscape rest) text }
    ensures empty { (text : Octets) → (split_name text ≡ Err split_errors.EmptyLabel) ↔ AfterLabels EmptyNext text }
    ensures overlong { (text : Octets) → (split_name text ≡ Err split_errors.Overlong) ↔ AfterLabels (LongNext (λ rest. rest ≢ [])) text }
    ensures relative { (text : Octets) → (split_name text ≡ Err split_errors.Relative) ↔ AfterLabels (RelativeNext (λ rest. rest ≢ [])) text }
    ensures short { (text : Octets) → (split_name text ≡ Err split_errors.ShortInput)
        ↔ (AfterLabels (λ _ rest. GoesOn 63 IsCutEscape rest) text ⊎ AfterLabels (λ _ rest. NextLabel (λ _ left. left ≡ []) rest) text) }
{}

/// What is printed of a name is read as that name, the root's empty text too: by itself, before an octet
/// that no text of a name has, and as a JSON string.
pub fn printed_names_are_read()
    ensures parsed { (labels : Labels) → IsName labels → AllByRecursion AreOctets labels →
        parsed_name (shown_name labels) ≡ Ok labels }
    ensures split { (labels : Labels) (rest : Octets) → IsName labels → AllByRecursion AreOctets labels → rest ≢ [] → EndsName rest →
        split_name (shown_name labels ++ rest) ≡ Ok (labels, rest) }
    ensures json { (labels : Labels) → IsName labels → AllByRecursion AreOctets labels →
        name_of_string (as_str (string (shown_name labels))) ≡ Ok labels }
{}

/// What is printed of a name is in plain spelling, and a text in plain spelling that is read as a name is
/// what is printed of it.
pub fn plain_names_are_printed()
    ensures printed { (labels : Labels) → AllByRecursion AreOctets labels → AreUnescapedTexts (shown_name labels) }
    ensures read { (text : Octets) (labels : Labels) → AreUnescapedTexts text → parsed_name text ≡ Ok labels →
        text ≡ shown_name labels }
{}
