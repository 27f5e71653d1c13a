//! What a name shares with the names before it, in other words than its definitions.

ghost use Rattle.std.specs.Prelude.{◌≡◌, ◌⊎◌, ◌<◌, ◌≤◌, ◌+◌, ◌*◌, ◌++◌, ℕ, Some, None, length, take, Contains};
ghost use Rattle.std.specs.Int.{w16, to_be_bytes};
ghost use Rattle.std.specs.List.{AllByRecursion};
ghost use Rattle.dns_wire.specs.Compression.{longest_recorded, ReadsAlike, RecordedSuffix, LongestRecorded, ArePlaces, BeginsAt, EndsLabels, FitsIn, compress, recorded};
ghost use Rattle.dns_wire.specs.Octets.{Octets, Labels, Places};
ghost use Rattle.dns_wire.specs.declared.sizes.TheConstants.{HEADER_SIZE, LAST_PLACE, MAX_PLACES, POINTER_TAG};
ghost use Rattle.dns_wire.specs.Names.{IsLabel, IsName, labels_wire, wire};

/// What is found is the longest suffix that is the name at a recorded place, ignoring ASCII case, and the smallest
/// such place; and nothing exactly if no suffix is recorded (RFC 1035 section 4.1.4).
pub fn longest_suffixes()
    ensures found { (contents : Octets) (places : Places) (labels : Labels) (prefix place : ℕ) → ArePlaces places →
        longest_recorded contents places 0 labels ≡ Some (prefix, place) → LongestRecorded contents places labels prefix place }
    ensures finds { (contents : Octets) (places : Places) (labels : Labels) (prefix place : ℕ) → ArePlaces places →
        LongestRecorded contents places labels prefix place → longest_recorded contents places 0 labels ≡ Some (prefix, place) }
    ensures none { (contents : Octets) (places : Places) (labels : Labels) (prefix place : ℕ) →
        longest_recorded contents places 0 labels ≡ None → ¬ RecordedSuffix contents places labels prefix place }
    ensures finds_none { (contents : Octets) (places : Places) (labels : Labels) →
        ((prefix place : ℕ) → ¬ RecordedSuffix contents places labels prefix place) → longest_recorded contents places 0 labels ≡ None }
{}

/// A name is written whole if no suffix of it is recorded. Else its longest recorded suffix is two octets: the bits
/// 11, and the place counted from the start of the header, which has 12 octets.
pub fn compressed_names()
    ensures whole { (contents : Octets) (places : Places) (labels : Labels) →
        ((prefix place : ℕ) → ¬ RecordedSuffix contents places labels prefix place) → compress contents places labels ≡ wire labels }
    ensures cut { (contents : Octets) (places : Places) (labels : Labels) (prefix place : ℕ) → ArePlaces places →
        LongestRecorded contents places labels prefix place →
        compress contents places labels ≡ take prefix (wire labels) ++ to_be_bytes w16 (POINTER_TAG * 256 + HEADER_SIZE + place) }
{}

/// After labels are written, and after them the root or a pointer, the places that were recorded stay. The place of each label is
/// recorded if a pointer reaches it, and fewer than 128 places are taken by those and by the labels before it. No other place is
/// added (RFC 1035 section 4.1.4).
pub fn recorded_places()
    ensures stay { (contents : Octets) (places : Places) (start : ℕ) → length places ≤ MAX_PLACES →
        take (length places) (recorded places contents start) ≡ places }
    ensures each { (contents : Octets) (places : Places) (tail : Octets) (labels : Labels) (place : ℕ) → AllByRecursion IsLabel labels → EndsLabels tail →
        (begins : BeginsAt (length contents) labels place) → length places + length begins.before < MAX_PLACES → place ≤ LAST_PLACE →
        Contains (recorded places (contents ++ (labels_wire labels ++ tail)) (length contents)) place }
    ensures no_other { (contents : Octets) (places : Places) (tail : Octets) (labels : Labels) (place : ℕ) → AllByRecursion IsLabel labels → EndsLabels tail →
        Contains (recorded places (contents ++ (labels_wire labels ++ tail)) (length contents)) place →
        Contains places place ⊎ (BeginsAt (length contents) labels place × place ≤ LAST_PLACE) }
{}

/// A name that is compressed after contents is read there, ignoring ASCII case, and whatever is written after
/// it.
pub fn compressed_names_are_read()
    ensures { (contents : Octets) (places : Places) (more : Octets) (labels : Labels) → IsName labels → FitsIn places contents →
        ReadsAlike ((contents ++ compress contents places labels) ++ more) labels (length contents) (length contents + length (compress contents places labels)) }
{}
