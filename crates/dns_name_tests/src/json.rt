//! Names and labels as JSON strings.

use crate::assertion::holds;
use crate::printing::prints;
use dns_label::{LabelParseError, label_of};
use dns_name::{
    JsonLabelError, JsonNameError, NameBuf, NameParseError, RevNameBuf, label_from_json,
    label_to_json,
};
use serde_json::Value;
use std::alloc::Global;

/// The JSON string of the name that the text spells.
fn json_of_name(alloc: Global, text: &[u8]) -> Option<Value> {
    match NameBuf::parse_str(text) {
        Ok(name) => name.to_json(alloc).ok(),
        Err(_) => None,
    }
}

/// The JSON string of the name that the text spells, which is kept from the root on.
fn json_of_reversed_name(alloc: Global, text: &[u8]) -> Option<Value> {
    match RevNameBuf::parse_str(text) {
        Ok(name) => name.to_json(alloc).ok(),
        Err(_) => None,
    }
}

/// The JSON string of the label of these octets.
fn json_of_label(alloc: Global, contents: &[u8]) -> Option<Value> {
    match label_of(contents) {
        Ok(label) => label_to_json(alloc, &label).ok(),
        Err(_) => None,
    }
}

/// The JSON string of a name, of a name that is kept from the root on, or of a label.
fn json_of(alloc: Global, kind: &str, text: &[u8]) -> Option<Value> {
    match kind {
        "name" => json_of_name(alloc, text),
        "name from the root on" => json_of_reversed_name(alloc, text),
        _ => json_of_label(alloc, text),
    }
}

/// Whether the JSON value is made and is printed as the text.
fn prints_json(alloc: Global, kind: &str, text: &[u8], wanted: &str) -> bool {
    match json_of(alloc, kind, text) {
        Some(value) => prints(alloc, &value, wanted),
        None => false,
    }
}

/// The text of a name of 255 octets: three labels of 63 letters and one of 61.
const LONGEST: &[u8] = b"\
    aaaaaaaaaaaaaaaaaaaaaaaaaaaaaaaaaaaaaaaaaaaaaaaaaaaaaaaaaaaaaaa.\
    aaaaaaaaaaaaaaaaaaaaaaaaaaaaaaaaaaaaaaaaaaaaaaaaaaaaaaaaaaaaaaa.\
    aaaaaaaaaaaaaaaaaaaaaaaaaaaaaaaaaaaaaaaaaaaaaaaaaaaaaaaaaaaaaaa.\
    aaaaaaaaaaaaaaaaaaaaaaaaaaaaaaaaaaaaaaaaaaaaaaaaaaaaaaaaaaaaa.";

/// The text of the longest name in quotes.
const LONGEST_JSON: &str = "\"\
    aaaaaaaaaaaaaaaaaaaaaaaaaaaaaaaaaaaaaaaaaaaaaaaaaaaaaaaaaaaaaaa.\
    aaaaaaaaaaaaaaaaaaaaaaaaaaaaaaaaaaaaaaaaaaaaaaaaaaaaaaaaaaaaaaa.\
    aaaaaaaaaaaaaaaaaaaaaaaaaaaaaaaaaaaaaaaaaaaaaaaaaaaaaaaaaaaaaaa.\
    aaaaaaaaaaaaaaaaaaaaaaaaaaaaaaaaaaaaaaaaaaaaaaaaaaaaaaaaaaaaa.\
    \"";

/// The longest label: 63 letters.
const LONGEST_LABEL: &[u8] = b"aaaaaaaaaaaaaaaaaaaaaaaaaaaaaaaaaaaaaaaaaaaaaaaaaaaaaaaaaaaaaaa";

/// The longest label in quotes.
const LONGEST_LABEL_JSON: &str =
    "\"aaaaaaaaaaaaaaaaaaaaaaaaaaaaaaaaaaaaaaaaaaaaaaaaaaaaaaaaaaaaaaa\"";

/// Kinds of names and labels, their texts, and the texts of their JSON strings.
const STRINGS: &[(&str, &[u8], &str)] = &[
    ("name", b"example.", "\"example.\""),
    ("name", b"a\\.b.\\000\\255.", "\"a\\\\.b.\\\\000\\\\255.\""),
    ("name", LONGEST, LONGEST_JSON),
    ("name from the root on", b"example.", "\"example.\""),
    (
        "name from the root on",
        b"a\\.b.\\000\\255.",
        "\"a\\\\.b.\\\\000\\\\255.\"",
    ),
    ("label", b"a", "\"a\""),
    ("label", b"\"\0x", "\"\\\\\\\"\\\\000x\""),
    ("label", LONGEST_LABEL, LONGEST_LABEL_JSON),
];

#[test]
fn prints_names_and_labels_as_json(rt: HostRuntime) {
    for (kind, text, wanted) in STRINGS {
        assert!(rt; prints_json(rt.alloc(), kind, text, wanted), "{wanted}");
    }
}

/// Whether the JSON text spells the name of these octets.
fn spells_name(alloc: Global, json: &str, octets: &[u8]) -> bool {
    match Value::from_str(alloc, json) {
        Ok(value) => is_name(&value, octets),
        Err(_) => false,
    }
}

/// Whether the name of these octets is read from the value.
fn is_name(value: &Value, octets: &[u8]) -> bool {
    match NameBuf::from_json(value) {
        Ok(name) => name.as_name().as_bytes() == octets,
        Err(_) => false,
    }
}

#[test]
fn reads_json(rt: HostRuntime) {
    let escapes = b"\x03a.b\x02\x00\xff\0";
    holds(
        &rt,
        spells_name(rt.alloc(), "\"a\\\\.b.\\\\000\\\\255.\"", escapes),
        "a name with escapes",
    );
}

/// Why the value is no name.
fn name_error(value: &Value) -> Option<JsonNameError> {
    NameBuf::from_json(value).err()
}

/// Why the JSON text spells no name.
fn name_error_of(alloc: Global, json: &str) -> Option<JsonNameError> {
    match Value::from_str(alloc, json) {
        Ok(value) => name_error(&value),
        Err(_) => None,
    }
}

/// Why the JSON text spells no label.
fn label_error_of(alloc: Global, json: &str) -> Option<JsonLabelError> {
    match Value::from_str(alloc, json) {
        Ok(value) => label_from_json(&value).err(),
        Err(_) => None,
    }
}

#[test]
fn refuses_json(rt: HostRuntime) {
    let error = name_error_of(rt.alloc(), "1");
    holds(
        &rt,
        error == Some(JsonNameError::NotText),
        "names-as-json: a number",
    );
    let error = name_error_of(rt.alloc(), "\"a\"");
    let wanted = JsonNameError::Name(NameParseError::Relative);
    holds(&rt, error == Some(wanted), "names-as-json: a letter");
    let error = label_error_of(rt.alloc(), "\"\\\\\"");
    let wanted = JsonLabelError::Label(LabelParseError::PartialEscape);
    holds(&rt, error == Some(wanted), "names-as-json: a backslash");
}
