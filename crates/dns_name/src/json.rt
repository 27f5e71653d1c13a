//! Names and labels as JSON strings.

ghost use Rattle.std.specs.Prelude.{◌≡◌, IfOk};
ghost use Rattle.serde_json.specs.Data.{string};
ghost use Rattle.serde_json.specs.Find.{as_str};
ghost use Rattle.serde_json.specs.View.{view};
ghost use Rattle.dns_label.specs.Text.{shown_label};
ghost use Rattle.dns_name.specs.Json.{label_of_string, name_of_string};
ghost use Rattle.dns_name.specs.Text.{shown_name};

use crate::name_buf::NameBuf;
use crate::rev_name_buf::RevNameBuf;
use crate::text_error::NameParseError;
use dns_label::{LabelBuf, LabelParseError};
use serde_json::Value;
use std::alloc::{AllocError, Global};

/// A JSON value is no name.
#[derive(Clone, Copy, Debug, PartialEq, Eq)]
pub enum JsonNameError {
    /// It is no string.
    NotText,
    /// The string spells no name.
    Name(NameParseError),
}

/// A JSON value is no label.
#[derive(Clone, Copy, Debug, PartialEq, Eq)]
pub enum JsonLabelError {
    /// It is no string.
    NotText,
    /// The string spells no label.
    Label(LabelParseError),
}

impl NameBuf {
    /// The JSON string of what is printed of the name. `AllocError` comes if memory runs out.
    pub fn to_json(&self, alloc: Global) -> Result<Value, AllocError>
        ensures { IfOk result (λ value. view value ≡ string (shown_name self.now)) }
    {
        Ok(Value::String(self.to_string(alloc)?))
    }

    /// The name that a JSON string spells. `NotText` comes exactly if the value is no string, and `Name`
    /// exactly if `parse_str` refuses the string, with its error.
    pub fn from_json(value: &Value) -> Result<NameBuf, JsonNameError>
        ensures { result ≡ name_of_string (as_str (view value.now)) }
    {
        let Some(text) = value.as_str() else {
            return Err(JsonNameError::NotText);
        };
        match NameBuf::parse_str(text.as_bytes()) {
            Ok(name) => Ok(name),
            Err(error) => Err(JsonNameError::Name(error)),
        }
    }
}

impl RevNameBuf {
    /// The JSON string of what is printed of the name, its first label first. `AllocError` comes if
    /// memory runs out.
    pub fn to_json(&self, alloc: Global) -> Result<Value, AllocError>
        ensures { IfOk result (λ value. view value ≡ string (shown_name self.now)) }
    {
        self.as_revname().to_name().to_json(alloc)
    }

    /// The name that a JSON string spells. `NotText` comes exactly if the value is no string, and `Name`
    /// exactly if `parse_str` refuses the string, with its error.
    pub fn from_json(value: &Value) -> Result<RevNameBuf, JsonNameError>
        ensures { result ≡ name_of_string (as_str (view value.now)) }
    {
        let name = NameBuf::from_json(value)?;
        Ok(RevNameBuf::from(name))
    }
}

/// The JSON string of what is printed of the label. `AllocError` comes if memory runs out.
pub fn label_to_json(alloc: Global, label: &LabelBuf) -> Result<Value, AllocError>
    ensures { IfOk result (λ value. view value ≡ string (shown_label label.now)) }
{
    Ok(Value::String(label.to_string(alloc)?))
}

/// The label that a JSON string spells. `NotText` comes exactly if the value is no string, and `Label`
/// exactly if `LabelBuf::parse_str` refuses the string, with its error.
pub fn label_from_json(value: &Value) -> Result<LabelBuf, JsonLabelError>
    ensures { result ≡ label_of_string (as_str (view value.now)) }
{
    let Some(text) = value.as_str() else {
        return Err(JsonLabelError::NotText);
    };
    match LabelBuf::parse_str(text.as_bytes()) {
        Ok(label) => Ok(label),
        Err(error) => Err(JsonLabelError::Label(error)),
    }
}
