//! Questions and records, whatever their names and their data are, and the codes, numbers and strings in them.
#![tactic(auto)]

mod canonical;
mod charstr;
mod charstr_buf;
mod charstr_error;
mod charstr_laws;
mod code_laws;
mod data_checks;
mod field_kind;
mod formats;
mod laws;
mod order_laws;
mod qclass;
mod qtype;
mod question;
mod rclass;
mod record;
mod record_data;
mod rtype;
mod serial;
mod ttl;
mod unparsed;
mod unparsed_parts;

pub use canonical::CanonicalRecordData;
pub use charstr::CharStr;
pub use charstr_buf::CharStrBuf;
pub use charstr_error::CharStrParseError;
pub use charstr_laws::character_strings;
pub use code_laws::{class_numbers, question_type_numbers, record_type_numbers};
pub use data_checks::{are_all_options, are_character_strings, are_options, are_windows};
pub use field_kind::{FieldKind, has_rdata_format, rdata_format};
pub use formats::Formats;
pub use laws::{items_in_words, serial_numbers_compare, whole_data_are_short};
pub use order_laws::{
    codes_are_equal_by_number, codes_are_hashed_by_number, codes_are_ordered_by_number,
    equal_errors, equal_formats, items_are_equal_by_fields, items_are_hashed_by_fields,
};
pub use qclass::QClass;
pub use qtype::QType;
pub use question::Question;
pub use rclass::RClass;
pub use record::Record;
pub use record_data::{DataOfType, ParseRecordData, ParseRecordDataBytes};
pub use rtype::RType;
pub use serial::Serial;
pub use ttl::TTL;
pub use unparsed::{MAX_DATA_SIZE, UnparsedRecordData};
pub use unparsed_parts::UnparsedParts;
