//! The wire layer: what it means to read and to write octets, and names as lists of labels with and without
//! pointers.
#![tactic(auto)]

mod agreement;
mod as_bytes;
mod build;
mod builders;
mod compression;
mod equality_laws;
mod error;
mod in_message;
mod laws;
mod list;
mod lists_in_message;
mod lowercase;
mod name_cursor;
mod parse;
mod read_value;
mod sizes;
mod storage;
mod text;

pub use agreement::{agreement_from_end, agreement_from_start};
pub use as_bytes::AsBytes;
pub use build::{BuildBytes, copy_at, put};
pub use compression::{
    NameCompressor, compressed_names, compressed_names_are_read, longest_suffixes, put_name,
    recorded_places,
};
pub use equality_laws::{equal_errors, hashed_errors};
pub use error::{ParseError, TruncationError};
pub use in_message::{BuildInMessage, build_whole};
pub use laws::{
    added_octets, common_suffixes, fixed_numbers, lists_in_messages, lists_of_octets,
    names_follow_pointers, names_in_messages, plain_names, pointers_lead_back,
};
pub use list::{ListError, split_list};
pub use lowercase::{build_lowercase, compare_agreed, compare_lowercase};
pub use name_cursor::{LabelType, NameCursor, pointer_offset, read_label_type};
pub use parse::{
    ParseBytes, ParseMessageBytes, ParseName, SplitBytes, SplitMessageBytes,
    parse_without_compression, split_octets, split_without_compression, whole, whole_message,
};
pub use read_value::{ReadMessageValue, ReadPlainValue, ReadValue};
pub use sizes::{HEADER_SIZE, LAST_PLACE, MAX_LABEL_SIZE, MAX_PLACES, POINTER_TAG};
pub use storage::Storage;
