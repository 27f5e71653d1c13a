//! Domain names: labels from the owner's own to the root's, compared without regard to ASCII case.
#![tactic(auto)]

mod canonical_name;
mod conversion;
mod equality_laws;
mod hash;
mod in_message;
mod json;
mod labels_buf;
mod laws;
mod lowercased;
mod name;
mod name_buf;
mod order;
mod own_labels;
mod read_name;
mod relative_name;
mod rev_canonical;
mod rev_name;
mod rev_name_buf;
mod rev_order;
mod steps;
mod text;
mod text_error;
mod text_laws;
mod unparsed_name;

pub use canonical_name::CanonicalName;
pub use equality_laws::equal_errors;
pub use json::{JsonLabelError, JsonNameError, label_from_json, label_to_json};
pub use laws::{
    label_order, name_sizes, one_order, orders_by_octets, reversed_names, unparsed_names,
    unparsed_names_continue,
};
pub use lowercased::Lowercased;
pub use name::Name;
pub use name_buf::NameBuf;
pub use own_labels::{OwnLabels, copy_own_labels};
pub use read_name::{ReadMessageName, ReadName};
pub use rev_name::RevName;
pub use rev_name_buf::RevNameBuf;
pub use steps::Steps;
pub use text_error::{NameParseError, NameSplitError};
pub use text_laws::{
    name_start_errors, name_text_errors, name_texts, plain_names_are_printed,
    printed_names_are_read,
};
pub use unparsed_name::UnparsedName;
