//! Labels of domain names: at most 63 octets, compared without regard to ASCII case.
#![tactic(auto)]

mod equality_laws;
mod hash;
mod iter;
mod label;
mod label_buf;
mod laws;
mod order;
mod text;
mod text_error;
mod text_laws;

pub use equality_laws::equal_errors;
pub use iter::LabelIter;
pub use label::Label;
pub use label_buf::{LabelBuf, label_of};
pub use laws::{label_sizes, labels_fill, one_label, order_of_labels};
pub use text_error::{LabelParseError, LabelSplitError};
pub use text_laws::{
    label_text_errors, label_texts, plain_texts_are_printed, printed_labels_are_read,
};
