//! Records as lines that sort: the order of the lines as octets is the canonical order of the records (RFC 4034 section 6).
#![tactic(auto)]

mod laws;
mod line_fields;
mod reader;
mod record_line;

pub use laws::{equal_lines, lines_are_read_back, lines_are_sorted};
pub use reader::RecordLineReader;
pub use record_line::push_record_line;
