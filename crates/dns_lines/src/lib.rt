//! Messages by the line: for each line of a text, the lines that answer it.
#![tactic(auto)]

mod answer;
mod command;
mod digest;
mod filter;
mod laws;
mod line;
mod records;
mod signed;
mod status;

pub use command::{LineCommand, run_lines};
pub use laws::{
    answers_are_lines, answers_of_parts, different_records, equal_records, equal_statuses,
    equal_streams, limits, lines_of_texts, one_answer, words_of_lines,
};
pub use line::LINE_LIMIT;
pub use status::LinesStatus;
