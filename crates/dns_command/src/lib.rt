//! Commands: how one is carried out over a source, a sink and notes, why it refuses a text, and the messages that texts spell.
#![tactic(auto)]

mod command;
mod laws;
mod notice;
mod outcome;
mod reader;
mod refusal;

pub use command::{TextCommand, run_command};
pub use laws::{canonical_texts, equal_outcomes, equal_refusals};
pub use notice::{Notice, put_notice};
pub use outcome::{Outcome, PrintError, PutError, put_printed};
pub use reader::{TextReader, read_message};
pub use refusal::{MessageNumber, OneMessage, Reason, Refusal};
