//! The canonical list of a message, and the top call of the program.
#![tactic(auto)]

mod canonical;
mod command;
mod laws;
mod lines;
mod make;
mod parts;
mod status;
mod words;

pub use canonical::{CanonList, canonicalise};
pub use command::run;
pub use dns_message::CanonError;
pub use dns_text::{Args as Words, MESSAGE_TEXT_LIMIT, READ_CHUNK};
pub use laws::{
    equal_lines, equal_statuses, expected_statuses_in_words, limits, parted_texts,
    sameness_in_words, words_of_commands,
};
pub use status::{CanonRefusal, Status};
pub use words::{Command, LIMIT_OF_TWO, MOST_RECORDS};
