//! The normal form of a message: one message for all messages with the same records.
#![tactic(auto)]

mod command;
mod laws;
mod message;
mod refusal;
mod status;

pub use command::run_normal;
pub use laws::{
    equal_normal_forms, equal_statuses, normal_forms_are_read, normal_statuses_in_words,
    normalised_twice, words_of_normal,
};
pub use message::{normal_form, read_normal_form};
pub use refusal::{NormalReason, NormalRefusal};
pub use status::NormalStatus;
