//! What denial of existence and signatures rest on, without keys: hashes of names for NSEC3 and their text, what NSEC and NSEC3 records say
//! of a name, the octets that signatures are over, and the tags of keys.
#![tactic(auto)]

mod base32;
mod command;
mod coverage;
mod laws;
mod message;
mod nsec3;
mod octets;
mod refusal;
mod salt;
mod signed;
mod status;
mod tag;
mod unbase32;
mod words;

pub use base32::base32hex;
pub use command::run_denial;
pub use laws::{
    denial_statuses_in_words, equal_outputs, equal_statuses, hashes_are_read_back,
    matches_and_covers_exclude_each_other, words_of_denial,
};
pub use nsec3::nsec3_hash;
pub use refusal::{DenialReason, DenialRefusal};
pub use signed::{Signature, signed_octets};
pub use status::DenialStatus;
pub use tag::key_tag;
