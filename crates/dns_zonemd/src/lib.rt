//! The digest of a zone from the lines of its records in canonical order (RFC 8976).
#![tactic(auto)]

mod laws;
mod members;
mod refusal;
mod report;
mod state;
mod verdict;

pub use laws::{equal_refusals, members_of_sorted_records};
pub use refusal::LineRefusal;
pub use state::SortedZone;
