//! Names of a message in canonical form: their own labels, and names whose compression pointers lead to pointers, of which the final targets
//! are found once for the whole message.
#![tactic(auto)]

mod canonical_name;
mod final_targets;
mod laws;

pub use canonical_name::{NameSpan, read_own_labels};
pub use final_targets::FinalTargets;
pub use laws::equal_spans;
