//! The commands of `dnscanon`, all by one call.
#![tactic(auto)]

mod answer;

pub use answer::{Answer, dispatch};
