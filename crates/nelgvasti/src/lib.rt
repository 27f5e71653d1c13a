//! The library for C: canonical lists, sameness, normal forms, zone digests, hashes for NSEC3, key tags, and names and records in canonical
//! form and order.
//!
//! Each call is given the memory that it reads and writes as pointers and lengths, and keeps nothing after it returns. `include/nelgvasti.h`
//! declares the calls, and says what their caller owes.
#![tactic(auto)]

mod answers;
mod canonical;
mod denial;
mod formats;
mod item_position;
mod laws;
mod message;
mod names;
mod normal;
mod ordered;
mod records;
mod room;
#[cfg(test)]
mod tests;
mod version;
mod zone;
