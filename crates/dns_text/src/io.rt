//! What a program reads from and writes to: the traits, texts in memory, and adapters over std's readers and writers.

pub mod adapters;
pub mod memory;
pub mod traits;
