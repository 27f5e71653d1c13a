//! The answers, as numbers. They are the codes of the program, and one more.

/// Everything was written.
pub const DONE: u32 = 0;

/// A message has fewer than 12 octets.
pub const SHORT: u32 = 1;

/// An item of a message can't be read.
pub const ITEM: u32 = 2;

/// An argument is not what the call takes.
pub const USAGE: u32 = 5;

/// Memory ran out.
pub const MEMORY: u32 = 8;

/// The messages have no SOA record of the apex.
pub const NO_SOA: u32 = 10;

/// The normal form has more than 65,535 octets.
pub const TOO_LARGE: u32 = 11;

/// The buffer has too little room.
pub const TOO_SMALL: u32 = 20;
