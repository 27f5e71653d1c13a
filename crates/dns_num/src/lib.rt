//! Numbers on the wire, the most significant octet first, and data after their size.
#![tactic(auto)]

mod bits;
mod in_message;
mod laws;
mod number16;
mod number32;
mod number64;
mod one_bit;
mod order_laws;
mod size_prefix;
mod size_prefixed;
mod sums;

pub use laws::{prefixed_data, wire_numbers};
pub use number16::U16;
pub use number32::U32;
pub use number64::U64;
pub use one_bit::octet_with_bit;
pub use order_laws::{
    numbers_are_equal_by_value, numbers_are_hashed_by_value, numbers_are_ordered_by_value,
    numbers_are_zero_by_default, prefixed_data_are_compared_by_data,
};
pub use size_prefix::SizePrefix;
pub use size_prefixed::SizePrefixed;
