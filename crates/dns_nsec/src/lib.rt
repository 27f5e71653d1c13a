//! Data that deny names: NSEC, NSEC3 and NSEC3PARAM.
#![tactic(auto)]

mod bitmaps;
mod flags;
mod hash_algorithm;
mod hash_parameters;
mod laws;
mod nsec;
mod nsec3;
mod nsec3param;
mod order_laws;
mod short_octets;
mod type_iter;
mod type_laws;
mod window;

pub use bitmaps::TypeBitmaps;
pub use flags::Nsec3Flags;
pub use hash_algorithm::Nsec3HashAlgorithm;
pub use laws::{bitmaps_of_types, bits_of_bitmaps, code_numbers, types_of_bitmaps};
pub use nsec::Nsec;
pub use nsec3::Nsec3;
pub use nsec3param::Nsec3Param;
pub use order_laws::{
    bitmaps_are_equal_by_octets, bitmaps_are_hashed_by_octets, codes_are_compared_by_number,
    codes_are_hashed_by_number, data_are_equal_by_fields, data_are_hashed_by_fields, default_flags,
};
pub use type_iter::TypeIter;
pub use type_laws::{
    types_are_canonical_by_number, types_are_read_by_number, types_are_read_by_number_in_messages,
};
