//! Data of records without compressed names: A, HINFO, TXT, SRV, AAAA and DNAME.
#![tactic(auto)]

mod a;
mod aaaa;
mod addr_error;
mod address_laws;
mod dname;
mod hinfo;
mod laws;
mod order_laws;
mod srv;
mod txt;
mod txt_iter;
mod type_laws;

pub use a::A;
pub use aaaa::Aaaa;
pub use addr_error::AddrParseError;
pub use address_laws::{runs_of_zero, texts_of_addresses};
pub use dname::DName;
pub use hinfo::HInfo;
pub use laws::strings_of_character_strings;
pub use order_laws::{
    data_are_equal_by_fields, data_are_hashed_by_fields, data_are_ordered_by_fields, equal_errors,
};
pub use srv::Srv;
pub use txt::Txt;
pub use txt_iter::TxtIter;
pub use type_laws::{
    types_are_canonical_by_number, types_are_read_by_number, types_are_read_by_number_in_messages,
};
