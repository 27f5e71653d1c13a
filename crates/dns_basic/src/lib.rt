//! Data of records whose names may be compressed: NS, CNAME, SOA, PTR, MX and RP.
#![tactic(auto)]

mod cname;
mod mx;
mod ns;
mod order_laws;
mod ptr;
mod rp;
mod soa;
mod type_laws;

pub use cname::CName;
pub use mx::Mx;
pub use ns::Ns;
pub use order_laws::{
    data_are_equal_by_fields, data_are_hashed_by_fields, data_are_ordered_by_fields,
};
pub use ptr::Ptr;
pub use rp::Rp;
pub use soa::Soa;
pub use type_laws::{
    names_that_are_read_are_written, names_that_are_read_in_messages_are_written,
    types_are_canonical_by_number, types_are_read_by_number, types_are_read_by_number_in_messages,
};
