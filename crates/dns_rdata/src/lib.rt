//! Record data of any type in one value, and EDNS records.
#![tactic(auto)]

mod edns_conversion;
mod edns_laws;
mod edns_record;
mod laws;
mod plain_data;
mod record_data;
mod typed_record;
mod unknown;

pub use edns_laws::edns_records_come_back;
pub use edns_record::EdnsRecord;
pub use laws::{
    data_of_any_type_are_equal_by_fields, data_of_any_type_are_hashed_by_fields,
    edns_records_are_equal_by_fields, unknown_data_are_compared_by_octets,
};
pub use record_data::RecordData;
pub use typed_record::old_new;
pub use unknown::UnknownRecordData;
