//! Record data of any type in their own memory.
#![tactic(auto)]

mod box_error;
mod boxed_record_data;
mod laws;
mod typed_record;

pub use box_error::BoxError;
pub use boxed_record_data::BoxedRecordData;
pub use laws::{boxed_data_are_as_read, equal_errors};
pub use typed_record::old_new_box;
