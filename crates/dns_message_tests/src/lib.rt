//! Tests of record data of each type, of EDNS records, and of messages that are read, built and put in canonical form.
#![tactic(auto)]

#[cfg(test)]
mod assertions;
#[cfg(test)]
mod boxed_record_data;
mod built_records;
#[cfg(test)]
mod canonical_forms;
#[cfg(test)]
mod canonical_list;
#[cfg(test)]
mod canonical_record;
#[cfg(test)]
mod edns_record;
#[cfg(test)]
mod further_data;
#[cfg(test)]
mod message_builder;
#[cfg(test)]
mod message_parser;
#[cfg(test)]
mod owner_keys;
#[cfg(test)]
mod rdata_by_type;
#[cfg(test)]
mod record_data;
#[cfg(test)]
mod records_in_message;
#[cfg(test)]
mod written;

pub use built_records::records_of_borrowed_names;
