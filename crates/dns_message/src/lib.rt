//! Messages: what is read in them, and the canonical form and order of their records.
#![tactic(auto)]

mod build_error;
mod build_laws;
mod builder;
mod canon_error;
mod canonical_form;
mod canonical_forms;
mod canonical_list;
mod canonical_owner;
mod canonical_parts;
mod canonical_record;
mod collapsed_records;
mod form_order;
mod form_reader;
mod form_span;
mod header;
mod item;
mod known_names;
mod last_owner;
mod laws;
mod lowercase_fields;
mod message;
mod name_reader;
mod owner_key;
mod parser;
mod plain_fields;
mod push_laws;
mod question_end;
mod read_again;
mod several_laws;

pub use build_error::MessageBuildError;
pub use build_laws::{
    new_messages_are_empty, octets_after_items, pushed_edns_are_read, pushed_questions_are_read,
    pushed_records_are_read, pushes_add_an_item, pushes_count_one_more,
};
pub use builder::MessageBuilder;
pub use canon_error::CanonError;
pub use canonical_form::CanonicalForm;
pub use canonical_forms::CanonicalForms;
pub use canonical_list::CanonicalList;
pub use canonical_record::CanonicalRecord;
pub use collapsed_records::collapse;
pub use form_reader::{FormsReader, read_forms, read_forms_by};
pub use header::{Header, HeaderFlags, SectionCounts};
pub use item::{MessageItem, ParsedMessageItem};
pub use laws::{
    alike_records, canonical_lists, canonical_octets_are_read_back,
    canonical_records_are_split_back, canonical_streams, counted_items, equal_canonical_octets,
    equal_errors, equal_outputs, equal_positions, header_flags, items_in_words, limits,
    order_of_records, owners_in_either_layout, parsers_read_messages, readings_in_words,
    records_that_are_read_are_well_formed, same_formats, same_records, three_kinds_of_messages,
};
pub use message::{MAX_MESSAGE_SIZE, Message};
pub use owner_key::owner_of_key;
pub use parser::{ItemPosition, MessageParser};
pub use push_laws::{lists_of_pushes_are_read, results_of_pushes};
pub use read_again::{
    built_questions_are_read, built_records_are_no_longer, built_records_are_read,
    edns_records_are_built, edns_records_are_well_formed, layouts_are_read,
    prefixed_layouts_are_read, records_are_built, records_with_layouts_are_built,
};
pub use several_laws::first_refusals_in_words;
