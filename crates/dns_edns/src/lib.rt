//! What EDNS adds to DNS: its flags, and options with cookies and extended errors (RFC 6891).
#![tactic(auto)]

mod address;
mod client_cookie;
mod cookie;
mod edns_flags;
mod edns_option;
mod error;
mod ext_error;
mod ext_error_code;
mod keyed_hash;
mod laws;
mod opt;
mod option_code;
mod options_iter;
mod type_laws;
mod unknown_option;
mod unparsed_option;

pub use address::Address;
pub use client_cookie::ClientCookie;
pub use cookie::Cookie;
pub use edns_flags::EdnsFlags;
pub use edns_option::EdnsOption;
pub use error::CookieError;
pub use ext_error::ExtError;
pub use ext_error_code::ExtErrorCode;
pub use keyed_hash::KeyedHash;
pub use laws::{
    code_numbers, codes_are_compared_by_number, codes_are_hashed_by_number, default_flags,
    equal_errors, ext_error_numbers, given_cookies, hashed_errors, option_data_are_equal_by_octets,
    option_data_are_hashed_by_octets, options_are_equal_by_content, options_are_hashed_by_content,
    options_of_octets, takes_what_it_gives,
};
pub use opt::Opt;
pub use option_code::OptionCode;
pub use options_iter::EdnsOptionsIter;
pub use type_laws::{
    data_are_equal_by_fields, data_are_hashed_by_fields, types_are_canonical_by_number,
    types_are_read_by_number, types_are_read_by_number_in_messages,
};
pub use unknown_option::UnknownOptionData;
pub use unparsed_option::UnparsedEdnsOption;
