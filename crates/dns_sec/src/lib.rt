//! Data of records of DNSSEC: DS, CDS, RRSIG, DNSKEY, CDNSKEY and ZONEMD, and the codes, flags and times in them.
#![tactic(auto)]

mod cdnskey;
mod cds;
mod digest_type;
mod dnskey;
mod dnskey_flags;
mod ds;
mod laws;
mod order_laws;
mod rrsig;
mod sec_alg;
mod timestamp;
mod type_laws;
mod zonemd;
mod zonemd_hash_alg;
mod zonemd_scheme;

pub use cdnskey::CDNSKey;
pub use cds::Cds;
pub use digest_type::DigestType;
pub use dnskey::DNSKey;
pub use dnskey_flags::DNSKeyFlags;
pub use ds::Ds;
pub use laws::code_numbers;
pub use order_laws::{
    codes_are_equal_by_number, codes_are_hashed_by_number, codes_are_ordered_by_number,
    data_are_equal_by_fields, data_are_hashed_by_fields, default_flags, digests_of_known_length,
};
pub use rrsig::Rrsig;
pub use sec_alg::SecAlg;
pub use timestamp::Timestamp;
pub use type_laws::{
    types_are_canonical_by_number, types_are_read_by_number, types_are_read_by_number_in_messages,
};
pub use zonemd::ZoneMD;
pub use zonemd_hash_alg::ZoneMDHashAlg;
pub use zonemd_scheme::ZoneMDScheme;
