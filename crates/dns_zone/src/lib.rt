//! The digest of a zone that is given as messages (RFC 8976, the SIMPLE scheme with SHA-384).
#![tactic(auto)]

mod command;
mod digest;
mod laws;
mod member;
mod messages;
mod refusal;
mod status;

pub use command::run_zone;
pub use digest::{ZoneDigest, digest_of, zone_digest, zone_digest_by};
pub use laws::{
    apex_soas, equal_statuses, equal_streams, equal_zones, limits, members_in_words,
    records_of_zones, same_zones, words_of_zones, zone_statuses_in_words,
};
pub use member::{belongs, is_of_zone, is_soa_of, is_zonemd_of};
pub use refusal::{ZONE_TEXT_LIMIT, ZoneReason, ZoneRefusal};
pub use status::ZoneStatus;
