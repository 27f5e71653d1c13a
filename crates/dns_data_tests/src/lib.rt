//! Tests of the data of single types of records, through the public calls of their libraries.
#![tactic(auto)]

#[cfg(test)]
mod addresses;
#[cfg(test)]
mod assertions;
#[cfg(test)]
mod bitmaps;
#[cfg(test)]
mod cookies;
#[cfg(test)]
mod options;
#[cfg(test)]
mod plain_data;
#[cfg(test)]
mod printed_texts;
#[cfg(test)]
mod security_data;
#[cfg(test)]
mod security_flags;
#[cfg(test)]
mod sip_hash;
#[cfg(test)]
mod timestamps;
