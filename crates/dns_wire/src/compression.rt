//! Names that are written once in a message and pointed to from then on (RFC 1035 section 4.1.4).

mod compressor;
mod label_ends;
mod laws;
mod reverse;
mod suffix;
mod write_name;

pub use compressor::NameCompressor;
pub use laws::{compressed_names, compressed_names_are_read, longest_suffixes, recorded_places};
pub use write_name::put_name;
