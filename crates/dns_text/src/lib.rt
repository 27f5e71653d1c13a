//! Octets and texts, in and out: sources and sinks, reading up to a limit, octets as hexadecimal digits, writing, and the words of a
//! command line.
#![tactic(auto)]

mod args;
mod buffer;
mod error;
mod hexadecimal;
mod io;
mod laws;
mod process;
mod read_digits;
mod transfer;
mod words;
mod write_digits;

pub use args::Args;
pub use buffer::zeros;
pub use error::{HexError, TextError};
pub use hexadecimal::{
    hex_line, octets_of, push_hex_field, push_hex_line, put_hex_line, read_octets, trimmed,
};
pub use io::adapters::{ReadSource, WriteSink};
pub use io::memory::{NullSink, PlainSource, TextSink, TextSource};
pub use io::traits::{Failed, Sink, Source};
pub use laws::{equal_errors, hexadecimal_text, limits, trimmed_text};
pub use process::{WordsError, process_words};
pub use read_digits::put_octets;
pub use transfer::{MESSAGE_TEXT_LIMIT, READ_CHUNK, put_all, put_text, read_text};
pub use words::number_within;
pub use write_digits::put_digits;
