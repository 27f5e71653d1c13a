//! Whole texts, in and out.

ghost use Rattle.std.specs.Prelude.{◌≡◌, ◌≢◌, ◌+◌, ◌<◌, ◌≤◌, length, Err, true, OnOk, IfOk, IfSome, IsErrOf, IsSome, vec_len};
ghost use Rattle.dns_text.specs.Outside.{Rose, HasCause, BecomesFlag, ReadsAll, Puts};
ghost use Rattle.dns_text.specs.Taken.{TakesAtMost};

use crate::error::TextError;
use crate::io::traits::{Failed, Sink, Source};
use std::alloc::Global;

/// The most octets that one read gives.
pub const READ_CHUNK: usize = 4096;

/// The most octets of the text of one message that a command reads: two digits for each of 65,536 octets.
pub const MESSAGE_TEXT_LIMIT: usize = 131_072;

/// Reads all that is left, if that is at most `limit` octets.
pub fn read_text<S: Source>(
    alloc: Global,
    source: &mut S,
    limit: usize,
) -> Result<Vec<u8>, TextError>
    ensures all { IfOk result (λ text. ReadsAll (S.left source.old) (S.left source.new) text.items) }
    ensures within { IfOk result (λ text. vec_len text ≤ limit) }
    ensures too_long { IsErrOf result TextError.TooLong → IfSome (S.left source.old) (λ all. limit < length all) }
    ensures read_fault { IsErrOf result TextError.ReadFault → Rose (S.faults source.old) (S.faults source.new) }
    ensures steady { (result ≢ Err TextError.ReadFault) → S.faults source.new ≡ S.faults source.old }
    ensures taken { TakesAtMost (S.left source.old) (S.left source.new) (limit + READ_CHUNK) }
{
    let mut text = Vec::with_capacity(alloc, limit)?;
    let mut buffer = [0u8; READ_CHUNK];
    loop {
        let count = source.read(&mut buffer)?;
        if count == 0 {
            return Ok(text);
        }
        if count > limit - text.len() {
            return Err(TextError::TooLong);
        }
        text.extend_from_slice(&buffer[..count])?;
    }
}

/// Writes the whole text.
pub fn put_all<K: Sink>(sink: &mut K, text: &[u8]) -> Result<(), Failed>
    ensures puts { Puts (K.written sink.old) (K.written sink.new) text.now result }
    ensures flag { IfSome (K.is_flushed sink.old) (λ _. IsSome (K.is_flushed sink.new)) }
    ensures cause { HasCause (K.faults sink.old) (K.faults sink.new) result }
{
    let mut sent = 0;
    while sent < text.len() {
        sent += sink.write(&text[sent..])?;
    }
    Ok(())
}

/// Writes the whole text, and sees to it that it arrives.
pub fn put_text<K: Sink>(sink: &mut K, text: &[u8]) -> Result<(), Failed>
    ensures puts { Puts (K.written sink.old) (K.written sink.new) text.now result }
    ensures flushed { OnOk result (BecomesFlag (K.is_flushed sink.old) (K.is_flushed sink.new) true) }
    ensures cause { HasCause (K.faults sink.old) (K.faults sink.new) result }
{
    put_all(sink, text)?;
    sink.flush()
}
