//! Whether octets are character strings, options, or a bitmap of types.

ghost use Rattle.std.specs.Prelude.{◌≡◌};
ghost use Rattle.dns_record.specs.CharacterStrings.{is_txt_data};
ghost use Rattle.dns_record.specs.Options.{is_option_data, is_options, option};
ghost use Rattle.dns_record.specs.TypeBitMaps.{is_bitmap, window};
ghost use Rattle.dns_record.specs.DataChecks.{AfterOption, AfterWindow};

use crate::charstr::CharStr;
use crate::unparsed::MAX_DATA_SIZE;
use dns_num::U16;
use dns_wire::{SplitBytes, split_octets};

/// Whether the octets are one string or more, and at most 65,535.
pub fn are_character_strings(bytes: &[u8]) -> bool
    ensures { result ≡ is_txt_data bytes.now }
{
    if bytes.is_empty() || bytes.len() > MAX_DATA_SIZE {
        return false;
    }
    let mut rest = bytes;
    while !rest.is_empty() {
        let Ok((_string, trailing)) = CharStr::split_bytes(rest) else {
            return false;
        };
        rest = trailing;
    }
    true
}

/// The octets after the option at the start.
fn after_option(bytes: &[u8]) -> Option<&[u8]>
    ensures { AfterOption (option bytes.now) result }
{
    let Ok((_code, after_code)) = U16::split_bytes(bytes) else {
        return None;
    };
    let Ok((size, after_size)) = U16::split_bytes(after_code) else {
        return None;
    };
    let Ok((_content, rest)) = split_octets(after_size, usize::from(size)) else {
        return None;
    };
    Some(rest)
}

/// Whether the octets are options one after another, perhaps none, and at most 65,535.
pub fn are_options(bytes: &[u8]) -> bool
    ensures { result ≡ is_option_data bytes.now }
{
    bytes.len() <= MAX_DATA_SIZE && are_all_options(bytes)
}

/// Whether the octets are options one after another, perhaps none.
pub fn are_all_options(bytes: &[u8]) -> bool
    ensures { result ≡ is_options bytes.now }
{
    let mut rest = bytes;
    while !rest.is_empty() {
        let Some(trailing) = after_option(rest) else {
            return false;
        };
        rest = trailing;
    }
    true
}

/// The number of the window at the start, which is to be at least this one, and the octets after it.
fn after_window(least: u16, bytes: &[u8]) -> Option<(u8, &[u8])>
    ensures { AfterWindow bytes.now (window least bytes.now) result }
{
    let [number, size, trailing @ ..] = bytes else {
        return None;
    };
    let number = *number;
    let size = *size as usize;
    if (number as u16) < least || size == 0 || size > 32 || trailing.len() < size {
        return None;
    }
    let (bits, rest) = trailing.split_at(size);
    if bits[size - 1] == 0 {
        return None;
    }
    Some((number, rest))
}

/// Whether the octets are windows whose numbers strictly rise, perhaps none.
pub fn are_windows(bytes: &[u8]) -> bool
    ensures { result ≡ is_bitmap bytes.now }
{
    let mut rest = bytes;
    let mut least = 0;
    while !rest.is_empty() {
        let Some((number, trailing)) = after_window(least, rest) else {
            return false;
        };
        least = u16::from(number) + 1;
        rest = trailing;
    }
    true
}
