//! Data of records, whose grammar depends on the type.

ghost use Rattle.std.specs.Prelude.{◌≡◌, ℕ, List, Option, IfOk};
ghost use Rattle.dns_wire.specs.Reading.{Gives, all_of, all_at};
ghost use Rattle.dns_record.specs.Data.{of_type};

use crate::rtype::RType;
use dns_wire::{ParseBytes, ParseError, ParseMessageBytes};

/// Data that are read for a type of record.
pub trait ParseRecordDataBytes<'a>: Sized + Drop {
    /// What is read: the value, without where it lies in memory.
    ghost Seen: { Type 0 };

    ghost seen: { Self → Seen };

    /// The grammar, by the number of the type: what all the octets spell.
    ghost reads_as: { ℕ → List ℕ → Option Seen };

    /// The grammar in a message, by the number of the type: what goes from a place to the end of the
    /// contents.
    ghost reads_in: { ℕ → List ℕ → ℕ → Option Seen };

    /// Whether the value is data of the type with this number.
    ghost is_of: { Self → ℕ → Type 0 };

    /// Reads the data that all the octets spell. `ParseError` comes exactly if they spell none of this
    /// type.
    fn parse_record_data_bytes(bytes: &'a [u8], rtype: RType) -> Result<Self, ParseError>
        ensures exact { Gives seen result (reads_as rtype.code.value bytes.now) }
        ensures typed { IfOk result (λ v. is_of v rtype.code.value) };
}

/// Data that are read in a message, whose contents may be pointed to.
pub trait ParseRecordData<'a>: ParseRecordDataBytes<'a> {
    /// Reads the data from the place to the end of the contents. `ParseError` comes exactly
    /// if there are none of this type.
    fn parse_record_data(contents: &'a [u8], start: usize, rtype: RType) -> Result<Self, ParseError>
        ensures exact { Gives Self.seen result (Self.reads_in rtype.code.value contents.now start) }
        ensures typed { IfOk result (λ v. Self.is_of v rtype.code.value) };
}

/// Data of one type of record alone, which are read for its number and for no other.
pub trait DataOfType<'a>: ParseBytes<'a> {
    /// The number of the type.
    ghost number: { ℕ };

    /// The type.
    fn rtype() -> RType
        ensures { result.code.value ≡ number };
}

/// Any other type's number is `ParseError`.
impl<'a, T: DataOfType<'a>> ParseRecordDataBytes<'a> for T {
    ghost Seen = { T.Seen };

    ghost seen = { T.seen };

    ghost reads_as = { λ rtype bytes. of_type T.number rtype (all_of (T.reads bytes)) };

    ghost reads_in = { λ rtype contents at. of_type T.number rtype (all_at contents (T.reads_at contents at)) };

    ghost is_of = { λ _ rtype. rtype ≡ T.number };

    fn parse_record_data_bytes(bytes: &'a [u8], rtype: RType) -> Result<T, ParseError> {
        if rtype == T::rtype() {
            T::parse_bytes(bytes)
        } else {
            Err(ParseError)
        }
    }
}

impl<'a, T: DataOfType<'a> + ParseMessageBytes<'a>> ParseRecordData<'a> for T {
    fn parse_record_data(contents: &'a [u8], start: usize, rtype: RType) -> Result<T, ParseError> {
        if rtype == T::rtype() {
            T::parse_message_bytes(contents, start)
        } else {
            Err(ParseError)
        }
    }
}
