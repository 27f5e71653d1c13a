//! Going over the items of a message.

ghost use Rattle.std.specs.Prelude.{◌≡◌, ◌≤◌, length, drop, ⊤};
ghost use Rattle.dns_message.specs.Messages.{counted_slots};
ghost use Rattle.dns_wire.specs.declared.sizes.TheConstants.{HEADER_SIZE};

use crate::header::Header;
use crate::item::{ParsedMessageItem, read_item};
use crate::message::Message;
use dns_wire::{ParseBytes, ParseError};
use std::alloc::AllocError;

/// Where an item is among the counted ones.
#[derive(Clone, Copy, Debug, PartialEq, Eq)]
pub struct ItemPosition {
    /// Its section: 0 questions, 1 answers, 2 authorities, 3 additional records.
    pub section: u8,
    /// Its number there, from 0.
    pub index: u16,
}

/// The counted items of a message one after another, in the order of their sections (RFC 1035 section 4.1). An item that is
/// not read is refused once, and ends them for good.
///
/// It takes no memory, so a name that goes through a chain of pointers is followed each time: in at most 129 steps and one for each octet
/// before it (`NameBuf::split_counted`). `read_forms` follows such chains once for a message.
///
/// ```
/// for item in MessageParser::new(octets)? {
///     if let MessageItem::Answer(record) = item? {
///         println!(rt; "{} {}", record.rname, record.rtype)?;
///     }
/// }
/// ```
#[derive(Debug, Drop)]
pub struct MessageParser<'a> {
    message: Message<'a>,
    given: usize,
    offset: usize,
    ended: bool,
}

impl<'a> MessageParser<'a> {
    ghost use Rattle.std.specs.Prelude.{◌≡◌, ◌≤◌, ◌<◌, ◌^◌, [], ◌∷◌, ◌+◌, ℕ, Some, None, false, length, drop, IfOk, IfErr, IfSome, OnSome, MatchOption};
    ghost use Rattle.dns_message.specs.Headers.{IsHeaderOf};
    ghost use Rattle.dns_message.specs.Parsing.{parsed_message, given_count, next_start, has_ended, slots_ahead, IsComing, HasPassed, GivesNext};
    ghost use Rattle.dns_message.specs.Seen.{HasSoundData, IsOfSection};

    /// Goes over the items of the message that these octets are. `ParseError` comes exactly below twelve octets.
    pub fn new(bytes: &'a [u8]) -> Result<MessageParser<'a>, ParseError>
        ensures message { IfOk result (λ p. (HEADER_SIZE ≤ length bytes.entry.now) × (parsed_message p ≡ bytes.entry.now)) }
        ensures start { IfOk result (λ p. (given_count p ≡ 0) × (next_start p ≡ 0) × (has_ended p ≡ false)) }
        ensures refused { IfErr result (λ _. length bytes.entry.now < HEADER_SIZE) }
    {
        let message = Message::parse_bytes(bytes)?;
        Ok(MessageParser::for_message(message))
    }

    /// Goes over the items of the message.
    pub fn for_message(message: Message<'a>) -> MessageParser<'a>
        ensures message { parsed_message result ≡ message.entry.slice.now }
        ensures start { (given_count result ≡ 0) × (next_start result ≡ 0) × (has_ended result ≡ false) }
    {
        MessageParser {
            message,
            given: 0,
            offset: 0,
            ended: false,
        }
    }

    /// The message.
    pub fn message(&self) -> Message<'a>
        ensures { result.slice.now ≡ parsed_message self.now }
    {
        self.message
    }

    /// The header of the message.
    pub fn header(&self) -> Header
        ensures { IsHeaderOf (parsed_message self.now) result }
    {
        self.message.header()
    }

    /// Where in the contents, which are the octets after the header, the next item begins.
    pub fn offset(&self) -> usize
        ensures { result ≡ next_start self.now }
    {
        self.offset
    }

    /// Where the item is that comes after that many.
    fn next_position(&self) -> Option<ItemPosition>
        ensures none { MatchOption result (drop self.now.given (counted_slots self.now.message.slice.now) ≡ [])
            (λ p. drop self.now.given (counted_slots self.now.message.slice.now) ≡ (p.section, p.index) ∷ drop (self.now.given + 1) (counted_slots self.now.message.slice.now)) }
        ensures section { IfSome result (λ p. p.section ≤ 3) }
        ensures few { OnSome result (self.now.given < 2 ^ 18) }
    {
        let counts = self.message.header().counts.as_array();
        let mut index = self.given;
        for section in 0..4u8 {
            let count = counts[usize::from(section)].get();
            if index < usize::from(count) {
                let index = index as u16;
                return Some(ItemPosition { section, index });
            }
            index -= usize::from(count);
        }
        None
    }

    /// Where the next item is; none if the parser has ended.
    pub(crate) fn coming(&self) -> Option<ItemPosition>
        ensures none { MatchOption result (slots_ahead self.now ≡ []) (λ p. IsComing self.now p.section p.index) }
        ensures section { IfSome result (λ p. p.section ≤ 3) }
    {
        if self.ended {
            return None;
        }
        self.next_position()
    }

    /// Goes on to the item after the one at this position, which ends there.
    pub(crate) fn pass(&mut self, position: ItemPosition, end: usize)
        requires { IsComing self.old position.section position.index }
        ensures { HasPassed self.old position.section position.index end self.new }
    {
        self.given += 1;
        self.offset = end;
    }

    /// The next item, with its position; an error if it is not read. After an error, and if no item is left, there is none for
    /// good, and `offset` stays.
    pub fn next_item(&mut self) -> Option<(ItemPosition, Result<ParsedMessageItem<'a>, ParseError>)>
        ensures gives { GivesNext self.old result self.new }
        ensures unchanged { parsed_message self.new ≡ parsed_message self.old }
        ensures sound { IfSome result (λ r. IfOk r.1 HasSoundData) }
        ensures kind { IfSome result (λ r. IfOk r.1 (IsOfSection r.0.section (drop (next_start self.old) (drop HEADER_SIZE (parsed_message self.old))))) }
    {
        let position = self.coming()?;
        let section = usize::from(position.section);
        match read_item(self.message.contents(), section, self.offset) {
            Ok((item, end)) => {
                self.pass(position, end);
                Some((position, Ok(item)))
            }
            Err(error) => {
                self.ended = true;
                Some((position, Err(error)))
            }
        }
    }
}

impl<'a> Iterator for MessageParser<'a> {
    ghost use Rattle.std.specs.Iterator.{item_count};
    ghost use Rattle.dns_message.specs.Parsing.{GivesItem, slots_ahead};

    type Item = Result<ParsedMessageItem<'a>, ParseError>;

    ghost next_gives = { GivesItem };

    ghost remaining = { item_count slots_ahead };

    fn next(&mut self) -> Option<Result<ParsedMessageItem<'a>, ParseError>> {
        let (_position, item) = self.next_item()?;
        Some(item)
    }
}

impl<'a> Clone for MessageParser<'a> {
    ghost is_clone = { λ a b. b ≡ a };

    ghost is_infallible = { λ _. ⊤ };

    fn clone(&self) -> Result<MessageParser<'a>, AllocError> {
        Ok(MessageParser {
            message: self.message,
            given: self.given,
            offset: self.offset,
            ended: self.ended,
        })
    }
}
