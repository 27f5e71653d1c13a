//! Building a message item by item.

ghost use Rattle.std.specs.Prelude.{◌≡◌, ◌≤◌, ◌<◌, ◌+◌, ◌*◌, ◌^◌, ◌++◌, ℕ, List, [], ◌∷◌, length, take, drop, replicate, OnOk, OnErr};
ghost use Rattle.std.specs.Int.{w16, to_be_bytes};
ghost use Rattle.dns_wire.specs.Compression.{FitsIn};
ghost use Rattle.dns_wire.specs.InMessage.{BuildsIn};
ghost use Rattle.dns_wire.specs.Layout.{octets_writes};
ghost use Rattle.dns_rdata.specs.Edns.{edns_octets};
ghost use Rattle.dns_message.specs.Headers.{header_bits};
ghost use Rattle.dns_message.specs.Messages.{counts_of};
ghost use Rattle.dns_message.specs.Building.{Draft, drafted, section_number, question_compressed, record_compressed, record_fits_in, count_in, has_items, has_later, count_after, next_count, with_count, pushed, PushResults};

use crate::build_error::MessageBuildError;
use crate::header::HeaderFlags;
use crate::message::Message;
use dns_num::U16;
use dns_rdata::EdnsRecord;
use dns_record::{Question, Record};
use dns_wire::{BuildBytes, BuildInMessage, HEADER_SIZE, NameCompressor, TruncationError};
use std::marker::Model;

/// The sections of a message, in order (RFC 1035 section 4.1).
#[derive(Clone, Copy)]
enum Section {
    Question,
    Answer,
    Authority,
    Additional,
}

impl Section {
    /// The number of the section, from 0.
    fn number(self) -> usize
        ensures number { result ≡ section_number self }
        ensures small { result < 4 }
    {
        match self {
            Section::Question => 0,
            Section::Answer => 1,
            Section::Authority => 2,
            Section::Additional => 3,
        }
    }
}

/// A message that is built in a buffer, section by section, with names that are written once (RFC 1035 sections 4.1 and
/// 4.1.4).
///
/// ```
/// let mut buffer = [0; 512];
/// let mut names = NameCompressor::new();
/// let flags = HeaderFlags::from_bits(0x8580); // QR, AA, RD, RA
/// let mut builder = MessageBuilder::new(&mut buffer, &mut names, U16::new(0x1234), flags);
/// builder.push_question(&Question::new(&name, QType::A, QClass::IN))?;
/// builder.push_answer(&Record::new(&name, RType::A, RClass::IN, TTL::from(300), address))?;
/// let octets = builder.message().as_bytes();
/// ```
#[derive(Drop)]
pub struct MessageBuilder<'b> {
    buffer: &'b mut [u8],
    /// How many octets of contents there are after the header.
    size: usize,
    compressor: &'b mut NameCompressor,
}

impl<'b> Model for MessageBuilder<'b> {
    ghost use Rattle.std.specs.Prelude.{ℕ, List, ◌≤◌, ◌+◌, length, take, drop};
    ghost use Rattle.dns_wire.specs.Compression.{FitsIn};
    ghost use Rattle.dns_wire.specs.declared.sizes.TheConstants.{HEADER_SIZE};
    ghost use Rattle.dns_message.specs.Building.{Draft};

    ghost Value = { Draft };

    ghost view = { λ b. record {
      header = take HEADER_SIZE b.buffer.now;
      contents = take b.size (drop HEADER_SIZE b.buffer.now);
      size = length b.buffer.now;
      places = b.compressor.now;
    } };

    ghost invariant = { λ b. (HEADER_SIZE + b.size ≤ length b.buffer.now) × FitsIn b.compressor.now (take b.size (drop HEADER_SIZE b.buffer.now)) };
}

impl<'b> MessageBuilder<'b> {
    /// A message without items, with this id and these flags, in a buffer of at least 12 octets. The compressor knows no
    /// name yet.
    pub fn new(
        buffer: &'b mut [u8],
        compressor: &'b mut NameCompressor,
        id: U16,
        flags: HeaderFlags,
    ) -> MessageBuilder<'b>
        requires header { HEADER_SIZE ≤ length buffer.now }
        requires fresh { compressor.now ≡ [] }
        ensures { result ≡ record {
          header = to_be_bytes w16 id.value ++ to_be_bytes w16 (header_bits flags) ++ replicate 8 0;
          contents = [];
          size = length buffer.entry.now;
          places = [];
        } }
    {
        put_header(buffer, id, flags);
        MessageBuilder {
            buffer,
            size: 0,
            compressor,
        }
    }

    /// The message so far, with its header.
    pub fn message(&self) -> Message<'_>
        ensures octets { result.slice.now ≡ drafted self.now }
        ensures header { length self.now.header ≡ HEADER_SIZE }
        ensures known { FitsIn self.now.places self.now.contents }
    {
        Message {
            slice: &self.buffer[..HEADER_SIZE + self.size],
        }
    }

    /// Adds a question. `Misplaced` comes exactly if a later section has an item, else `TooMany` exactly if there are
    /// 65,535 questions, else `Truncated` exactly if the question's octets are more than the free ones.
    pub fn push_question<N: BuildInMessage>(
        &mut self,
        item: &Question<N>,
    ) -> Result<(), MessageBuildError>
        ensures result_is { PushResults 0 (N.fits_in item.now.qname) (question_compressed N.writes item.now) self.old result }
        ensures pushed { OnOk result (self.new ≡ pushed 0 (question_compressed N.writes item.now) self.old) }
        ensures unchanged { OnErr result (self.new ≡ self.old) }
    {
        self.push(Section::Question, item)
    }

    /// Adds a record to the answers. `Misplaced` comes exactly if a later section has an item, else `TooMany` exactly
    /// if there are 65,535 answers, else `Truncated` exactly if the record's octets are more than the free ones or
    /// its data more than 65,535.
    pub fn push_answer<N: BuildInMessage, D: BuildInMessage>(
        &mut self,
        item: &Record<N, D>,
    ) -> Result<(), MessageBuildError>
        ensures result_is { PushResults 1 (record_fits_in N.fits_in N.writes D.fits_in D.writes item.now) (record_compressed N.writes D.writes item.now) self.old result }
        ensures pushed { OnOk result (self.new ≡ pushed 1 (record_compressed N.writes D.writes item.now) self.old) }
        ensures unchanged { OnErr result (self.new ≡ self.old) }
    {
        self.push(Section::Answer, item)
    }

    /// Adds a record to those of authorities. It is refused as `push_answer` is.
    pub fn push_authority<N: BuildInMessage, D: BuildInMessage>(
        &mut self,
        item: &Record<N, D>,
    ) -> Result<(), MessageBuildError>
        ensures result_is { PushResults 2 (record_fits_in N.fits_in N.writes D.fits_in D.writes item.now) (record_compressed N.writes D.writes item.now) self.old result }
        ensures pushed { OnOk result (self.new ≡ pushed 2 (record_compressed N.writes D.writes item.now) self.old) }
        ensures unchanged { OnErr result (self.new ≡ self.old) }
    {
        self.push(Section::Authority, item)
    }

    /// Adds a record to the additional ones. It is refused as `push_answer` is.
    pub fn push_additional<N: BuildInMessage, D: BuildInMessage>(
        &mut self,
        item: &Record<N, D>,
    ) -> Result<(), MessageBuildError>
        ensures result_is { PushResults 3 (record_fits_in N.fits_in N.writes D.fits_in D.writes item.now) (record_compressed N.writes D.writes item.now) self.old result }
        ensures pushed { OnOk result (self.new ≡ pushed 3 (record_compressed N.writes D.writes item.now) self.old) }
        ensures unchanged { OnErr result (self.new ≡ self.old) }
    {
        self.push(Section::Additional, item)
    }

    /// Adds an EDNS record to the additional ones (RFC 6891 section 6.1.1). It is refused as `push_answer` is.
    pub fn push_edns<D: BuildBytes>(
        &mut self,
        item: &EdnsRecord<D>,
    ) -> Result<(), MessageBuildError>
        ensures result_is { PushResults 3 (λ _ _. (length (D.octets item.now.content) < 2 ^ 16) × D.fits item.now.content) (octets_writes (edns_octets item.now (D.octets item.now.content))) self.old result }
        ensures pushed { OnOk result (self.new ≡ pushed 3 (octets_writes (edns_octets item.now (D.octets item.now.content))) self.old) }
        ensures unchanged { OnErr result (self.new ≡ self.old) }
    {
        self.push(Section::Additional, item)
    }

    /// Adds an item to a section.
    fn push<T: BuildInMessage>(
        &mut self,
        section: Section,
        item: &T,
    ) -> Result<(), MessageBuildError>
        ensures result_is { PushResults (section_number section) (T.fits_in item.now) (T.writes item.now) self.old result }
        ensures pushed { OnOk result (self.new ≡ pushed (section_number section) (T.writes item.now) self.old) }
        ensures unchanged { OnErr result (self.new ≡ self.old) }
    {
        let section = section.number();
        let count = self.next_count(section)?;
        let end = put_item(item, self.buffer, self.size, self.compressor)?;
        put_count(self.buffer, section, count);
        self.size = end;
        Ok(())
    }

    /// How many items each section has.
    fn counts(&self) -> [u16; 4]
        ensures { result ≡ counts_of self.now.header }
    {
        counts_in(&self.message())
    }

    /// How many items the section has with one more.
    fn next_count(&self, section: usize) -> Result<u16, MessageBuildError>
        requires { section < 4 }
        ensures { result ≡ next_count section self.now.header }
    {
        count_after(self.counts(), section)
    }
}

/// How many items each section of the message has.
fn counts_in(message: &Message<'_>) -> [u16; 4]
    ensures { result ≡ counts_of message.now.slice.now }
{
    let counts = message.header().counts;
    [
        counts.questions.get(),
        counts.answers.get(),
        counts.authorities.get(),
        counts.additional.get(),
    ]
}

/// How many items the section has with one more, of these counts.
fn count_after(counts: [u16; 4], section: usize) -> Result<u16, MessageBuildError>
    requires { section < 4 }
    ensures { result ≡ count_after section counts }
{
    let count = counts[section];
    if has_items(&counts[section + 1..]) {
        Err(MessageBuildError::Misplaced)
    } else if count == u16::MAX {
        Err(MessageBuildError::TooMany)
    } else {
        Ok(count + 1)
    }
}

/// Whether one of the counts is above 0.
fn has_items(counts: &[u16]) -> bool
    ensures { result ≡ has_items counts.now }
{
    counts.iter().any(|count| *count > 0)
}

/// Puts a header without items before.
fn put_header(buffer: &mut [u8], id: U16, flags: HeaderFlags)
    requires { HEADER_SIZE ≤ length buffer.old }
    ensures { buffer.new ≡ to_be_bytes w16 id.value ++ to_be_bytes w16 (header_bits flags) ++ replicate 8 0 ++ drop HEADER_SIZE buffer.old }
{
    buffer[..2].copy_from_slice(&id.get().to_be_bytes());
    buffer[2..4].copy_from_slice(&flags.bits().to_be_bytes());
    buffer[4..HEADER_SIZE].fill(0);
}

/// Puts an item after that many octets of contents, and gives the place where it ends.
fn put_item<T: BuildInMessage>(
    item: &T,
    buffer: &mut [u8],
    size: usize,
    compressor: &mut NameCompressor,
) -> Result<usize, TruncationError>
    requires room { HEADER_SIZE + size ≤ length buffer.old }
    requires known { FitsIn compressor.old (take size (drop HEADER_SIZE buffer.old)) }
    ensures contents { BuildsIn (T.fits_in item.now (take size (drop HEADER_SIZE buffer.old)) compressor.old)
        (T.writes item.now (take size (drop HEADER_SIZE buffer.old)) compressor.old)
        (drop HEADER_SIZE buffer.old) size compressor.old (drop HEADER_SIZE buffer.new) compressor.new result }
    ensures header { take HEADER_SIZE buffer.new ≡ take HEADER_SIZE buffer.old }
    ensures size { length buffer.new ≡ length buffer.old }
{
    item.build_in_message(&mut buffer[HEADER_SIZE..], size, compressor)
}

/// Puts the count of a section in its place.
fn put_count(buffer: &mut [u8], section: usize, count: u16)
    requires section { section < 4 }
    requires header { HEADER_SIZE ≤ length buffer.old }
    ensures header { take HEADER_SIZE buffer.new ≡ with_count section count (take HEADER_SIZE buffer.old) }
    ensures contents { drop HEADER_SIZE buffer.new ≡ drop HEADER_SIZE buffer.old }
    ensures size { length buffer.new ≡ length buffer.old }
{
    write_count(&mut buffer[..HEADER_SIZE], section, count);
}

/// Writes the count of a section over a header's.
fn write_count(header: &mut [u8], section: usize, count: u16)
    requires section { section < 4 }
    requires header { length header.old ≡ HEADER_SIZE }
    ensures exact { header.new ≡ with_count section count header.old }
    ensures size { length header.new ≡ HEADER_SIZE }
{
    let at = 4 + 2 * section;
    header[at..at + 2].copy_from_slice(&count.to_be_bytes());
}
