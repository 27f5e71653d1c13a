//! Items of messages.

ghost use Rattle.std.specs.Prelude.{◌↔◌, ◌≤◌, length, drop, IfOk, IsTrue};
ghost use Rattle.dns_wire.specs.Reading.{Gives};
ghost use Rattle.dns_wire.specs.Pointers.{name_at};
ghost use Rattle.dns_record.specs.Data.{data_in};
ghost use Rattle.dns_record.specs.Records.{record_in};
ghost use Rattle.dns_message.specs.Messages.{item_at};
ghost use Rattle.dns_message.specs.Seen.{AreSound, BeginsEdns, item_seen, record_value, HasSoundData, IsOfSection};

use dns_edns::Opt;
use dns_name::{NameBuf, RevNameBuf};
use dns_rdata::{EdnsRecord, RecordData};
use dns_record::{Question, Record};
use dns_wire::{ParseError, SplitMessageBytes};

/// A counted item of a message, by its section (RFC 1035 section 4.1). `N` is the type of names, `D` that of record data, and
/// `E` that of the data of EDNS records.
#[derive(Debug, Drop)]
pub enum MessageItem<N, D, E> {
    /// What is asked.
    Question(Question<N>),
    /// A record that answers.
    Answer(Record<N, D>),
    /// A record on who has authority.
    Authority(Record<N, D>),
    /// A record that may help.
    Additional(Record<N, D>),
    /// An additional OPT record, whose owner is written as the root (RFC 6891 section 6.1.1).
    Edns(EdnsRecord<E>),
}

/// A record that was read, as the items below have it.
pub(crate) type ParsedRecord<'a> = Record<RevNameBuf, RecordData<'a, NameBuf>>;

/// An item that was read, with its own names: its data are borrowed from the message, and its owner is kept from the root on, as
/// owners are compared.
pub type ParsedMessageItem<'a> = MessageItem<RevNameBuf, RecordData<'a, NameBuf>, Opt<'a>>;

/// Whether the octets begin as an EDNS record does: with the root, and the number of OPT.
fn begins_edns(octets: &[u8]) -> bool
    ensures { IsTrue result ↔ BeginsEdns octets.now }
{
    octets.starts_with(&[0, 0, 41])
}

/// Reads the record at a place, and gives the place where it ends.
#[tactic(auto, using(crate::proofs::Sound::short_data))]
fn read_record(contents: &[u8], start: usize) -> Result<(ParsedRecord<'_>, usize), ParseError>
    ensures exact { Gives (λ x. (record_value x.0, x.1)) result (record_in name_at (data_in name_at) contents.now start) }
    ensures within { IfOk result (λ x. (start ≤ x.1) × (x.1 ≤ length contents.now)) }
    ensures sound { IfOk result (λ x. AreSound x.0) }
{
    Record::split_message_bytes(contents, start)
}

/// Reads the additional item at a place, and gives the place where it ends.
#[tactic(auto, unfolding(crate::specs::Messages::item_by))]
fn read_additional(
    contents: &[u8],
    start: usize,
) -> Result<(ParsedMessageItem<'_>, usize), ParseError>
    ensures exact { Gives (λ x. (item_seen x.0, x.1)) result (item_at 3 contents.now start) }
    ensures within { IfOk result (λ x. (start ≤ x.1) × (x.1 ≤ length contents.now)) }
    ensures sound { IfOk result (λ x. HasSoundData x.0) }
    ensures kind { IfOk result (λ x. IsOfSection 3 (drop start contents.now) x.0) }
{
    let (form, end) = read_record(contents, start)?;
    if begins_edns(&contents[start..]) {
        let edns = EdnsRecord::try_from(form)?;
        Ok((MessageItem::Edns(edns), end))
    } else {
        Ok((MessageItem::Additional(form), end))
    }
}

/// Reads the item of a section at a place, and gives the place where it ends. Section 0 has the questions, and the later ones
/// have records. `ParseError` comes exactly if no such item is there.
#[tactic(auto, unfolding(crate::specs::Messages::item_by))]
pub(crate) fn read_item(
    contents: &[u8],
    section: usize,
    start: usize,
) -> Result<(ParsedMessageItem<'_>, usize), ParseError>
    requires { section ≤ 3 }
    ensures exact { Gives (λ x. (item_seen x.0, x.1)) result (item_at section contents.now start) }
    ensures within { IfOk result (λ x. (start ≤ x.1) × (x.1 ≤ length contents.now)) }
    ensures sound { IfOk result (λ x. HasSoundData x.0) }
    ensures kind { IfOk result (λ x. IsOfSection section (drop start contents.now) x.0) }
{
    match section {
        0 => {
            let (question, end) = Question::split_message_bytes(contents, start)?;
            Ok((MessageItem::Question(question), end))
        }
        1 => {
            let (answer, end) = read_record(contents, start)?;
            Ok((MessageItem::Answer(answer), end))
        }
        2 => {
            let (authority, end) = read_record(contents, start)?;
            Ok((MessageItem::Authority(authority), end))
        }
        _ => read_additional(contents, start),
    }
}
