//! The message of generated records.

ghost use Rattle.std.specs.Prelude.{◌≡◌, ◌≤◌, ◌<◌, ◌+◌, ◌/◌, ◌%◌, [], ◌∷◌, IfOk, OnOk, IfErr};
ghost use Rattle.dns_record.specs.CharStrs.{charstr_wire};
ghost use Rattle.dns_rdata.specs.Data.{type_number};
ghost use Rattle.dns_message.specs.Seen.{data_seen};
ghost use Rattle.dns_canon.specs.Generated.{generated_owner, generated_server, generated_exchange, generated_string, generated_type, generated_content, made_line};
ghost use Rattle.dns_canon.specs.Making.{HasMade};
ghost use Rattle.dns_canon.specs.declared.words.TheConstants.{MOST_RECORDS};

use dns_basic::{Mx, Ns};
use dns_message::{CanonError, HeaderFlags, MAX_MESSAGE_SIZE, MessageBuilder, read_forms};
use dns_name::NameBuf;
use dns_num::U16;
use dns_plain::{A, Txt};
use dns_rdata::RecordData;
use dns_record::{CharStrBuf, RClass, Record, TTL};
use dns_wire::{NameCompressor, ParseBytes};
use std::alloc::{AllocError, Global};
use std::fmt::Write;

/// Room for a text that a name or a string is read from, in octets. The longest, `h96.z6.Example.`, has 15.
const TEXT_ROOM: usize = 16;

/// The line on the message of that many generated records, at most 1,000: how many records its canonical list has, how many octets
/// these have, and how many the message has, whose names are shared.
pub(crate) fn make_text(alloc: Global, count: u16) -> Result<Vec<u8>, CanonError>
    requires { count ≤ MOST_RECORDS }
    ensures ok { IfOk result (λ printed. printed.items ≡ made_line count) }
    ensures err { IfErr result (λ error. error ≡ CanonError.Memory) }
{
    let mut buffer = vec![in alloc; 0; MAX_MESSAGE_SIZE]?;
    let mut compressor = NameCompressor::new();
    let (id, flags) = (U16::new(0), HeaderFlags::from_bits(0));
    let mut builder = MessageBuilder::new(&mut buffer, &mut compressor, id, flags);
    push_records(alloc, &mut builder, count)?;
    line_on(alloc, &builder, count)
}

/// The line on a message in which that many generated records were built.
fn line_on(alloc: Global, builder: &MessageBuilder<'_>, count: u16) -> Result<Vec<u8>, CanonError>
    requires few { count ≤ MOST_RECORDS }
    requires made { HasMade count builder.now }
    ensures ok { IfOk result (λ printed. printed.items ≡ made_line count) }
    ensures err { IfErr result (λ error. error ≡ CanonError.Memory) }
{
    let message = builder.message().as_bytes();
    let forms = read_forms(alloc, message)?;
    let order = forms.collapsed(alloc)?;
    let line = format!(in alloc;
        "records {} octets {} message {}\n",
        order.len(),
        order.octet_count(),
        message.len()
    )?;
    Ok(line.into_bytes())
}

/// Adds the records of the numbers below `count` as answers.
fn push_records(
    alloc: Global,
    builder: &mut MessageBuilder<'_>,
    count: u16,
) -> Result<(), AllocError>
    requires few { count ≤ MOST_RECORDS }
    requires none { HasMade 0 builder.old }
    ensures { OnOk result (HasMade count builder.new) }
{
    let mut text = String::with_capacity(alloc, TEXT_ROOM)?;
    for index in 0..count {
        push_record(&mut text, builder, index)?;
    }
    Ok(())
}

/// Adds the record of a number, whose data are of four types by turns. Names are written to the text before they are read.
fn push_record(
    text: &mut String,
    builder: &mut MessageBuilder<'_>,
    index: u16,
) -> Result<(), AllocError>
    requires few { index < MOST_RECORDS }
    requires before { HasMade index builder.old }
    ensures { OnOk result (HasMade (index + 1) builder.new) }
{
    match index % 4 {
        0 => push_address(text, builder, index),
        1 => push_server(text, builder, index),
        2 => push_exchange(text, builder, index),
        _ => push_string(text, builder, index),
    }
}

/// Adds the record of a number, whose data are an address.
fn push_address(
    text: &mut String,
    builder: &mut MessageBuilder<'_>,
    index: u16,
) -> Result<(), AllocError>
    requires few { index < MOST_RECORDS }
    requires turn { index % 4 ≡ 0 }
    requires before { HasMade index builder.old }
    ensures { OnOk result (HasMade (index + 1) builder.new) }
{
    let owner = owner_of(text, index)?;
    push_answer(builder, index, owner, RecordData::A(address_of(index)));
    Ok(())
}

/// Adds the record of a number, whose data are a name server.
fn push_server(
    text: &mut String,
    builder: &mut MessageBuilder<'_>,
    index: u16,
) -> Result<(), AllocError>
    requires few { index < MOST_RECORDS }
    requires turn { index % 4 ≡ 1 }
    requires before { HasMade index builder.old }
    ensures { OnOk result (HasMade (index + 1) builder.new) }
{
    let owner = owner_of(text, index)?;
    let server = server_of(text, index)?;
    push_answer(builder, index, owner, RecordData::Ns(Ns { server }));
    Ok(())
}

/// Adds the record of a number, whose data are a mail exchange.
fn push_exchange(
    text: &mut String,
    builder: &mut MessageBuilder<'_>,
    index: u16,
) -> Result<(), AllocError>
    requires few { index < MOST_RECORDS }
    requires turn { index % 4 ≡ 2 }
    requires before { HasMade index builder.old }
    ensures { OnOk result (HasMade (index + 1) builder.new) }
{
    let owner = owner_of(text, index)?;
    let exchange = exchange_of(text, index)?;
    let rdata = RecordData::Mx(Mx {
        preference: U16::new(index),
        exchange,
    });
    push_answer(builder, index, owner, rdata);
    Ok(())
}

/// Adds the record of a number, whose data are a string.
fn push_string(
    text: &mut String,
    builder: &mut MessageBuilder<'_>,
    index: u16,
) -> Result<(), AllocError>
    requires few { index < MOST_RECORDS }
    requires turn { index % 4 ≡ 3 }
    requires before { HasMade index builder.old }
    ensures { OnOk result (HasMade (index + 1) builder.new) }
{
    let owner = owner_of(text, index)?;
    let string = string_of(text, index)?;
    push_answer(builder, index, owner, RecordData::Txt(strings_of(&string)));
    Ok(())
}

/// Adds the record of a number, by its owner and its data. There is room for 1,000 of them.
fn push_answer(
    builder: &mut MessageBuilder<'_>,
    index: u16,
    owner: NameBuf,
    rdata: RecordData<'_, NameBuf>,
)
    requires few { index < MOST_RECORDS }
    requires before { HasMade index builder.old }
    requires owner { owner ≡ generated_owner index }
    requires rtype { type_number rdata ≡ generated_type (index % 4) }
    requires content { data_seen rdata ≡ generated_content (index % 4) index }
    ensures { HasMade (index + 1) builder.new }
{
    let ttl = TTL::from(60 + u32::from(index % 3));
    let record = Record::new(owner, rdata.rtype(), RClass::IN, ttl, rdata);
    builder.push_answer(&record).unwrap();
}

/// The owner of the record of a number.
fn owner_of(text: &mut String, index: u16) -> Result<NameBuf, AllocError>
    ensures { IfOk result (λ name. name ≡ generated_owner index) }
{
    text.clear();
    write!(text, "h{}.z{}.Example.", index % 97, index % 7)?;
    Ok(text.parse().unwrap())
}

/// The address in the record of a number.
fn address_of(index: u16) -> A
    ensures { result.octets ≡ 10 ∷ 0 ∷ index / 256 ∷ index % 256 ∷ [] }
{
    let [high, low] = index.to_be_bytes();
    A {
        octets: [10, 0, high, low],
    }
}

/// The server in the record of a number.
fn server_of(text: &mut String, index: u16) -> Result<NameBuf, AllocError>
    ensures { IfOk result (λ name. name ≡ generated_server index) }
{
    text.clear();
    write!(text, "ns{}.EXAMPLE.", index % 5)?;
    Ok(text.parse().unwrap())
}

/// The exchange in the record of a number.
fn exchange_of(text: &mut String, index: u16) -> Result<NameBuf, AllocError>
    ensures { IfOk result (λ name. name ≡ generated_exchange index) }
{
    text.clear();
    write!(text, "mx{}.example.", index % 3)?;
    Ok(text.parse().unwrap())
}

/// The string in the record of a number.
fn string_of(text: &mut String, index: u16) -> Result<CharStrBuf, AllocError>
    ensures { IfOk result (λ string. string ≡ generated_string index) }
{
    text.clear();
    write!(text, "t{}", index)?;
    Ok(text.parse().unwrap())
}

/// Data of one string.
fn strings_of(string: &CharStrBuf) -> Txt<'_>
    ensures { result.slice.now ≡ charstr_wire string.now }
{
    Txt::parse_bytes(string.wire_bytes()).unwrap()
}
