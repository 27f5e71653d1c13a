//! An answer, built section by section with compressed names, in hexadecimal digits.
#![tactic(auto)]

use dns_basic::{CName, Ns};
use dns_edns::{EdnsFlags, Opt};
use dns_message::{HeaderFlags, MessageBuilder};
use dns_name::NameBuf;
use dns_num::{SizePrefixed, U16};
use dns_plain::{A, Aaaa};
use dns_rdata::EdnsRecord;
use dns_record::{QClass, QType, Question, RClass, RType, Record, TTL};
use dns_wire::{NameCompressor, ParseBytes};
use std::str::FromStr;

fn push_answers(builder: &mut MessageBuilder<'_>) -> anyhow::Result<()> {
    let www = NameBuf::from_str("www.example.org.")?;
    let host = NameBuf::from_str("host.example.org.")?;
    let ttl = TTL::from(300);
    builder.push_question(&Question::new(&www, QType::A, QClass::IN))?;
    let alias = CName { name: &host };
    builder.push_answer(&Record::new(&www, RType::CNAME, RClass::IN, ttl, alias))?;
    let address = A::from_str("192.0.2.80")?;
    builder.push_answer(&Record::new(&host, RType::A, RClass::IN, ttl, address))?;
    Ok(())
}

fn push_server(builder: &mut MessageBuilder<'_>) -> anyhow::Result<()> {
    let zone = NameBuf::from_str("example.org.")?;
    let server = NameBuf::from_str("ns1.example.org.")?;
    let ttl = TTL::from(3600);
    let authority = Ns { server: &server };
    builder.push_authority(&Record::new(&zone, RType::NS, RClass::IN, ttl, authority))?;
    let address = Aaaa::from_str("2001:db8::53")?;
    builder.push_additional(&Record::new(&server, RType::AAAA, RClass::IN, ttl, address))?;
    Ok(())
}

fn main(rt: HostRuntime) -> anyhow::Result<()> {
    let mut buffer = [0; 512];
    let mut names = NameCompressor::new();
    let flags = HeaderFlags::from_bits(0x8580); // QR, AA, RD, RA
    let mut builder = MessageBuilder::new(&mut buffer, &mut names, U16::new(0x1234), flags);
    push_answers(&mut builder)?;
    push_server(&mut builder)?;
    builder.push_edns(&EdnsRecord {
        max_udp_payload: U16::new(1232),
        ext_rcode: 0,
        version: 0,
        flags: EdnsFlags::default(),
        content: SizePrefixed::new(Opt::parse_bytes(b"")?),
    })?;
    let line = hex::encode(rt.alloc(), builder.message().as_bytes())?;
    println!(rt; "{line}")?;
    Ok(())
}
