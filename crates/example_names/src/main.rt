//! Names, labels, addresses, types and classes, from text and printed.
#![tactic(auto)]

use dns_label::label_of;
use dns_name::NameBuf;
use dns_plain::{A, Aaaa};
use dns_record::{RClass, RType};
use std::str::FromStr;

fn main(rt: HostRuntime) -> anyhow::Result<()> {
    let name = NameBuf::from_str("WWW.example.org.")?;
    println!(rt; "{name}")?; // WWW.example.org.
    let (owner, rest) = NameBuf::split_str(b"www.example.org. IN A")?;
    println!(rt; "{owner} and then {} octets", rest.len())?; // www.example.org. and then 5 octets
    let odd = label_of(b"a.b\0")?;
    println!(rt; "{odd}")?; // a\.b\000
    let error = NameBuf::from_str("www.example.org").err();
    println!(rt; "{error:?}")?; // Some(Relative)
    let value = name.to_json(rt.alloc())?;
    println!(rt; "{value}")?; // "WWW.example.org."
    println!(rt; "{} {} {}", RType::AAAA, RType::from(265), RClass::IN)?; // AAAA TYPE265 IN
    println!(rt; "{}", A::from_str("192.0.2.80")?)?; // 192.0.2.80
    println!(rt; "{}", Aaaa::from_str("2001:DB8:0:0::0001")?)?; // 2001:db8::1

    Ok(())
}
