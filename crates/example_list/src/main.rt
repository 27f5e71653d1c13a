//! The canonical list of a message: an answer of BIND with an alias, its address and an OPT.
#![tactic(auto)]

use dns_canon::{CanonList, canonicalise};

/// The octets of the message, in hexadecimal digits.
const MESSAGE: &str =
    "3a4f8180000100020000000105416c696173074578616d706c65034f5247000001000105616c69617307\
    6578616d706c65036f726700000500010000012c00090673696e676c65c029c040000100010000012c00\
    04c000025a00002904d000000000001c000a0018e00f5a3b6e7b8e68010000006b0976cb720ddc96da5e\
    617b";

/// Prints a list, a line for each record.
fn show(rt: &HostRuntime, list: &CanonList) -> anyhow::Result<()> {
    for index in 0..list.len() {
        let octets = list.get(index).unwrap_or(b"");
        println!(rt; "{}", hex::encode(rt.alloc(), octets)?)?;
    }
    Ok(())
}

fn main(rt: HostRuntime) -> anyhow::Result<()> {
    let message = hex::decode(rt.alloc(), MESSAGE)?;
    let list = canonicalise(rt.alloc(), &message)?;
    show(&rt, &list)
}
