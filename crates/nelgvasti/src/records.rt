//! Records in canonical order.

ghost use Rattle.std.specs.Prelude.{◌≡◌, ◌≢◌, ◌⊎◌, MatchOption};
ghost use Rattle.dns_message.specs.Messages.{RecordValue};
ghost use Rattle.dns_message.specs.Order.{record_cmp};
ghost use Rattle.nelgvasti.specs.Calls.{HasRecord, HasNoRecord, order_number};

use crate::answers::{DONE, USAGE};
use crate::names::order_number;
use dns_message::{CanonicalRecord, MessageItem};
use dns_name::{NameBuf, RevNameBuf};
use dns_rdata::RecordData;
use dns_record::Record;
use dns_wire::SplitBytes;

/// The record of another type than OPT that some octets are; `None` if they are none.
fn record_of(octets: &[u8]) -> Option<CanonicalRecord<'_>>
    ensures { MatchOption result (HasNoRecord octets.now) (λ r. HasRecord octets.now r) }
{
    let Ok((found, rest)) = Record::<RevNameBuf, RecordData<'_, NameBuf>>::split_bytes(octets)
    else {
        return None;
    };
    if rest.is_empty() {
        CanonicalRecord::of(MessageItem::Answer(found))
    } else {
        None
    }
}

/// Writes -1, 0 or 1 if the first record comes before the second, has the same canonical octets, or comes after it, in canonical order: by
/// owner, class, type, data and TTL (RFC 4034 section 6). A record is given as its octets, of which no name has a pointer.
#[unsafe(no_mangle)]
pub extern "C" fn nelgvasti_compare_records(first: &[u8], second: &[u8], order: &mut i32) -> u32
    ensures done { result ≡ DONE → (r s : RecordValue) × HasRecord first.now r × HasRecord second.now s
        × (order.new ≡ order_number (record_cmp r s)) }
    ensures usage { result ≡ USAGE → HasNoRecord first.now ⊎ HasNoRecord second.now }
    ensures unwritten { result ≢ DONE → order.new ≡ order.old }
    ensures expected { (result ≡ DONE) ⊎ (result ≡ USAGE) }
{
    let Some(first) = record_of(first) else {
        return USAGE;
    };
    let Some(second) = record_of(second) else {
        return USAGE;
    };
    *order = order_number(first.cmp(&second));
    DONE
}
