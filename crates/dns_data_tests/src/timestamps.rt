//! Timestamps of signatures around a reference, and their order.

use crate::assertions::holds;
use dns_sec::Timestamp;
use std::cmp::Ordering;

/// The moment that the timestamp means at the reference.
fn moment(stamp: u32, reference: u64) -> Option<u64> {
    if reference >= 1 << 63 {
        return None;
    }
    Some(Timestamp::from(stamp).to_system_time(reference))
}

/// The moments of these numbers, from 1970 on, that are nearest to the reference.
#[test]
fn moments_are_near_their_reference(rt: HostRuntime) {
    let nearest = moment(5, 4_294_967_295);
    holds(&rt, nearest == Some(4_294_967_301), "5 at 4294967295");
    let nearest = moment(4_294_967_295, 5);
    holds(&rt, nearest == Some(4_294_967_295), "stamp-last-value");
}

/// How two timestamps compare.
fn order(one: u32, other: u32) -> Option<Ordering> {
    Timestamp::from(one).partial_cmp(&Timestamp::from(other))
}

/// As serial numbers (RFC 1982 section 3.2).
#[test]
fn timestamps_are_compared_as_serial_numbers(rt: HostRuntime) {
    let order = order(0, 4_294_967_295);
    holds(&rt, order == Some(Ordering::Greater), "0 and 4294967295");
}
