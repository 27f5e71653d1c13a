//! Numbers as text.

use crate::holds::all_hold;
use crate::printed::prints;
use dns_num::{U16, U32, U64};

#[test]
fn numbers_print_in_decimal(rt: HostRuntime) {
    let alloc = rt.alloc();
    let largest = U64::new(18446744073709551615);
    all_hold(
        &rt,
        &[
            ("two octets", prints(alloc, &U16::new(65535), "65535")),
            ("four", prints(alloc, &U32::new(4294967295), "4294967295")),
            ("eight", prints(alloc, &largest, "18446744073709551615")),
        ],
    );
}
