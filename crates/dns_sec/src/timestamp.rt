//! Times of signatures.

ghost use Rattle.std.specs.Prelude.{◌≡◌, ◌≤◌, ◌<◌, ◌+◌, ◌^◌, ℕ, Some};
ghost use Rattle.std.specs.Fmt.{decimal};
ghost use Rattle.dns_record.specs.Serials.{serial_cmp};
ghost use Rattle.dns_sec.specs.Moments.{IsNearest};

use dns_record::Serial;
use std::cmp::Ordering;
use std::fmt;
use std::marker::Model;

/// The number of seconds that have one stamp each.
const ERA: u64 = 1 << 32;

/// A time of 32 bits: seconds since the beginning of 1970, without regard to multiples of 2^32 (RFC 4034
/// section 3.1.5). It is seen as its number. It has no order that could sort a list: see `partial_cmp`.
#[derive(Clone, Copy, Debug, PartialEq)]
pub struct Timestamp {
    serial: Serial,
}

impl Model for Timestamp {
    ghost Value = { ℕ };

    ghost view = { λ t. t.serial.0.value };

    ghost inverse = { λ n. record { serial = record { 0 = record { value = n } } } };
}

impl Timestamp {
    /// The number.
    pub fn into_int(self) -> u32
        ensures { result ≡ self }
    {
        self.serial.get()
    }

    /// How two times compare, as serial numbers do: less if the other is at most 2^31 - 1 seconds ahead,
    /// greater if it is at most as much after, and not at all if it is 2^31 away (RFC 1982 section 3.2).
    pub fn partial_cmp(&self, other: &Timestamp) -> Option<Ordering>
        ensures { result ≡ serial_cmp self.now other.now }
    {
        self.serial.partial_cmp(&other.serial)
    }

    /// The seconds since the beginning of 1970 that the time means to one who looks at it at the reference,
    /// which is such seconds too: those nearest to it, from 2^31 before it to 2^31 - 1 after it. If they
    /// would lie before 1970, it is the number itself.
    pub fn to_system_time(self, reference: u64) -> u64
        requires { reference < 2 ^ 63 }
        ensures early { reference + 2 ^ 31 ≤ self → result ≡ self }
        ensures nearest { self < reference + 2 ^ 31 → IsNearest self reference result }
    {
        let era = reference / ERA * ERA;
        let moment = era + u64::from(self.into_int());
        if moment + ERA / 2 < reference {
            moment + ERA
        } else if moment >= reference + ERA / 2 && era > 0 {
            moment - ERA
        } else {
            moment
        }
    }
}

impl From<u32> for Timestamp {
    ghost from_gives = { λ plain v. v ≡ plain };

    fn from(value: u32) -> Timestamp {
        Timestamp {
            serial: Serial::new(value),
        }
    }
}

impl fmt::Display for Timestamp {
    ghost output = { λ v. Some (decimal v) };

    /// In decimal.
    fn fmt<W: fmt::Write>(&self, f: &mut fmt::Formatter<W>) -> fmt::Result {
        fmt::Display::fmt(&self.serial, f)
    }
}
