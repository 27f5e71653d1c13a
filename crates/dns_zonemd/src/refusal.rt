//! Why lines of sorted records are refused.

use std::alloc::AllocError;

/// Why a line is refused.
#[derive(Clone, Copy, Debug, PartialEq, Eq)]
pub enum LineRefusal {
    /// The line begins with `!`: a message was refused.
    Marked,
    /// The line is that of no record.
    NoRecord,
    /// The line comes before the line before it.
    NotSorted,
    /// The line is that of a second SOA record of the apex.
    SecondSoa,
    /// More lines came than a number of 64 bits says.
    TooManyLines,
    /// Memory ran out.
    Memory,
}

impl From<AllocError> for LineRefusal {
    ghost use Rattle.std.specs.Prelude.{◌≡◌};
    ghost use Rattle.dns_zonemd.specs.declared.refusal.LineRefusal.TheVariants.{Memory};

    ghost from_gives = { λ _ e. e ≡ Memory };

    fn from(_error: AllocError) -> LineRefusal {
        LineRefusal::Memory
    }
}
