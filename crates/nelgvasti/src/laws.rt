//! The numbers that a caller knows by the header, and equality.

ghost use Rattle.std.specs.Prelude.{◌≡◌, ◌↔◌, IsTrue};

use crate::answers::{DONE, ITEM, MEMORY, NO_SOA, SHORT, TOO_LARGE, TOO_SMALL, USAGE};
use crate::denial::Nsec3Hash;
use crate::formats::{LISTED, USUAL};
use crate::item_position::ItemPosition;
use crate::version::VERSION;
use crate::zone::ZoneDigest;

/// The numbers of the answers, which are the exit statuses of `dnscanon` and one more, that of version 0.1.0, and those of formats.
pub fn limits()
    ensures done { DONE ≡ 0 }
    ensures short { SHORT ≡ 1 }
    ensures item { ITEM ≡ 2 }
    ensures usage { USAGE ≡ 5 }
    ensures memory { MEMORY ≡ 8 }
    ensures no_soa { NO_SOA ≡ 10 }
    ensures too_large { TOO_LARGE ≡ 11 }
    ensures too_small { TOO_SMALL ≡ 20 }
    ensures version { VERSION ≡ 256 }
    ensures usual { USUAL ≡ 0 }
    ensures listed { LISTED ≡ 1 }
{}

/// Positions, hashes and digests are equal exactly if they are the same.
pub fn equal_values()
    ensures position { (a b : _) → IsTrue (⟦<ItemPosition as PartialEq>⟧.eq a b) ↔ (a ≡ b) }
    ensures hash { (a b : _) → IsTrue (⟦<Nsec3Hash as PartialEq>⟧.eq a b) ↔ (a ≡ b) }
    ensures digest { (a b : _) → IsTrue (⟦<ZoneDigest as PartialEq>⟧.eq a b) ↔ (a ≡ b) }
{}
