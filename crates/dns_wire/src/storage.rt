//! Octets that a value owns, and that are borrowed for writing.

ghost use Rattle.std.specs.Prelude.{◌≡◌, ◌≤◌, ◌-◌, take, drop};
ghost use Rattle.std.specs.Borrow.{sem};

/// An array of `N` octets. They are in a struct so that a contract can say what a borrow of a part of
/// them leaves.
#[derive(Clone, Copy, Debug)]
pub struct Storage<const N: usize> {
    /// The octets, those in use and those that are free.
    pub octets: [u8; N],
}

impl<const N: usize> Storage<N> {
    ghost use Rattle.dns_wire.specs.Storage.{LendsPart};

    /// The octets from one place up to another, for writing. Both places are in octets from the start.
    pub fn part_mut(&mut self, start: usize, end: usize) -> &mut [u8]
        requires order { start ≤ end }
        requires room { end ≤ N }
        ensures* writes_back { sem 𝓛 (LendsPart N.row self.entry start result) }
        ensures value { result.now ≡ take (end - start) (drop start self.old.octets) }
    {
        &mut self.octets[start..end]
    }
}
