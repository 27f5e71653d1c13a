//! What a program reads from and writes to.

ghost use Rattle.std.specs.Prelude.{ℕ, ◌<◌, ◌≤◌, List, Bool, true, length, Option, OnOk, OnErr, IfOk};
ghost use Rattle.std.specs.Io.{ReadsAtMost, WritesAtMost};
ghost use Rattle.std.specs.Io.KnownBytes.{ReadConsumes, WriteAppends, Keeps};
ghost use Rattle.dns_text.specs.Outside.{Rose, HasCause, BecomesFlag, FlagUnchanged, WriteFlag};

/// A call of a device has failed.
#[derive(Clone, Copy, Debug, PartialEq, Eq)]
pub struct Failed;

/// Counts a fault.
pub(crate) fn count_fault(faults: &mut u64) -> Failed
    ensures rose { Rose faults.old faults.new }
    ensures later { faults.old ≤ faults.new }
{
    *faults = faults.saturating_add(1);
    Failed
}

/// Octets to read.
pub trait Source {
    /// The octets still to come, if it reports them.
    ghost left: { Self → Option (List ℕ) };

    /// How many calls have failed, up to 2^64 - 1, where the count stops. It never falls.
    ghost faults: { Self → ℕ };

    /// Puts the next octets at the start of `into`, and answers how many. `Ok(0)` for a buffer with
    /// room is the end. `Failed` comes only if the count of faults counted this call, and then no octet
    /// is lost; at `Ok` it counts nothing. What `into` holds after the octets that were read, and at
    /// `Failed`, is unspecified.
    fn read(&mut self, into: &mut [u8]) -> Result<usize, Failed>
        ensures bound { ReadsAtMost result into.new }
        ensures bytes { ReadConsumes (left self.old) (left self.new) result into.new }
        ensures cause { HasCause (faults self.old) (faults self.new) result };
}

/// Where octets go.
pub trait Sink {
    /// All the octets that it has taken, if it reports them.
    ghost written: { Self → Option (List ℕ) };

    /// Whether all that was taken has arrived, if it reports that.
    ghost is_flushed: { Self → Option Bool };

    /// How many calls have failed, up to 2^64 - 1, where the count stops. It never falls.
    ghost faults: { Self → ℕ };

    /// Takes octets from the start of `piece`, at least one if `piece` has any, and answers how
    /// many. `Failed` comes only if the count of faults counted this call, and then nothing else
    /// changes; at `Ok` it counts nothing.
    fn write(&mut self, piece: &[u8]) -> Result<usize, Failed>
        ensures bound { WritesAtMost result piece.now }
        ensures some { IfOk result (λ n. 0 < length piece.now → 0 < n) }
        ensures bytes { WriteAppends (written self.old) (written self.new) result piece.now }
        ensures flag { WriteFlag (is_flushed self.old) (is_flushed self.new) result }
        ensures cause { HasCause (faults self.old) (faults self.new) result };

    /// Sees to it that all that was taken arrives. `Failed` comes only if the count of faults counted
    /// this call, and then nothing else changes; at `Ok` it counts nothing.
    fn flush(&mut self) -> Result<(), Failed>
        ensures bytes { Keeps (written self.old) (written self.new) }
        ensures flushed { OnOk result (BecomesFlag (is_flushed self.old) (is_flushed self.new) true) }
        ensures unchanged { OnErr result (FlagUnchanged (is_flushed self.old) (is_flushed self.new)) }
        ensures cause { HasCause (faults self.old) (faults self.new) result };
}
