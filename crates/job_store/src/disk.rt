//! A disk that loses power.
ghost use Rattle.std.specs.Prelude.{◌≡◌, ◌+◌, ◌≤◌, ℕ, Bool, length, is_ok, OnOk, OnErr};
ghost use Rattle.flk_base.specs.Causes.{HasCause};
ghost use Rattle.job_store.specs.Pieces.{part};
ghost use Rattle.job_store.specs.Contents.{Contents, HasSize, after_write, after_sync};
ghost use Rattle.job_store.specs.Contents.{IsTorn};
ghost use Rattle.job_store.specs.PowerCycle.{after_power_cycle};
ghost use Rattle.job_store.specs.Calls.{Call};

use crate::sizes::DISK_LEN;

/// A read, a write or a sync failed.
#[derive(Clone, Copy, Debug, PartialEq, Eq)]
pub struct DiskFailed;

/// A disk of `DISK_LEN` bytes. What is written stands in the working bytes at once, and in the
/// stable ones from the next sync on; until then its places are dirty, and a power cycle may leave
/// something else there. Generic code can't raise the count of faults, so a call that failed shows
/// itself by the count alone.
pub trait Disk {
    /// What it holds.
    ghost contents: { Self → Contents };

    /// How many faults there have been, up to 2^64 - 1.
    ghost fault_count: { Self → ℕ };

    /// What else it makes known of one call, from the disk before it to the disk after it, and
    /// whether it was done; nothing, if the disk makes no more known.
    ghost call_gives: { Self → Call → Bool → Self → Type 0 } = { λ old call done new. Unit {0} };

    /// Reads working bytes from an address on. A read that failed changes nothing.
    fn read_at(&mut self, at: u32, out: &mut [u8]) -> Result<(), DiskFailed>
        requires { at + length out.old ≤ DISK_LEN }
        ensures size { HasSize (contents self.old) }
        ensures ok { OnOk result (out.new ≡ part (contents self.old).working at (length out.old)) }
        ensures err { OnErr result (out.new ≡ out.old) }
        ensures same { contents self.new ≡ contents self.old }
        ensures cause { HasCause (fault_count self.old) (fault_count self.new) result }
        ensures known { call_gives self.old (Call.Read at (length out.old)) (is_ok result)
            self.new };

    /// Writes bytes from an address on. They stand in the working bytes, and their places are
    /// dirty. A write that failed may leave anything there, but a place that it changed is dirty.
    fn write_at(&mut self, at: u32, bytes: &[u8]) -> Result<(), DiskFailed>
        requires { at + length bytes.now ≤ DISK_LEN }
        ensures size { HasSize (contents self.old) }
        ensures ok { OnOk result
            (contents self.new ≡ after_write at bytes.now (contents self.old)) }
        ensures err { OnErr result
            (IsTorn at (length bytes.now) (contents self.old) (contents self.new)) }
        ensures cause { HasCause (fault_count self.old) (fault_count self.new) result }
        ensures known { call_gives self.old (Call.Write at bytes.now) (is_ok result) self.new };

    /// Makes the working bytes stable: nothing is dirty then. A sync that failed changes nothing.
    fn sync(&mut self) -> Result<(), DiskFailed>
        ensures size { HasSize (contents self.old) }
        ensures ok { OnOk result (contents self.new ≡ after_sync (contents self.old)) }
        ensures err { OnErr result (contents self.new ≡ contents self.old) }
        ensures cause { HasCause (fault_count self.old) (fault_count self.new) result }
        ensures known { call_gives self.old Call.Sync (is_ok result) self.new };

    /// The power goes and comes back. The first `keep` dirty places by address hold what was
    /// written, the other dirty ones the bytes of `fill` over and over, or zeros where it has none,
    /// and all others their stable bytes. All that is stable then.
    fn power_cycle(&mut self, keep: u32, fill: &[u8])
        ensures size { HasSize (contents self.old) }
        ensures left { contents self.new
            ≡ after_power_cycle keep fill.now (contents self.old) }
        ensures count { fault_count self.new ≡ fault_count self.old };

    /// How many faults there have been.
    fn faults(&self) -> u64
        ensures { result ≡ fault_count self.now };
}
