//! A disk in memory.
ghost use Rattle.std.specs.Prelude.{◌≡◌, ◌+◌, ◌<◌, ◌≤◌, ◌==◌, ◌-◌, ℕ, [], length, map, not, is_ok};
ghost use Rattle.std.specs.Prelude.{vec_len, replicate, slice_index, Bool, true, IfOk, OnOk, OnErr};
ghost use Rattle.std.specs.Prelude.{if◌then◌else◌};
ghost use Rattle.std.specs.List.{list_any, range_with_len};
ghost use Rattle.flk_base.specs.Causes.{HasCause, next_count};
ghost use Rattle.job_store.specs.Pieces.{part, written};
ghost use Rattle.job_store.specs.Contents.{Contents, HasSize, disk_size, after_write, after_sync};
ghost use Rattle.job_store.specs.Contents.{IsTorn};
ghost use Rattle.job_store.specs.PowerCycle.{byte_after, dirty_byte, after_power_cycle};
ghost use Rattle.job_store.specs.Calls.{Call};
ghost use Rattle.job_store.specs.Simulated.{Simulated, blank_failing, fails, next};

use crate::disk::{Disk, DiskFailed};
use crate::sizes::{DISK_LEN, size_of_disk};
use flk_base::NoMemory;
use std::alloc::{AllocError, Global};
use std::marker::Model;

/// A disk in memory. It fails the reads, writes and syncs whose numbers, counted from 0, it was
/// given, and no others; one that fails changes nothing. A power cycle is no call, and has no
/// number. It must be spent.
pub struct SimDisk {
    working: Vec<u8>,
    stable: Vec<u8>,
    dirty: Vec<bool>,
    failing: Vec<u32>,
    calls: u64,
    faults: u64,
}

impl Model for SimDisk {
    ghost use Rattle.std.specs.Prelude.{◌≡◌, length};
    ghost use Rattle.job_store.specs.Contents.{disk_size};
    ghost use Rattle.job_store.specs.Simulated.{Simulated};

    ghost Value = { Simulated };

    ghost view = { λ d. record {
      contents = record {
        working = d.working.items;
        stable = d.stable.items;
        dirty = d.dirty.items;
      };
      failing = d.failing.items;
      calls = d.calls;
      faults = d.faults;
    } };

    ghost invariant = { λ d. (length d.working.items ≡ disk_size)
        × (length d.stable.items ≡ disk_size) × (length d.dirty.items ≡ disk_size) };
}

// Whether the call of this number is to fail.
fn is_failing(failing: &[u32], call: u64) -> bool
    ensures { result ≡ list_any (λ number. number == call) failing.now }
{
    failing.iter().any(|number| u64::from(*number) == call)
}

// Writes a piece over as many bytes from an index on.
fn write_piece(bytes: &mut Vec<u8>, at: usize, piece: &[u8])
    requires { at + length piece.now ≤ vec_len bytes.old }
    ensures items { bytes.new.items ≡ written bytes.old.items at piece.now }
    ensures len { vec_len bytes.new ≡ vec_len bytes.old }
{
    bytes[at..at + piece.len()].copy_from_slice(piece);
}

// Marks so many places as dirty, from an index on.
fn mark_dirty(dirty: &mut Vec<bool>, at: usize, count: usize)
    requires { at + count ≤ vec_len dirty.old }
    ensures items { dirty.new.items ≡ written dirty.old.items at (replicate count true) }
    ensures len { vec_len dirty.new ≡ vec_len dirty.old }
{
    dirty[at..at + count].fill(true);
}

// What a dirty place holds after a power cycle that has so many dirty ones below it.
fn dirty_byte(keep: usize, fill: &[u8], below: usize, byte: u8) -> u8
    ensures { result ≡ dirty_byte keep fill.now below byte }
{
    if below < keep {
        byte
    } else if fill.is_empty() {
        0
    } else {
        fill[(below - keep) % fill.len()]
    }
}

// Puts into the stable bytes what each place holds after a power cycle.
fn cycle(working: &[u8], stable: &mut [u8], dirty: &[bool], keep: usize, fill: &[u8])
    requires working { length working.now ≡ length stable.old }
    requires dirty { length dirty.now ≡ length stable.old }
    ensures { stable.new ≡ map
        (byte_after keep fill.now
        (record { working = working.now; stable = stable.old; dirty = dirty.now }))
        (range_with_len 0 (length stable.old)) }
{
    let mut below = 0;
    for (place, byte) in stable.iter_mut().enumerate() {
        if dirty[place] {
            *byte = dirty_byte(keep, fill, below, working[place]);
            below += 1;
        }
    }
}

impl SimDisk {
    /// A disk of zeros, on which nothing is dirty. No call of it fails.
    pub fn blank(alloc: Global) -> Result<SimDisk, NoMemory>
        ensures { IfOk result (λ disk. disk ≡ blank_failing []) }
    {
        SimDisk::failing(alloc, &[])
    }

    /// A disk of zeros, on which nothing is dirty, that fails the calls of these numbers.
    pub fn failing(alloc: Global, calls: &[u32]) -> Result<SimDisk, NoMemory>
        ensures { IfOk result (λ disk. disk ≡ blank_failing calls.now) }
    {
        let Ok(failing) = Vec::from_slice(alloc, calls) else {
            return Err(NoMemory);
        };
        let zeros = vec![in alloc; 0u8; size_of_disk()];
        let others = vec![in alloc; 0u8; size_of_disk()];
        let clean = vec![in alloc; false; size_of_disk()];
        match (zeros, others, clean) {
            (Ok(working), Ok(stable), Ok(dirty)) => Ok(SimDisk {
                working,
                stable,
                dirty,
                failing,
                calls: 0,
                faults: 0,
            }),
            _ => Err(NoMemory),
        }
    }

    /// Ends the disk.
    pub fn scrap(self) {
        let SimDisk {
            working: _,
            stable: _,
            dirty: _,
            failing: _,
            calls: _,
            faults: _,
        } = self;
    }

    // Counts the next call, and a fault where it fails.
    fn count_call(&mut self) -> Result<(), DiskFailed>
        ensures size { HasSize self.old.contents }
        ensures fails { is_ok result ≡ not (fails self.old) }
        ensures counted { self.new ≡ record self.old {
          calls = next_count self.old.calls;
          faults = (if fails self.old then next_count self.old.faults else self.old.faults);
        } }
        ensures cause { HasCause self.old.faults self.new.faults result }
    {
        let fails = is_failing(&self.failing, self.calls);
        self.calls = self.calls.saturating_add(1);
        if fails {
            self.faults = self.faults.saturating_add(1);
            return Err(DiskFailed);
        }
        Ok(())
    }
}

impl Disk for SimDisk {
    ghost contents = { λ d. d.contents };

    ghost fault_count = { λ d. d.faults };

    // All that a call does is known.
    ghost call_gives = { λ old call done new. (new, done) ≡ next call old };

    #[tactic(auto, using(crate::proofs::Outcomes::disk_size_is))]
    fn read_at(&mut self, at: u32, out: &mut [u8]) -> Result<(), DiskFailed>
        requires { at + length out.old ≤ DISK_LEN }
        ensures size { HasSize self.old.contents }
        ensures ok { OnOk result
            (out.new ≡ part self.old.contents.working at (length out.old)) }
        ensures err { OnErr result (out.new ≡ out.old) }
        ensures same { self.new.contents ≡ self.old.contents }
        ensures cause { HasCause self.old.faults self.new.faults result }
        ensures known { (self.new, is_ok result)
            ≡ next (Call.Read at (length out.old)) self.old }
    {
        self.count_call()?;
        let at = at as usize;
        out.copy_from_slice(&self.working[at..at + out.len()]);
        Ok(())
    }

    #[tactic(auto, using(crate::proofs::Outcomes::disk_size_is))]
    fn write_at(&mut self, at: u32, bytes: &[u8]) -> Result<(), DiskFailed>
        requires { at + length bytes.now ≤ DISK_LEN }
        ensures size { HasSize self.old.contents }
        ensures ok { OnOk result
            (self.new.contents ≡ after_write at bytes.now self.old.contents) }
        ensures err { OnErr result
            (IsTorn at (length bytes.now) self.old.contents self.new.contents) }
        ensures cause { HasCause self.old.faults self.new.faults result }
        ensures known { (self.new, is_ok result) ≡ next (Call.Write at bytes.now) self.old }
    {
        self.count_call()?;
        write_piece(&mut self.working, at as usize, bytes);
        mark_dirty(&mut self.dirty, at as usize, bytes.len());
        Ok(())
    }

    fn sync(&mut self) -> Result<(), DiskFailed>
        ensures size { HasSize self.old.contents }
        ensures ok { OnOk result (self.new.contents ≡ after_sync self.old.contents) }
        ensures err { OnErr result (self.new.contents ≡ self.old.contents) }
        ensures cause { HasCause self.old.faults self.new.faults result }
        ensures known { (self.new, is_ok result) ≡ next Call.Sync self.old }
    {
        self.count_call()?;
        self.stable.copy_from_slice(&self.working);
        self.dirty.fill(false);
        Ok(())
    }

    #[tactic(auto, unfolding(crate::specs::PowerCycle::disk_after))]
    fn power_cycle(&mut self, keep: u32, fill: &[u8])
        ensures size { HasSize self.old.contents }
        ensures left { self.new.contents ≡ after_power_cycle keep fill.now self.old.contents }
        ensures count { self.new.faults ≡ self.old.faults }

        // Beside what the trait says: it counts as no call.
        ensures no_call { self.new ≡ record self.old {
          contents = after_power_cycle keep fill.now self.old.contents;
        } }
    {
        cycle(
            &self.working,
            &mut self.stable,
            &self.dirty,
            keep as usize,
            fill,
        );
        self.working.copy_from_slice(&self.stable);
        self.dirty.fill(false);
    }

    fn faults(&self) -> u64 {
        self.faults
    }
}
