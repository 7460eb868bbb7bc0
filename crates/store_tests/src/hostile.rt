// A disk that keeps the words of the trait, and no more: a write that fails leaves other bytes
// where it was to stand.
ghost use Rattle.std.specs.Prelude.{◌≡◌, ◌≤◌, ◌+◌, length, IsErr};
ghost use Rattle.flk_base.specs.Causes.{HasCause};
ghost use Rattle.job_store.specs.Contents.{HasSize, IsTorn};

use crate::steps::{Step, are_steps};
use flk_base::Fuse;
use job_store::{DISK_LEN, Disk, DiskFailed, SimDisk, SlotFault};
use std::alloc::Global;

// What stands where a write failed.
const GARBAGE: [u8; 4_096] = [3; 4_096];

// The disk that it spoils, and how many calls and faults there have been.
struct Hostile {
    disk: SimDisk,
    calls: u64,
    faults: u64,
}

// Writes bytes, and does not ask what came of it.
fn overwrite(disk: &mut SimDisk, at: u32, bytes: &[u8])
    requires { at + length bytes.now ≤ DISK_LEN }
    ensures { IsTorn at (length bytes.now) disk.old.contents disk.new.contents }
{
    let _ = disk.write_at(at, bytes);
}

impl Hostile {
    // Counts a call, and answers whether it is one that fails: each third one does.
    fn is_due(&mut self) -> bool
        ensures size { HasSize self.old.disk.contents }
        ensures contents { self.new.disk.contents ≡ self.old.disk.contents }
        ensures faults { self.new.faults ≡ self.old.faults }
    {
        let mut none = [0; 0];
        let _ = self.disk.read_at(0, &mut none);
        self.calls = self.calls.wrapping_add(1);
        self.calls % 3 == 0
    }

    // Counts a fault.
    fn fail(&mut self) -> Result<(), DiskFailed>
        ensures fails { IsErr result }
        ensures disk { self.new.disk ≡ self.old.disk }
        ensures cause { HasCause self.old.faults self.new.faults result }
    {
        self.faults = self.faults.saturating_add(1);
        Err(DiskFailed)
    }

    // Writes other bytes, if there are not too many.
    fn spoil(&mut self, at: u32, count: usize)
        requires size { HasSize self.old.disk.contents }
        requires range { at + count ≤ DISK_LEN }
        ensures torn { IsTorn at count self.old.disk.contents self.new.disk.contents }
        ensures faults { self.new.faults ≡ self.old.faults }
    {
        if count <= GARBAGE.len() {
            overwrite(&mut self.disk, at, &GARBAGE[..count]);
        }
    }

    // Ends the disk.
    fn scrap(self) {
        let Hostile {
            disk,
            calls: _,
            faults: _,
        } = self;
        disk.scrap();
    }
}

impl Disk for Hostile {
    ghost contents = { λ h. h.disk.contents };

    ghost fault_count = { λ h. h.faults };

    fn read_at(&mut self, at: u32, out: &mut [u8]) -> Result<(), DiskFailed> {
        if self.is_due() {
            return self.fail();
        }
        match self.disk.read_at(at, out) {
            Ok(()) => Ok(()),
            Err(DiskFailed) => self.fail(),
        }
    }

    fn write_at(&mut self, at: u32, bytes: &[u8]) -> Result<(), DiskFailed> {
        if self.is_due() {
            self.spoil(at, bytes.len());
            return self.fail();
        }
        match self.disk.write_at(at, bytes) {
            Ok(()) => Ok(()),
            Err(DiskFailed) => self.fail(),
        }
    }

    fn sync(&mut self) -> Result<(), DiskFailed> {
        if self.is_due() {
            return self.fail();
        }
        match self.disk.sync() {
            Ok(()) => Ok(()),
            Err(DiskFailed) => self.fail(),
        }
    }

    fn power_cycle(&mut self, keep: u32, fill: &[u8]) {
        self.disk.power_cycle(keep, fill);
    }

    fn faults(&self) -> u64 {
        self.faults
    }
}

// Whether what was synced stands on such a disk through a write to another slot that failed, and
// what a failed write to its own slot leaves.
fn is_kept(alloc: Global) -> bool {
    let Ok(disk) = SimDisk::blank(alloc) else {
        return false;
    };
    let mut hostile = Hostile {
        disk,
        calls: 0,
        faults: 0,
    };
    let fault = Err(SlotFault::DiskFault);
    let steps = [
        Step::Write(0, 0, b"kept", Ok(())),
        Step::Sync(Ok(())),
        Step::Write(0, 1, b"other", fault),
        Step::Get(4096, b"\x03\x03\x03\x03\x03\x03\x03\0"),
        Step::Read(0, 0, b"kept"),
        Step::Sync(fault),
        Step::Cycle(3, b"\x05"),
        Step::Get(4096, b"\x03\x03\x03\x05\x05\x05\x05\0"),
        Step::Read(0, 0, b"kept"),
        Step::Refused(0, 0, SlotFault::DiskFault),
        Step::Sync(Ok(())),
        Step::Sync(Ok(())),
        Step::Write(0, 0, b"more", fault),
        Step::Get(0, b"\x03\x03\x03\x03\x03\x03\0"),
        Step::Cycle(0, b""),
        Step::Get(0, b"\0\0\0\0\0\0\0"),
    ];
    let is_right = are_steps(&mut hostile, &mut Fuse { left: None }, &steps, 4);
    hostile.scrap();
    is_right
}

#[test]
fn hostile_disk(rt: HostRuntime) {
    assert!(rt; is_kept(rt.alloc()), "kept");
}
