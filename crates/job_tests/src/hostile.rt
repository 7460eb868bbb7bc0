// A disk that keeps the words of the trait, and no more: a write that fails leaves other bytes
// where it was to stand.
ghost use Rattle.std.specs.Prelude.{◌≡◌, ◌≤◌, ◌+◌, length, IsErr};
ghost use Rattle.flk_base.specs.Causes.{HasCause};
ghost use Rattle.job_store.specs.Contents.{HasSize, IsTorn};

use crate::machine::{Machine, Step, first_wrong, with_seed};
use crate::rows::COUNTING;
use job_engine::JobEnd;
use job_store::{DISK_LEN, Disk, DiskFailed, SimDisk};
use late_launch::Board;
use std::alloc::Global;

// What stands where a write failed.
const GARBAGE: [u8; 4_096] = [3; 4_096];

// The disk that it spoils, and how many calls and faults there have been.
struct Hostile {
    disk: SimDisk,
    calls: u64,
    faults: u64,
}

// Writes bytes, and does not ask what came of it.
#[tactic(auto, using(job_store::proofs::Outcomes::torn_either))]
fn overwrite(disk: &mut SimDisk, at: u32, bytes: &[u8])
    requires { at + length bytes.now ≤ DISK_LEN }
    ensures { IsTorn at (length bytes.now) disk.old.contents disk.new.contents }
{
    let _ = disk.write_at(at, bytes);
}

impl Hostile {
    // Counts a call, and answers whether it is one that fails: each fourth one does.
    fn is_due(&mut self) -> bool
        ensures size { HasSize self.old.disk.contents }
        ensures contents { self.new.disk.contents ≡ self.old.disk.contents }
        ensures faults { self.new.faults ≡ self.old.faults }
    {
        let mut none = [0; 0];
        let _ = self.disk.read_at(0, &mut none);
        self.calls = self.calls.wrapping_add(1);
        self.calls % 4 == 0
    }

    // Counts a fault.
    fn fail(&mut self) -> Result<(), DiskFailed>
        ensures fails { IsErr result }
        ensures disk { self.new.disk ≡ self.old.disk }
        ensures cause { HasCause self.old.faults self.new.faults result }
    {
        self.faults = self.faults.saturating_add(1);
        Err(DiskFailed)
    }

    // Writes other bytes, if there are not too many.
    fn spoil(&mut self, at: u32, count: usize)
        requires size { HasSize self.old.disk.contents }
        requires range { at + count ≤ DISK_LEN }
        ensures torn { IsTorn at count self.old.disk.contents self.new.disk.contents }
        ensures faults { self.new.faults ≡ self.old.faults }
    {
        if count <= GARBAGE.len() {
            overwrite(&mut self.disk, at, &GARBAGE[..count]);
        }
    }

    // Ends the disk.
    fn scrap(self) {
        let Hostile {
            disk,
            calls: _,
            faults: _,
        } = self;
        disk.scrap();
    }
}

impl Disk for Hostile {
    ghost contents = { λ h. h.disk.contents };

    ghost fault_count = { λ h. h.faults };

    fn read_at(&mut self, at: u32, out: &mut [u8]) -> Result<(), DiskFailed> {
        if self.is_due() {
            return self.fail();
        }
        match self.disk.read_at(at, out) {
            Ok(()) => Ok(()),
            Err(DiskFailed) => self.fail(),
        }
    }

    fn write_at(&mut self, at: u32, bytes: &[u8]) -> Result<(), DiskFailed> {
        if self.is_due() {
            self.spoil(at, bytes.len());
            return self.fail();
        }
        match self.disk.write_at(at, bytes) {
            Ok(()) => Ok(()),
            Err(DiskFailed) => self.fail(),
        }
    }

    fn sync(&mut self) -> Result<(), DiskFailed> {
        if self.is_due() {
            return self.fail();
        }
        match self.disk.sync() {
            Ok(()) => Ok(()),
            Err(DiskFailed) => self.fail(),
        }
    }

    fn power_cycle(&mut self, keep: u32, fill: &[u8]) {
        self.disk.power_cycle(keep, fill);
    }

    fn faults(&self) -> u64 {
        self.faults
    }
}

// A write that failed left other bytes: the other slot opens, and a later step writes there again.
const STEPS: &[Step] = &[
    Step::New(b"a", COUNTING, b"", (JobEnd::Done(4), b"\x01\0\0\0")),
    Step::Take(b"a", b"", (JobEnd::DiskFault, b"")),
    Step::Counter(0, 1),
    Step::Recover(b"a", JobEnd::Found(0)),
];

fn is_kept(alloc: Global) -> bool {
    let Ok(board) = Board::blank(alloc) else {
        return false;
    };
    let Ok(disk) = SimDisk::blank(alloc) else {
        board.scrap();
        return false;
    };
    let hostile = Hostile {
        disk,
        calls: 0,
        faults: 0,
    };
    let (machine, wrong) = first_wrong(with_seed(alloc, board, hostile), STEPS);
    let Machine {
        board,
        disk,
        jobs: _,
    } = machine;
    board.scrap();
    disk.scrap();
    wrong == STEPS.len()
}

#[test]
fn hostile_disk(rt: HostRuntime) {
    assert!(rt; is_kept(rt.alloc()), "kept");
}
