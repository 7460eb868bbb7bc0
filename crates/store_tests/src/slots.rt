// Slots on the disk in memory.
use crate::steps::{Step, are_steps};
use flk_base::Fuse;
use job_store::{SimDisk, SlotFault};
use std::alloc::Global;

// The longest blob.
const LONGEST: [u8; 4_094] = [9; 4_094];

// A blob whose length has two bytes, 1 and 2.
const MIDDLE: [u8; 258] = [8; 258];

const FAULT: Result<(), SlotFault> = Err(SlotFault::DiskFault);

const LOST: Result<(), SlotFault> = Err(SlotFault::PowerLost);

// The numbers of the calls that fail, the steps that the fuse has, what is asked, and how many
// faults there are then.
type Row<'a> = (&'a [u32], Option<u32>, &'a [Step<'a>], u64);

fn is_row(alloc: Global, row: &Row<'static>) -> bool {
    let (failing, left, steps, faults) = row;
    let Ok(mut disk) = SimDisk::failing(alloc, *failing) else {
        return false;
    };
    let is_right = are_steps(&mut disk, &mut Fuse { left: *left }, *steps, *faults);
    disk.scrap();
    is_right
}

const BLOBS: [Row<'static>; 3] = [
    // A blob that was synced stands, whatever the power does, and so do those beside it.
    (
        &[],
        None,
        &[
            Step::Refused(0, 0, SlotFault::NoBlob),
            Step::Write(0, 0, b"zero", Ok(())),
            Step::Write(0, 1, b"one", Ok(())),
            Step::Write(1, 0, &MIDDLE, Ok(())),
            Step::Write(7, 1, &LONGEST, Ok(())),
            Step::Sync(Ok(())),
            Step::Cycle(3, b"\xff"),
            Step::Read(0, 0, b"zero"),
            Step::Read(0, 1, b"one"),
            Step::Read(1, 0, &MIDDLE),
            Step::Read(7, 1, &LONGEST),
            Step::Get(0, b"\0\x04zero\0\0"),
            Step::Get(4096, b"\0\x03one\0\0"),
            Step::Get(8192, b"\x01\x02\x08\x08"),
            Step::Get(61440, b"\x0f\xfe\x09\x09"),
        ],
        0,
    ),
    // A blob without bytes takes away the one before it.
    (
        &[],
        None,
        &[
            Step::Write(2, 1, b"some", Ok(())),
            Step::Write(2, 1, b"", Ok(())),
            Step::Refused(2, 1, SlotFault::NoBlob),
        ],
        0,
    ),
    // What lengths say that there is a blob.
    (
        &[],
        None,
        &[
            Step::Put(12288, b"\x0f\xfe", true),
            Step::Read(1, 1, &[0; 4_094]),
            Step::Put(12288, b"\x0f\xff", true),
            Step::Refused(1, 1, SlotFault::NoBlob),
            Step::Put(12288, b"\xff\xff", true),
            Step::Refused(1, 1, SlotFault::NoBlob),
            Step::Put(12288, b"\0\x01", true),
            Step::Read(1, 1, b"\0"),
            Step::Put(12288, b"\0\0", true),
            Step::Refused(1, 1, SlotFault::NoBlob),
        ],
        0,
    ),
];

#[test]
fn blobs_stand(rt: HostRuntime) {
    for (i, row) in BLOBS.iter().enumerate() {
        assert!(rt; is_row(rt.alloc(), row), "row {i}");
    }
}

// How many dirty places are kept of a write of seven, what fills the others, and the blob that the
// slot has then, if it has one.
type TornRow<'a> = (u32, &'a [u8], Option<&'a [u8]>);

const TORN: [TornRow<'static>; 6] = [
    (0, b"", None),
    (0, b"\xff", None),
    (2, b"", Some(b"\0\0\0\0\0")),
    (4, b"\xff", Some(b"ne\xff\xff\xff")),
    (0, b"\0\x03", Some(b"\0\x03\0")),
    (7, b"\xff", Some(b"newer")),
];

// Whether a blob that was written over an older one, and not synced, is left so.
fn is_torn<'x>(alloc: Global, keep: u32, fill: &'x [u8], blob: Option<&'x [u8]>) -> bool {
    let after = match blob {
        Some(blob) => Step::Read(0, 0, blob),
        None => Step::Refused(0, 0, SlotFault::NoBlob),
    };
    let Ok(mut disk) = SimDisk::blank(alloc) else {
        return false;
    };
    let steps = [
        Step::Write(0, 0, b"old", Ok(())),
        Step::Write(0, 1, b"other", Ok(())),
        Step::Sync(Ok(())),
        Step::Write(0, 0, b"newer", Ok(())),
        Step::Read(0, 0, b"newer"),
        Step::Cycle(keep, fill),
        after,
        Step::Read(0, 1, b"other"),
    ];
    let is_right = are_steps(&mut disk, &mut Fuse { left: None }, &steps, 0);
    disk.scrap();
    is_right
}

#[test]
fn torn_writes(rt: HostRuntime) {
    for (i, (keep, fill, blob)) in TORN.iter().enumerate() {
        assert!(rt; is_torn(rt.alloc(), *keep, *fill, *blob), "row {i}");
    }
}

const FAULTS: [Row<'static>; 3] = [
    // The calls are numbered from 0, and a power cycle has no number.
    (
        &[5, 0, 2],
        None,
        &[
            Step::Write(3, 0, b"a", FAULT),
            Step::Refused(3, 0, SlotFault::NoBlob),
            Step::Write(3, 0, b"a", FAULT),
            Step::Write(3, 0, b"a", Ok(())),
            Step::Read(3, 0, b"a"),
            Step::Sync(FAULT),
            Step::Cycle(0, b""),
            Step::Refused(3, 0, SlotFault::NoBlob),
            Step::Write(3, 0, b"b", Ok(())),
            Step::Sync(Ok(())),
            Step::Cycle(0, b""),
            Step::Read(3, 0, b"b"),
        ],
        3,
    ),
    // A read may fail too.
    (
        &[1],
        None,
        &[
            Step::Write(3, 1, b"a", Ok(())),
            Step::Refused(3, 1, SlotFault::DiskFault),
            Step::Read(3, 1, b"a"),
        ],
        1,
    ),
    // Where the power is lost nothing is asked of the disk.
    (
        &[2],
        Some(2),
        &[
            Step::Write(4, 0, b"a", Ok(())),
            Step::Sync(Ok(())),
            Step::Write(4, 0, b"b", LOST),
            Step::Sync(LOST),
            Step::Refused(4, 0, SlotFault::PowerLost),
            Step::Put(0, b"c", false),
            Step::Get(32768, b"\0\x01a"),
        ],
        1,
    ),
];

#[test]
fn faults_come_where_they_are_listed(rt: HostRuntime) {
    for (i, row) in FAULTS.iter().enumerate() {
        assert!(rt; is_row(rt.alloc(), row), "row {i}");
    }
}
