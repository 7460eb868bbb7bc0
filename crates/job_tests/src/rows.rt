// Jobs on the disk in memory. The images are by python3, as docs/IMAGES.md has them.
use crate::machine::{Machine, Step, first_wrong, with_seed};
use job_engine::JobEnd;
use job_store::SimDisk;
use late_launch::Board;
use std::alloc::Global;

// A job that counts its runs: mov eax, [63488]; inc eax; mov [63488], eax; mov [edi], eax; and 4 bytes of each.
pub(crate) const COUNTING: &[u8] =
    b"\x20\x00\x3d\x00\x46\x4c\x4b\x43\x01\x00\x01\x00\x64\x00\x00\x00\x00\x00\x00\x00\
      \x00\x00\x00\x00\x00\x00\x00\x00\x00\x00\x00\x00\x8b\x05\x00\xf8\x00\x00\x40\x89\
      \x05\x00\xf8\x00\x00\x89\x07\xbb\x04\x00\x00\x00\xba\x04\x00\x00\x00\x31\xc0\xcd\
      \x80";

// A job that gives out and keeps as many bytes as its inputs say: mov ebx, [esi]; mov edx, [esi+4]; xor eax, eax; int 0x80.
pub(crate) const SIZED: &[u8] =
    b"\x20\x00\x29\x00\x46\x4c\x4b\x43\x01\x00\x01\x00\x64\x00\x00\x00\x00\x00\x00\x00\
      \x00\x00\x00\x00\x00\x00\x00\x00\x00\x00\x00\x00\x8b\x1e\x8b\x56\x04\x31\xc0\xcd\
      \x80";

// A job whose first byte is no instruction.
pub(crate) const FAULTY: &[u8] =
    b"\x20\x00\x21\x00\x46\x4c\x4b\x43\x01\x00\x01\x00\x64\x00\x00\x00\x00\x00\x00\x00\
      \x00\x00\x00\x00\x00\x00\x00\x00\x00\x00\x00\x00\xf1";

// A job that never ends, with a budget of 3 turns.
pub(crate) const ENDLESS: &[u8] =
    b"\x20\x00\x25\x00\x46\x4c\x4b\x43\x01\x00\x01\x00\x03\x00\x00\x00\x00\x00\x00\x00\
      \x00\x00\x00\x00\x00\x00\x00\x00\x00\x00\x00\x00\xe9\xfb\xff\xff\xff";

// An image that is no job's.
pub(crate) const NO_JOB: &[u8] =
    b"\x20\x00\x24\x00\x46\x4c\x4b\x43\x01\x00\x00\x00\x64\x00\x00\x00\x00\x00\x00\x00\
      \x00\x00\x00\x00\x00\x00\x00\x00\x00\x00\x00\x00\x31\xc0\xcd\x80";

// A job that faults where it has a state: test edx, edx; je over the next byte, which is no instruction; one byte of state.
pub(crate) const SECOND_FAULT: &[u8] =
    b"\x20\x00\x33\x00\x46\x4c\x4b\x43\x01\x00\x01\x00\x64\x00\x00\x00\x00\x00\x00\x00\
      \x00\x00\x00\x00\x00\x00\x00\x00\x00\x00\x00\x00\x85\xd2\x74\x01\xf1\xbb\x00\x00\
      \x00\x00\xba\x01\x00\x00\x00\x31\xc0\xcd\x80";

// Its first steps: each output is the count, and the blob goes from one slot to the other.
const STEPS: &[Step] = &[
    Step::Knows(b"a", false),
    Step::New(b"a", COUNTING, b"", (JobEnd::Done(4), b"\x01\0\0\0")),
    Step::Knows(b"a", true),
    Step::Counter(0, 1),
    Step::Recover(b"a", JobEnd::Found(0)),
    Step::Take(b"a", b"", (JobEnd::Done(4), b"\x02\0\0\0")),
    Step::Recover(b"a", JobEnd::Found(1)),
    Step::Take(b"a", &[9; 1_024], (JobEnd::Done(4), b"\x03\0\0\0")),
    Step::Recover(b"a", JobEnd::Found(0)),
    Step::Counter(0, 3),
    // Two jobs of one image keep apart.
    Step::New(b"b", COUNTING, b"", (JobEnd::Done(4), b"\x01\0\0\0")),
    Step::Counter(1, 4),
    Step::Take(b"b", b"", (JobEnd::Done(4), b"\x02\0\0\0")),
    Step::Take(b"a", b"", (JobEnd::Done(4), b"\x04\0\0\0")),
    Step::Recover(b"b", JobEnd::Found(1)),
    Step::Recover(b"a", JobEnd::Found(1)),
    Step::Counter(0, 4),
    Step::Counter(1, 5),
];

// What is refused, in its order, and changes nothing.
const REFUSED: &[Step] = &[
    Step::Take(b"a", &[0; 1_025], (JobEnd::Unknown, b"")),
    Step::Recover(b"a", JobEnd::Unknown),
    Step::New(b"a", NO_JOB, &[0; 1_025], (JobEnd::BadImage, b"")),
    Step::New(b"a", b"", b"", (JobEnd::BadImage, b"")),
    Step::New(b"a", COUNTING, &[0; 1_025], (JobEnd::LongInput, b"")),
    Step::New(
        b"a",
        COUNTING,
        &[0; 1_024],
        (JobEnd::Done(4), b"\x01\0\0\0"),
    ),
    Step::New(b"a", NO_JOB, b"", (JobEnd::Exists, b"")),
    Step::Take(b"a", &[0; 1_025], (JobEnd::LongInput, b"")),
    Step::Take(b"z", b"", (JobEnd::Unknown, b"")),
    Step::Recover(b"z", JobEnd::Unknown),
    Step::Counter(0, 1),
    Step::Recover(b"a", JobEnd::Found(0)),
];

// There are eight jobs, and no ninth.
const EIGHT: &[Step] = &[
    Step::New(b"1", COUNTING, b"", (JobEnd::Done(4), b"\x01\0\0\0")),
    Step::New(b"2", COUNTING, b"", (JobEnd::Done(4), b"\x01\0\0\0")),
    Step::New(b"3", COUNTING, b"", (JobEnd::Done(4), b"\x01\0\0\0")),
    Step::New(b"4", COUNTING, b"", (JobEnd::Done(4), b"\x01\0\0\0")),
    Step::New(b"5", COUNTING, b"", (JobEnd::Done(4), b"\x01\0\0\0")),
    Step::New(b"6", COUNTING, b"", (JobEnd::Done(4), b"\x01\0\0\0")),
    Step::New(b"7", COUNTING, b"", (JobEnd::Done(4), b"\x01\0\0\0")),
    Step::New(b"8", COUNTING, b"", (JobEnd::Done(4), b"\x01\0\0\0")),
    Step::New(b"8", COUNTING, b"", (JobEnd::Exists, b"")),
    Step::New(b"9", NO_JOB, b"", (JobEnd::TooMany, b"")),
    Step::Take(b"8", b"", (JobEnd::Done(4), b"\x02\0\0\0")),
    Step::Take(b"1", b"", (JobEnd::Done(4), b"\x02\0\0\0")),
    Step::Recover(b"8", JobEnd::Found(1)),
    Step::Recover(b"2", JobEnd::Found(0)),
];

// A birth that does not end by itself adds no job, and its counter stays in use.
const UNBORN: &[Step] = &[
    Step::New(b"a", FAULTY, b"", (JobEnd::Ended(1), b"")),
    Step::Knows(b"a", false),
    Step::Counter(0, 1),
    Step::New(b"a", ENDLESS, b"", (JobEnd::Ended(4), b"")),
    Step::Counter(1, 2),
    Step::New(b"a", COUNTING, b"", (JobEnd::Done(4), b"\x01\0\0\0")),
    Step::Counter(2, 3),
    // One byte of outputs, or of state, more than there may be.
    Step::New(
        b"b",
        SIZED,
        b"\x01\x04\0\0\0\0\0\0",
        (JobEnd::Ended(2), b""),
    ),
    Step::New(
        b"b",
        SIZED,
        b"\0\0\0\0\x01\x08\0\0",
        (JobEnd::Ended(2), b""),
    ),
    Step::New(
        b"b",
        SIZED,
        b"\0\x04\0\0\0\x08\0\0",
        (JobEnd::Done(1_024), &[0; 1_024]),
    ),
    Step::Take(b"b", b"\x01\x04\0\0\0\0\0\0", (JobEnd::Ended(2), b"")),
    Step::Recover(b"b", JobEnd::Found(0)),
    Step::Take(b"b", b"\0\0\0\0\0\0\0\0", (JobEnd::Done(0), b"")),
    Step::Take(
        b"b",
        b"\0\x04\0\0\0\x08\0\0",
        (JobEnd::Done(1_024), &[0; 1_024]),
    ),
    Step::Recover(b"b", JobEnd::Found(0)),
];

// There are 16 counters: births that failed use them up.
const NO_COUNTER: &[Step] = &[
    Step::New(b"a", FAULTY, b"", (JobEnd::Ended(1), b"")),
    Step::New(b"a", FAULTY, b"", (JobEnd::Ended(1), b"")),
    Step::New(b"a", FAULTY, b"", (JobEnd::Ended(1), b"")),
    Step::New(b"a", FAULTY, b"", (JobEnd::Ended(1), b"")),
    Step::New(b"a", FAULTY, b"", (JobEnd::Ended(1), b"")),
    Step::New(b"a", FAULTY, b"", (JobEnd::Ended(1), b"")),
    Step::New(b"a", FAULTY, b"", (JobEnd::Ended(1), b"")),
    Step::New(b"a", FAULTY, b"", (JobEnd::Ended(1), b"")),
    Step::New(b"a", FAULTY, b"", (JobEnd::Ended(1), b"")),
    Step::New(b"a", FAULTY, b"", (JobEnd::Ended(1), b"")),
    Step::New(b"a", FAULTY, b"", (JobEnd::Ended(1), b"")),
    Step::New(b"a", FAULTY, b"", (JobEnd::Ended(1), b"")),
    Step::New(b"a", FAULTY, b"", (JobEnd::Ended(1), b"")),
    Step::New(b"a", FAULTY, b"", (JobEnd::Ended(1), b"")),
    Step::New(b"a", FAULTY, b"", (JobEnd::Ended(1), b"")),
    Step::New(b"a", FAULTY, b"", (JobEnd::Ended(1), b"")),
    Step::New(b"a", COUNTING, b"", (JobEnd::NoCounterLeft, b"")),
    Step::Knows(b"a", false),
];

// What a host puts into the slots: the older blob, a changed one, none, one that is too long to be tried.
const BY_HAND: &[Step] = &[
    Step::New(b"a", COUNTING, b"", (JobEnd::Done(4), b"\x01\0\0\0")),
    Step::Copy(0, 1, true),
    Step::Recover(b"a", JobEnd::Found(0)),
    Step::Copy(0, 1, false),
    Step::Recover(b"a", JobEnd::Found(0)),
    Step::Put(0, b""),
    Step::Recover(b"a", JobEnd::Found(1)),
    Step::Copy(1, 0, false),
    Step::Take(b"a", b"", (JobEnd::Done(4), b"\x02\0\0\0")),
    Step::Recover(b"a", JobEnd::Found(1)),
    Step::Put(0, &[1; 4_094]),
    Step::Recover(b"a", JobEnd::Found(1)),
    Step::Put(0, &[1; 4_093]),
    Step::Take(b"a", b"", (JobEnd::Done(4), b"\x03\0\0\0")),
    Step::Recover(b"a", JobEnd::Found(0)),
    Step::Put(0, b"\0"),
    Step::Recover(b"a", JobEnd::Lost),
    Step::Take(b"a", b"", (JobEnd::Lost, b"")),
    Step::Counter(0, 3),
];

// A job whose second run faults: nothing is written, and the old state stands.
const SECOND: &[Step] = &[
    Step::New(b"a", SECOND_FAULT, b"", (JobEnd::Done(0), b"")),
    Step::Take(b"a", b"", (JobEnd::Ended(1), b"")),
    Step::Recover(b"a", JobEnd::Found(0)),
    Step::Counter(0, 1),
];

// The numbers of the calls of the disk that fail, and what comes of it.
type Failing = (&'static [u32], &'static [Step]);

// The first two calls are those of the birth, and then there are a read, a write and a sync in each step, and a read for
// each slot that is looked at.
const FAILING: &[Failing] = &[
    (
        &[0],
        &[
            Step::New(b"a", COUNTING, b"", (JobEnd::DiskFault, b"")),
            Step::Knows(b"a", false),
            Step::New(b"a", COUNTING, b"", (JobEnd::Done(4), b"\x01\0\0\0")),
            Step::Counter(1, 2),
        ],
    ),
    (
        &[1],
        &[
            Step::New(b"a", COUNTING, b"", (JobEnd::DiskFault, b"")),
            Step::Knows(b"a", false),
        ],
    ),
    (
        &[2],
        &[
            Step::New(b"a", COUNTING, b"", (JobEnd::Done(4), b"\x01\0\0\0")),
            Step::Take(b"a", b"", (JobEnd::DiskFault, b"")),
            Step::Recover(b"a", JobEnd::Found(0)),
            Step::Counter(0, 1),
        ],
    ),
    (
        &[3],
        &[
            Step::New(b"a", COUNTING, b"", (JobEnd::Done(4), b"\x01\0\0\0")),
            Step::Take(b"a", b"", (JobEnd::DiskFault, b"")),
            Step::Recover(b"a", JobEnd::Found(0)),
            Step::Take(b"a", b"", (JobEnd::Done(4), b"\x02\0\0\0")),
        ],
    ),
    // What was written and not synced is not committed.
    (
        &[4],
        &[
            Step::New(b"a", COUNTING, b"", (JobEnd::Done(4), b"\x01\0\0\0")),
            Step::Take(b"a", b"", (JobEnd::DiskFault, b"")),
            Step::Counter(0, 1),
            Step::Recover(b"a", JobEnd::Found(0)),
            Step::Take(b"a", b"", (JobEnd::Done(4), b"\x02\0\0\0")),
        ],
    ),
    (
        &[2, 4],
        &[
            Step::New(b"a", COUNTING, b"", (JobEnd::Done(4), b"\x01\0\0\0")),
            Step::Recover(b"a", JobEnd::DiskFault),
            Step::Recover(b"a", JobEnd::Found(0)),
            Step::Recover(b"a", JobEnd::DiskFault),
            Step::Recover(b"a", JobEnd::Found(0)),
        ],
    ),
];

fn wrong_at(alloc: Global, failing: &[u32], steps: &[Step]) -> Option<usize> {
    let Ok(board) = Board::blank(alloc) else {
        return Some(0);
    };
    let Ok(disk) = SimDisk::failing(alloc, failing) else {
        board.scrap();
        return Some(0);
    };
    let (machine, wrong) = first_wrong(with_seed(alloc, board, disk), steps);
    let Machine {
        board,
        disk,
        jobs: _,
    } = machine;
    board.scrap();
    disk.scrap();
    if wrong == steps.len() {
        None
    } else {
        Some(wrong)
    }
}

#[test]
fn jobs(rt: HostRuntime) {
    let scenarios: [&[Step]; 7] = [STEPS, REFUSED, EIGHT, UNBORN, NO_COUNTER, BY_HAND, SECOND];
    for (i, steps) in scenarios.iter().enumerate() {
        let wrong = wrong_at(rt.alloc(), &[], *steps);
        assert!(rt; wrong.is_none(), "scenario {i}, step {wrong:?}");
    }
}

#[test]
fn failing_disks(rt: HostRuntime) {
    for (i, row) in FAILING.iter().enumerate() {
        let wrong = wrong_at(rt.alloc(), row.0, row.1);
        assert!(rt; wrong.is_none(), "row {i}, step {wrong:?}");
    }
}
