// A machine for a test: a board that has a seed, a disk, and jobs; and what is done on it, step by step.
ghost use Rattle.std.specs.Prelude.{◌<◌};

use flk_base::Fuse;
use job_engine::{JobEnd, Jobs};
use job_store::{Disk, SLOT_LEN, Slots};
use late_launch::{Board, Dark};
use std::alloc::Global;

pub(crate) struct Machine<D> {
    pub(crate) board: Board,
    pub(crate) disk: D,
    pub(crate) jobs: Jobs,
}

// How a call ends, and the first bytes that it gives out, after which there are zeros.
pub(crate) type Told = (JobEnd, &'static [u8]);

#[derive(Clone, Copy)]
pub(crate) enum Step {
    // A job is to be added: its name, its image, the inputs of its code.
    New(&'static [u8], &'static [u8], &'static [u8], Told),
    // It is to take a step.
    Take(&'static [u8], &'static [u8], Told),
    // Which slot opens.
    Recover(&'static [u8], JobEnd),
    // Whether there is a job of this name.
    Knows(&'static [u8], bool),
    // The value of a counter.
    Counter(u8, u32),
    // The blob of one slot of job 0 is put into the other by the host, its last byte changed where that is asked.
    Copy(u32, u32, bool),
    // Bytes are put into a slot of job 0.
    Put(u32, &'static [u8]),
}

// The power comes back where it was lost: what was not synced is 255 then.
pub(crate) fn settled<D: Disk>(
    answer: Result<(Board, JobEnd), Dark>,
    disk: &mut D,
) -> (Board, Option<JobEnd>) {
    match answer {
        Ok(both) => {
            let (board, end) = both;
            return (board, Some(end));
        }
        Err(dark) => {
            disk.power_cycle(0, b"\xff");
            return (dark.power_on(), None);
        }
    }
}

// The page holds these bytes, and zeros after them.
fn holds(page: &[u8; 4_096], bytes: &[u8]) -> bool {
    let (front, rest) = page.split_at(bytes.len().min(4_096));
    front == bytes && rest.iter().all(|byte| *byte == 0)
}

pub(crate) fn born<D: Disk>(
    machine: Machine<D>,
    name: &[u8],
    image: &[u8],
    inputs: &[u8],
    told: Told,
) -> (Machine<D>, bool) {
    let Machine {
        board,
        mut disk,
        mut jobs,
    } = machine;
    let mut out = [7; 4_096];
    let answer = jobs.new_job(board, &mut disk, name, image, inputs, &mut out);
    let (board, end) = settled(answer, &mut disk);
    let is_right = end == Some(told.0) && holds(&out, told.1);
    (Machine { board, disk, jobs }, is_right)
}

pub(crate) fn stepped<D: Disk>(
    machine: Machine<D>,
    name: &[u8],
    inputs: &[u8],
    end: Option<JobEnd>,
    output: &[u8],
) -> (Machine<D>, bool) {
    let Machine {
        board,
        mut disk,
        mut jobs,
    } = machine;
    let mut out = [7; 4_096];
    let answer = jobs.step(board, &mut disk, name, inputs, &mut out);
    let (board, ended) = settled(answer, &mut disk);
    let is_right = ended == end && holds(&out, output);
    (Machine { board, disk, jobs }, is_right)
}

pub(crate) fn recovered<D: Disk>(
    machine: Machine<D>,
    name: &[u8],
    end: Option<JobEnd>,
) -> (Machine<D>, bool) {
    let Machine {
        board,
        mut disk,
        mut jobs,
    } = machine;
    let answer = jobs.recover(board, &mut disk, name);
    let (board, ended) = settled(answer, &mut disk);
    (Machine { board, disk, jobs }, ended == end)
}

// Copies the blob of a slot of job 0 to the other, as a host may.
fn copied<D: Disk>(disk: &mut D, from: u32, to: u32, changed: bool) -> bool
    requires from { from < 2 }
    requires to { to < 2 }
{
    let mut blob = [0; SLOT_LEN];
    let mut fuse = Fuse { left: None };
    let Ok(len) = Slots::read(disk, 0, from, &mut blob, &mut fuse) else {
        return false;
    };
    if changed {
        blob[len - 1] ^= 1;
    }
    Slots::write(disk, 0, to, &blob[..len], &mut fuse).is_ok()
}

fn put<D: Disk>(disk: &mut D, s: u32, bytes: &[u8]) -> bool
    requires { s < 2 }
{
    bytes.len() <= 4_094 && Slots::write(disk, 0, s, bytes, &mut Fuse { left: None }).is_ok()
}

fn is_step<D: Disk>(machine: Machine<D>, step: Step) -> (Machine<D>, bool) {
    let mut machine = machine;
    match step {
        Step::New(name, image, inputs, told) => return born(machine, name, image, inputs, told),
        Step::Take(name, inputs, told) => {
            return stepped(machine, name, inputs, Some(told.0), told.1);
        }
        Step::Recover(name, end) => return recovered(machine, name, Some(end)),
        Step::Knows(name, known) => {
            let is_right = machine.jobs.knows(name) == known;
            return (machine, is_right);
        }
        Step::Counter(id, value) => {
            let is_right = machine.board.read_counter(id) == Ok(value);
            return (machine, is_right);
        }
        Step::Copy(from, to, changed) => {
            let is_right = from < 2 && to < 2 && copied(&mut machine.disk, from, to, changed);
            return (machine, is_right);
        }
        Step::Put(s, bytes) => {
            let is_right = s < 2 && put(&mut machine.disk, s, bytes);
            return (machine, is_right);
        }
    }
}

// The index of the first step that comes out otherwise, or how many there are.
pub(crate) fn first_wrong<D: Disk>(machine: Machine<D>, steps: &[Step]) -> (Machine<D>, usize) {
    let mut machine = machine;
    for (i, step) in steps.iter().enumerate() {
        let (next, is_right) = is_step(machine, *step);
        machine = next;
        if !is_right {
            return (machine, i);
        }
    }
    (machine, steps.len())
}

// A machine with this disk, whose device has a seed.
pub(crate) fn with_seed<D: Disk>(alloc: Global, board: Board, disk: D) -> Machine<D> {
    let mut board = board;
    let _ = board.provision(&[0x5a; 20]);
    Machine {
        board,
        disk,
        jobs: Jobs::new(alloc),
    }
}
