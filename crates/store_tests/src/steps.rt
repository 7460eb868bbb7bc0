// What is asked of a disk and of its slots, step by step, and what each step is to answer.
use flk_base::Fuse;
use job_store::{DISK_LEN, Disk, JOBS, LONGEST_BLOB, SLOT_LEN, SlotFault, Slots};

#[derive(Drop)]
pub(crate) enum Step<'a> {
    // A blob is written to a slot.
    Write(u32, u32, &'a [u8], Result<(), SlotFault>),
    // The disk is synced.
    Sync(Result<(), SlotFault>),
    // A slot is read, and has this blob.
    Read(u32, u32, &'a [u8]),
    // A slot is read, and is refused so.
    Refused(u32, u32, SlotFault),
    // Bytes are written at an address.
    Put(u32, &'a [u8], bool),
    // Bytes stand at an address.
    Get(u32, &'a [u8]),
    // The power goes and comes back.
    Cycle(u32, &'a [u8]),
}

fn is_written<D: Disk>(
    disk: &mut D,
    fuse: &mut Fuse,
    j: u32,
    slot: u32,
    blob: &[u8],
    answer: Result<(), SlotFault>,
) -> bool {
    if j >= JOBS || slot >= 2 || blob.len() > LONGEST_BLOB {
        return false;
    }
    Slots::write(disk, j, slot, blob, fuse) == answer
}

fn is_read<D: Disk>(disk: &mut D, fuse: &mut Fuse, j: u32, slot: u32, blob: &[u8]) -> bool {
    if j >= JOBS || slot >= 2 {
        return false;
    }
    let mut out = [7; SLOT_LEN];
    match Slots::read(disk, j, slot, &mut out, fuse) {
        Ok(len) => &out[..len] == blob,
        Err(_) => false,
    }
}

fn is_refused<D: Disk>(disk: &mut D, fuse: &mut Fuse, j: u32, slot: u32, fault: SlotFault) -> bool {
    if j >= JOBS || slot >= 2 {
        return false;
    }
    let mut out = [7; SLOT_LEN];
    Slots::read(disk, j, slot, &mut out, fuse) == Err(fault)
}

fn is_put<D: Disk>(disk: &mut D, at: u32, bytes: &[u8], done: bool) -> bool {
    if bytes.len() > DISK_LEN || at as usize > DISK_LEN - bytes.len() {
        return false;
    }
    disk.write_at(at, bytes).is_ok() == done
}

fn is_there<D: Disk>(disk: &mut D, at: u32, bytes: &[u8]) -> bool {
    if at as usize > DISK_LEN - 16 || bytes.len() > 16 {
        return false;
    }
    let mut out = [7; 16];
    let part = &mut out[..bytes.len()];
    disk.read_at(at, part).is_ok() && &out[..bytes.len()] == bytes
}

fn is_step<D: Disk>(disk: &mut D, fuse: &mut Fuse, step: &Step<'_>) -> bool {
    match step {
        Step::Write(j, slot, blob, answer) => is_written(disk, fuse, *j, *slot, *blob, *answer),
        Step::Sync(answer) => Slots::sync(disk, fuse) == *answer,
        Step::Read(j, slot, blob) => is_read(disk, fuse, *j, *slot, *blob),
        Step::Refused(j, slot, fault) => is_refused(disk, fuse, *j, *slot, *fault),
        Step::Put(at, bytes, done) => is_put(disk, *at, *bytes, *done),
        Step::Get(at, bytes) => is_there(disk, *at, *bytes),
        Step::Cycle(keep, fill) => {
            disk.power_cycle(*keep, *fill);
            true
        }
    }
}

// Whether each step answers as it says, in their order, and as many faults were counted then.
pub(crate) fn are_steps<D: Disk>(
    disk: &mut D,
    fuse: &mut Fuse,
    steps: &[Step<'_>],
    faults: u64,
) -> bool {
    for step in steps {
        if !is_step(disk, fuse, step) {
            return false;
        }
    }
    disk.faults() == faults
}
