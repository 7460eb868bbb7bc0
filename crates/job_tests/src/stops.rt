// Power that is lost at each step of a step: the old state opens until the counter is incremented, and the new one from
// then on.
use crate::machine::{Machine, born, recovered, stepped, with_seed};
use crate::rows::COUNTING;
use flk_base::Fuse;
use job_engine::JobEnd;
use job_store::SimDisk;
use late_launch::Board;
use std::alloc::Global;

// A step takes so many steps of the fuse: a read, 6 of the probe, 7 of the session, a write, a sync, 7 of the commit.
const WHOLE: u32 = 23;

// How many of them come before the counter is incremented.
const BEFORE: u32 = 18;

const FIRST: &[u8] = b"\x01\0\0\0";

const SECOND: &[u8] = b"\x02\0\0\0";

// A step that is stopped after so many steps of the fuse, and which slot opens then.
fn is_stopped(machine: Machine<SimDisk>, after: u32) -> (Machine<SimDisk>, bool) {
    let (mut machine, is_born) = born(machine, b"a", COUNTING, b"", (JobEnd::Done(4), FIRST));
    machine.board.fuse = Fuse { left: Some(after) };
    let (machine, is_lost) = stepped(machine, b"a", b"", None, b"");
    let slot = if after <= BEFORE { 0 } else { 1 };
    let (machine, is_found) = recovered(machine, b"a", Some(JobEnd::Found(slot)));
    (machine, is_born && is_lost && is_found)
}

// A step with as many steps of the fuse as it takes, after which the power is lost.
fn is_whole(machine: Machine<SimDisk>) -> (Machine<SimDisk>, bool) {
    let (mut machine, is_born) = born(machine, b"a", COUNTING, b"", (JobEnd::Done(4), FIRST));
    machine.board.fuse = Fuse { left: Some(WHOLE) };
    let (machine, is_done) = stepped(machine, b"a", b"", Some(JobEnd::Done(4)), SECOND);
    let (machine, is_lost) = recovered(machine, b"a", None);
    let (machine, is_found) = recovered(machine, b"a", Some(JobEnd::Found(1)));
    (machine, is_born && is_done && is_lost && is_found)
}

fn is_row(alloc: Global, after: u32) -> bool {
    let Ok(board) = Board::blank(alloc) else {
        return false;
    };
    let Ok(disk) = SimDisk::blank(alloc) else {
        board.scrap();
        return false;
    };
    let machine = with_seed(alloc, board, disk);
    let (machine, is_right) = if after < WHOLE {
        is_stopped(machine, after)
    } else {
        is_whole(machine)
    };
    let Machine {
        board,
        disk,
        jobs: _,
    } = machine;
    board.scrap();
    disk.scrap();
    is_right
}

#[test]
fn stops_in_a_step(rt: HostRuntime) {
    for after in 0..24 {
        assert!(rt; is_row(rt.alloc(), after), "after {after}");
    }
}
