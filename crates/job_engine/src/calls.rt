//! What is done for a job: its birth, and a step.
ghost use Rattle.std.specs.Prelude.{◌≡◌, ◌≤◌, ◌<◌, ◌+◌, ℕ, List, [], length, take};
ghost use Rattle.late_launch.specs.Regions.{page as page_of};
ghost use Rattle.slb_core.specs.JobInputs.{job_inputs};
ghost use Rattle.slb_core.specs.Jobs.{HasBlob};
ghost use Rattle.session_driver.specs.Answers.{no_outputs};
ghost use Rattle.job_store.specs.Commands.{MayReply};
ghost use Rattle.job_engine.specs.Jobs.{IsJobImage};
ghost use Rattle.job_engine.specs.Calls.{told_in, new_blob, own_output, keeps_birth, born, committed, keeps_step, steps_from, steps};
ghost use Rattle.job_engine.specs.Answers.{Ran, SessionDid, counted_in, GivesOut};

use crate::parts::{Exit, PAGE_SIZE, find, keep, outputs_in};
use byteorder::{BigEndian, ByteOrder};
use job_store::{Disk, JOBS, SLOT_LEN};
use late_launch::Board;
use slb_core::Mode;
use std::alloc::Global;

/// The outputs of a session that ran a job's code, taken apart.
#[derive(Clone, Copy)]
struct Outputs<'o> {
    /// The blob of the job's state.
    blob: &'o [u8],
    /// The outputs of the code.
    own: &'o [u8],
}

/// Takes outputs apart.
fn taken_apart(outputs: &[u8]) -> Outputs<'_>
    requires blob { HasBlob outputs.now }
    requires few { length outputs.now ≤ 4096 }
    ensures blob { result.blob.now ≡ new_blob outputs.now }
    ensures own { result.own.now ≡ own_output outputs.now }
    ensures fits { 2 + (length result.blob.now + length result.own.now) ≤ 4096 }
{
    let len = BigEndian::read_u16(outputs) as usize;
    Outputs {
        blob: &outputs[2..2 + len],
        own: &outputs[2 + len..],
    }
}

/// Puts bytes at the front of a page of zeros, and answers how many they are.
fn put(bytes: &[u8], page: &mut [u8; PAGE_SIZE]) -> u16
    requires few { length bytes.now ≤ 4096 }
    requires blank { page.old ≡ no_outputs }
    ensures page { page.new ≡ page_of bytes.now }
    ensures count { result ≡ length bytes.now }
    ensures front { take (length bytes.now) page.new ≡ bytes.now }
{
    page[..bytes.len()].copy_from_slice(bytes);
    bytes.len() as u16
}

/// Commits the blob of a step, and gives out its output.
fn commit(
    alloc: Global,
    board: Board,
    image: &[u8],
    outputs: Outputs<'_>,
    out: &mut [u8; PAGE_SIZE],
) -> Result<(Board, u16), Exit>
    requires image { IsJobImage image.now }
    requires blob { length outputs.blob.now ≤ 4094 }
    requires own { length outputs.own.now ≤ 4096 }
    requires blank { out.old ≡ no_outputs }
    ensures did { SessionDid (λ reply. committed outputs.entry.own.now (told_in Mode.Commit reply)) image.now
        (job_inputs (record { mode = Mode.Commit; blob = outputs.entry.blob.now; own = [] })) board
        (counted_in out.new result) }
    ensures out { GivesOut result out.new }
{
    let mut page = [0; PAGE_SIZE];
    match outputs_in(
        alloc,
        board,
        image,
        Mode::Commit,
        outputs.blob,
        &[],
        &mut page,
    ) {
        Err(exit) => return Err(exit),
        Ok(both) => {
            let (board, _count) = both;
            return Ok((board, put(outputs.own, out)));
        }
    }
}

/// Keeps the new blob of a step in a slot, and commits it.
fn keep_step<D: Disk>(
    alloc: Global,
    board: Board,
    disk: &mut D,
    image: &[u8],
    j: u32,
    s: u32,
    outputs: &[u8],
    out: &mut [u8; PAGE_SIZE],
) -> Result<(Board, u16), Exit>
    requires job { j < JOBS }
    requires slot { s < 2 }
    requires image { IsJobImage image.now }
    requires blob { HasBlob outputs.now }
    requires few { length outputs.now ≤ 4096 }
    requires blank { out.old ≡ no_outputs }
    ensures ran { Ran (MayReply D.contents D.fault_count D.call_gives) image.now (keeps_step j s outputs.now) board
        disk.old disk.new (counted_in out.new result) }
    ensures out { GivesOut result out.new }
{
    let outputs = taken_apart(outputs);
    match keep(board, disk, j, s, outputs.blob) {
        Err(exit) => return Err(exit),
        Ok(board) => return commit(alloc, board, image, outputs, out),
    }
}

/// A step from where a job stands.
fn step_from<D: Disk>(
    alloc: Global,
    board: Board,
    disk: &mut D,
    image: &[u8],
    j: u32,
    s: u32,
    blob: &[u8],
    inputs: &[u8],
    out: &mut [u8; PAGE_SIZE],
) -> Result<(Board, u16), Exit>
    requires job { j < JOBS }
    requires slot { s < 2 }
    requires image { IsJobImage image.now }
    requires blob { length blob.now ≤ 4094 }
    requires inputs { length inputs.now ≤ 1024 }
    requires blank { out.old ≡ no_outputs }
    ensures ran { Ran (MayReply D.contents D.fault_count D.call_gives) image.now
        (steps_from j inputs.now (record { slot = s; blob = blob.now })) board disk.old disk.new (counted_in out.new result) }
    ensures out { GivesOut result out.new }
{
    let mut page = [0; PAGE_SIZE];
    match outputs_in(alloc, board, image, Mode::Step, blob, inputs, &mut page) {
        Err(exit) => return Err(exit),
        Ok(both) => {
            let (board, count) = both;
            let outputs = &page[..count as usize];
            return keep_step(alloc, board, disk, image, j, 1 - s, outputs, out);
        }
    }
}

/// A step of a job: its output is given out, in the first bytes of a page of zeros.
pub(crate) fn step<D: Disk>(
    alloc: Global,
    board: Board,
    disk: &mut D,
    image: &[u8],
    j: u32,
    inputs: &[u8],
    out: &mut [u8; PAGE_SIZE],
) -> Result<(Board, u16), Exit>
    requires job { j < JOBS }
    requires image { IsJobImage image.now }
    requires inputs { length inputs.now ≤ 1024 }
    requires blank { out.old ≡ no_outputs }
    ensures ran { Ran (MayReply D.contents D.fault_count D.call_gives) image.now (steps j inputs.now) board disk.old
        disk.new (counted_in out.new result) }
    ensures out { GivesOut result out.new }
{
    let mut blob = [0; SLOT_LEN];
    match find(alloc, board, disk, image, j, &mut blob) {
        Err(exit) => return Err(exit),
        Ok(both) => {
            let (board, found) = both;
            let blob = &blob[..found.len];
            return step_from(alloc, board, disk, image, j, found.slot, blob, inputs, out);
        }
    }
}

/// Keeps the first blob of a job in its slot 0.
fn keep_birth<D: Disk>(
    board: Board,
    disk: &mut D,
    j: u32,
    outputs: &[u8],
    out: &mut [u8; PAGE_SIZE],
) -> Result<(Board, u16), Exit>
    requires job { j < JOBS }
    requires blob { HasBlob outputs.now }
    requires few { length outputs.now ≤ 4096 }
    requires blank { out.old ≡ no_outputs }
    ensures ran { (image : List ℕ) → Ran (MayReply D.contents D.fault_count D.call_gives) image
        (keeps_birth j outputs.now) board disk.old disk.new (counted_in out.new result) }
    ensures out { GivesOut result out.new }
{
    let outputs = taken_apart(outputs);
    match keep(board, disk, j, 0, outputs.blob) {
        Err(exit) => return Err(exit),
        Ok(board) => return Ok((board, put(outputs.own, out))),
    }
}

/// The birth of a job, which is to have this place in the list: its output is given out, in the first bytes of a page of
/// zeros.
pub(crate) fn bear<D: Disk>(
    alloc: Global,
    board: Board,
    disk: &mut D,
    image: &[u8],
    j: u32,
    inputs: &[u8],
    out: &mut [u8; PAGE_SIZE],
) -> Result<(Board, u16), Exit>
    requires job { j < JOBS }
    requires image { IsJobImage image.now }
    requires inputs { length inputs.now ≤ 1024 }
    requires blank { out.old ≡ no_outputs }
    ensures ran { Ran (MayReply D.contents D.fault_count D.call_gives) image.now (born j inputs.now) board disk.old
        disk.new (counted_in out.new result) }
    ensures out { GivesOut result out.new }
{
    let mut page = [0; PAGE_SIZE];
    match outputs_in(alloc, board, image, Mode::New, &[], inputs, &mut page) {
        Err(exit) => return Err(exit),
        Ok(both) => {
            let (board, count) = both;
            return keep_birth(board, disk, j, &page[..count as usize], out);
        }
    }
}
