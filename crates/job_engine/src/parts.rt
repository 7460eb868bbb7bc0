//! The parts of calls: sessions of a job's image, and commands to its slots.
ghost use Rattle.std.specs.Prelude.{◌≡◌, ◌≤◌, ◌<◌, ◌+◌, ℕ, List, ◌++◌, [], length, take, true, None, IfOk, IfSome};
ghost use Rattle.slb_image.specs.Faults.{image_fault};
ghost use Rattle.machine_memory.specs.Contents.{IsMemory};
ghost use Rattle.slb_core.specs.JobInputs.{job_inputs, may_have};
ghost use Rattle.slb_core.specs.Jobs.{runs_code, HasBlob};
ghost use Rattle.session_driver.specs.Answers.{no_outputs};
ghost use Rattle.job_store.specs.Commands.{MayReply};
ghost use Rattle.job_engine.specs.Jobs.{IsJobImage};
ghost use Rattle.job_engine.specs.Calls.{and_then, told_in, opens_told, reads, writes, syncs, keeps, looks, second_told, finds};
ghost use Rattle.job_engine.specs.Answers.{Ran, SessionAnswers, SessionDid, counted_in, blob_in, blob_if, board_alone, standing_in};
ghost use Rattle.job_engine.specs.Answers.{outputs_seen_by, outputs_seen, opens_seen};

use crate::ends::JobEnd;
use byteorder::{BigEndian, ByteOrder};
use job_store::{Disk, JOBS, LONGEST_BLOB, SLOT_LEN, SlotFault, Slots};
use late_launch::{Board, Dark, End, JobRefusal};
use machine_memory::{Dma, frame_law};
use session_driver::{SessionEnd, session};
use slb_core::Mode;
use std::alloc::Global;

/// The most bytes that inputs or outputs of a session may have.
pub(crate) const PAGE_SIZE: usize = 4096;

/// How many bytes of a session's inputs stand before the blob.
const HEAD_LEN: usize = 3;

/// Where a call ends before all of it is done.
pub(crate) enum Exit {
    /// The power was lost.
    Dark(Dark),
    /// It ended so.
    Ended(Board, JobEnd),
}

/// The slot of a job that opens, and how many bytes its blob has.
#[derive(Clone, Copy)]
pub(crate) struct SlotFound {
    pub(crate) slot: u32,
    pub(crate) len: usize,
}

/// Puts bytes after so many first ones of a page, and answers how many these are then.
fn append(page: &mut [u8; PAGE_SIZE], at: usize, piece: &[u8]) -> usize
    requires { at + length piece.now ≤ 4096 }
    ensures size { result ≡ at + length piece.now }
    ensures front { take result page.new ≡ take at page.old ++ piece.now }
{
    let end = at + piece.len();
    page[at..end].copy_from_slice(piece);
    end
}

/// Puts the inputs of a session in a mode into a page, and answers how many bytes they are.
fn put_inputs(mode: Mode, blob: &[u8], own: &[u8], page: &mut [u8; PAGE_SIZE]) -> usize
    requires { 3 + (length blob.now + length own.now) ≤ 4096 }
    ensures size { result ≡ 3 + (length blob.now + length own.now) }
    ensures inputs { take result page.new
        ≡ job_inputs (record { mode = mode; blob = blob.now; own = own.now }) }
{
    let mut head = [mode as u8; HEAD_LEN];
    BigEndian::write_u16(&mut head[1..], blob.len() as u16);
    let size = append(page, 0, &head);
    let size = append(page, size, blob);
    append(page, size, own)
}

/// A session of a job's image in a mode, with a nonce of zeros, while no device write is armed.
fn run_mode(
    alloc: Global,
    board: Board,
    image: &[u8],
    mode: Mode,
    blob: &[u8],
    own: &[u8],
    out: &mut [u8; PAGE_SIZE],
) -> Result<(Board, SessionEnd), Dark>
    requires image { image_fault image.now ≡ None }
    requires blob { length blob.now < 65536 }
    requires own { length own.now ≤ 4096 }
    ensures { SessionAnswers image.now (job_inputs (record { mode = mode; blob = blob.now; own = own.now })) board
        result out.new }
{
    if HEAD_LEN + blob.len() + own.len() > PAGE_SIZE {
        return Ok((board, SessionEnd::LongInput));
    }
    let mut page = [0; PAGE_SIZE];
    let count = put_inputs(mode, blob, own, &mut page);
    return run_quietly(alloc, board, image, &page[..count], out);
}

/// A session of an image on these inputs, with a nonce of zeros, while no device write is armed.
fn run_quietly(
    alloc: Global,
    board: Board,
    image: &[u8],
    inputs: &[u8],
    out: &mut [u8; PAGE_SIZE],
) -> Result<(Board, SessionEnd), Dark>
    requires image { image_fault image.now ≡ None }
    requires short { length inputs.now ≤ 4096 }
    ensures { SessionAnswers image.now inputs.now board result out.new }
{
    board_law(&board);
    let mut dma = Dma::new(alloc);
    session(board, image, inputs, &[0; 20], &mut dma, out)
}

/// The law of frames, of a board's memory.
fn board_law(board: &Board)
    ensures { IsMemory board.now.memory }
{
    frame_law(&board.memory)
}

/// How many bytes of outputs a session left that ended so, in this mode; else how the call ends.
fn outputs_told(mode: Mode, end: SessionEnd) -> Result<u16, JobEnd>
    ensures { result ≡ outputs_seen mode end }
{
    match end {
        SessionEnd::Ended { end, turns: _ } => outputs_by(mode, end),
        SessionEnd::NoPlace => Err(JobEnd::NoPlace),
        SessionEnd::NoMemory => Err(JobEnd::NoMemory),
        SessionEnd::LongInput => Err(JobEnd::LongInput),
        // A job's image is one.
        SessionEnd::BadImage(_) => Err(JobEnd::BadImage),
    }
}

fn outputs_by(mode: Mode, end: End) -> Result<u16, JobEnd>
    ensures { result ≡ outputs_seen_by mode end }
{
    match (mode, end) {
        (_, End::Done(count)) => Ok(count),
        (Mode::New, End::Refused(JobRefusal::NoCounterLeft)) => Err(JobEnd::NoCounterLeft),
        (_, end) => Err(JobEnd::Ended(end.byte())),
    }
}

/// The outputs of a session in a mode, in the first bytes of a page: how many they are.
pub(crate) fn outputs_in(
    alloc: Global,
    board: Board,
    image: &[u8],
    mode: Mode,
    blob: &[u8],
    own: &[u8],
    page: &mut [u8; PAGE_SIZE],
) -> Result<(Board, u16), Exit>
    requires image { IsJobImage image.now }
    requires blob { may_have mode (length blob.now) ≡ true }
    requires short { length blob.now < 65536 }
    requires own { length own.now ≤ 4096 }
    ensures did { SessionDid (told_in mode) image.now (job_inputs (record { mode = mode; blob = blob.now; own = own.now }))
        board (counted_in page.new result) }
    ensures kept { runs_code mode ≡ true → IfOk result (λ both. HasBlob (take both.1 page.new)) }
    ensures short { IfOk result (λ both. both.1 ≤ 4096) }
{
    match run_mode(alloc, board, image, mode, blob, own, page) {
        Err(dark) => return Err(Exit::Dark(dark)),
        Ok(both) => {
            let (board, end) = both;
            match outputs_told(mode, end) {
                Ok(count) => return Ok((board, count)),
                Err(end) => return Err(Exit::Ended(board, end)),
            }
        }
    }
}

/// Whether a session ended so that a blob opens for it.
fn opens_told(end: SessionEnd) -> Result<bool, JobEnd>
    ensures { result ≡ opens_seen end }
{
    match end {
        SessionEnd::Ended { end, turns: _ } => Ok(matches!(end, End::Done(_))),
        SessionEnd::LongInput => Ok(false),
        SessionEnd::NoPlace => Err(JobEnd::NoPlace),
        SessionEnd::NoMemory => Err(JobEnd::NoMemory),
        // A job's image is one.
        SessionEnd::BadImage(_) => Err(JobEnd::BadImage),
    }
}

/// Whether a blob opens: its probe is done.
fn opens(alloc: Global, board: Board, image: &[u8], blob: &[u8]) -> Result<(Board, bool), Exit>
    requires image { image_fault image.now ≡ None }
    requires short { length blob.now < 65536 }
    ensures { SessionDid (opens_told blob.now) image.now
        (job_inputs (record { mode = Mode.Probe; blob = blob.now; own = [] })) board (blob_if blob.now result) }
{
    let mut page = [0; PAGE_SIZE];
    match run_mode(alloc, board, image, Mode::Probe, blob, &[], &mut page) {
        Err(dark) => return Err(Exit::Dark(dark)),
        Ok(both) => {
            let (board, end) = both;
            match opens_told(end) {
                Ok(opens) => return Ok((board, opens)),
                Err(end) => return Err(Exit::Ended(board, end)),
            }
        }
    }
}

/// Reads the blob of a slot into the first bytes of a buffer: how many they are, if it holds one.
fn read<D: Disk>(
    board: Board,
    disk: &mut D,
    j: u32,
    s: u32,
    blob: &mut [u8; SLOT_LEN],
) -> Result<(Board, Option<usize>), Exit>
    requires job { j < JOBS }
    requires slot { s < 2 }
    ensures ran { (image : List ℕ) → Ran (MayReply D.contents D.fault_count D.call_gives) image (reads j s) board disk.old
        disk.new (blob_in blob.new result) }
    ensures short { IfOk result (λ both. IfSome both.1 (λ len. len ≤ LONGEST_BLOB)) }
{
    let mut board = board;
    match Slots::read(disk, j, s, blob, &mut board.fuse) {
        Ok(len) => return Ok((board, Some(len))),
        Err(SlotFault::NoBlob) => return Ok((board, None)),
        Err(SlotFault::DiskFault) => return Err(Exit::Ended(board, JobEnd::DiskFault)),
        Err(SlotFault::PowerLost) => return Err(Exit::Dark(board.fall())),
    }
}

/// Writes a blob to a slot.
fn write<D: Disk>(board: Board, disk: &mut D, j: u32, s: u32, blob: &[u8]) -> Result<Board, Exit>
    requires job { j < JOBS }
    requires slot { s < 2 }
    requires short { length blob.now ≤ LONGEST_BLOB }
    ensures { (image : List ℕ) → Ran (MayReply D.contents D.fault_count D.call_gives) image (writes j s blob.now) board
        disk.old disk.new (board_alone result) }
{
    let mut board = board;
    match Slots::write(disk, j, s, blob, &mut board.fuse) {
        Ok(()) => return Ok(board),
        Err(SlotFault::PowerLost) => return Err(Exit::Dark(board.fall())),
        Err(SlotFault::DiskFault) => return Err(Exit::Ended(board, JobEnd::DiskFault)),
        // A write finds no blob missing.
        Err(SlotFault::NoBlob) => unreachable!(),
    }
}

/// Syncs the disk.
fn sync<D: Disk>(board: Board, disk: &mut D) -> Result<Board, Exit>
    ensures { (image : List ℕ) → Ran (MayReply D.contents D.fault_count D.call_gives) image syncs board disk.old disk.new
        (board_alone result) }
{
    let mut board = board;
    match Slots::sync(disk, &mut board.fuse) {
        Ok(()) => return Ok(board),
        Err(SlotFault::PowerLost) => return Err(Exit::Dark(board.fall())),
        Err(SlotFault::DiskFault) => return Err(Exit::Ended(board, JobEnd::DiskFault)),
        // A sync finds no blob missing.
        Err(SlotFault::NoBlob) => unreachable!(),
    }
}

/// Writes a blob to a slot, and syncs the disk.
pub(crate) fn keep<D: Disk>(
    board: Board,
    disk: &mut D,
    j: u32,
    s: u32,
    blob: &[u8],
) -> Result<Board, Exit>
    requires job { j < JOBS }
    requires slot { s < 2 }
    requires short { length blob.now ≤ LONGEST_BLOB }
    ensures { (image : List ℕ) → Ran (MayReply D.contents D.fault_count D.call_gives) image (keeps j s blob.now) board
        disk.old disk.new (board_alone result) }
{
    match write(board, disk, j, s, blob) {
        Err(exit) => return Err(exit),
        Ok(board) => return sync(board, disk),
    }
}

/// The blob of a slot in the first bytes of a buffer, if it opens: how many they are.
fn look<D: Disk>(
    alloc: Global,
    board: Board,
    disk: &mut D,
    image: &[u8],
    j: u32,
    s: u32,
    blob: &mut [u8; SLOT_LEN],
) -> Result<(Board, Option<usize>), Exit>
    requires job { j < JOBS }
    requires slot { s < 2 }
    requires image { image_fault image.now ≡ None }
    ensures ran { Ran (MayReply D.contents D.fault_count D.call_gives) image.now (looks j s) board disk.old disk.new
        (blob_in blob.new result) }
    ensures short { IfOk result (λ both. IfSome both.1 (λ len. len ≤ LONGEST_BLOB)) }
{
    match read(board, disk, j, s, blob) {
        Err(exit) => return Err(exit),
        Ok(both) => {
            let (board, found) = both;
            match found {
                None => return Ok((board, None)),
                Some(len) => return look_at(alloc, board, image, blob, len),
            }
        }
    }
}

/// So many first bytes of a buffer, if they are a blob that opens: how many they are.
fn look_at(
    alloc: Global,
    board: Board,
    image: &[u8],
    blob: &[u8; SLOT_LEN],
    len: usize,
) -> Result<(Board, Option<usize>), Exit>
    requires image { image_fault image.now ≡ None }
    requires short { len ≤ LONGEST_BLOB }
    ensures did { SessionDid (opens_told (take len blob.now)) image.now
        (job_inputs (record { mode = Mode.Probe; blob = take len blob.now; own = [] })) board (blob_in blob.now result) }
    ensures short { IfOk result (λ both. IfSome both.1 (λ len. len ≤ LONGEST_BLOB)) }
{
    match opens(alloc, board, image, &blob[..len]) {
        Err(exit) => return Err(exit),
        Ok(both) => {
            let (board, opens) = both;
            if opens {
                return Ok((board, Some(len)));
            }
            return Ok((board, None));
        }
    }
}

/// Where a job stands: the slot that opens, with its blob in the first bytes of a buffer.
pub(crate) fn find<D: Disk>(
    alloc: Global,
    board: Board,
    disk: &mut D,
    image: &[u8],
    j: u32,
    blob: &mut [u8; SLOT_LEN],
) -> Result<(Board, SlotFound), Exit>
    requires job { j < JOBS }
    requires image { image_fault image.now ≡ None }
    ensures ran { Ran (MayReply D.contents D.fault_count D.call_gives) image.now (finds j) board disk.old disk.new
        (standing_in blob.new result) }
    ensures slot { IfOk result (λ both. both.1.slot < 2) }
    ensures short { IfOk result (λ both. both.1.len ≤ LONGEST_BLOB) }
{
    match look(alloc, board, disk, image, j, 0, blob) {
        Err(exit) => return Err(exit),
        Ok(both) => {
            let (board, found) = both;
            match found {
                Some(len) => return Ok((board, SlotFound { slot: 0, len })),
                None => return find_second(alloc, board, disk, image, j, blob),
            }
        }
    }
}

/// Slot 1, if it opens.
fn find_second<D: Disk>(
    alloc: Global,
    board: Board,
    disk: &mut D,
    image: &[u8],
    j: u32,
    blob: &mut [u8; SLOT_LEN],
) -> Result<(Board, SlotFound), Exit>
    requires job { j < JOBS }
    requires image { image_fault image.now ≡ None }
    ensures ran { Ran (MayReply D.contents D.fault_count D.call_gives) image.now (and_then (looks j 1) second_told) board
        disk.old disk.new (standing_in blob.new result) }
    ensures slot { IfOk result (λ both. both.1.slot < 2) }
    ensures short { IfOk result (λ both. both.1.len ≤ LONGEST_BLOB) }
{
    match look(alloc, board, disk, image, j, 1, blob) {
        Err(exit) => return Err(exit),
        Ok(both) => {
            let (board, found) = both;
            match found {
                Some(len) => return Ok((board, SlotFound { slot: 1, len })),
                None => return Err(Exit::Ended(board, JobEnd::Lost)),
            }
        }
    }
}
