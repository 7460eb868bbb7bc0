//! The session driver.
ghost use Rattle.std.specs.Prelude.{◌≡◌, ◌≤◌, ◌+◌, length, None, true, false};
ghost use Rattle.slb_image.specs.Faults.{image_fault};
ghost use Rattle.region_pool.specs.Places.{place};
ghost use Rattle.machine_memory.specs.Contents.{IsMemory, first_byte};
ghost use Rattle.machine_memory.specs.Writes.{part};
ghost use Rattle.machine_memory.specs.Spans.{with_bytes};
ghost use Rattle.machine_memory.specs.Areas.{IsArea};
ghost use Rattle.seal_device.specs.Digests.{on_device};
ghost use Rattle.late_launch.specs.Boards.{fused_device};
ghost use Rattle.late_launch.specs.Regions.{output_page, region_bytes};
ghost use Rattle.late_launch.specs.States.{has_image};
ghost use Rattle.slb_core.specs.Sessions.{CountsOutputs};
ghost use Rattle.session_driver.specs.Sessions.{area_frames, area_alignment};
ghost use Rattle.session_driver.specs.Filled.{filled, plan_at, answer_at};
ghost use Rattle.session_driver.specs.Resume.{HostFinds};
ghost use Rattle.session_driver.specs.Answers.{placed, course, answer_of, no_outputs, ended_leaves, LeavesBeside};
ghost use Rattle.session_driver.specs.Answers.{is_out_of_memory, OutOfMemory};

use late_launch::{Board, Dark, End, LaunchEnd};
use machine_memory::{Dma, Memory, NotTaken, REGION_FRAMES, TakeFault, frame_law};
use region_pool::{Purpose, Ticket};
use slb_core::serve;
use slb_image::{ImageFault, view};

/// How many frames an area has: the region, the input page and the output page.
const AREA_FRAMES: u32 = 18;

/// An area's first frame is a multiple of this.
const AREA_ALIGNMENT: u32 = 16;

/// The most bytes that inputs or outputs may have.
const PAGE_SIZE: usize = 4096;

/// How a session ended, or why none was begun.
pub enum SessionEnd {
    /// It ended so, after so many turns.
    Ended { end: End, turns: u32 },
    /// No area is free.
    NoPlace,
    /// There is no memory for the area's bytes.
    NoMemory,
    /// The bytes are no image.
    BadImage(ImageFault),
    /// There are more than 4,096 bytes of inputs.
    LongInput,
}

/// The address of a page of an area, by its number.
fn page_at(memory: &Memory, area: &Ticket, number: u32) -> u32
    requires placed { IsArea memory.now.marks area.now }
    requires small { number ≤ 17 }
    ensures { result ≡ first_byte (area.now.first + number) }
{
    frame_law(memory);
    PAGE_SIZE as u32 * (area.first() + number)
}

/// The law of frames, of a board's memory.
fn board_law(board: &Board)
    ensures { IsMemory board.now.memory }
{
    frame_law(&board.memory);
}

/// Writes bytes from the beginning of a page of the area.
fn put(memory: &mut Memory, area: &Ticket, number: u32, bytes: &[u8])
    requires placed { IsArea memory.old.marks area.now }
    requires small { number ≤ 17 }
    requires fits { first_byte number + length bytes.now ≤ first_byte 18 }
    ensures { memory.new ≡ with_bytes memory.old (first_byte (area.now.first + number)) bytes.now }
{
    let at = page_at(memory, area, number);
    if let Err(NotTaken) = memory.host_write(at, bytes) {
        unreachable!();
    }
}

/// Puts an image to the beginning of the area, and inputs to that of its input page.
fn fill(memory: &mut Memory, area: &Ticket, image: &[u8], inputs: &[u8])
    requires placed { IsArea memory.old.marks area.now }
    requires image { length image.now ≤ 49152 }
    requires inputs { length inputs.now ≤ 4096 }
    ensures { memory.new ≡ filled memory.old area.now image.now inputs.now }
{
    put(memory, area, 0, image);
    put(memory, area, REGION_FRAMES, inputs);
}

/// Copies the output page.
fn read_outputs(memory: &Memory, area: &Ticket, out: &mut [u8; PAGE_SIZE])
    requires { IsArea memory.now.marks area.now }
    ensures { out.new ≡ part memory.now.bytes (output_page area.now) 4096 }
{
    let at = page_at(memory, area, REGION_FRAMES + 1);
    if let Err(NotTaken) = memory.host_read(at, out) {
        unreachable!();
    }
}

/// Launches what the area holds, runs it, and gives the area back wiped.
fn run_in(
    board: Board,
    area: Ticket,
    count: u16,
    nonce: &[u8; 20],
    dma: &mut Dma,
    out: &mut [u8; PAGE_SIZE],
) -> Result<(Board, SessionEnd), Dark>
    requires placed { IsArea board.memory.marks area }
    requires image { has_image (region_bytes board.memory area) ≡ true }
    requires few { count ≤ 4096 }
    requires blank { out.old ≡ no_outputs }
    ensures answer { result ≡ answer_at board area
        (on_device (plan_at board.memory area count nonce.now dma.old) (fused_device board)) }
    ensures beside { ended_leaves
        (on_device (plan_at board.memory area count nonce.now dma.old) (fused_device board)) dma.new out.new }
    ensures outputs { CountsOutputs
        (on_device (plan_at board.memory area count nonce.now dma.old) (fused_device board)) }
{
    let launched = match board.suspend(area).launch() {
        Err(LaunchEnd::PowerLost(dark)) => return Err(dark),
        Err(LaunchEnd::NotImage(_host)) => unreachable!(),
        Ok(launched) => launched,
    };
    match serve(launched, count, nonce, dma) {
        Err(dark) => return Err(dark),
        Ok(closed) => {
            let end = closed.end();
            let turns = closed.turns();
            let (mut board, area) = closed.resume();
            frame_law(&board.memory);
            read_outputs(&board.memory, &area, out);
            board.memory.give_wiped(area);
            return Ok((board, SessionEnd::Ended { end, turns }));
        }
    }
}

/// Takes an area, puts image and inputs into it, and runs the session there.
fn run(
    board: Board,
    image: &[u8],
    inputs: &[u8],
    nonce: &[u8; 20],
    dma: &mut Dma,
    out: &mut [u8; PAGE_SIZE],
) -> Result<(Board, SessionEnd), Dark>
    requires image { image_fault image.now ≡ None }
    requires short { length inputs.now ≤ 4096 }
    requires blank { out.old ≡ no_outputs }
    ensures answer { is_out_of_memory result ≡ false
        → result ≡ answer_of board image.now inputs.now nonce.now dma.old
        (placed (place board.memory.marks area_frames area_alignment)) }
    ensures beside { is_out_of_memory result ≡ false
        → LeavesBeside board image.now inputs.now nonce.now dma.old
        (placed (place board.memory.marks area_frames area_alignment)) dma.new out.new }
    ensures memory { is_out_of_memory result ≡ true
        → OutOfMemory board dma.old (placed (place board.memory.marks area_frames area_alignment)) result dma.new out.new }
{
    let mut board = board;
    frame_law(&board.memory);
    match board
        .memory
        .take(AREA_FRAMES, AREA_ALIGNMENT, Purpose::Launch)
    {
        Err(TakeFault::NoRoom) => return Ok((board, SessionEnd::NoPlace)),
        Err(TakeFault::NoMemory) => return Ok((board, SessionEnd::NoMemory)),
        Ok(area) => {
            fill(&mut board.memory, &area, image, inputs);
            return run_in(board, area, inputs.len() as u16, nonce, dma, out);
        }
    }
}

/// One session of an image with these inputs and this nonce. The outputs come to `out`, and zeros after them; it is
/// all zero where the session does not end, or was not begun. A refusal leaves the board and the armed writes, and so
/// does running out of memory, which may be answered in place of a session that would run. After
/// a session that ended, however it did, the host finds its registers as they were, and its memory, but for what the
/// devices wrote that were permitted to.
///
/// # Errors
///
/// Where the power was lost in the session.
pub fn session(
    board: Board,
    image: &[u8],
    inputs: &[u8],
    nonce: &[u8; 20],
    dma: &mut Dma,
    out: &mut [u8; PAGE_SIZE],
) -> Result<(Board, SessionEnd), Dark>
    ensures answer { is_out_of_memory result ≡ false
        → result ≡ answer_of board image.now inputs.now nonce.now dma.old
        (course board.memory.marks image.now inputs.now) }
    ensures beside { is_out_of_memory result ≡ false
        → LeavesBeside board image.now inputs.now nonce.now dma.old
        (course board.memory.marks image.now inputs.now) dma.new out.new }
    ensures memory { is_out_of_memory result ≡ true
        → OutOfMemory board dma.old (course board.memory.marks image.now inputs.now) result dma.new out.new }
    ensures resume { HostFinds board dma.old result dma.new }
{
    board_law(&board);
    *out = [0; PAGE_SIZE];
    if let Err(fault) = view(image) {
        return Ok((board, SessionEnd::BadImage(fault)));
    }
    if inputs.len() > PAGE_SIZE {
        return Ok((board, SessionEnd::LongInput));
    }
    return run(board, image, inputs, nonce, dma, out);
}
